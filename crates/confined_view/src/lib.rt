//! The bytes that a program may touch, found by their address: the windows of its ranges, and its stack.
#![tactic(auto)]

mod numbers;
mod places;
mod view;
mod window;

pub use view::View;
pub use window::Window;
