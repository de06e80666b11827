//! What a command touches: the bytes that it reads and those that it may write, and what an execution holds.
#![tactic(auto)]

mod checked;
mod regions;
#[cfg(test)]
mod tests;
mod touched;

pub use checked::check_touched;
pub use touched::{Touched, footprint};
