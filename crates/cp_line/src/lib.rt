//! The words of the command line: what they order, and that no others do.
#![tactic(auto)]

mod laws;
mod limits;
mod order;

pub use laws::{order_laws, orders_by_example};
pub use limits::MAX_MADE;
pub use order::{Order, read_words};
