//! The queue of one host: its outstanding commands in the order in which it sent them.
#![tactic(auto)]

mod causes;
mod command;
mod queue;

pub use causes::{SendCause, TakeCause};
pub use command::{Outstanding, Queued, Stage};
pub use queue::Queue;
