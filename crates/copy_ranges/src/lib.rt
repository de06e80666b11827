//! Which bytes a copy reads, and where it puts them.
#![tactic(auto)]

mod plan;
mod sources;
mod wide;

pub use plan::{CopyPlan, check_copy};
