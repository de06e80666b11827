//! Schedules as definitions: when the hosts of a trail did a plan, the history that such a trail tells, and the
//! schedule that a number selects.
#![tactic(auto)]

mod examples;
mod plans;
mod runs;
mod schedules;

pub use examples::schedules_by_example;
pub use plans::{plans_grow_by_a_phase, trails_tell_legal_histories};
pub use runs::schedules_go_on;
pub use schedules::{schedules_are_lawful, schedules_are_settled};
