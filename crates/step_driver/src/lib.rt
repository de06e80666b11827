//! The driver of the schedule: it carries out a plan on one device, turn by turn, as a number selects.
#![tactic(auto)]

mod part;
mod running;
mod steps;
mod turns;

pub use running::Held;
pub use steps::run_steps;
