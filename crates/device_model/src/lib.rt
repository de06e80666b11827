//! The device as definitions: its state, the checks and effects of each command, and the sequential device.
#![tactic(auto)]

mod examples;
mod laws;

pub use examples::{
    copies_by_example, device_programs_by_example, executions_by_example, sets_by_example,
    slots_by_example, writes_by_example,
};
pub use laws::answers_are_sized;
