//! Hosts and workers as threads of one device: what each of them does with its pass, a phase that all of them run, and
//! a plan, phase by phase.
#![tactic(auto)]

mod gates;
mod hosts;
mod patience;
mod phases;
mod plans;
mod serving;

pub use gates::{Gate, NoGate};
pub use hosts::host_loop;
pub use phases::run_phase;
pub use plans::run_plan;
pub use serving::work_loop;
