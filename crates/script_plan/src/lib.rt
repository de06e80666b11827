//! The plan of a script: what every driver carries out, or the first line that breaks a rule of queues.
#![tactic(auto)]

mod answer;
mod count;
mod laws;
mod outstanding;
mod planning;
mod queues;
#[cfg(test)]
mod tests;

pub use answer::{Plan, PlanCause, PlanEnd, PlanFault};
pub use laws::{lines_tell_the_fault, scripts_have_sized_histories};
pub use planning::plan;
