//! Histories as definitions: the plan of a script, which histories are legal for it, and what is printed.
#![tactic(auto)]

mod examples;
mod laws;

pub use examples::{
    aborts_by_example, faults_of_plans_by_example, histories_by_example, lines_by_example,
    plans_by_example,
};
pub use laws::{
    hosts_of_a_phase_differ, legal_histories_are_sized, none_is_withdrawn_without_an_abort,
    step_is_settled, text_tells_the_history,
};
