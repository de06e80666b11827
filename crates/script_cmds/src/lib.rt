//! Scripts of hosts: what a script says, and its one text, read and printed.
#![tactic(auto)]

mod draft;
mod examples;
mod fault;
mod form;
mod item;
mod laws;
mod limits;
mod parsing;
mod printing;
mod progress;
mod script;

pub use examples::faults_by_example;
pub use fault::{ParseEnd, ScriptFault};
pub use form::Form;
pub use item::{HostPart, Item, Phase, Show};
pub use laws::{limit_laws, script_laws};
pub use parsing::parse;
pub use printing::print;
pub use progress::{Progress, Stage};
pub use script::Script;

#[cfg(test)]
mod tests;
