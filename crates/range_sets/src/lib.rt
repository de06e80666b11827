//! The sets of memory ranges that hosts make and programs are executed on.
#![tactic(auto)]

mod checks;
mod sets;

pub use sets::Sets;
