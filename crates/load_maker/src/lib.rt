//! A load: the script that a seed and a number of commands give, with the words of SplitMix64.
#![tactic(auto)]

mod command;
mod laws;
#[cfg(test)]
mod tests;
mod writing;

pub use laws::load_laws;
pub use writing::make;
