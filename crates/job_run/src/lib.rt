//! The work of a claimed command: what it does to the bytes that it carries, with no lock held and no memory taken.
#![tactic(auto)]

mod copies;
mod own;
mod pieces;
mod programs;
#[cfg(test)]
mod tests;
mod windows;
mod work;

pub use work::{Work, Worked};
