//! The slots into which hosts load programs, piece by piece.
#![tactic(auto)]

mod changes;
mod checks;
mod pieces;
mod program;
mod slots;

pub use slots::Slots;
