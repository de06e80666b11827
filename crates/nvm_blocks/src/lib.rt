//! Which bytes of an NVM namespace a command means that counts in blocks.
#![tactic(auto)]

mod ranges;

pub use ranges::{blocks_to_range, write_to_range};
