//! The core of the device, the state of one turn: it stands for its trail, to which each call adds one event or none.
#![tactic(auto)]

mod answers;
mod asked;
mod checks;
mod claiming;
mod device;
mod doing;
mod entries;
mod events;
mod fetching;
mod finishing;
mod keep;
mod picking;
mod portions;
mod preparing;
mod queues;
mod tables;
mod working;

pub use answers::{EntryRef, Picked};
pub use device::{Core, SubmitRefused};
pub use events::Event;
pub use working::run_leaves_what_a_claim_comes_to;
