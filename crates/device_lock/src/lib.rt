//! The device behind a lock, for threads: each call is one turn, which adds one event to the trail or none, and a claimed command
//! is carried out while its party has no turn.
#![tactic(auto)]

mod answers;
mod jobs;
mod kept;
mod locked;
mod parties;
#[cfg(test)]
mod tests;
mod turns;

pub use answers::{Offer, Sent, Taken, TryOffer, TryTaken};
pub use jobs::{Done, Job};
pub use kept::Fixed;
pub use locked::Device;
pub use parties::{Pass, Passes};
