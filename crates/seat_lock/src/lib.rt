//! A lock with passes. The value behind it has a trail of entries that only grows.
//! A pass is what one party carries between its turns: what it has seen of the trail, which entries it made, and the tries that it lost.
#![tactic(auto)]

mod closing;
mod making;
mod meeting;
mod places;
mod plays;
#[cfg(test)]
mod tests;
mod trailed;
mod turns;
mod types;
mod value;

pub use trailed::Trailed;
pub use types::{About, Account, Held, LockRule, Pass, Passes, SeatLock, Turn, View};
