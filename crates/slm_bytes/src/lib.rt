//! The bytes of the namespaces as flat lists, and the checks of byte ranges.
#![tactic(auto)]

mod flat;
mod ranges;

pub use flat::Flat;
pub use ranges::bytes_to_range;
