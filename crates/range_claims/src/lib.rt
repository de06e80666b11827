//! The footprints of the commands that are carried out, and whether another one may begin beside them.
#![tactic(auto)]

mod claims;
mod places;
mod runs;
mod search;
mod segments;
mod steps;

pub use claims::{Claim, Claims};
pub use steps::Steps;
