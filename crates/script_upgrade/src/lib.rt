//! Scripts written as version 2, with the same meaning.
#![tactic(auto)]

#[cfg(test)]
mod tests;
mod upgrading;

pub use upgrading::upgrade;
