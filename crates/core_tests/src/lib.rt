//! Worked tests of the parts of the core, and of the device that carries out one command after the other.
//! They stand apart from the crates that they test, since a crate with tests is proved twice.
#![tactic(auto)]

#[cfg(test)]
mod claims;
#[cfg(test)]
mod exchanges;
#[cfg(test)]
mod sequential;
