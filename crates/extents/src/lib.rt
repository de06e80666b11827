//! The bytes of the namespaces, cut into extents: what a command carries away is moved out of them and leaves a hole.
#![tactic(auto)]

mod extents;
mod space;
mod tiles;

pub use extents::Extents;
