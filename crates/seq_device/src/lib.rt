//! The sequential device: it carries out commands one after the other, and is what every other driver is measured by.
#![tactic(auto)]

mod blocks;
mod builtins;
mod copies;
mod device;
mod execution;
mod laws;
mod loaded;
mod memory;
mod replies;
mod sets;
mod slots;
mod taking;

pub use device::SeqDevice;
pub use laws::steps_are_confined;
