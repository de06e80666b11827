//! Worked tests of programs: their instructions, codes, texts and executions, the slots that hold them, and those that the device has.
//! They stand apart from the crates that they test, since a crate with tests is proved twice.
#![tactic(auto)]

#[cfg(test)]
mod assembly;
#[cfg(test)]
mod codes;
#[cfg(test)]
mod executions;
#[cfg(test)]
mod kernels;
#[cfg(test)]
mod registers;
#[cfg(test)]
mod slots;
#[cfg(test)]
mod values;
#[cfg(test)]
mod views;
