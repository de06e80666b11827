//! The interpreter of BPF programs (RFC 9669): it executes decoded code on the windows of a view, within a
//! budget of instructions, and takes no memory.
#![tactic(auto)]

mod access;
mod arithmetic;
mod calls;
mod execute;
mod jumps;
mod processor;
mod runs;

pub use bpf_isa::End;
pub use runs::run;
