//! The decoder of the BPF profile, which turns code into one vector with an instruction at each start, so
//! that a jump costs the same in every program; and its inverse, which writes an instruction's bytes
//! (RFC 9669).
#![tactic(auto)]

mod access;
mod arithmetic;
mod decoder;
mod encoder;
mod instructions;
mod jumps;
mod units;

pub use decoder::{DecodeEnd, Decoded, decode};
pub use encoder::encode;
