//! The device's own programs as kernels over vectors of 64 bytes, with a plain loop for the bytes behind the last whole
//! vector. None takes memory.
#![tactic(auto)]

mod classes;
mod counts;
mod differences;
mod sums;

pub use classes::mark_class;
pub use counts::count_byte;
pub use differences::first_difference;
pub use sums::{MAX_SUMMED, sum_bytes};

// How many bytes are looked at together.
const LANES: usize = 64;
