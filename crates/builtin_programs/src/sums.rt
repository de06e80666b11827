// The sum of bytes.
ghost use Rattle.std.specs.Prelude.{◌≡◌, ◌+◌, ◌*◌, ◌≤◌, length, sum};
ghost use Rattle.std.specs.Simd.Lanes.{chunk};

use crate::LANES;
use cp_base::MAX_NAMESPACE;
use std::simd::prelude::*;

/// How many bytes are summed at most, those of the largest namespace: so every sum has 32 bits.
pub const MAX_SUMMED: u64 = MAX_NAMESPACE;

/// The sum of the bytes.
pub fn sum_bytes(bytes: &[u8]) -> u64
    requires { length bytes.now ≤ MAX_SUMMED }
    ensures { result ≡ sum bytes.now }
{
    let mut total = 0u64;
    let mut at = 0usize;
    while bytes.len() - at >= LANES {
        total += u64::from(sum_in_lanes(bytes, at));
        at += LANES;
    }
    total + sum_plainly(&bytes[at..])
}

// The sum of the bytes, one by one.
fn sum_plainly(bytes: &[u8]) -> u64
    requires { length bytes.now ≤ MAX_SUMMED }
    ensures { result ≡ sum bytes.now }
{
    let mut total = 0u64;
    for byte in bytes {
        total += u64::from(*byte);
    }
    total
}

// The sum of the 64 bytes from a place on. The processor sums bytes that are widened and summed at once.
#[inline(always)]
fn sum_in_lanes(bytes: &[u8], at: usize) -> u32
    requires { at + LANES ≤ length bytes.now }
    ensures { result ≡ sum (chunk at LANES bytes.now) }
{
    u8x64::from_slice(&bytes[at..])
        .cast::<u32>()
        .strict_reduce_sum()
}
