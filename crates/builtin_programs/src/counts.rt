// How many bytes have a value.
ghost use Rattle.std.specs.Prelude.{◌≡◌, ◌+◌, ◌≤◌, ◌==◌, length, count_by};
ghost use Rattle.std.specs.Simd.Lanes.{chunk};

use crate::LANES;
use std::simd::prelude::*;

/// How many of the bytes have this value.
pub fn count_byte(bytes: &[u8], value: u8) -> u64
    ensures { result ≡ count_by (λ byte. byte == value) bytes.now }
{
    let mut counted = 0u64;
    let mut at = 0usize;
    while bytes.len() - at >= LANES {
        counted += u64::from(count_in_lanes(bytes, at, value));
        at += LANES;
    }
    counted + count_plainly(&bytes[at..], value)
}

// How many of the bytes have this value, one by one.
fn count_plainly(bytes: &[u8], value: u8) -> u64
    ensures { result ≡ count_by (λ byte. byte == value) bytes.now }
{
    let mut counted = 0u64;
    for byte in bytes {
        if *byte == value {
            counted += 1;
        }
    }
    counted
}

// How many of the 64 bytes from a place on have this value.
#[inline(always)]
fn count_in_lanes(bytes: &[u8], at: usize, value: u8) -> u32
    requires { at + LANES ≤ length bytes.now }
    ensures { result ≡ count_by (λ byte. byte == value) (chunk at LANES bytes.now) }
{
    u8x64::from_slice(&bytes[at..])
        .simd_eq(u8x64::splat(value))
        .to_bitmask()
        .count_ones()
}
