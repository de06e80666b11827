// Where bytes first differ.
ghost use Rattle.std.specs.Prelude.{◌≡◌, ◌↔◌, ◌+◌, ◌≤◌, ◌==◌, length, None};
ghost use Rattle.std.specs.List.{common_prefix_len};
ghost use Rattle.std.specs.Simd.Lanes.{chunk};
ghost use Rattle.device_model.specs.Builtin.{first_difference};

use crate::LANES;
use std::simd::prelude::*;

/// The least place at which two equally long lists of bytes differ. `None` exactly where they are equal.
pub fn first_difference(a: &[u8], b: &[u8]) -> Option<u64>
    requires { length a.now ≡ length b.now }
    ensures place { result ≡ first_difference a.now b.now }
    ensures equal { (result ≡ None) ↔ (a.now ≡ b.now) }
{
    let same = same_from_start(a, b);
    if same < a.len() {
        Some(same as u64)
    } else {
        None
    }
}

// How many bytes are the same before the first that differ.
fn same_from_start(a: &[u8], b: &[u8]) -> usize
    requires { length a.now ≡ length b.now }
    ensures { result ≡ common_prefix_len (λ x y. x == y) a.now b.now }
{
    let mut at = 0usize;
    while a.len() - at >= LANES {
        let same = same_in_lanes(a, b, at);
        if same < LANES {
            return at + same;
        }
        at += LANES;
    }
    at + same_plainly(&a[at..], &b[at..])
}

// How many bytes are the same before the first that differ, one by one.
fn same_plainly(a: &[u8], b: &[u8]) -> usize
    requires { length a.now ≡ length b.now }
    ensures { result ≡ common_prefix_len (λ x y. x == y) a.now b.now }
{
    for i in 0..a.len() {
        if a[i] != b[i] {
            return i;
        }
    }
    a.len()
}

// How many of the 64 bytes from a place on are the same before the first that differ.
#[inline(always)]
fn same_in_lanes(a: &[u8], b: &[u8], at: usize) -> usize
    requires inside { at + LANES ≤ length a.now }
    requires equal_lengths { length a.now ≡ length b.now }
    ensures { result ≡ common_prefix_len (λ x y. x == y) (chunk at LANES a.now) (chunk at LANES b.now) }
{
    let differing = u8x64::from_slice(&a[at..])
        .simd_ne(u8x64::from_slice(&b[at..]))
        .to_bitmask();
    if differing == 0 {
        LANES
    } else {
        differing.trailing_zeros() as usize
    }
}
