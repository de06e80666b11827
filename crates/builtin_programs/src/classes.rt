// Which bytes lie in a class.
ghost use Rattle.std.specs.Prelude.{◌≡◌, ◌+◌, ◌≤◌, [], ◌∷◌, length, sum};
ghost use Rattle.std.specs.Simd.Lanes.{chunk, put_chunk};
ghost use Rattle.device_model.specs.Builtin.{marks_of};

use crate::LANES;
use std::simd::prelude::*;

/// Puts 1 into `into` at each place where the byte of `from` lies in the class, which goes from `low` to `high`, and 0
/// at each other place. Answers how many lie in the class.
pub fn mark_class(from: &[u8], into: &mut [u8], low: u8, high: u8) -> u64
    requires { length from.now ≡ length into.old }
    ensures marks { into.new ≡ marks_of low high from.now }
    ensures number { result ≡ sum (marks_of low high from.now) }
{
    let mut marked = 0u64;
    let mut at = 0usize;
    while from.len() - at >= LANES {
        marked += u64::from(mark_in_lanes(from, into, at, low, high));
        at += LANES;
    }
    for i in at..from.len() {
        let mark = mark_of(from[i], low, high);
        into[i] = mark;
        marked += u64::from(mark);
    }
    marked
}

// The mark of a byte.
fn mark_of(byte: u8, low: u8, high: u8) -> u8
    ensures mark { marks_of low high (byte ∷ []) ≡ result ∷ [] }
    ensures small { result ≤ 1 }
{
    if low <= byte && byte <= high { 1 } else { 0 }
}

// Marks the 64 bytes from a place on, and answers how many of them lie in the class.
#[inline(always)]
fn mark_in_lanes(from: &[u8], into: &mut [u8], at: usize, low: u8, high: u8) -> u32
    requires source { at + LANES ≤ length from.now }
    requires target { length from.now ≡ length into.old }
    ensures marks { into.new ≡ put_chunk at into.old (marks_of low high (chunk at LANES from.now)) }
    ensures number { result ≡ sum (marks_of low high (chunk at LANES from.now)) }
{
    let bytes = u8x64::from_slice(&from[at..]);
    let none = u8x64::splat(0);
    let reaches_low = bytes
        .simd_ge(u8x64::splat(low))
        .select(u8x64::splat(1), none);
    let marks = bytes.simd_le(u8x64::splat(high)).select(reaches_low, none);
    marks.copy_to_slice(&mut into[at..]);
    marks.simd_eq(u8x64::splat(1)).to_bitmask().count_ones()
}
