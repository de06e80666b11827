//! Byte swaps.
ghost use Rattle.std.specs.Prelude.{◌≡◌, ◌<◌, ◌^◌, ◌%◌, ◌/◌};
ghost use Rattle.bpf_isa.specs.Width.{bits_of};
ghost use Rattle.bpf_model.specs.Value.{swapped, bytes_reversed};

use crate::low::{low16, low32};
use bpf_isa::{SwapOp, Width};

/// What a byte swap of the low `bits` of `a` gives, on a machine whose own order is little-endian
/// (RFC 9669, section 4.2).
///
/// The bits above are zero.
#[inline(always)]
pub fn byte_swap(op: SwapOp, bits: Width, a: u64) -> u64
    ensures value { result ≡ swapped op bits a }
    ensures upper_bits_zero { result < 2 ^ bits_of bits }
{
    match op {
        SwapOp::ToLittle => cut(bits, a),
        SwapOp::ToBig | SwapOp::Swap => reversed(bits, a),
    }
}

#[inline(always)]
fn cut(bits: Width, a: u64) -> u64
    ensures { result ≡ a % 2 ^ bits_of bits }
{
    match bits {
        Width::Bits16 => u64::from(low16(a)),
        Width::Bits32 => u64::from(low32(a)),
        Width::Bits64 => a,
    }
}

#[inline(always)]
fn reversed(bits: Width, a: u64) -> u64
    ensures value { result ≡ bytes_reversed (bits_of bits / 8) a }
    ensures upper_bits_zero { result < 2 ^ bits_of bits }
{
    match bits {
        Width::Bits16 => u64::from(low16(a).swap_bytes()),
        Width::Bits32 => u64::from(low32(a).swap_bytes()),
        Width::Bits64 => a.swap_bytes(),
    }
}
