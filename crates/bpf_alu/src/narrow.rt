//! Arithmetic and comparisons of 32 bits.
ghost use Rattle.std.specs.Prelude.{◌≡◌, ◌<◌, ◌^◌};
ghost use Rattle.bpf_model.specs.Value.{value_of, computed, sign_extended, compares, compared};

use crate::low::low32;
use bpf_isa::{AluOp, JumpOp};

/// What an arithmetic operation of 32 bits gives, for the destination `a` and the operand `b`
/// (RFC 9669, section 4.1).
///
/// The low 32 bits of both are read, and the upper 32 bits of the result are zero. A move takes its
/// source as `b`, and a negation does not read `b`.
#[inline(always)]
pub fn alu32(op: AluOp, a: u64, b: u64) -> u64
    ensures value { result ≡ value_of op 32 a b }
    ensures upper_bits_zero { result < 2 ^ 32 }
{
    u64::from(computed32(op, low32(a), low32(b)))
}

#[inline(always)]
fn computed32(op: AluOp, a: u32, b: u32) -> u32
    ensures { result ≡ computed op 32 a b }
{
    match op {
        AluOp::Add => a.wrapping_add(b),
        AluOp::Sub => a.wrapping_sub(b),
        AluOp::Mul => a.wrapping_mul(b),
        AluOp::Div => a.checked_div(b).unwrap_or(0),
        AluOp::Sdiv => signed_quotient(a, b),
        AluOp::Mod => a.checked_rem(b).unwrap_or(a),
        AluOp::Smod => signed_remainder(a, b),
        AluOp::Or => a | b,
        AluOp::And => a & b,
        AluOp::Xor => a ^ b,
        AluOp::Lsh => a.wrapping_shl(b),
        AluOp::Rsh => a.wrapping_shr(b),
        AluOp::Arsh => signed_shift(a, b),
        AluOp::Neg => negated(a),
        AluOp::Mov | AluOp::Movsx32 => b,
        AluOp::Movsx8 => sign_extended8(b),
        AluOp::Movsx16 => sign_extended16(b),
    }
}

#[inline(always)]
fn signed_quotient(a: u32, b: u32) -> u32
    ensures { result ≡ computed AluOp.Sdiv 32 a b }
{
    if b == 0 {
        0
    } else {
        a.cast_signed()
            .wrapping_div(b.cast_signed())
            .cast_unsigned()
    }
}

#[inline(always)]
fn signed_remainder(a: u32, b: u32) -> u32
    ensures { result ≡ computed AluOp.Smod 32 a b }
{
    if b == 0 {
        a
    } else {
        a.cast_signed()
            .wrapping_rem(b.cast_signed())
            .cast_unsigned()
    }
}

#[inline(always)]
fn signed_shift(a: u32, b: u32) -> u32
    ensures { result ≡ computed AluOp.Arsh 32 a b }
{
    a.cast_signed().wrapping_shr(b).cast_unsigned()
}

#[inline(always)]
fn negated(a: u32) -> u32
    ensures { result ≡ computed AluOp.Neg 32 a 0 }
{
    a.wrapping_neg()
}

#[inline(always)]
fn sign_extended8(b: u32) -> u32
    ensures { result ≡ sign_extended 8 32 b }
{
    i32::from(((b % 0x100) as u8).cast_signed()).cast_unsigned()
}

#[inline(always)]
fn sign_extended16(b: u32) -> u32
    ensures { result ≡ sign_extended 16 32 b }
{
    i32::from(((b % 0x1_0000) as u16).cast_signed()).cast_unsigned()
}

/// Whether a comparison of 32 bits holds, of the low 32 bits of the destination `a` and the operand `b`
/// (RFC 9669, section 4.3).
#[inline(always)]
pub fn holds32(op: JumpOp, a: u64, b: u64) -> bool
    ensures { result ≡ compares op 32 a b }
{
    compared32(op, low32(a), low32(b))
}

#[inline(always)]
fn compared32(op: JumpOp, a: u32, b: u32) -> bool
    ensures { result ≡ compared op 32 a b }
{
    match op {
        JumpOp::Jeq => a == b,
        JumpOp::Jgt => a > b,
        JumpOp::Jge => a >= b,
        JumpOp::Jset => a & b != 0,
        JumpOp::Jne => a != b,
        JumpOp::Jsgt => a.cast_signed() > b.cast_signed(),
        JumpOp::Jsge => a.cast_signed() >= b.cast_signed(),
        JumpOp::Jlt => a < b,
        JumpOp::Jle => a <= b,
        JumpOp::Jslt => a.cast_signed() < b.cast_signed(),
        JumpOp::Jsle => a.cast_signed() <= b.cast_signed(),
    }
}
