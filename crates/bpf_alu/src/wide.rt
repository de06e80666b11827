//! Arithmetic and comparisons of 64 bits.
ghost use Rattle.std.specs.Prelude.{◌≡◌, ◌%◌};
ghost use Rattle.bpf_model.specs.Value.{value_of, computed, sign_extended, compares, compared};

use crate::low::{low8, low16, low32};
use bpf_isa::{AluOp, JumpOp};

/// What an arithmetic operation of 64 bits gives, for the destination `a` and the operand `b`
/// (RFC 9669, section 4.1).
///
/// A move takes its source as `b`, and a negation does not read `b`.
#[inline(always)]
pub fn alu64(op: AluOp, a: u64, b: u64) -> u64
    ensures { result ≡ value_of op 64 a b }
{
    computed64(op, a, b)
}

#[inline(always)]
fn computed64(op: AluOp, a: u64, b: u64) -> u64
    ensures { result ≡ computed op 64 a b }
{
    match op {
        AluOp::Add => a.wrapping_add(b),
        AluOp::Sub => a.wrapping_sub(b),
        AluOp::Mul => a.wrapping_mul(b),
        AluOp::Div => a.checked_div(b).unwrap_or(0),
        AluOp::Sdiv => signed_quotient(a, b),
        AluOp::Mod => a.checked_rem(b).unwrap_or(a),
        AluOp::Smod => signed_remainder(a, b),
        AluOp::Or => a | b,
        AluOp::And => a & b,
        AluOp::Xor => a ^ b,
        AluOp::Lsh => a.wrapping_shl(shift_amount(b)),
        AluOp::Rsh => a.wrapping_shr(shift_amount(b)),
        AluOp::Arsh => signed_shift(a, b),
        AluOp::Neg => negated(a),
        AluOp::Mov => b,
        AluOp::Movsx8 => sign_extended8(b),
        AluOp::Movsx16 => sign_extended16(b),
        AluOp::Movsx32 => sign_extended32(b),
    }
}

#[inline(always)]
fn signed_quotient(a: u64, b: u64) -> u64
    ensures { result ≡ computed AluOp.Sdiv 64 a b }
{
    if b == 0 {
        0
    } else {
        a.cast_signed()
            .wrapping_div(b.cast_signed())
            .cast_unsigned()
    }
}

#[inline(always)]
fn signed_remainder(a: u64, b: u64) -> u64
    ensures { result ≡ computed AluOp.Smod 64 a b }
{
    if b == 0 {
        a
    } else {
        a.cast_signed()
            .wrapping_rem(b.cast_signed())
            .cast_unsigned()
    }
}

#[inline(always)]
fn shift_amount(b: u64) -> u32
    ensures { result ≡ b % 64 }
{
    (b % 64) as u32
}

#[inline(always)]
fn signed_shift(a: u64, b: u64) -> u64
    ensures { result ≡ computed AluOp.Arsh 64 a b }
{
    a.cast_signed()
        .wrapping_shr(shift_amount(b))
        .cast_unsigned()
}

#[inline(always)]
fn negated(a: u64) -> u64
    ensures { result ≡ computed AluOp.Neg 64 a 0 }
{
    a.wrapping_neg()
}

#[inline(always)]
fn sign_extended8(b: u64) -> u64
    ensures { result ≡ sign_extended 8 64 b }
{
    i64::from(low8(b).cast_signed()).cast_unsigned()
}

#[inline(always)]
fn sign_extended16(b: u64) -> u64
    ensures { result ≡ sign_extended 16 64 b }
{
    i64::from(low16(b).cast_signed()).cast_unsigned()
}

#[inline(always)]
fn sign_extended32(b: u64) -> u64
    ensures { result ≡ sign_extended 32 64 b }
{
    i64::from(low32(b).cast_signed()).cast_unsigned()
}

/// Whether a comparison of 64 bits holds, of the destination `a` and the operand `b`
/// (RFC 9669, section 4.3).
#[inline(always)]
pub fn holds64(op: JumpOp, a: u64, b: u64) -> bool
    ensures { result ≡ compares op 64 a b }
{
    compared64(op, a, b)
}

#[inline(always)]
fn compared64(op: JumpOp, a: u64, b: u64) -> bool
    ensures { result ≡ compared op 64 a b }
{
    match op {
        JumpOp::Jeq => a == b,
        JumpOp::Jgt => a > b,
        JumpOp::Jge => a >= b,
        JumpOp::Jset => a & b != 0,
        JumpOp::Jne => a != b,
        JumpOp::Jsgt => a.cast_signed() > b.cast_signed(),
        JumpOp::Jsge => a.cast_signed() >= b.cast_signed(),
        JumpOp::Jlt => a < b,
        JumpOp::Jle => a <= b,
        JumpOp::Jslt => a.cast_signed() < b.cast_signed(),
        JumpOp::Jsle => a.cast_signed() <= b.cast_signed(),
    }
}
