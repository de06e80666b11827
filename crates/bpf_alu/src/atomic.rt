//! Atomic operations.
ghost use Rattle.std.specs.Prelude.{◌≡◌, ◌<◌, ◌^◌, ◌*◌, IsTrue};
ghost use Rattle.bpf_isa.specs.Size.{byte_count};
ghost use Rattle.bpf_model.specs.Value.{stored_by, combined, is_atomic};

use crate::low::low32;
use bpf_isa::{AtomicOp, Size};

/// What memory of 4 or 8 bytes holds after an atomic operation: `old` is what it held, `source` the
/// source register and `r0` the register R0, which a compare and exchange compares with `old`
/// (RFC 9669, section 5.3).
///
/// At 4 bytes the low 32 bits of `source` and `r0` are read.
#[inline(always)]
pub fn atomic_new(op: AtomicOp, size: Size, old: u64, source: u64, r0: u64) -> u64
    requires atomic_size { IsTrue (is_atomic size) }
    requires old_fits { old < 2 ^ (8 * byte_count size) }
    ensures value { result ≡ stored_by op size old source r0 }
    ensures fits { result < 2 ^ (8 * byte_count size) }
{
    match size {
        Size::D => combined64(op, old, source, r0),
        Size::W => u64::from(combined32(op, low32(old), low32(source), low32(r0))),
        Size::B | Size::H => unreachable!(),
    }
}

#[inline(always)]
fn combined64(op: AtomicOp, old: u64, source: u64, r0: u64) -> u64
    ensures { result ≡ combined op 64 old source r0 }
{
    match op {
        AtomicOp::Add => old.wrapping_add(source),
        AtomicOp::Or => old | source,
        AtomicOp::And => old & source,
        AtomicOp::Xor => old ^ source,
        AtomicOp::Xchg => source,
        AtomicOp::Cmpxchg => exchanged64(old, source, r0),
    }
}

#[inline(always)]
fn exchanged64(old: u64, source: u64, r0: u64) -> u64
    ensures { result ≡ combined AtomicOp.Cmpxchg 64 old source r0 }
{
    if old == r0 { source } else { old }
}

#[inline(always)]
fn combined32(op: AtomicOp, old: u32, source: u32, r0: u32) -> u32
    ensures { result ≡ combined op 32 old source r0 }
{
    match op {
        AtomicOp::Add => old.wrapping_add(source),
        AtomicOp::Or => old | source,
        AtomicOp::And => old & source,
        AtomicOp::Xor => old ^ source,
        AtomicOp::Xchg => source,
        AtomicOp::Cmpxchg => exchanged32(old, source, r0),
    }
}

#[inline(always)]
fn exchanged32(old: u32, source: u32, r0: u32) -> u32
    ensures { result ≡ combined AtomicOp.Cmpxchg 32 old source r0 }
{
    if old == r0 { source } else { old }
}
