//! The forms of accesses to memory, classes 1 to 3 (RFC 9669, section 5), and of the load of 64 bits.
ghost use Rattle.std.specs.Prelude.{◌≡◌, ◌==◌, ◌&&◌};
ghost use Rattle.bpf_model.specs.Form as form;
ghost use Rattle.bpf_model.specs.Form.{row_insn, first_fit, named, class_of, mode_of};
ghost use Rattle.bpf_decode.specs.Groups.{access_rows};

use crate::units::{class, imm, mode, offset, read_fields, width, writable};
use bpf_isa::{AtomicOp, Insn, Reg, Size};
use bpf_model::Fields;

/// The access of a unit, if it has one of their forms.
pub(crate) fn access(f: &Fields) -> Option<Insn>
    ensures { result ≡ first_fit (access_rows f.now) }
{
    load(f)
        .or_else(|| load_signed(f))
        .or_else(|| store_imm(f))
        .or_else(|| store_reg(f))
        .or_else(|| atomic_plain(f))
        .or_else(|| atomic_fetch(f))
        .or_else(|| compare_exchange(f))
}

fn is_access(f: &Fields, class_wanted: u8, mode_wanted: u8) -> bool
    ensures { result ≡ (class_of f.now == class_wanted && mode_of f.now == mode_wanted) }
{
    class(f) == class_wanted && mode(f) == mode_wanted
}

/// How much an access reads or writes, by its width bits.
fn access_size(width: u8) -> Option<Size>
    ensures { result ≡ named form.access_widths width }
{
    match width {
        0 => Some(Size::W),
        1 => Some(Size::H),
        2 => Some(Size::B),
        3 => Some(Size::D),
        _ => None,
    }
}

/// The same of a load that sign-extends.
fn signed_size(width: u8) -> Option<Size>
    ensures { result ≡ named form.signed_widths width }
{
    match width {
        0 => Some(Size::W),
        1 => Some(Size::H),
        2 => Some(Size::B),
        _ => None,
    }
}

/// The same of an atomic operation.
fn atomic_size(width: u8) -> Option<Size>
    ensures { result ≡ named form.atomic_widths width }
{
    match width {
        0 => Some(Size::W),
        3 => Some(Size::D),
        _ => None,
    }
}

/// An atomic operation without FETCH, by the immediate.
fn plain_op(imm: u32) -> Option<AtomicOp>
    ensures { result ≡ named form.atomic_imms imm }
{
    match imm {
        0x00 => Some(AtomicOp::Add),
        0x40 => Some(AtomicOp::Or),
        0x50 => Some(AtomicOp::And),
        0xa0 => Some(AtomicOp::Xor),
        _ => None,
    }
}

/// An atomic operation with FETCH, by the immediate.
fn fetch_op(imm: u32) -> Option<AtomicOp>
    ensures { result ≡ named form.fetch_imms imm }
{
    match imm {
        0x01 => Some(AtomicOp::Add),
        0x41 => Some(AtomicOp::Or),
        0x51 => Some(AtomicOp::And),
        0xa1 => Some(AtomicOp::Xor),
        0xe1 => Some(AtomicOp::Xchg),
        _ => None,
    }
}

/// The load of 64 bits of a unit and the next one, of which `rest` has the bytes.
pub(crate) fn load_imm(f: &Fields, rest: &[u8]) -> Option<Insn>
    ensures { result ≡ row_insn (form.load_imm f.now (form.unit_fields rest.now)) }
{
    if !(f.opcode == 0x18 && f.src == 0 && f.offset == 0) {
        return None;
    }
    let second = read_fields(rest)?;
    if !(second.opcode == 0 && second.dst == 0 && second.src == 0 && second.offset == 0) {
        return None;
    }
    Some(Insn::LoadImm {
        dst: writable(f.dst)?,
        value: f.imm as u64 + (1 << 32) * second.imm as u64,
    })
}

/// LDX MEM.
fn load(f: &Fields) -> Option<Insn>
    ensures { result ≡ row_insn (form.load_plain f.now) }
{
    if !(is_access(f, 1, 3) && f.imm == 0) {
        return None;
    }
    Some(Insn::Load {
        size: access_size(width(f))?,
        dst: writable(f.dst)?,
        src: Reg::new(f.src)?,
        offset: offset(f),
    })
}

/// LDX MEMSX.
fn load_signed(f: &Fields) -> Option<Insn>
    ensures { result ≡ row_insn (form.load_signed f.now) }
{
    if !(is_access(f, 1, 4) && f.imm == 0) {
        return None;
    }
    Some(Insn::LoadSigned {
        size: signed_size(width(f))?,
        dst: writable(f.dst)?,
        src: Reg::new(f.src)?,
        offset: offset(f),
    })
}

/// ST MEM.
fn store_imm(f: &Fields) -> Option<Insn>
    ensures { result ≡ row_insn (form.store_imm f.now) }
{
    if !(is_access(f, 2, 3) && f.src == 0) {
        return None;
    }
    Some(Insn::StoreImm {
        size: access_size(width(f))?,
        dst: Reg::new(f.dst)?,
        offset: offset(f),
        imm: imm(f),
    })
}

/// STX MEM.
fn store_reg(f: &Fields) -> Option<Insn>
    ensures { result ≡ row_insn (form.store_reg f.now) }
{
    if !(is_access(f, 3, 3) && f.imm == 0) {
        return None;
    }
    Some(Insn::StoreReg {
        size: access_size(width(f))?,
        dst: Reg::new(f.dst)?,
        src: Reg::new(f.src)?,
        offset: offset(f),
    })
}

/// ATOMIC without FETCH.
fn atomic_plain(f: &Fields) -> Option<Insn>
    ensures { result ≡ row_insn (form.atomic_plain f.now) }
{
    if !is_access(f, 3, 6) {
        return None;
    }
    Some(Insn::Atomic {
        op: plain_op(f.imm)?,
        size: atomic_size(width(f))?,
        dst: Reg::new(f.dst)?,
        src: Reg::new(f.src)?,
        offset: offset(f),
    })
}

/// ATOMIC with FETCH, and XCHG.
fn atomic_fetch(f: &Fields) -> Option<Insn>
    ensures { result ≡ row_insn (form.atomic_fetch f.now) }
{
    if !is_access(f, 3, 6) {
        return None;
    }
    Some(Insn::AtomicFetch {
        op: fetch_op(f.imm)?,
        size: atomic_size(width(f))?,
        dst: Reg::new(f.dst)?,
        src: writable(f.src)?,
        offset: offset(f),
    })
}

/// CMPXCHG.
fn compare_exchange(f: &Fields) -> Option<Insn>
    ensures { result ≡ row_insn (form.compare_exchange f.now) }
{
    if !(is_access(f, 3, 6) && f.imm == 0xf1) {
        return None;
    }
    Some(Insn::CompareExchange {
        size: atomic_size(width(f))?,
        dst: Reg::new(f.dst)?,
        src: Reg::new(f.src)?,
        offset: offset(f),
    })
}
