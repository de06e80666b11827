//! The forms of arithmetic, classes 4 and 7 (RFC 9669, sections 4.1 and 4.2).
ghost use Rattle.std.specs.Prelude.{◌≡◌, ◌==◌, ◌&&◌, ◌||◌};
ghost use Rattle.bpf_model.specs.Form as form;
ghost use Rattle.bpf_model.specs.Form.{row_insn, first_fit, named, class_of, operand_of};
ghost use Rattle.bpf_decode.specs.Groups.{alu_rows};

use crate::units::{class, code, imm, operand, writable};
use bpf_isa::{AluOp, Insn, Reg, Width};
use bpf_model::Fields;

/// The arithmetic instruction of a unit, if it has one of their forms.
pub(crate) fn arithmetic(f: &Fields) -> Option<Insn>
    ensures { result ≡ first_fit (alu_rows f.now) }
{
    alu_imm(f)
        .or_else(|| alu_reg(f))
        .or_else(|| div_imm(f))
        .or_else(|| div_reg(f))
        .or_else(|| neg(f))
        .or_else(|| mov_imm(f))
        .or_else(|| mov_reg(f))
        .or_else(|| movsx_32(f))
        .or_else(|| movsx_64(f))
        .or_else(|| to_little(f))
        .or_else(|| to_big(f))
        .or_else(|| swap(f))
}

fn is_alu(f: &Fields, source: u8) -> bool
    ensures { result ≡ ((class_of f.now == 4 || class_of f.now == 7) && operand_of f.now == source) }
{
    (class(f) == 4 || class(f) == 7) && operand(f) == source
}

/// An operation of two operands, by its code.
fn binary_op(code: u8) -> Option<AluOp>
    ensures { result ≡ named form.binary_codes code }
{
    match code {
        0x0 => Some(AluOp::Add),
        0x1 => Some(AluOp::Sub),
        0x2 => Some(AluOp::Mul),
        0x4 => Some(AluOp::Or),
        0x5 => Some(AluOp::And),
        0x6 => Some(AluOp::Lsh),
        0x7 => Some(AluOp::Rsh),
        0xa => Some(AluOp::Xor),
        0xc => Some(AluOp::Arsh),
        _ => None,
    }
}

/// A division, by its code and the offset, which is 1 for a signed one.
fn division(f: &Fields) -> Option<AluOp>
    ensures { result ≡ form.division_of f.now }
{
    match (code(f), f.offset) {
        (0x3, 0) => Some(AluOp::Div),
        (0x9, 0) => Some(AluOp::Mod),
        (0x3, 1) => Some(AluOp::Sdiv),
        (0x9, 1) => Some(AluOp::Smod),
        _ => None,
    }
}

/// A move that sign-extends to 32 bits, by the offset.
fn move_32(offset: u16) -> Option<AluOp>
    ensures { result ≡ named form.move_offsets_32 offset }
{
    match offset {
        8 => Some(AluOp::Movsx8),
        16 => Some(AluOp::Movsx16),
        _ => None,
    }
}

/// A move that sign-extends to 64 bits, by the offset.
fn move_64(offset: u16) -> Option<AluOp>
    ensures { result ≡ named form.move_offsets_64 offset }
{
    match offset {
        8 => Some(AluOp::Movsx8),
        16 => Some(AluOp::Movsx16),
        32 => Some(AluOp::Movsx32),
        _ => None,
    }
}

/// How many bits a byte swap reads, by the immediate.
fn swap_bits(imm: u32) -> Option<Width>
    ensures { result ≡ named form.swap_imms imm }
{
    match imm {
        16 => Some(Width::Bits16),
        32 => Some(Width::Bits32),
        64 => Some(Width::Bits64),
        _ => None,
    }
}

/// ADD, SUB, MUL, OR, AND, LSH, RSH, XOR, ARSH with an immediate.
fn alu_imm(f: &Fields) -> Option<Insn>
    ensures { result ≡ row_insn (form.alu_imm f.now) }
{
    if !(is_alu(f, 0) && f.src == 0 && f.offset == 0) {
        return None;
    }
    Some(Insn::AluImm {
        op: binary_op(code(f))?,
        wide: class(f) == 7,
        dst: writable(f.dst)?,
        imm: imm(f),
    })
}

/// The same with a register.
fn alu_reg(f: &Fields) -> Option<Insn>
    ensures { result ≡ row_insn (form.alu_reg f.now) }
{
    if !(is_alu(f, 1) && f.offset == 0 && f.imm == 0) {
        return None;
    }
    Some(Insn::AluReg {
        op: binary_op(code(f))?,
        wide: class(f) == 7,
        dst: writable(f.dst)?,
        src: Reg::new(f.src)?,
    })
}

/// DIV, MOD, SDIV, SMOD with an immediate.
fn div_imm(f: &Fields) -> Option<Insn>
    ensures { result ≡ row_insn (form.div_imm f.now) }
{
    if !(is_alu(f, 0) && f.src == 0) {
        return None;
    }
    Some(Insn::DivImm {
        op: division(f)?,
        wide: class(f) == 7,
        dst: writable(f.dst)?,
        imm: imm(f),
    })
}

/// The same with a register.
fn div_reg(f: &Fields) -> Option<Insn>
    ensures { result ≡ row_insn (form.div_reg f.now) }
{
    if !(is_alu(f, 1) && f.imm == 0) {
        return None;
    }
    Some(Insn::DivReg {
        op: division(f)?,
        wide: class(f) == 7,
        dst: writable(f.dst)?,
        src: Reg::new(f.src)?,
    })
}

/// NEG.
fn neg(f: &Fields) -> Option<Insn>
    ensures { result ≡ row_insn (form.neg f.now) }
{
    if !((f.opcode == 0x84 || f.opcode == 0x87) && f.src == 0 && f.offset == 0 && f.imm == 0) {
        return None;
    }
    Some(Insn::Neg {
        wide: f.opcode == 0x87,
        dst: writable(f.dst)?,
    })
}

/// MOV of an immediate.
fn mov_imm(f: &Fields) -> Option<Insn>
    ensures { result ≡ row_insn (form.mov_imm f.now) }
{
    if !((f.opcode == 0xb4 || f.opcode == 0xb7) && f.src == 0 && f.offset == 0) {
        return None;
    }
    Some(Insn::MovImm {
        wide: f.opcode == 0xb7,
        dst: writable(f.dst)?,
        imm: imm(f),
    })
}

/// MOV of a register.
fn mov_reg(f: &Fields) -> Option<Insn>
    ensures { result ≡ row_insn (form.mov_reg f.now) }
{
    if !((f.opcode == 0xbc || f.opcode == 0xbf) && f.offset == 0 && f.imm == 0) {
        return None;
    }
    Some(Insn::MovReg {
        wide: f.opcode == 0xbf,
        dst: writable(f.dst)?,
        src: Reg::new(f.src)?,
    })
}

/// MOVSX to 32 bits.
fn movsx_32(f: &Fields) -> Option<Insn>
    ensures { result ≡ row_insn (form.movsx_32 f.now) }
{
    if !(f.opcode == 0xbc && f.imm == 0) {
        return None;
    }
    Some(Insn::Movsx32 {
        op: move_32(f.offset)?,
        dst: writable(f.dst)?,
        src: Reg::new(f.src)?,
    })
}

/// MOVSX to 64 bits.
fn movsx_64(f: &Fields) -> Option<Insn>
    ensures { result ≡ row_insn (form.movsx_64 f.now) }
{
    if !(f.opcode == 0xbf && f.imm == 0) {
        return None;
    }
    Some(Insn::Movsx64 {
        op: move_64(f.offset)?,
        dst: writable(f.dst)?,
        src: Reg::new(f.src)?,
    })
}

/// END to little-endian order.
fn to_little(f: &Fields) -> Option<Insn>
    ensures { result ≡ row_insn (form.to_little f.now) }
{
    if !(f.opcode == 0xd4 && f.src == 0 && f.offset == 0) {
        return None;
    }
    Some(Insn::ToLittle {
        bits: swap_bits(f.imm)?,
        dst: writable(f.dst)?,
    })
}

/// END to big-endian order.
fn to_big(f: &Fields) -> Option<Insn>
    ensures { result ≡ row_insn (form.to_big f.now) }
{
    if !(f.opcode == 0xdc && f.src == 0 && f.offset == 0) {
        return None;
    }
    Some(Insn::ToBig {
        bits: swap_bits(f.imm)?,
        dst: writable(f.dst)?,
    })
}

/// END to the reverse order.
fn swap(f: &Fields) -> Option<Insn>
    ensures { result ≡ row_insn (form.swap f.now) }
{
    if !(f.opcode == 0xd7 && f.src == 0 && f.offset == 0) {
        return None;
    }
    Some(Insn::Swap {
        bits: swap_bits(f.imm)?,
        dst: writable(f.dst)?,
    })
}
