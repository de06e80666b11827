//! The forms of jumps, classes 5 and 6 (RFC 9669, section 4.3).
ghost use Rattle.std.specs.Prelude.{◌≡◌, ◌==◌, ◌&&◌, ◌||◌};
ghost use Rattle.bpf_model.specs.Form as form;
ghost use Rattle.bpf_model.specs.Form.{row_insn, first_fit, named, class_of, operand_of};
ghost use Rattle.bpf_decode.specs.Groups.{jump_rows};

use crate::units::{class, code, imm, offset, operand};
use bpf_isa::{Insn, JumpOp, Reg};
use bpf_model::Fields;

/// The jump of a unit, if it has one of their forms.
pub(crate) fn jump(f: &Fields) -> Option<Insn>
    ensures { result ≡ first_fit (jump_rows f.now) }
{
    ja(f)
        .or_else(|| ja_long(f))
        .or_else(|| branch_imm(f))
        .or_else(|| branch_reg(f))
        .or_else(|| call_helper(f))
        .or_else(|| call_local(f))
        .or_else(|| exit(f))
}

fn is_branch(f: &Fields, source: u8) -> bool
    ensures { result ≡ ((class_of f.now == 5 || class_of f.now == 6) && operand_of f.now == source) }
{
    (class(f) == 5 || class(f) == 6) && operand(f) == source
}

/// A comparison, by its code.
fn comparison(code: u8) -> Option<JumpOp>
    ensures { result ≡ named form.jump_codes code }
{
    match code {
        0x1 => Some(JumpOp::Jeq),
        0x2 => Some(JumpOp::Jgt),
        0x3 => Some(JumpOp::Jge),
        0x4 => Some(JumpOp::Jset),
        0x5 => Some(JumpOp::Jne),
        0x6 => Some(JumpOp::Jsgt),
        0x7 => Some(JumpOp::Jsge),
        0xa => Some(JumpOp::Jlt),
        0xb => Some(JumpOp::Jle),
        0xc => Some(JumpOp::Jslt),
        0xd => Some(JumpOp::Jsle),
        _ => None,
    }
}

/// JA by the offset.
fn ja(f: &Fields) -> Option<Insn>
    ensures { result ≡ row_insn (form.ja f.now) }
{
    if f.opcode == 0x05 && f.dst == 0 && f.src == 0 && f.imm == 0 {
        Some(Insn::Jump { offset: offset(f) })
    } else {
        None
    }
}

/// JA by the immediate.
fn ja_long(f: &Fields) -> Option<Insn>
    ensures { result ≡ row_insn (form.ja_long f.now) }
{
    if f.opcode == 0x06 && f.dst == 0 && f.src == 0 && f.offset == 0 {
        Some(Insn::JumpLong { imm: imm(f) })
    } else {
        None
    }
}

/// A conditional jump on an immediate.
fn branch_imm(f: &Fields) -> Option<Insn>
    ensures { result ≡ row_insn (form.branch_imm f.now) }
{
    if !(is_branch(f, 0) && f.src == 0) {
        return None;
    }
    Some(Insn::BranchImm {
        op: comparison(code(f))?,
        wide: class(f) == 5,
        dst: Reg::new(f.dst)?,
        offset: offset(f),
        imm: imm(f),
    })
}

/// A conditional jump on a register.
fn branch_reg(f: &Fields) -> Option<Insn>
    ensures { result ≡ row_insn (form.branch_reg f.now) }
{
    if !(is_branch(f, 1) && f.imm == 0) {
        return None;
    }
    Some(Insn::BranchReg {
        op: comparison(code(f))?,
        wide: class(f) == 5,
        dst: Reg::new(f.dst)?,
        src: Reg::new(f.src)?,
        offset: offset(f),
    })
}

/// CALL of the helper 1.
fn call_helper(f: &Fields) -> Option<Insn>
    ensures { result ≡ row_insn (form.call_helper f.now) }
{
    if f.opcode == 0x85 && f.dst == 0 && f.src == 0 && f.offset == 0 && f.imm == 1 {
        Some(Insn::CallHelper)
    } else {
        None
    }
}

/// CALL of a function of the same program.
fn call_local(f: &Fields) -> Option<Insn>
    ensures { result ≡ row_insn (form.call_local f.now) }
{
    if f.opcode == 0x85 && f.dst == 0 && f.src == 1 && f.offset == 0 {
        Some(Insn::CallLocal { imm: imm(f) })
    } else {
        None
    }
}

/// EXIT.
fn exit(f: &Fields) -> Option<Insn>
    ensures { result ≡ row_insn (form.exit f.now) }
{
    if f.opcode == 0x95 && f.dst == 0 && f.src == 0 && f.offset == 0 && f.imm == 0 {
        Some(Insn::Exit)
    } else {
        None
    }
}
