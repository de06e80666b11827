//! The line of an instruction, written.
ghost use Rattle.std.specs.Prelude.{◌≡◌, ◌+◌, ◌<◌, ◌≤◌, ◌∷◌, [], ◌++◌, length, OnOk, OnErr};
ghost use Rattle.bpf_asm.specs.Line.{insn_line, mnemonic_of};
ghost use Rattle.bpf_asm.specs.Mnemonic.{mnemonic_text};

use crate::mnemonic::Mnemonic;
use crate::operand::{Operands, append_operands};
use bpf_isa::Insn;
use cp_base::{Bytes, NoMemory};

/// As much room as any line needs with its newline, in bytes.
pub const LINE_ROOM: u64 = 76;

/// Adds the line of an instruction and its newline at the end, for which there is room: it is never more
/// than `LINE_ROOM`.
pub fn append_line(out: &mut Bytes, insn: &Insn)
    requires { LINE_ROOM ≤ out.old.spare }
    ensures items { out.new.items ≡ out.old.items ++ (insn_line insn.now ++ 10 ∷ []) }
    ensures spare { out.new.spare + length (insn_line insn.now) + 1 ≡ out.old.spare }
{
    append_mnemonic(out, mnemonic(insn));
    append_operands(out, Operands::of(insn));
    out.append(b"\n");
}

/// Adds the line of an instruction and its newline at the end. It is refused only where there is less room
/// than `LINE_ROOM`.
pub fn push_line(out: &mut Bytes, insn: &Insn) -> Result<(), NoMemory>
    ensures items { OnOk result (out.new.items ≡ out.old.items ++ (insn_line insn.now ++ 10 ∷ [])) }
    ensures spare { OnOk result (LINE_ROOM ≤ out.old.spare
        → out.new.spare + length (insn_line insn.now) + 1 ≡ out.old.spare) }
    ensures full { OnErr result (out.old.spare < LINE_ROOM) }
    ensures unchanged { OnErr result (out.new ≡ out.old) }
{
    out.reserve(LINE_ROOM)?;
    append_line(out, insn);
    Ok(())
}

// Adds a mnemonic.
fn append_mnemonic(out: &mut Bytes, mnemonic: Mnemonic)
    requires { 9 ≤ out.old.spare }
    ensures items { out.new.items ≡ out.old.items ++ mnemonic_text mnemonic }
    ensures spare { out.new.spare + length (mnemonic_text mnemonic) ≡ out.old.spare }
    ensures len { length (mnemonic_text mnemonic) ≤ 9 }
{
    out.append(mnemonic.name());
    out.append(mnemonic.suffix());
}

// The mnemonic of an instruction.
fn mnemonic(insn: &Insn) -> Mnemonic
    ensures { result ≡ mnemonic_of insn.now }
{
    match *insn {
        Insn::AluImm { op, wide, .. } | Insn::AluReg { op, wide, .. } => {
            Mnemonic::Binary(op, wide)
        }
        Insn::DivImm { op, wide, .. } | Insn::DivReg { op, wide, .. } => {
            Mnemonic::Division(op, wide)
        }
        Insn::Neg { wide, .. } => Mnemonic::Negate(wide),
        Insn::MovImm { wide, .. } | Insn::MovReg { wide, .. } => Mnemonic::Move(wide),
        Insn::Movsx32 { .. } => Mnemonic::Extend32,
        Insn::Movsx64 { .. } => Mnemonic::Extend64,
        Insn::ToLittle { .. } => Mnemonic::ToLittle,
        Insn::ToBig { .. } => Mnemonic::ToBig,
        Insn::Swap { .. } => Mnemonic::Swap,
        Insn::Jump { .. } => Mnemonic::Jump,
        Insn::JumpLong { .. } => Mnemonic::JumpLong,
        Insn::BranchImm { op, wide, .. } | Insn::BranchReg { op, wide, .. } => {
            Mnemonic::Branch(op, wide)
        }
        Insn::CallHelper => Mnemonic::CallHelper,
        Insn::CallLocal { .. } => Mnemonic::CallLocal,
        Insn::Exit => Mnemonic::Exit,
        Insn::LoadImm { .. } => Mnemonic::LoadImm,
        Insn::Load { size, .. } => Mnemonic::Load(size),
        Insn::LoadSigned { size, .. } => Mnemonic::LoadSigned(size),
        Insn::StoreImm { size, .. } => Mnemonic::StoreImm(size),
        Insn::StoreReg { size, .. } => Mnemonic::StoreReg(size),
        Insn::Atomic { op, size, .. } => Mnemonic::Atomic(op, size),
        Insn::AtomicFetch { op, size, .. } => Mnemonic::AtomicFetch(op, size),
        Insn::CompareExchange { size, .. } => Mnemonic::CompareExchange(size),
    }
}
