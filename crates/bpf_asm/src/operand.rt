//! The operands of an instruction, written.
ghost use Rattle.std.specs.Prelude.{◌≡◌, ◌+◌, ◌≤◌, ◌∷◌, ◌++◌, length};
ghost use Rattle.bpf_model.specs.Encoding.{alu_offset};
ghost use Rattle.bpf_asm.specs.Line.{operand_text, operands_of};
ghost use Rattle.bpf_asm.specs.Operands.{distance_of, operand_list, spaced};

use bpf_isa::{AluOp, Insn, Reg};
use cp_base::Bytes;
use cp_text::{append_number, append_signed};

/// One operand of a line.
#[derive(Clone, Copy)]
pub enum Operand {
    /// A register.
    Register(Reg),
    /// An immediate or an offset.
    Signed(i64),
    /// A number without a sign.
    Number(u64),
}

/// The operands of a line, in order. There are at most three.
#[derive(Clone, Copy)]
pub enum Operands {
    Zero,
    One(Operand),
    Two(Operand, Operand),
    Three(Operand, Operand, Operand),
}

impl Operands {
    /// The operands of an instruction, in the order of its line.
    pub fn of(insn: &Insn) -> Operands
        ensures { operand_list result ≡ operands_of insn.now }
    {
        use Operand::{Number, Register, Signed};
        match *insn {
            Insn::AluImm { dst, imm, .. }
            | Insn::DivImm { dst, imm, .. }
            | Insn::MovImm { dst, imm, .. } => Operands::Two(Register(dst), Signed(imm as i64)),
            Insn::AluReg { dst, src, .. }
            | Insn::DivReg { dst, src, .. }
            | Insn::MovReg { dst, src, .. } => Operands::Two(Register(dst), Register(src)),
            Insn::Neg { dst, .. } => Operands::One(Register(dst)),
            Insn::Movsx32 { op, dst, src } | Insn::Movsx64 { op, dst, src } => {
                Operands::Three(Register(dst), Register(src), Number(move_bits(op)))
            }
            Insn::ToLittle { bits, dst } | Insn::ToBig { bits, dst } | Insn::Swap { bits, dst } => {
                Operands::Two(Register(dst), Number(bits.bits() as u64))
            }
            Insn::Jump { offset } => Operands::One(Signed(offset as i64)),
            Insn::JumpLong { imm } | Insn::CallLocal { imm } => Operands::One(Signed(imm as i64)),
            Insn::BranchImm { dst, imm, .. } => {
                Operands::Three(Register(dst), Signed(imm as i64), Signed(distance(insn)))
            }
            Insn::CallHelper => Operands::One(Number(1)),
            Insn::Exit => Operands::Zero,
            Insn::LoadImm { dst, value } => Operands::Two(Register(dst), Number(value)),
            Insn::BranchReg { dst, src, .. }
            | Insn::Load { dst, src, .. }
            | Insn::LoadSigned { dst, src, .. } => {
                Operands::Three(Register(dst), Register(src), Signed(distance(insn)))
            }
            Insn::StoreImm { dst, imm, .. } => {
                Operands::Three(Register(dst), Signed(distance(insn)), Signed(imm as i64))
            }
            Insn::StoreReg { dst, src, .. }
            | Insn::Atomic { dst, src, .. }
            | Insn::AtomicFetch { dst, src, .. }
            | Insn::CompareExchange { dst, src, .. } => {
                Operands::Three(Register(dst), Signed(distance(insn)), Register(src))
            }
        }
    }
}

// Adds an operand and the space in front of it, for which there is room: 22 bytes at most.
#[tactic(auto, using(crate::proofs::Lengths::number_len, crate::proofs::Lengths::signed_len))]
fn append_operand(out: &mut Bytes, operand: Operand)
    requires { 22 ≤ out.old.spare }
    ensures items { out.new.items ≡ out.old.items ++ 32 ∷ operand_text operand }
    ensures spare { out.new.spare + length (operand_text operand) + 1 ≡ out.old.spare }
    ensures len { length (operand_text operand) ≤ 21 }
{
    out.append(b" ");
    match operand {
        Operand::Register(register) => append_register(out, register),
        Operand::Signed(n) => append_signed(out, n),
        Operand::Number(n) => append_number(out, n),
    }
}

// Adds a register, for which there is room: 21 bytes at most.
#[tactic(auto, using(crate::proofs::Lengths::number_len))]
fn append_register(out: &mut Bytes, register: Reg)
    requires { 21 ≤ out.old.spare }
    ensures items { out.new.items ≡ out.old.items ++ operand_text (Operand.Register register) }
    ensures spare { out.new.spare + length (operand_text (Operand.Register register)) ≡ out.old.spare }
    ensures len { length (operand_text (Operand.Register register)) ≤ 21 }
{
    out.append(b"r");
    append_number(out, register.number() as u64);
}

/// Adds operands, each with the space in front of it, for which there is room: 66 bytes at most.
pub fn append_operands(out: &mut Bytes, operands: Operands)
    requires { 66 ≤ out.old.spare }
    ensures items { out.new.items ≡ out.old.items ++ spaced (operand_list operands) }
    ensures spare { out.new.spare + length (spaced (operand_list operands)) ≡ out.old.spare }
    ensures len { length (spaced (operand_list operands)) ≤ 66 }
{
    match operands {
        Operands::Zero => {}
        Operands::One(a) => append_operand(out, a),
        Operands::Two(a, b) => {
            append_operand(out, a);
            append_operand(out, b);
        }
        Operands::Three(a, b, c) => {
            append_operand(out, a);
            append_operand(out, b);
            append_operand(out, c);
        }
    }
}

// The offset of an instruction that has one beside a register.
#[inline]
fn distance(insn: &Insn) -> i64
    ensures { result ≡ distance_of insn.now }
{
    match *insn {
        Insn::BranchImm { offset, .. }
        | Insn::BranchReg { offset, .. }
        | Insn::Load { offset, .. }
        | Insn::LoadSigned { offset, .. }
        | Insn::StoreImm { offset, .. }
        | Insn::StoreReg { offset, .. }
        | Insn::Atomic { offset, .. }
        | Insn::AtomicFetch { offset, .. }
        | Insn::CompareExchange { offset, .. } => offset as i64,
        _ => 0,
    }
}

// The bits that a move sign-extends from.
fn move_bits(op: AluOp) -> u64
    ensures { result ≡ alu_offset op }
{
    match op {
        AluOp::Movsx8 => 8,
        AluOp::Movsx16 => 16,
        AluOp::Movsx32 => 32,
        AluOp::Sdiv | AluOp::Smod => 1,
        _ => 0,
    }
}
