//! One instruction: the matches that find what it does.
ghost use Rattle.std.specs.Prelude.{◌≡◌, IsTrue};
ghost use Rattle.bpf_model.specs.Encoding.{IsAllowed};
ghost use Rattle.bpf_model.specs.Step.{effect};
ghost use Rattle.confined_view.specs.Touched.{Touched};
ghost use Rattle.bpf_exec.specs.Kinds.{is_access, is_arithmetic, is_atomic_access, is_transfer};
ghost use Rattle.bpf_exec.specs.Seen.{machine_of, effect_seen, LeavesAtEnd, KeepsWindows};

use crate::processor::{Next, Processor, operand};
use bpf_isa::{AluOp, AtomicOp, Insn, SwapOp};
use confined_view::View;

/// Does what an instruction does, and says what it leads to. The kinds are few enough that the compiler makes
/// one jump of both matches.
#[inline(always)]
pub(crate) fn execute(insn: &Insn, processor: &mut Processor, view: &mut View) -> Next
    requires { IsAllowed insn.now }
    ensures effect { effect insn.now (machine_of processor.old view.old) ≡ effect_seen result processor.new view.new }
    ensures place { processor.new.place ≡ processor.old.place }
    ensures at_end { LeavesAtEnd result view.old view.new }
    ensures windows { KeepsWindows view.old view.new }
{
    match *insn {
        Insn::AluImm { .. }
        | Insn::AluReg { .. }
        | Insn::DivImm { .. }
        | Insn::DivReg { .. }
        | Insn::Neg { .. }
        | Insn::MovImm { .. }
        | Insn::MovReg { .. }
        | Insn::Movsx32 { .. }
        | Insn::Movsx64 { .. } => arithmetic(insn, processor),
        Insn::ToLittle { bits, dst } => processor.swap(SwapOp::ToLittle, bits, dst),
        Insn::ToBig { bits, dst } => processor.swap(SwapOp::ToBig, bits, dst),
        Insn::Swap { bits, dst } => processor.swap(SwapOp::Swap, bits, dst),
        Insn::LoadImm { dst, value } => processor.put(dst, value),
        Insn::Jump { .. }
        | Insn::JumpLong { .. }
        | Insn::BranchImm { .. }
        | Insn::BranchReg { .. }
        | Insn::CallHelper
        | Insn::CallLocal { .. }
        | Insn::Exit => transfer(insn, processor, view),
        Insn::Load { .. }
        | Insn::LoadSigned { .. }
        | Insn::StoreImm { .. }
        | Insn::StoreReg { .. } => access(insn, processor, view),
        Insn::Atomic { .. } | Insn::AtomicFetch { .. } | Insn::CompareExchange { .. } => atomic(
            insn, processor, view,
        ),
    }
}

/// Arithmetic (RFC 9669, section 4.1).
#[inline(always)]
fn arithmetic(insn: &Insn, processor: &mut Processor) -> Next
    requires { IsTrue (is_arithmetic insn.now) }
    ensures effect { (t : Touched) → effect insn.now (machine_of processor.old t) ≡ effect_seen result processor.new t }
    ensures place { processor.new.place ≡ processor.old.place }
    ensures at_end { (t : Touched) → LeavesAtEnd result t t }
{
    match *insn {
        Insn::AluImm { op, wide, dst, imm } => processor.compute(op, wide, dst, operand(imm)),
        Insn::AluReg { op, wide, dst, src } => processor.compute(op, wide, dst, processor.get(src)),
        Insn::DivImm { op, wide, dst, imm } => processor.compute(op, wide, dst, operand(imm)),
        Insn::DivReg { op, wide, dst, src } => processor.compute(op, wide, dst, processor.get(src)),
        Insn::Neg { wide, dst } => processor.compute(AluOp::Neg, wide, dst, 0),
        Insn::MovImm { wide, dst, imm } => processor.compute(AluOp::Mov, wide, dst, operand(imm)),
        Insn::MovReg { wide, dst, src } => processor.compute(
            AluOp::Mov,
            wide,
            dst,
            processor.get(src),
        ),
        Insn::Movsx32 { op, dst, src } => processor.compute(op, false, dst, processor.get(src)),
        Insn::Movsx64 { op, dst, src } => processor.compute(op, true, dst, processor.get(src)),
        _ => unreachable!(),
    }
}

/// A jump, a call or a return (RFC 9669, section 4.3).
#[inline(always)]
fn transfer(insn: &Insn, processor: &mut Processor, view: &View) -> Next
    requires { IsTrue (is_transfer insn.now) }
    ensures effect { effect insn.now (machine_of processor.old view.now) ≡ effect_seen result processor.new view.now }
    ensures place { processor.new.place ≡ processor.old.place }
    ensures at_end { (t : Touched) → LeavesAtEnd result t t }
{
    match *insn {
        Insn::Jump { offset } => Next::By(i32::from(offset)),
        Insn::JumpLong { imm } => Next::By(imm),
        Insn::BranchImm {
            op,
            wide,
            dst,
            offset,
            imm,
        } => processor.branch(op, wide, dst, operand(imm), offset),
        Insn::BranchReg {
            op,
            wide,
            dst,
            src,
            offset,
        } => processor.branch(op, wide, dst, processor.get(src), offset),
        Insn::CallHelper => processor.call_helper(view),
        Insn::CallLocal { imm } => processor.call(imm),
        Insn::Exit => processor.exit(),
        _ => unreachable!(),
    }
}

/// A load or a store (RFC 9669, sections 5.1 and 5.2).
#[inline(always)]
fn access(insn: &Insn, processor: &mut Processor, view: &mut View) -> Next
    requires { IsTrue (is_access insn.now) }
    ensures effect { effect insn.now (machine_of processor.old view.old) ≡ effect_seen result processor.new view.new }
    ensures place { processor.new.place ≡ processor.old.place }
    ensures at_end { LeavesAtEnd result view.old view.new }
    ensures windows { KeepsWindows view.old view.new }
{
    match *insn {
        Insn::Load {
            size,
            dst,
            src,
            offset,
        } => processor.load(view, size, dst, processor.address(src, offset)),
        Insn::LoadSigned {
            size,
            dst,
            src,
            offset,
        } => processor.load_signed(view, size, dst, processor.address(src, offset)),
        Insn::StoreImm {
            size,
            dst,
            offset,
            imm,
        } => processor.store(view, size, processor.address(dst, offset), operand(imm)),
        Insn::StoreReg {
            size,
            dst,
            src,
            offset,
        } => processor.store(
            view,
            size,
            processor.address(dst, offset),
            processor.get(src),
        ),
        _ => unreachable!(),
    }
}

/// An atomic operation (RFC 9669, section 5.3).
#[inline(always)]
fn atomic(insn: &Insn, processor: &mut Processor, view: &mut View) -> Next
    requires allowed { IsAllowed insn.now }
    requires atomic { IsTrue (is_atomic_access insn.now) }
    ensures effect { effect insn.now (machine_of processor.old view.old) ≡ effect_seen result processor.new view.new }
    ensures place { processor.new.place ≡ processor.old.place }
    ensures at_end { LeavesAtEnd result view.old view.new }
    ensures windows { KeepsWindows view.old view.new }
{
    match *insn {
        Insn::Atomic {
            op,
            size,
            dst,
            src,
            offset,
        } => processor.atomic(view, op, size, processor.address(dst, offset), src),
        Insn::AtomicFetch {
            op,
            size,
            dst,
            src,
            offset,
        } => processor.fetch(view, op, size, processor.address(dst, offset), src),
        Insn::CompareExchange {
            size,
            dst,
            src,
            offset,
        } => processor.exchange(view, size, processor.address(dst, offset), src),
        _ => unreachable!(),
    }
}
