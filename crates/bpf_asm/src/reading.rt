//! The instruction of a line, read.
ghost use Rattle.std.specs.Prelude.{◌≡◌, ◌≤◌, Some, option_map};
ghost use Rattle.bpf_asm.specs.Reading as spec;
ghost use Rattle.bpf_asm.specs.Reading.{exit_of, helper_named, insn_in, insn_with, imm_in, move_to_32, move_to_64, offset_in, read_one, read_three, read_two, register_in, source_in};
ghost use Rattle.cp_text.specs.Number.{spelled_number};
ghost use Rattle.cp_text.specs.Parts.{parts_between, parts_in};

use crate::mnemonic::Mnemonic;
use crate::parts::{one, three, two};
use crate::source::{Source, helper, imm, move_to_32, move_to_64, offset, register, swap_bits};
use bpf_isa::{AluOp, AtomicOp, Insn, JumpOp, Reg, Size, Width};
use cp_text::{number, split_part};

/// The instruction of a line without its newline, or `None` where the line is no instruction's.
pub fn read_line(line: &[u8]) -> Option<Insn>
    ensures { result ≡ insn_in (parts_between 32 line.now) }
{
    let (first, operands) = split_part(line, b' ');
    read_operands(Mnemonic::of(first)?, operands)
}

// The instruction of a mnemonic with the text of its operands.
fn read_operands(mnemonic: Mnemonic, text: Option<&[u8]>) -> Option<Insn>
    ensures { result ≡ insn_with mnemonic (parts_in 32 (option_map (λ t. t.now) text.entry)) }
{
    match mnemonic {
        Mnemonic::Binary(op, wide) => binary(op, wide, text),
        Mnemonic::Division(op, wide) => division(op, wide, text),
        Mnemonic::Move(wide) => move_of(wide, text),
        Mnemonic::Negate(wide) => negation(wide, text),
        Mnemonic::Extend32 => extension_to_32(text),
        Mnemonic::Extend64 => extension_to_64(text),
        Mnemonic::ToLittle => to_little(text),
        Mnemonic::ToBig => to_big(text),
        Mnemonic::Swap => swap(text),
        Mnemonic::LoadImm => load_imm(text),
        Mnemonic::Load(size) => load(size, text),
        Mnemonic::LoadSigned(size) => load_signed(size, text),
        Mnemonic::StoreImm(size) => store_imm(size, text),
        Mnemonic::StoreReg(size) => store_reg(size, text),
        Mnemonic::Atomic(op, size) => atomic(op, size, text),
        Mnemonic::AtomicFetch(op, size) => atomic_fetch(op, size, text),
        Mnemonic::CompareExchange(size) => compare_exchange(size, text),
        Mnemonic::Branch(op, wide) => branch(op, wide, text),
        Mnemonic::Jump => jump(text),
        Mnemonic::JumpLong => jump_long(text),
        Mnemonic::CallHelper => call_helper(text),
        Mnemonic::CallLocal => call_local(text),
        Mnemonic::Exit => exit(text),
    }
}

// A register that is written, and a register or an immediate.
fn dst_source(text: Option<&[u8]>) -> Option<(Reg, Source)>
    ensures { result ≡ spec.dst_source (parts_in 32 (option_map (λ t. t.now) text.entry)) }
{
    let (dst, source) = two(text)?;
    Some((register(dst, 9)?, Source::of(source)?))
}

// A register that is written, and the bits of a byte swap.
fn dst_bits(text: Option<&[u8]>) -> Option<(Reg, Width)>
    ensures { result ≡ spec.dst_bits (parts_in 32 (option_map (λ t. t.now) text.entry)) }
{
    let (dst, bits) = two(text)?;
    Some((register(dst, 9)?, swap_bits(bits)?))
}

// A register that is written, a register and an offset.
fn dst_src_offset(text: Option<&[u8]>) -> Option<(Reg, Reg, i16)>
    ensures { result ≡ spec.dst_src_offset (parts_in 32 (option_map (λ t. t.now) text.entry)) }
{
    let (dst, src, distance) = three(text)?;
    Some((register(dst, 9)?, register(src, 10)?, offset(distance)?))
}

// A register, an offset and a register of which the number is at most the greatest.
fn dst_offset_src(text: Option<&[u8]>, greatest: u8) -> Option<(Reg, i16, Reg)>
    requires { greatest ≤ 10 }
    ensures { result ≡ spec.dst_offset_src greatest (parts_in 32 (option_map (λ t. t.now) text.entry)) }
{
    let (dst, distance, src) = three(text)?;
    Some((
        register(dst, 10)?,
        offset(distance)?,
        register(src, greatest)?,
    ))
}

// Arithmetic, but divisions and moves.
fn binary(op: AluOp, wide: bool, text: Option<&[u8]>) -> Option<Insn>
    ensures { result ≡ insn_with (Mnemonic.Binary op wide) (parts_in 32 (option_map (λ t. t.now) text.entry)) }
{
    let (dst, source) = dst_source(text)?;
    Some(match source {
        Source::Register(src) => Insn::AluReg { op, wide, dst, src },
        Source::Immediate(imm) => Insn::AluImm { op, wide, dst, imm },
    })
}

// Division or modulo.
fn division(op: AluOp, wide: bool, text: Option<&[u8]>) -> Option<Insn>
    ensures { result ≡ insn_with (Mnemonic.Division op wide) (parts_in 32 (option_map (λ t. t.now) text.entry)) }
{
    let (dst, source) = dst_source(text)?;
    Some(match source {
        Source::Register(src) => Insn::DivReg { op, wide, dst, src },
        Source::Immediate(imm) => Insn::DivImm { op, wide, dst, imm },
    })
}

// Move.
fn move_of(wide: bool, text: Option<&[u8]>) -> Option<Insn>
    ensures { result ≡ insn_with (Mnemonic.Move wide) (parts_in 32 (option_map (λ t. t.now) text.entry)) }
{
    let (dst, source) = dst_source(text)?;
    Some(match source {
        Source::Register(src) => Insn::MovReg { wide, dst, src },
        Source::Immediate(imm) => Insn::MovImm { wide, dst, imm },
    })
}

// Negation.
fn negation(wide: bool, text: Option<&[u8]>) -> Option<Insn>
    ensures { result ≡ insn_with (Mnemonic.Negate wide) (parts_in 32 (option_map (λ t. t.now) text.entry)) }
{
    let dst = register(one(text)?, 9)?;
    Some(Insn::Neg { wide, dst })
}

// Move that sign-extends to 32 bits.
fn extension_to_32(text: Option<&[u8]>) -> Option<Insn>
    ensures { result ≡ insn_with Mnemonic.Extend32 (parts_in 32 (option_map (λ t. t.now) text.entry)) }
{
    let (dst, src, bits) = three(text)?;
    let dst = register(dst, 9)?;
    let src = register(src, 10)?;
    let op = move_to_32(bits)?;
    Some(Insn::Movsx32 { op, dst, src })
}

// Move that sign-extends to 64 bits.
fn extension_to_64(text: Option<&[u8]>) -> Option<Insn>
    ensures { result ≡ insn_with Mnemonic.Extend64 (parts_in 32 (option_map (λ t. t.now) text.entry)) }
{
    let (dst, src, bits) = three(text)?;
    let dst = register(dst, 9)?;
    let src = register(src, 10)?;
    let op = move_to_64(bits)?;
    Some(Insn::Movsx64 { op, dst, src })
}

// Low bits to little-endian order.
fn to_little(text: Option<&[u8]>) -> Option<Insn>
    ensures { result ≡ insn_with Mnemonic.ToLittle (parts_in 32 (option_map (λ t. t.now) text.entry)) }
{
    let (dst, bits) = dst_bits(text)?;
    Some(Insn::ToLittle { bits, dst })
}

// Low bits to big-endian order.
fn to_big(text: Option<&[u8]>) -> Option<Insn>
    ensures { result ≡ insn_with Mnemonic.ToBig (parts_in 32 (option_map (λ t. t.now) text.entry)) }
{
    let (dst, bits) = dst_bits(text)?;
    Some(Insn::ToBig { bits, dst })
}

// Low bytes in reverse order.
fn swap(text: Option<&[u8]>) -> Option<Insn>
    ensures { result ≡ insn_with Mnemonic.Swap (parts_in 32 (option_map (λ t. t.now) text.entry)) }
{
    let (dst, bits) = dst_bits(text)?;
    Some(Insn::Swap { bits, dst })
}

// Load of an immediate of 64 bits.
fn load_imm(text: Option<&[u8]>) -> Option<Insn>
    ensures { result ≡ insn_with Mnemonic.LoadImm (parts_in 32 (option_map (λ t. t.now) text.entry)) }
{
    let (dst, value) = two(text)?;
    let dst = register(dst, 9)?;
    let value = number(value)?;
    Some(Insn::LoadImm { dst, value })
}

// Load that zero-extends.
fn load(size: Size, text: Option<&[u8]>) -> Option<Insn>
    ensures { result ≡ insn_with (Mnemonic.Load size) (parts_in 32 (option_map (λ t. t.now) text.entry)) }
{
    let (dst, src, offset) = dst_src_offset(text)?;
    Some(Insn::Load {
        size,
        dst,
        src,
        offset,
    })
}

// Load that sign-extends.
fn load_signed(size: Size, text: Option<&[u8]>) -> Option<Insn>
    ensures { result ≡ insn_with (Mnemonic.LoadSigned size) (parts_in 32 (option_map (λ t. t.now) text.entry)) }
{
    let (dst, src, offset) = dst_src_offset(text)?;
    Some(Insn::LoadSigned {
        size,
        dst,
        src,
        offset,
    })
}

// Store of an immediate.
fn store_imm(size: Size, text: Option<&[u8]>) -> Option<Insn>
    ensures { result ≡ insn_with (Mnemonic.StoreImm size) (parts_in 32 (option_map (λ t. t.now) text.entry)) }
{
    let (dst, distance, value) = three(text)?;
    let dst = register(dst, 10)?;
    let offset = offset(distance)?;
    let imm = imm(value)?;
    Some(Insn::StoreImm {
        size,
        dst,
        offset,
        imm,
    })
}

// Store of a register.
fn store_reg(size: Size, text: Option<&[u8]>) -> Option<Insn>
    ensures { result ≡ insn_with (Mnemonic.StoreReg size) (parts_in 32 (option_map (λ t. t.now) text.entry)) }
{
    let (dst, offset, src) = dst_offset_src(text, 10)?;
    Some(Insn::StoreReg {
        size,
        dst,
        src,
        offset,
    })
}

// Atomic operation without the fetch of the old value.
fn atomic(op: AtomicOp, size: Size, text: Option<&[u8]>) -> Option<Insn>
    ensures { result ≡ insn_with (Mnemonic.Atomic op size) (parts_in 32 (option_map (λ t. t.now) text.entry)) }
{
    let (dst, offset, src) = dst_offset_src(text, 10)?;
    Some(Insn::Atomic {
        op,
        size,
        dst,
        src,
        offset,
    })
}

// Atomic operation or exchange that fetches the old value into the source.
fn atomic_fetch(op: AtomicOp, size: Size, text: Option<&[u8]>) -> Option<Insn>
    ensures { result ≡ insn_with (Mnemonic.AtomicFetch op size) (parts_in 32 (option_map (λ t. t.now) text.entry)) }
{
    let (dst, offset, src) = dst_offset_src(text, 9)?;
    Some(Insn::AtomicFetch {
        op,
        size,
        dst,
        src,
        offset,
    })
}

// Compare and exchange.
fn compare_exchange(size: Size, text: Option<&[u8]>) -> Option<Insn>
    ensures { result ≡ insn_with (Mnemonic.CompareExchange size) (parts_in 32 (option_map (λ t. t.now) text.entry)) }
{
    let (dst, offset, src) = dst_offset_src(text, 10)?;
    Some(Insn::CompareExchange {
        size,
        dst,
        src,
        offset,
    })
}

// Conditional jump.
fn branch(op: JumpOp, wide: bool, text: Option<&[u8]>) -> Option<Insn>
    ensures { result ≡ insn_with (Mnemonic.Branch op wide) (parts_in 32 (option_map (λ t. t.now) text.entry)) }
{
    let (dst, source, distance) = three(text)?;
    let dst = register(dst, 10)?;
    let source = Source::of(source)?;
    let offset = offset(distance)?;
    Some(match source {
        Source::Register(src) => Insn::BranchReg {
            op,
            wide,
            dst,
            src,
            offset,
        },
        Source::Immediate(imm) => Insn::BranchImm {
            op,
            wide,
            dst,
            offset,
            imm,
        },
    })
}

// Jump by the offset.
fn jump(text: Option<&[u8]>) -> Option<Insn>
    ensures { result ≡ insn_with Mnemonic.Jump (parts_in 32 (option_map (λ t. t.now) text.entry)) }
{
    let offset = offset(one(text)?)?;
    Some(Insn::Jump { offset })
}

// Jump by the immediate.
fn jump_long(text: Option<&[u8]>) -> Option<Insn>
    ensures { result ≡ insn_with Mnemonic.JumpLong (parts_in 32 (option_map (λ t. t.now) text.entry)) }
{
    let imm = imm(one(text)?)?;
    Some(Insn::JumpLong { imm })
}

// Call of the only helper.
fn call_helper(text: Option<&[u8]>) -> Option<Insn>
    ensures { result ≡ insn_with Mnemonic.CallHelper (parts_in 32 (option_map (λ t. t.now) text.entry)) }
{
    let _number = helper(one(text)?)?;
    Some(Insn::CallHelper)
}

// Call of a function of the same program.
fn call_local(text: Option<&[u8]>) -> Option<Insn>
    ensures { result ≡ insn_with Mnemonic.CallLocal (parts_in 32 (option_map (λ t. t.now) text.entry)) }
{
    let imm = imm(one(text)?)?;
    Some(Insn::CallLocal { imm })
}

// Return.
#[tactic(auto, using(crate::proofs::SpacedParts::is_some_part))]
fn exit(text: Option<&[u8]>) -> Option<Insn>
    ensures { result ≡ insn_with Mnemonic.Exit (parts_in 32 (option_map (λ t. t.now) text.entry)) }
{
    if text.is_some() {
        return None;
    }
    Some(Insn::Exit)
}
