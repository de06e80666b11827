//! The bytes of an instruction.
ghost use Rattle.std.specs.Prelude.{◌≡◌, ◌+◌, ◌≤◌, ◌++◌, length, take, drop, slice_index, slice_range};
ghost use Rattle.std.specs.Int.{w16, w32, to_le_bytes};
ghost use Rattle.bpf_model.specs.Encoding as spec;
ghost use Rattle.bpf_model.specs.Encoding.{encoding};

use bpf_isa::{AluOp, AtomicOp, Insn, JumpOp, Size};
use cp_base::Bytes;

/// Adds the bytes of an instruction, 16 of a load of 64 bits and 8 of any other (RFC 9669, section 3),
/// to code that has room for them.
pub fn encode(insn: &Insn, code: &mut Bytes)
    requires { length (encoding insn.now) ≤ code.old.spare }
    ensures items { code.new.items ≡ code.old.items ++ encoding insn.now }
    ensures spare { code.new.spare + length (encoding insn.now) ≡ code.old.spare }
{
    append_first_unit(insn, code);
    append_second_unit(insn, code);
}

/// Adds the first unit of an instruction (RFC 9669, section 3.1).
fn append_first_unit(insn: &Insn, code: &mut Bytes)
    requires { 8 ≤ code.old.spare }
    ensures items { code.new.items ≡ code.old.items ++ take 8 (encoding insn.now) }
    ensures spare { code.new.spare + 8 ≡ code.old.spare }
{
    let [o0, o1] = offset(insn).to_le_bytes();
    let [i0, i1, i2, i3] = imm(insn).to_le_bytes();
    code.append(&[opcode(insn), registers(insn), o0, o1, i0, i1, i2, i3]);
}

/// Adds the second unit of a load of 64 bits, and nothing for another instruction (RFC 9669, section 3.2).
fn append_second_unit(insn: &Insn, code: &mut Bytes)
    requires { length (drop 8 (encoding insn.now)) ≤ code.old.spare }
    ensures items { code.new.items ≡ code.old.items ++ drop 8 (encoding insn.now) }
    ensures spare { code.new.spare + length (drop 8 (encoding insn.now)) ≡ code.old.spare }
{
    if let Insn::LoadImm { value, .. } = insn {
        let high = (*value / (1 << 32)) as u32;
        let [i0, i1, i2, i3] = high.to_le_bytes();
        code.append(&[0, 0, 0, 0, i0, i1, i2, i3]);
    }
}

/// The opcode, the first byte of an instruction.
fn opcode(insn: &Insn) -> u8
    ensures { result ≡ slice_index (encoding insn.now) 0 }
{
    match insn {
        Insn::AluImm { op, wide, .. } => alu_opcode(*op, 0, *wide),
        Insn::AluReg { op, wide, .. } => alu_opcode(*op, 1, *wide),
        Insn::DivImm { op, wide, .. } => alu_opcode(*op, 0, *wide),
        Insn::DivReg { op, wide, .. } => alu_opcode(*op, 1, *wide),
        Insn::Neg { wide, .. } => alu_opcode(AluOp::Neg, 0, *wide),
        Insn::MovImm { wide, .. } => alu_opcode(AluOp::Mov, 0, *wide),
        Insn::MovReg { wide, .. } => alu_opcode(AluOp::Mov, 1, *wide),
        Insn::Movsx32 { .. } => 0xbc,
        Insn::Movsx64 { .. } => 0xbf,
        Insn::ToLittle { .. } => 0xd4,
        Insn::ToBig { .. } => 0xdc,
        Insn::Swap { .. } => 0xd7,
        Insn::Jump { .. } => 0x05,
        Insn::JumpLong { .. } => 0x06,
        Insn::BranchImm { op, wide, .. } => jump_opcode(*op, 0, *wide),
        Insn::BranchReg { op, wide, .. } => jump_opcode(*op, 1, *wide),
        Insn::CallHelper => 0x85,
        Insn::CallLocal { .. } => 0x85,
        Insn::Exit => 0x95,
        Insn::LoadImm { .. } => 0x18,
        Insn::Load { size, .. } => access_opcode(3, *size, 1),
        Insn::LoadSigned { size, .. } => access_opcode(4, *size, 1),
        Insn::StoreImm { size, .. } => access_opcode(3, *size, 2),
        Insn::StoreReg { size, .. } => access_opcode(3, *size, 3),
        Insn::Atomic { size, .. } => access_opcode(6, *size, 3),
        Insn::AtomicFetch { size, .. } => access_opcode(6, *size, 3),
        Insn::CompareExchange { size, .. } => access_opcode(6, *size, 3),
    }
}

/// The registers, the second byte of an instruction: the source in its high half, the destination in its
/// low half. A call of a local function has 1 in place of a source.
fn registers(insn: &Insn) -> u8
    ensures { result ≡ slice_index (encoding insn.now) 1 }
{
    match insn {
        Insn::AluReg { dst, src, .. }
        | Insn::DivReg { dst, src, .. }
        | Insn::MovReg { dst, src, .. }
        | Insn::Movsx32 { dst, src, .. }
        | Insn::Movsx64 { dst, src, .. }
        | Insn::BranchReg { dst, src, .. }
        | Insn::Load { dst, src, .. }
        | Insn::LoadSigned { dst, src, .. }
        | Insn::StoreReg { dst, src, .. }
        | Insn::Atomic { dst, src, .. }
        | Insn::AtomicFetch { dst, src, .. }
        | Insn::CompareExchange { dst, src, .. } => 16 * src.number() + dst.number(),
        Insn::AluImm { dst, .. }
        | Insn::DivImm { dst, .. }
        | Insn::Neg { dst, .. }
        | Insn::MovImm { dst, .. }
        | Insn::ToLittle { dst, .. }
        | Insn::ToBig { dst, .. }
        | Insn::Swap { dst, .. }
        | Insn::BranchImm { dst, .. }
        | Insn::LoadImm { dst, .. }
        | Insn::StoreImm { dst, .. } => dst.number(),
        Insn::CallLocal { .. } => 16,
        Insn::Jump { .. } | Insn::JumpLong { .. } | Insn::CallHelper | Insn::Exit => 0,
    }
}

/// The bits of the offset, the third and fourth byte of an instruction.
fn offset(insn: &Insn) -> u16
    ensures { to_le_bytes w16 result ≡ slice_range (encoding insn.now) 2 4 }
{
    match insn {
        Insn::DivImm { op, .. }
        | Insn::DivReg { op, .. }
        | Insn::Movsx32 { op, .. }
        | Insn::Movsx64 { op, .. } => alu_offset(*op),
        Insn::Jump { offset }
        | Insn::BranchImm { offset, .. }
        | Insn::BranchReg { offset, .. }
        | Insn::Load { offset, .. }
        | Insn::LoadSigned { offset, .. }
        | Insn::StoreImm { offset, .. }
        | Insn::StoreReg { offset, .. }
        | Insn::Atomic { offset, .. }
        | Insn::AtomicFetch { offset, .. }
        | Insn::CompareExchange { offset, .. } => offset.cast_unsigned(),
        _ => 0,
    }
}

/// The bits of the immediate, the fifth to the eighth byte of an instruction. A load of 64 bits has the
/// low half of its value there.
fn imm(insn: &Insn) -> u32
    ensures { to_le_bytes w32 result ≡ slice_range (encoding insn.now) 4 8 }
{
    match insn {
        Insn::AluImm { imm, .. }
        | Insn::DivImm { imm, .. }
        | Insn::MovImm { imm, .. }
        | Insn::JumpLong { imm }
        | Insn::BranchImm { imm, .. }
        | Insn::CallLocal { imm }
        | Insn::StoreImm { imm, .. } => imm.cast_unsigned(),
        Insn::ToLittle { bits, .. } | Insn::ToBig { bits, .. } | Insn::Swap { bits, .. } => {
            bits.bits() as u32
        }
        Insn::CallHelper => 1,
        Insn::LoadImm { value, .. } => (*value % (1 << 32)) as u32,
        Insn::Atomic { op, .. } => atomic_code(*op),
        Insn::AtomicFetch { op, .. } => atomic_code(*op) + 1,
        Insn::CompareExchange { .. } => 0xf1,
        _ => 0,
    }
}

/// The code of an arithmetic operation.
fn alu_code(op: AluOp) -> u8
    ensures code { result ≡ spec.alu_code op }
    ensures four_bits { result ≤ 0xc }
{
    match op {
        AluOp::Add => 0x0,
        AluOp::Sub => 0x1,
        AluOp::Mul => 0x2,
        AluOp::Div | AluOp::Sdiv => 0x3,
        AluOp::Or => 0x4,
        AluOp::And => 0x5,
        AluOp::Lsh => 0x6,
        AluOp::Rsh => 0x7,
        AluOp::Neg => 0x8,
        AluOp::Mod | AluOp::Smod => 0x9,
        AluOp::Xor => 0xa,
        AluOp::Mov | AluOp::Movsx8 | AluOp::Movsx16 | AluOp::Movsx32 => 0xb,
        AluOp::Arsh => 0xc,
    }
}

/// The offset that tells operations of one code apart.
fn alu_offset(op: AluOp) -> u16
    ensures { result ≡ spec.alu_offset op }
{
    match op {
        AluOp::Sdiv | AluOp::Smod => 1,
        AluOp::Movsx8 => 8,
        AluOp::Movsx16 => 16,
        AluOp::Movsx32 => 32,
        _ => 0,
    }
}

/// The code of a conditional jump.
fn jump_code(op: JumpOp) -> u8
    ensures code { result ≡ spec.jump_code op }
    ensures four_bits { result ≤ 0xd }
{
    match op {
        JumpOp::Jeq => 0x1,
        JumpOp::Jgt => 0x2,
        JumpOp::Jge => 0x3,
        JumpOp::Jset => 0x4,
        JumpOp::Jne => 0x5,
        JumpOp::Jsgt => 0x6,
        JumpOp::Jsge => 0x7,
        JumpOp::Jlt => 0xa,
        JumpOp::Jle => 0xb,
        JumpOp::Jslt => 0xc,
        JumpOp::Jsle => 0xd,
    }
}

/// The width bits of an access to memory.
fn size_code(size: Size) -> u8
    ensures code { result ≡ spec.size_code size }
    ensures two_bits { result ≤ 3 }
{
    match size {
        Size::W => 0,
        Size::H => 1,
        Size::B => 2,
        Size::D => 3,
    }
}

/// The immediate of an atomic operation without FETCH.
fn atomic_code(op: AtomicOp) -> u32
    ensures code { result ≡ spec.atomic_code op }
    ensures one_byte { result ≤ 0xf0 }
{
    match op {
        AtomicOp::Add => 0x00,
        AtomicOp::Or => 0x40,
        AtomicOp::And => 0x50,
        AtomicOp::Xor => 0xa0,
        AtomicOp::Xchg => 0xe0,
        AtomicOp::Cmpxchg => 0xf0,
    }
}

/// The opcode of an arithmetic operation with an immediate, source 0, or a register, source 1.
fn alu_opcode(op: AluOp, source: u8, wide: bool) -> u8
    requires { source ≤ 1 }
    ensures { result ≡ spec.alu_opcode op source wide }
{
    16 * alu_code(op) + 8 * source + if wide { 7 } else { 4 }
}

/// The opcode of a conditional jump with an immediate, source 0, or a register, source 1.
fn jump_opcode(op: JumpOp, source: u8, wide: bool) -> u8
    requires { source ≤ 1 }
    ensures { result ≡ spec.jump_opcode op source wide }
{
    16 * jump_code(op) + 8 * source + if wide { 5 } else { 6 }
}

/// The opcode of an access to memory.
fn access_opcode(mode: u8, size: Size, class: u8) -> u8
    requires mode { mode ≤ 6 }
    requires class { class ≤ 3 }
    ensures { result ≡ spec.access_opcode mode size class }
{
    32 * mode + 8 * size_code(size) + class
}
