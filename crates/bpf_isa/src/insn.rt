//! One instruction, by its form.
use crate::operand::{Reg, Size, Width};
use crate::operation::{AluOp, AtomicOp, JumpOp};

/// An instruction: one variant for each form of the encoding (RFC 9669, section 3), with a field for
/// each thing that the form leaves open.
///
/// `wide` is true in the class of 64 bits and false in that of 32; `dst` and `src` are the registers;
/// `offset` counts bytes in an access to memory and places (of 8 bytes each) in a jump; `imm` is the
/// immediate, which instructions of 64 bits sign-extend.
#[derive(Clone, Copy, Debug, PartialEq, Eq)]
pub enum Insn {
    /// Arithmetic with an immediate (section 4.1).
    AluImm {
        op: AluOp,
        wide: bool,
        dst: Reg,
        imm: i32,
    },
    /// Arithmetic with a register (section 4.1).
    AluReg {
        op: AluOp,
        wide: bool,
        dst: Reg,
        src: Reg,
    },
    /// Division or modulo by an immediate (section 4.1).
    DivImm {
        op: AluOp,
        wide: bool,
        dst: Reg,
        imm: i32,
    },
    /// Division or modulo by a register (section 4.1).
    DivReg {
        op: AluOp,
        wide: bool,
        dst: Reg,
        src: Reg,
    },
    /// Negation (section 4.1).
    Neg {
        wide: bool,
        dst: Reg,
    },
    /// Move of an immediate (section 4.1).
    MovImm {
        wide: bool,
        dst: Reg,
        imm: i32,
    },
    /// Move of a register (section 4.1).
    MovReg {
        wide: bool,
        dst: Reg,
        src: Reg,
    },
    /// Move that sign-extends the low 8 or 16 bits to 32 (section 4.1).
    Movsx32 {
        op: AluOp,
        dst: Reg,
        src: Reg,
    },
    /// Move that sign-extends the low 8, 16 or 32 bits to 64 (section 4.1).
    Movsx64 {
        op: AluOp,
        dst: Reg,
        src: Reg,
    },
    /// Low bits to little-endian order (section 4.2).
    ToLittle {
        bits: Width,
        dst: Reg,
    },
    /// Low bits to big-endian order (section 4.2).
    ToBig {
        bits: Width,
        dst: Reg,
    },
    /// Low bytes in reverse order (section 4.2).
    Swap {
        bits: Width,
        dst: Reg,
    },
    /// Jump by the offset, JA of the class of 64 bits (section 4.3).
    Jump {
        offset: i16,
    },
    /// Jump by the immediate, JA of the class of 32 bits (section 4.3).
    JumpLong {
        imm: i32,
    },
    /// Conditional jump on a register and an immediate (section 4.3).
    BranchImm {
        op: JumpOp,
        wide: bool,
        dst: Reg,
        offset: i16,
        imm: i32,
    },
    /// Conditional jump on two registers (section 4.3).
    BranchReg {
        op: JumpOp,
        wide: bool,
        dst: Reg,
        src: Reg,
        offset: i16,
    },
    /// Call of the helper 1, the only one (section 4.3.1).
    CallHelper,
    /// Call of a function of the same program, by the immediate (section 4.3.2).
    CallLocal {
        imm: i32,
    },
    /// Return (section 4.3).
    Exit,
    /// Load of an immediate of 64 bits, the only instruction of 16 bytes (section 5.4).
    LoadImm {
        dst: Reg,
        value: u64,
    },
    /// Load that zero-extends (section 5.1).
    Load {
        size: Size,
        dst: Reg,
        src: Reg,
        offset: i16,
    },
    /// Load that sign-extends (section 5.2).
    LoadSigned {
        size: Size,
        dst: Reg,
        src: Reg,
        offset: i16,
    },
    /// Store of an immediate (section 5.1).
    StoreImm {
        size: Size,
        dst: Reg,
        offset: i16,
        imm: i32,
    },
    /// Store of a register (section 5.1).
    StoreReg {
        size: Size,
        dst: Reg,
        src: Reg,
        offset: i16,
    },
    /// Atomic operation without the fetch of the old value (section 5.3).
    Atomic {
        op: AtomicOp,
        size: Size,
        dst: Reg,
        src: Reg,
        offset: i16,
    },
    /// Atomic operation or exchange that fetches the old value into the source (section 5.3).
    AtomicFetch {
        op: AtomicOp,
        size: Size,
        dst: Reg,
        src: Reg,
        offset: i16,
    },
    /// Compare and exchange, which fetches the old value into R0 (section 5.3).
    CompareExchange {
        size: Size,
        dst: Reg,
        src: Reg,
        offset: i16,
    },
}
