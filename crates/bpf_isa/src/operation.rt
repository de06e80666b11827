//! The operations that instructions name, each under the standard's name.

/// An arithmetic operation (RFC 9669, section 4.1).
///
/// The signed forms of division and modulo and the sign-extending moves, which the encoding tells apart
/// by the offset, are operations of their own.
#[derive(Clone, Copy, Debug, PartialEq, Eq)]
pub enum AluOp {
    /// Sum.
    Add,
    /// Difference.
    Sub,
    /// Product.
    Mul,
    /// Unsigned quotient.
    Div,
    /// Signed quotient.
    Sdiv,
    /// Unsigned remainder.
    Mod,
    /// Signed remainder.
    Smod,
    /// Bitwise or.
    Or,
    /// Bitwise and.
    And,
    /// Bitwise exclusive or.
    Xor,
    /// Shift to the left.
    Lsh,
    /// Shift to the right that fills with zeros.
    Rsh,
    /// Shift to the right that keeps the sign.
    Arsh,
    /// Negation.
    Neg,
    /// Move.
    Mov,
    /// Move of the low 8 bits, sign-extended.
    Movsx8,
    /// Move of the low 16 bits, sign-extended.
    Movsx16,
    /// Move of the low 32 bits, sign-extended.
    Movsx32,
}

/// A byte swap (RFC 9669, section 4.2).
#[derive(Clone, Copy, Debug, PartialEq, Eq)]
pub enum SwapOp {
    /// To little-endian order, from the order of the machine, which is little-endian.
    ToLittle,
    /// To big-endian order, from the order of the machine, which is little-endian.
    ToBig,
    /// Always to the reverse order.
    Swap,
}

/// The comparison of a conditional jump (RFC 9669, section 4.3).
#[derive(Clone, Copy, Debug, PartialEq, Eq)]
pub enum JumpOp {
    /// Equal.
    Jeq,
    /// Greater, unsigned.
    Jgt,
    /// Greater or equal, unsigned.
    Jge,
    /// Some bit is set in both.
    Jset,
    /// Not equal.
    Jne,
    /// Greater, signed.
    Jsgt,
    /// Greater or equal, signed.
    Jsge,
    /// Less, unsigned.
    Jlt,
    /// Less or equal, unsigned.
    Jle,
    /// Less, signed.
    Jslt,
    /// Less or equal, signed.
    Jsle,
}

/// What an atomic instruction does to memory (RFC 9669, section 5.3).
///
/// Whether the instruction also fetches the old value is said by `Insn`.
#[derive(Clone, Copy, Debug, PartialEq, Eq)]
pub enum AtomicOp {
    /// The old value and the source are added.
    Add,
    /// Bitwise or of the old value and the source.
    Or,
    /// Bitwise and of the old value and the source.
    And,
    /// Bitwise exclusive or of the old value and the source.
    Xor,
    /// The source is stored.
    Xchg,
    /// The source is stored where the old value equals R0.
    Cmpxchg,
}
