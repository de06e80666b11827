//! One unit of code.

/// The fields of one unit of code, 8 bytes (RFC 9669, section 3.1).
///
/// The offset and the immediate are kept as their bits: an instruction reads them in two's complement.
#[derive(Clone, Copy, Debug, PartialEq, Eq)]
pub struct Fields {
    /// The class in bits 0 to 2; what the other bits say depends on it.
    pub opcode: u8,
    /// The destination, the low half of the register byte.
    pub dst: u8,
    /// The source, the high half of the register byte.
    pub src: u8,
    /// The 16 bits of the offset.
    pub offset: u16,
    /// The 32 bits of the immediate.
    pub imm: u32,
}
