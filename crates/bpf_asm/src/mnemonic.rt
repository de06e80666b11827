//! The mnemonics of assembly text, and the one table of them.
ghost use Rattle.std.specs.Prelude.{◌≡◌, ◌≤◌, ◌++◌, length, find};
ghost use Rattle.std.specs.Str.{bytes_eq};
ghost use Rattle.bpf_asm.specs.Mnemonic as spec;
ghost use Rattle.bpf_asm.specs.Mnemonic.{mnemonic_text, name_of, suffix_of};

use bpf_isa::{AluOp, AtomicOp, JumpOp, Size};

/// The first word of a line, which says the form of the instruction and its operation, width or size.
///
/// The second operand of arithmetic and of a jump is a register or a number, so a mnemonic of those
/// stands for two forms. Where one has a `bool`, it says whether the operation is of 64 bits, else of 32.
#[derive(Clone, Copy)]
pub enum Mnemonic {
    /// Arithmetic, but divisions and moves.
    Binary(AluOp, bool),
    /// Division or modulo.
    Division(AluOp, bool),
    /// Move.
    Move(bool),
    /// Negation.
    Negate(bool),
    /// Move that sign-extends to 32 bits.
    Extend32,
    /// Move that sign-extends to 64 bits.
    Extend64,
    /// Low bits to little-endian order.
    ToLittle,
    /// Low bits to big-endian order.
    ToBig,
    /// Low bytes in reverse order.
    Swap,
    /// Load of an immediate of 64 bits.
    LoadImm,
    /// Load that zero-extends.
    Load(Size),
    /// Load that sign-extends.
    LoadSigned(Size),
    /// Store of an immediate.
    StoreImm(Size),
    /// Store of a register.
    StoreReg(Size),
    /// Atomic operation without the fetch of the old value.
    Atomic(AtomicOp, Size),
    /// Atomic operation or exchange that fetches the old value.
    AtomicFetch(AtomicOp, Size),
    /// Compare and exchange.
    CompareExchange(Size),
    /// Conditional jump.
    Branch(JumpOp, bool),
    /// Jump by the offset.
    Jump,
    /// Jump by the immediate.
    JumpLong,
    /// Call of a helper.
    CallHelper,
    /// Call of a function of the same program.
    CallLocal,
    /// Return.
    Exit,
}

/// All mnemonics, each once.
pub const MNEMONICS: [Mnemonic; 98] = [
    Mnemonic::Binary(AluOp::Add, true),
    Mnemonic::Binary(AluOp::Add, false),
    Mnemonic::Binary(AluOp::Sub, true),
    Mnemonic::Binary(AluOp::Sub, false),
    Mnemonic::Binary(AluOp::Mul, true),
    Mnemonic::Binary(AluOp::Mul, false),
    Mnemonic::Binary(AluOp::Or, true),
    Mnemonic::Binary(AluOp::Or, false),
    Mnemonic::Binary(AluOp::And, true),
    Mnemonic::Binary(AluOp::And, false),
    Mnemonic::Binary(AluOp::Lsh, true),
    Mnemonic::Binary(AluOp::Lsh, false),
    Mnemonic::Binary(AluOp::Rsh, true),
    Mnemonic::Binary(AluOp::Rsh, false),
    Mnemonic::Binary(AluOp::Xor, true),
    Mnemonic::Binary(AluOp::Xor, false),
    Mnemonic::Binary(AluOp::Arsh, true),
    Mnemonic::Binary(AluOp::Arsh, false),
    Mnemonic::Division(AluOp::Div, true),
    Mnemonic::Division(AluOp::Div, false),
    Mnemonic::Division(AluOp::Sdiv, true),
    Mnemonic::Division(AluOp::Sdiv, false),
    Mnemonic::Division(AluOp::Mod, true),
    Mnemonic::Division(AluOp::Mod, false),
    Mnemonic::Division(AluOp::Smod, true),
    Mnemonic::Division(AluOp::Smod, false),
    Mnemonic::Move(true),
    Mnemonic::Move(false),
    Mnemonic::Negate(true),
    Mnemonic::Negate(false),
    Mnemonic::Extend32,
    Mnemonic::Extend64,
    Mnemonic::ToLittle,
    Mnemonic::ToBig,
    Mnemonic::Swap,
    Mnemonic::LoadImm,
    Mnemonic::Load(Size::B),
    Mnemonic::Load(Size::H),
    Mnemonic::Load(Size::W),
    Mnemonic::Load(Size::D),
    Mnemonic::LoadSigned(Size::B),
    Mnemonic::LoadSigned(Size::H),
    Mnemonic::LoadSigned(Size::W),
    Mnemonic::StoreImm(Size::B),
    Mnemonic::StoreImm(Size::H),
    Mnemonic::StoreImm(Size::W),
    Mnemonic::StoreImm(Size::D),
    Mnemonic::StoreReg(Size::B),
    Mnemonic::StoreReg(Size::H),
    Mnemonic::StoreReg(Size::W),
    Mnemonic::StoreReg(Size::D),
    Mnemonic::Atomic(AtomicOp::Add, Size::W),
    Mnemonic::Atomic(AtomicOp::Add, Size::D),
    Mnemonic::Atomic(AtomicOp::Or, Size::W),
    Mnemonic::Atomic(AtomicOp::Or, Size::D),
    Mnemonic::Atomic(AtomicOp::And, Size::W),
    Mnemonic::Atomic(AtomicOp::And, Size::D),
    Mnemonic::Atomic(AtomicOp::Xor, Size::W),
    Mnemonic::Atomic(AtomicOp::Xor, Size::D),
    Mnemonic::AtomicFetch(AtomicOp::Add, Size::W),
    Mnemonic::AtomicFetch(AtomicOp::Add, Size::D),
    Mnemonic::AtomicFetch(AtomicOp::Or, Size::W),
    Mnemonic::AtomicFetch(AtomicOp::Or, Size::D),
    Mnemonic::AtomicFetch(AtomicOp::And, Size::W),
    Mnemonic::AtomicFetch(AtomicOp::And, Size::D),
    Mnemonic::AtomicFetch(AtomicOp::Xor, Size::W),
    Mnemonic::AtomicFetch(AtomicOp::Xor, Size::D),
    Mnemonic::AtomicFetch(AtomicOp::Xchg, Size::W),
    Mnemonic::AtomicFetch(AtomicOp::Xchg, Size::D),
    Mnemonic::CompareExchange(Size::W),
    Mnemonic::CompareExchange(Size::D),
    Mnemonic::Branch(JumpOp::Jeq, true),
    Mnemonic::Branch(JumpOp::Jeq, false),
    Mnemonic::Branch(JumpOp::Jgt, true),
    Mnemonic::Branch(JumpOp::Jgt, false),
    Mnemonic::Branch(JumpOp::Jge, true),
    Mnemonic::Branch(JumpOp::Jge, false),
    Mnemonic::Branch(JumpOp::Jset, true),
    Mnemonic::Branch(JumpOp::Jset, false),
    Mnemonic::Branch(JumpOp::Jne, true),
    Mnemonic::Branch(JumpOp::Jne, false),
    Mnemonic::Branch(JumpOp::Jsgt, true),
    Mnemonic::Branch(JumpOp::Jsgt, false),
    Mnemonic::Branch(JumpOp::Jsge, true),
    Mnemonic::Branch(JumpOp::Jsge, false),
    Mnemonic::Branch(JumpOp::Jlt, true),
    Mnemonic::Branch(JumpOp::Jlt, false),
    Mnemonic::Branch(JumpOp::Jle, true),
    Mnemonic::Branch(JumpOp::Jle, false),
    Mnemonic::Branch(JumpOp::Jslt, true),
    Mnemonic::Branch(JumpOp::Jslt, false),
    Mnemonic::Branch(JumpOp::Jsle, true),
    Mnemonic::Branch(JumpOp::Jsle, false),
    Mnemonic::Jump,
    Mnemonic::JumpLong,
    Mnemonic::CallHelper,
    Mnemonic::CallLocal,
    Mnemonic::Exit,
];

impl Mnemonic {
    /// The mnemonic of a text, or `None` where the text is none.
    pub fn of(text: &[u8]) -> Option<Mnemonic>
        ensures { result ≡ find (λ m. bytes_eq text.now (mnemonic_text m)) MNEMONICS }
    {
        first_spelled(&MNEMONICS, text)
    }

    /// The name at the front of the text.
    pub fn name(self) -> &'static [u8]
        ensures value { result.now ≡ name_of self }
        ensures len { length result.now ≤ 7 }
    {
        match self {
            Mnemonic::Binary(op, _) | Mnemonic::Division(op, _) => alu_name(op),
            Mnemonic::Move(_) => alu_name(AluOp::Mov),
            Mnemonic::Negate(_) => alu_name(AluOp::Neg),
            Mnemonic::Extend32 | Mnemonic::Extend64 => b"movsx",
            Mnemonic::ToLittle => b"le",
            Mnemonic::ToBig => b"be",
            Mnemonic::Swap => b"swap",
            Mnemonic::LoadImm => b"lddw",
            Mnemonic::Load(_) => b"ldx",
            Mnemonic::LoadSigned(_) => b"ldsx",
            Mnemonic::StoreImm(_) => b"st",
            Mnemonic::StoreReg(_) => b"stx",
            Mnemonic::Atomic(op, _) => atomic_name(op),
            Mnemonic::AtomicFetch(op, _) => fetch_name(op),
            Mnemonic::CompareExchange(_) => b"cmpxchg",
            Mnemonic::Branch(op, _) => jump_name(op),
            Mnemonic::Jump => b"ja",
            Mnemonic::JumpLong => b"jal",
            Mnemonic::CallHelper => b"call",
            Mnemonic::CallLocal => b"callp",
            Mnemonic::Exit => b"exit",
        }
    }

    /// What stands behind the name: the width or the size, where there is one.
    pub fn suffix(self) -> &'static [u8]
        ensures value { result.now ≡ suffix_of self }
        ensures len { length result.now ≤ 2 }
    {
        match self {
            Mnemonic::Binary(_, wide)
            | Mnemonic::Division(_, wide)
            | Mnemonic::Move(wide)
            | Mnemonic::Negate(wide)
            | Mnemonic::Branch(_, wide) => width_text(wide),
            Mnemonic::Extend32 => width_text(false),
            Mnemonic::Extend64 => width_text(true),
            Mnemonic::Load(size)
            | Mnemonic::LoadSigned(size)
            | Mnemonic::StoreImm(size)
            | Mnemonic::StoreReg(size)
            | Mnemonic::Atomic(_, size)
            | Mnemonic::AtomicFetch(_, size)
            | Mnemonic::CompareExchange(size) => size_text(size),
            Mnemonic::ToLittle
            | Mnemonic::ToBig
            | Mnemonic::Swap
            | Mnemonic::LoadImm
            | Mnemonic::Jump
            | Mnemonic::JumpLong
            | Mnemonic::CallHelper
            | Mnemonic::CallLocal
            | Mnemonic::Exit => b"",
        }
    }

    // Whether a text is this mnemonic's.
    #[tactic(auto, using(crate::proofs::Names::spelled_by_parts))]
    fn is_spelled(self, text: &[u8]) -> bool
        ensures { result ≡ bytes_eq text.now (mnemonic_text self) }
    {
        match text.strip_prefix(self.name()) {
            Some(rest) => rest == self.suffix(),
            None => false,
        }
    }
}

// The first of these mnemonics that has this text.
fn first_spelled(mnemonics: &[Mnemonic], text: &[u8]) -> Option<Mnemonic>
    ensures { result ≡ find (λ m. bytes_eq text.now (mnemonic_text m)) mnemonics.now }
{
    mnemonics.iter().copied().find(|m| m.is_spelled(text))
}

// The name of an arithmetic operation.
fn alu_name(op: AluOp) -> &'static [u8]
    ensures value { result.now ≡ spec.alu_name op }
    ensures len { length result.now ≤ 7 }
{
    match op {
        AluOp::Add => b"add",
        AluOp::Sub => b"sub",
        AluOp::Mul => b"mul",
        AluOp::Div => b"div",
        AluOp::Sdiv => b"sdiv",
        AluOp::Mod => b"mod",
        AluOp::Smod => b"smod",
        AluOp::Or => b"or",
        AluOp::And => b"and",
        AluOp::Xor => b"xor",
        AluOp::Lsh => b"lsh",
        AluOp::Rsh => b"rsh",
        AluOp::Arsh => b"arsh",
        AluOp::Neg => b"neg",
        AluOp::Mov => b"mov",
        AluOp::Movsx8 | AluOp::Movsx16 | AluOp::Movsx32 => b"movsx",
    }
}

// The name of a conditional jump.
fn jump_name(op: JumpOp) -> &'static [u8]
    ensures value { result.now ≡ spec.jump_name op }
    ensures len { length result.now ≤ 7 }
{
    match op {
        JumpOp::Jeq => b"jeq",
        JumpOp::Jgt => b"jgt",
        JumpOp::Jge => b"jge",
        JumpOp::Jset => b"jset",
        JumpOp::Jne => b"jne",
        JumpOp::Jsgt => b"jsgt",
        JumpOp::Jsge => b"jsge",
        JumpOp::Jlt => b"jlt",
        JumpOp::Jle => b"jle",
        JumpOp::Jslt => b"jslt",
        JumpOp::Jsle => b"jsle",
    }
}

// The name of an atomic operation without the fetch of the old value.
fn atomic_name(op: AtomicOp) -> &'static [u8]
    ensures value { result.now ≡ spec.atomic_name op }
    ensures len { length result.now ≤ 7 }
{
    match op {
        AtomicOp::Add => b"aadd",
        AtomicOp::Or => b"aor",
        AtomicOp::And => b"aand",
        AtomicOp::Xor => b"axor",
        AtomicOp::Xchg => b"xchg",
        AtomicOp::Cmpxchg => b"cmpxchg",
    }
}

// The name of an atomic operation with the fetch of the old value.
fn fetch_name(op: AtomicOp) -> &'static [u8]
    ensures value { result.now ≡ spec.fetch_name op }
    ensures len { length result.now ≤ 7 }
{
    match op {
        AtomicOp::Add => b"afadd",
        AtomicOp::Or => b"afor",
        AtomicOp::And => b"afand",
        AtomicOp::Xor => b"afxor",
        AtomicOp::Xchg => b"xchg",
        AtomicOp::Cmpxchg => b"cmpxchg",
    }
}

// The width of an operation.
fn width_text(wide: bool) -> &'static [u8]
    ensures value { result.now ≡ spec.width_text wide }
    ensures len { length result.now ≤ 2 }
{
    if wide { b"64" } else { b"32" }
}

// The letter of a size.
fn size_text(size: Size) -> &'static [u8]
    ensures value { result.now ≡ spec.size_text size }
    ensures len { length result.now ≤ 2 }
{
    match size {
        Size::B => b"b",
        Size::H => b"h",
        Size::W => b"w",
        Size::D => b"d",
    }
}
