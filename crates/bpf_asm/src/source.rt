//! The operands of a line, as they are read.
ghost use Rattle.std.specs.Prelude.{◌≡◌, ◌^◌, ◌≤◌, ℕ, Some, option_and_then};
ghost use Rattle.cp_text.specs.Number.{spelled_number};
ghost use Rattle.bpf_model.specs.Form.{named, swap_imms, move_offsets_32, move_offsets_64};
ghost use Rattle.bpf_asm.specs.Reading as spec;
ghost use Rattle.bpf_asm.specs.Reading.{at_most, below, helper_named, imm_in, offset_in, register_in, source_in};

use bpf_isa::{AluOp, Reg, Width};
use cp_text::{number, signed};

/// The second operand of arithmetic or of a jump.
#[derive(Clone, Copy)]
pub enum Source {
    Register(Reg),
    Immediate(i32),
}

impl Source {
    /// The register or the immediate of a text, or `None` where the text is neither.
    pub fn of(text: &[u8]) -> Option<Source>
        ensures { result ≡ source_in text.now }
    {
        match text.first() {
            None => None,
            Some(b'r') => Some(Source::Register(register(text, 10)?)),
            Some(_) => Some(Source::Immediate(imm(text)?)),
        }
    }
}

/// The register of a text, or `None` where the text is none or its number is above the greatest.
pub fn register(text: &[u8], greatest: u8) -> Option<Reg>
    requires { greatest ≤ 10 }
    ensures { result ≡ register_in greatest text.now }
{
    match text.first() {
        None => None,
        Some(b'r') => numbered(number(&text[1..]), greatest),
        Some(_) => None,
    }
}

// The register of a number.
fn numbered(n: Option<u64>, greatest: u8) -> Option<Reg>
    requires { greatest ≤ 10 }
    ensures { result ≡ at_most greatest n }
{
    let n = n?;
    if n > greatest as u64 {
        return None;
    }
    Reg::new(n as u8)
}

/// The offset of a text, or `None` where the text is none of 16 bits.
pub fn offset(text: &[u8]) -> Option<i16>
    ensures { result ≡ offset_in text.now }
{
    short(signed(text))
}

// A number of 16 bits.
fn short(n: Option<i64>) -> Option<i16>
    ensures { result ≡ below (2 ^ 15) n }
{
    let n = n?;
    if n < i16::MIN as i64 || n > i16::MAX as i64 {
        return None;
    }
    Some(n as i16)
}

/// The immediate of a text, or `None` where the text is none of 32 bits.
pub fn imm(text: &[u8]) -> Option<i32>
    ensures { result ≡ imm_in text.now }
{
    long(signed(text))
}

// A number of 32 bits.
fn long(n: Option<i64>) -> Option<i32>
    ensures { result ≡ below (2 ^ 31) n }
{
    let n = n?;
    if n < i32::MIN as i64 || n > i32::MAX as i64 {
        return None;
    }
    Some(n as i32)
}

/// The bits of a byte swap: 16, 32 or 64.
pub fn swap_bits(text: &[u8]) -> Option<Width>
    ensures { result ≡ spec.bits_named text.now }
{
    match number(text)? {
        16 => Some(Width::Bits16),
        32 => Some(Width::Bits32),
        64 => Some(Width::Bits64),
        _ => None,
    }
}

/// The move to 32 bits from the low 8 or 16.
pub fn move_to_32(text: &[u8]) -> Option<AluOp>
    ensures { result ≡ spec.move_to_32 text.now }
{
    match number(text)? {
        8 => Some(AluOp::Movsx8),
        16 => Some(AluOp::Movsx16),
        _ => None,
    }
}

/// The move to 64 bits from the low 8, 16 or 32.
pub fn move_to_64(text: &[u8]) -> Option<AluOp>
    ensures { result ≡ spec.move_to_64 text.now }
{
    match number(text)? {
        8 => Some(AluOp::Movsx8),
        16 => Some(AluOp::Movsx16),
        32 => Some(AluOp::Movsx32),
        _ => None,
    }
}

/// The number of the only helper, 1.
pub fn helper(text: &[u8]) -> Option<u64>
    ensures { result ≡ helper_named text.now }
{
    match number(text)? {
        1 => Some(1),
        _ => None,
    }
}
