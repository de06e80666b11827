// Bytes as text, two hexadecimal digits in lower case for each.
ghost use Rattle.std.specs.Prelude.{◌≡◌, ◌*◌, ◌≤◌, length, is_some, option_map, IsSome, IfOk, IfSome, OnErr};
ghost use Rattle.std.specs.List.{list_all};
ghost use Rattle.cp_base.specs.Growth.{Appended, Pushed};
ghost use Rattle.cp_text.specs.HexText.{digit_of, hex_of, hex_text};

use cp_base::{Bytes, NoMemory};
use std::alloc::Global;

// How many bytes are written at a time.
const CHUNK: usize = 64;

/// The bytes that a text spells, with no room behind them. `None` where it spells none: the number
/// of its bytes is odd, or one of them is no digit 0 to 9 or a to f. Memory is taken only for bytes
/// that it spells.
pub fn hex_bytes(alloc: Global, text: &[u8]) -> Result<Option<Bytes>, NoMemory>
    ensures items { IfOk result (λ read. option_map (λ b. b.items) read ≡ hex_of text.now) }
    ensures spare { IfOk result (λ read. IfSome read (λ b. b.spare ≡ 0)) }
    ensures refused { OnErr result (IsSome (hex_of text.now)) }
{
    if !is_hex(text) {
        return Ok(None);
    }
    let bytes = match hex::decode(alloc, text) {
        Ok(bytes) => bytes,
        Err(_) => return Err(NoMemory),
    };
    Ok(Some(Bytes::from_slice(alloc, bytes.as_slice())?))
}

// Whether a text spells bytes: it has an even number of digits.
fn is_hex(text: &[u8]) -> bool
    ensures { result ≡ is_some (hex_of text.now) }
{
    text.len() % 2 == 0 && are_digits(text)
}

// Whether each byte is a digit. Upper-case letters are none.
fn are_digits(text: &[u8]) -> bool
    ensures { result ≡ list_all (λ byte. is_some (digit_of byte)) text.now }
{
    text.iter().all(|byte| is_digit(*byte))
}

// Whether a byte is a digit.
fn is_digit(byte: u8) -> bool
    ensures { result ≡ is_some (digit_of byte) }
{
    matches!(byte, b'0'..=b'9' | b'a'..=b'f')
}

/// Adds the digits of bytes at the end, for which there is room.
pub fn append_hex(out: &mut Bytes, bytes: &[u8])
    requires { 2 * length bytes.now ≤ out.old.spare }
    ensures { Appended out.old out.new (hex_text bytes.now) }
{
    let mut rest = bytes;
    while !rest.is_empty() {
        let (chunk, others) = rest.split_at(rest.len().min(CHUNK));
        append_chunk(out, chunk);
        rest = others;
    }
}

// Adds the digits of a few bytes at the end.
fn append_chunk(out: &mut Bytes, chunk: &[u8])
    requires few { length chunk.now ≤ 64 }
    requires room { 2 * length chunk.now ≤ out.old.spare }
    ensures { Appended out.old out.new (hex_text chunk.now) }
{
    let mut digits = [0u8; 2 * CHUNK];
    let text = &mut digits[..2 * chunk.len()];
    hex::encode_to_slice(chunk, text).unwrap();
    out.append(text);
}

/// Adds the digits of bytes at the end. It is refused only where there is less room than that.
#[tactic(auto, using(crate::proofs::HexTexts::hex_length))]
pub fn push_hex(out: &mut Bytes, bytes: &[u8]) -> Result<(), NoMemory>
    ensures { Pushed result out.old out.new (hex_text bytes.now) }
{
    out.reserve(2 * bytes.len() as u64)?;
    append_hex(out, bytes);
    Ok(())
}
