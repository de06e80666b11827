// Decimal numbers of 64 bits without a sign.
ghost use Rattle.std.specs.Prelude.{◌≡◌, ◌+◌, ◌^◌, ◌<◌, ◌≤◌, ◌&&◌, nat_lt, length, decimal, if◌then◌else◌};
ghost use Rattle.std.specs.Char.{is_ascii_digit};
ghost use Rattle.cp_base.specs.Growth.{Appended, Pushed};
ghost use Rattle.cp_text.specs.Number.{extended, spelled_number};

use crate::pieces::push_piece;
use cp_base::{Bytes, NoMemory};

/// The number that a text spells. `None` where it spells none: it is empty, a byte is no digit, a
/// zero leads other digits, or the value is above 18,446,744,073,709,551,615.
pub fn number(text: &[u8]) -> Option<u64>
    ensures { result ≡ spelled_number text.now }
{
    if text.is_empty() || (text.len() > 1 && text[0] == b'0') {
        return None;
    }
    let mut value: u64 = 0;
    for byte in text {
        value = with_digit(value, *byte)?;
    }
    Some(value)
}

// The value of digits with one byte more behind them.
fn with_digit(value: u64, byte: u8) -> Option<u64>
    ensures { result
        ≡ (if is_ascii_digit byte && nat_lt (extended value byte) (2 ^ 64)
        then Some (extended value byte)
        else None) }
{
    if !byte.is_ascii_digit() {
        return None;
    }
    value.checked_mul(10)?.checked_add((byte - b'0') as u64)
}

/// Adds the digits of a number at the end, for which there is room.
pub fn append_number(out: &mut Bytes, n: u64)
    requires { length (decimal n) ≤ out.old.spare }
    ensures { Appended out.old out.new (decimal n) }
{
    let mut buffer = itoa::Buffer::new();
    out.append(buffer.format(n).as_bytes());
}

/// Adds the digits of a number at the end. It is refused only where there is less room than that.
pub fn push_number(out: &mut Bytes, n: u64) -> Result<(), NoMemory>
    ensures { Pushed result out.old out.new (decimal n) }
{
    let mut buffer = itoa::Buffer::new();
    push_piece(out, buffer.format(n).as_bytes())
}
