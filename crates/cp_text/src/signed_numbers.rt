// Decimal numbers of 64 bits with a sign.
ghost use Rattle.std.specs.Prelude.{◌≡◌, ◌≤◌, length};
ghost use Rattle.std.specs.Fmt.{signed_decimal};
ghost use Rattle.cp_base.specs.Growth.{Appended, Pushed};
ghost use Rattle.cp_text.specs.Signed.{negated, plain, signed_of};

use crate::numbers::number;
use crate::pieces::push_piece;
use cp_base::{Bytes, NoMemory};

/// The signed number of 64 bits that a text spells: a number, or a minus and a number that is not 0.
/// `None` where it spells none, or one below -2^63 or above 2^63 - 1.
pub fn signed(text: &[u8]) -> Option<i64>
    ensures { result ≡ signed_of text.now }
{
    match text.first() {
        None => None,
        Some(b'-') => negated(number(&text[1..])),
        Some(_) => plain(number(text)),
    }
}

// The signed number of a text without a minus.
fn plain(n: Option<u64>) -> Option<i64>
    ensures { result ≡ plain n }
{
    let n = n?;
    if n > i64::MAX as u64 {
        return None;
    }
    Some(n as i64)
}

// The signed number of a text after its minus.
fn negated(n: Option<u64>) -> Option<i64>
    ensures { result ≡ negated n }
{
    let before = n?.checked_sub(1)?;
    if before > i64::MAX as u64 {
        return None;
    }
    Some(-1 - before as i64)
}

/// Adds the text of a signed number at the end, for which there is room.
pub fn append_signed(out: &mut Bytes, n: i64)
    requires { length (signed_decimal n) ≤ out.old.spare }
    ensures { Appended out.old out.new (signed_decimal n) }
{
    let mut buffer = itoa::Buffer::new();
    out.append(buffer.format(n).as_bytes());
}

/// Adds the text of a signed number at the end. It is refused only where there is less room than
/// that.
pub fn push_signed(out: &mut Bytes, n: i64) -> Result<(), NoMemory>
    ensures { Pushed result out.old out.new (signed_decimal n) }
{
    let mut buffer = itoa::Buffer::new();
    push_piece(out, buffer.format(n).as_bytes())
}
