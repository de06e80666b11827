// The pieces that the lines share, and the room for a line.
ghost use Rattle.std.specs.Prelude.{◌≡◌, ◌+◌, ◌*◌, ◌<◌, ◌≤◌, ◌^◌, ◌++◌, length, OnOk, OnErr, IsOk};
ghost use Rattle.cp_base.specs.Growth.{Appended, Reserved};
ghost use Rattle.cp_base.specs.declared.limits.TheConstants.{MAX_TRANSFER};
ghost use Rattle.history_model.specs.Text.{lettered};
ghost use Rattle.replay_print.specs.Parts.{data_text};

use crate::laws::LONGEST_LINE;
use cp_base::{Bytes, NoMemory};
use cp_text::{append_hex, append_number};

// Adds letters and a number at the end, for which there is room.
pub(crate) fn append_lettered(out: &mut Bytes, letters: &str, n: u64)
    requires { length (lettered letters.now n) ≤ out.old.spare }
    ensures { Appended out.old out.new (lettered letters.now n) }
{
    out.append(letters.as_bytes());
    append_number(out, n);
}

// Adds data and a newline at the end, for which there is room.
pub(crate) fn append_data(out: &mut Bytes, bytes: &[u8])
    requires { length (data_text bytes.now) ≤ out.old.spare }
    ensures { Appended out.old out.new (data_text bytes.now) }
{
    out.append(b" d=");
    append_hex(out, bytes);
    out.append(b"\n");
}

// How many bytes letters and a number take.
pub(crate) fn lettered_len(letters: &str, n: u64) -> u64
    requires { length letters.now ≤ 16 }
    ensures value { result ≡ length (lettered letters.now n) }
    ensures small { n < 2 ^ 32 → result ≤ length letters.now + 10 }
    ensures bounded { result ≤ length letters.now + 20 }
{
    let mut buffer = itoa::Buffer::new();
    letters.len() as u64 + buffer.format(n).len() as u64
}

// Takes memory only where there is no room for a front of a line and the data behind it.
pub(crate) fn make_line_room(out: &mut Bytes, front: u64, bytes: &[u8]) -> Result<(), NoMemory>
    requires { front ≤ 94 }
    ensures room { Reserved result out.old out.new (front + length (data_text bytes.now)) }
    ensures reserved { length bytes.now ≤ MAX_TRANSFER → LONGEST_LINE ≤ out.old.spare → IsOk result }
{
    // No room is as large as a length that is past all numbers.
    let _room = out.spare();
    match (2 * bytes.len() as u64).checked_add(front + 4) {
        Some(len) => out.reserve(len),
        None => Err(NoMemory),
    }
}
