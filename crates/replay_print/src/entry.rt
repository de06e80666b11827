// The line of an entry.
ghost use Rattle.cp_base.specs.Growth.{Appended, Pushed};
ghost use Rattle.cp_base.specs.declared.limits.TheConstants.{MAX_TRANSFER};
ghost use Rattle.std.specs.Prelude.{◌≡◌, ◌+◌, ◌<◌, ◌≤◌, ◌++◌, length, OnOk, OnErr, IsOk};
ghost use Rattle.replay_print.specs.Lines.{entry_line};
ghost use Rattle.replay_print.specs.Parts.{name_text, outcome_text};

use crate::laws::LONGEST_LINE;
use crate::names::status_name;
use crate::pieces::{append_data, append_lettered, lettered_len, make_line_room};
use cp_base::{Bytes, CommandWord, NoMemory, Status};

/// What a line of a history tells of one command: who sent it, and what the device answered.
#[derive(Clone, Copy, Debug)]
pub struct EntryLine<'a> {
    /// The host that sent the command.
    pub host: u32,
    /// How many commands this host had sent with it.
    pub ordinal: u32,
    /// The identifier under which it was sent.
    pub cid: u32,
    /// Which command it is.
    pub word: CommandWord,
    /// How it was answered.
    pub status: Status,
    /// The number that was answered.
    pub result: u64,
    /// The bytes that were read.
    pub bytes: &'a [u8],
}

/// Adds the line of an entry at the end, for which there is room. The line's number `k` counts from 1.
pub fn append_entry(out: &mut Bytes, k: u32, entry: &EntryLine)
    requires { length (entry_line k entry.now) ≤ out.old.spare }
    ensures { Appended out.old out.new (entry_line k entry.now) }
{
    append_name(out, k, entry.host, entry.ordinal, entry.cid);
    append_outcome(out, entry.word, entry.status, entry.result);
    append_data(out, entry.bytes);
}

// Adds the front of a line: its number and the name of its command.
fn append_name(out: &mut Bytes, k: u32, host: u32, ordinal: u32, cid: u32)
    requires { length (name_text k host ordinal cid) ≤ out.old.spare }
    ensures { Appended out.old out.new (name_text k host ordinal cid) }
{
    append_lettered(out, "#", k as u64);
    append_lettered(out, " h", host as u64);
    append_lettered(out, " n", ordinal as u64);
    append_lettered(out, " c", cid as u64);
}

// Adds the middle of a line: which command it is, and how it was answered.
fn append_outcome(out: &mut Bytes, word: CommandWord, status: Status, value: u64)
    requires { length (outcome_text word status value) ≤ out.old.spare }
    ensures { Appended out.old out.new (outcome_text word status value) }
{
    out.append(b" ");
    out.append(word.text());
    out.append(b" ");
    out.append(status_name(status).as_bytes());
    append_lettered(out, " r=", value);
}

// How many bytes the front of a line takes.
fn name_len(k: u32, host: u32, ordinal: u32, cid: u32) -> u64
    ensures value { result ≡ length (name_text k host ordinal cid) }
    ensures bounded { result ≤ 47 }
{
    lettered_len("#", k as u64)
        + lettered_len(" h", host as u64)
        + lettered_len(" n", ordinal as u64)
        + lettered_len(" c", cid as u64)
}

// How many bytes the middle of a line takes.
fn outcome_len(word: CommandWord, status: Status, value: u64) -> u64
    ensures value { result ≡ length (outcome_text word status value) }
    ensures bounded { result ≤ 47 }
{
    let names = word.text().len() + status_name(status).len() + 2;
    names as u64 + lettered_len(" r=", value)
}

/// Adds the line of an entry at the end. The line's number `k` counts from 1. It is refused only where
/// there is less room than the line needs, so never where there is room for the longest line and the
/// data has at most 8,192 bytes.
pub fn push_entry(out: &mut Bytes, k: u32, entry: &EntryLine) -> Result<(), NoMemory>
    ensures pushed { Pushed result out.old out.new (entry_line k entry.now) }
    ensures reserved { length entry.now.bytes.now ≤ MAX_TRANSFER → LONGEST_LINE ≤ out.old.spare → IsOk result }
{
    let name = name_len(k, entry.host, entry.ordinal, entry.cid);
    let outcome = outcome_len(entry.word, entry.status, entry.result);
    make_line_room(out, name + outcome, entry.bytes)?;
    append_entry(out, k, entry);
    Ok(())
}
