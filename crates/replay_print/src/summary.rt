// The summary of a history.
ghost use Rattle.cp_base.specs.Growth.{Appended, Pushed};
ghost use Rattle.std.specs.Prelude.{◌≡◌, ◌+◌, ◌<◌, ◌≤◌, ◌++◌, length, OnOk, OnErr, IsOk};
ghost use Rattle.replay_print.specs.Lines.{summary_lines};
ghost use Rattle.replay_print.specs.Parts.{count_text};

use crate::laws::LONGEST_LINE;
use crate::pieces::{append_lettered, lettered_len};
use cp_base::{Bytes, NoMemory};

/// The numbers of a history's summary.
#[derive(Clone, Copy, Debug, PartialEq, Eq)]
pub struct Summary {
    /// All commands.
    pub commands: u32,
    /// Those that were answered `Ok`.
    pub ok: u32,
    /// The others.
    pub other: u32,
    /// The sum of all results, modulo 2^64.
    pub sum: u64,
}

/// Adds the four lines of a summary at the end, for which there is room.
pub fn append_summary(out: &mut Bytes, s: &Summary)
    requires { length (summary_lines s.now) ≤ out.old.spare }
    ensures { Appended out.old out.new (summary_lines s.now) }
{
    append_count(out, "commands ", s.commands as u64);
    append_count(out, "ok ", s.ok as u64);
    append_count(out, "other ", s.other as u64);
    append_count(out, "sum ", s.sum);
}

// Adds a line of the summary at the end, for which there is room.
fn append_count(out: &mut Bytes, letters: &str, n: u64)
    requires { length (count_text letters.now n) ≤ out.old.spare }
    ensures { Appended out.old out.new (count_text letters.now n) }
{
    append_lettered(out, letters, n);
    out.append(b"\n");
}

// How many bytes the four lines take.
fn summary_len(s: &Summary) -> u64
    ensures value { result ≡ length (summary_lines s.now) }
    ensures bounded { result ≤ 76 }
{
    lettered_len("commands ", s.commands as u64)
        + lettered_len("ok ", s.ok as u64)
        + lettered_len("other ", s.other as u64)
        + lettered_len("sum ", s.sum)
        + 4
}

/// Adds the four lines of a summary at the end. It is refused only where there is less room than they
/// need, so never where there is room for the longest line.
pub fn push_summary(out: &mut Bytes, s: &Summary) -> Result<(), NoMemory>
    ensures pushed { Pushed result out.old out.new (summary_lines s.now) }
    ensures reserved { LONGEST_LINE ≤ out.old.spare → IsOk result }
{
    out.reserve(summary_len(s))?;
    append_summary(out, s);
    Ok(())
}
