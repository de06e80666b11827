// The line of a show.
ghost use Rattle.cp_base.specs.Growth.{Appended, Pushed};
ghost use Rattle.cp_base.specs.declared.limits.TheConstants.{MAX_TRANSFER};
ghost use Rattle.std.specs.Prelude.{◌≡◌, ◌+◌, ◌<◌, ◌≤◌, ◌++◌, length, OnOk, OnErr, IsOk};
ghost use Rattle.script_line.specs.Line.{line_text};
ghost use Rattle.script_cmds.specs.Text.{show_line};
ghost use Rattle.history_model.specs.Text.{shown_text};

use crate::laws::LONGEST_LINE;
use crate::pieces::{append_data, append_lettered, lettered_len, make_line_room};
use cp_base::{Bytes, NoMemory, SpaceId};
use script_cmds::Show;

/// Adds the line of a show with its bytes at the end, for which there is room.
pub fn append_show(out: &mut Bytes, show: &Show, bytes: &[u8])
    requires { length (shown_text show.now bytes.now) ≤ out.old.spare }
    ensures { Appended out.old out.new (shown_text show.now bytes.now) }
{
    append_range(out, show);
    append_data(out, bytes);
}

// Adds the line of a show as a script has it.
fn append_range(out: &mut Bytes, show: &Show)
    requires { length (line_text (show_line show.now)) ≤ out.old.spare }
    ensures { Appended out.old out.new (line_text (show_line show.now)) }
{
    match show.range.space() {
        SpaceId::Nvm(n) => append_lettered(out, "show nvm ", n as u64),
        SpaceId::Mem(n) => append_lettered(out, "show mem ", n as u64),
    }
    append_lettered(out, " at=", show.range.start());
    append_lettered(out, " len=", show.range.len());
}

// How many bytes the line of a show takes as a script has it.
fn range_len(show: &Show) -> u64
    ensures value { result ≡ length (line_text (show_line show.now)) }
    ensures bounded { result ≤ 78 }
{
    let space = match show.range.space() {
        SpaceId::Nvm(n) => lettered_len("show nvm ", n as u64),
        SpaceId::Mem(n) => lettered_len("show mem ", n as u64),
    };
    space + lettered_len(" at=", show.range.start()) + lettered_len(" len=", show.range.len())
}

/// Adds the line of a show with its bytes at the end. It is refused only where there is less room than
/// the line needs, so never where there is room for the longest line and there are at most 8,192 bytes.
pub fn push_show(out: &mut Bytes, show: &Show, bytes: &[u8]) -> Result<(), NoMemory>
    ensures pushed { Pushed result out.old out.new (shown_text show.now bytes.now) }
    ensures reserved { length bytes.now ≤ MAX_TRANSFER → LONGEST_LINE ≤ out.old.spare → IsOk result }
{
    make_line_room(out, range_len(show), bytes)?;
    append_show(out, show, bytes);
    Ok(())
}
