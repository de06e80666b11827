// The lines of a command that is sent and of a reply that is taken.
ghost use Rattle.std.specs.Prelude.{OnOk};
ghost use Rattle.script_line.specs.Line.{send_line, take_line};
ghost use Rattle.script_line.specs.Printing.{PrintsLine};

use crate::commands::contents_of;
use crate::content::identifier;
use crate::{LineKind, Version, push_line};
use cp_base::{Bytes, Command, NoMemory};

/// Adds the line of a command that is sent under an identifier of the device, in a script of this version, with its
/// newline.
#[tactic(auto, using(crate::proofs::Sends::send_shape))]
pub fn push_send(
    out: &mut Bytes,
    version: Version,
    cid: u32,
    command: &Command,
) -> Result<(), NoMemory>
    ensures { OnOk result (PrintsLine (send_line version cid command.now) out.old.items out.new.items) }
{
    let kind = LineKind::Send(version, command.word());
    let contents = contents_of(version, cid, command);
    push_line(out, kind, contents.as_slice())
}

/// Adds the line of a reply that is taken, by its identifier of the device, in a script of this version, with its newline.
#[tactic(auto, using(crate::proofs::Sends::take_shape))]
pub fn push_take(out: &mut Bytes, version: Version, cid: u32) -> Result<(), NoMemory>
    ensures { OnOk result (PrintsLine (take_line version cid) out.old.items out.new.items) }
{
    push_line(out, LineKind::Take(version), &[identifier(version, cid)])
}
