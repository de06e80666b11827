// A whole script, read from its text.
ghost use Rattle.std.specs.Prelude.{◌≡◌, ◌≤◌, ◌++◌, ◌∷◌, [], Ok, None, IfOk, IfErr, OnOk, length};
ghost use Rattle.script_line.specs.Sized.{AreSized};
ghost use Rattle.script_cmds.specs.Ends.{Tells};
ghost use Rattle.script_cmds.specs.Fault.{first_fault, newlines, read_line};
ghost use Rattle.script_cmds.specs.Kept.{KeepsOrderAndLimits};
ghost use Rattle.script_cmds.specs.Queues.{AreExact};
ghost use Rattle.script_cmds.specs.private.Drafts.{IsDraft, draft_lines};
ghost use Rattle.script_cmds.specs.private.Faults.{Faults};
ghost use Rattle.script_cmds.specs.declared.fault.ParseEnd.TheVariants as end;
ghost use Rattle.script_cmds.specs.Text.{lines_of, lines_text, script_text};

use crate::draft::Draft;
use crate::{ParseEnd, Script, ScriptFault};
use cp_base::Bytes;
use cp_text::next_line;
use script_line::{LineEnd, TextCause};
use std::alloc::Global;

/// The script that a text spells. There is one exactly where no line of the text is faulty; else the
/// first faulty line is told, with its first cause. `NoMemory` where memory is wanting.
///
/// Lines are counted in 32 bits, so a newline stands at most 4,294,967,294 times in the text, and the
/// script has no more lines than that.
pub fn parse(alloc: Global, text: &Bytes) -> Result<Script, ParseEnd>
    requires { newlines text.now.items ≤ 4294967294 }
    ensures text { IfOk result (λ script. script_text script ≡ text.now.items) }
    ensures accepted { OnOk result (first_fault text.now.items ≡ None) }
    ensures order_and_limits { IfOk result KeepsOrderAndLimits }
    ensures queues { IfOk result (λ script. AreExact script.form script.config.depth) }
    ensures sized { IfOk result (λ script. AreSized (lines_of script)) }
    ensures lines { IfOk result (λ script. length (lines_of script) ≤ 4294967294) }
    ensures fault { IfErr result (λ end. Tells end (first_fault text.now.items)) }
{
    let mut draft = Draft::new(alloc);
    let mut number: u32 = 1;
    let mut rest = text.as_slice();
    'lines: while let Some((line, after)) = next_line(rest) {
        add_line(alloc, &mut draft, line, number)?;
        number += 1;
        rest = after;
    }
    if !rest.is_empty() {
        return Err(fault_at(number, TextCause::Word));
    }
    if draft.is_empty() {
        return Err(fault_at(number, TextCause::Order));
    }
    Ok(draft.finish(alloc)?)
}

// Adds the line of this number to a draft.
fn add_line(alloc: Global, draft: &mut Draft, line: &[u8], number: u32) -> Result<(), ParseEnd>
    requires { IsDraft draft.old }
    ensures draft { OnOk result (IsDraft draft.new) }
    ensures text { OnOk result
        (lines_text (draft_lines draft.new) ≡ lines_text (draft_lines draft.old) ++ (line.now ++ 10 ∷ [])) }
    ensures read { OnOk result (read_line draft.old.progress line.now ≡ Ok draft.new.progress) }
    ensures fault { IfErr result (λ end. Faults number end (read_line draft.old.progress line.now)) }
{
    match draft.add(alloc, line) {
        Ok(()) => Ok(()),
        Err(LineEnd::Fault(cause)) => Err(fault_at(number, cause)),
        Err(LineEnd::NoMemory) => Err(ParseEnd::NoMemory),
    }
}

// A fault of a line.
fn fault_at(line: u32, cause: TextCause) -> ParseEnd
    ensures { result ≡ end.Fault (record { line = line; cause = cause }) }
{
    ParseEnd::Fault(ScriptFault { line, cause })
}
