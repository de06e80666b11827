// A whole script as its one text.
ghost use Rattle.std.specs.Prelude.{◌≡◌, ℕ, ◌≤◌, ◌∷◌, [], None, length, IfOk, OnOk};
ghost use Rattle.cp_base.specs.declared.limits.TheConstants.{NAMESPACES};
ghost use Rattle.script_line.specs.Field.{IsShaped};
ghost use Rattle.script_line.specs.Line.{Line, counts, fields_of};
ghost use Rattle.script_line.specs.Printing.{PrintsLine};
ghost use Rattle.script_line.specs.Sized.{AreSized};
ghost use Rattle.script_cmds.specs.Fault.{first_fault};
ghost use Rattle.script_cmds.specs.Kept.{KeepsOrderAndLimits};
ghost use Rattle.script_cmds.specs.private.Printing.{Prints};
ghost use Rattle.script_cmds.specs.Text.{configuration_lines, header_line, item_line, item_lines, lines_of, numbers_line, part_lines, phase_lines, script_text, show_line, show_lines, size_lines};
ghost use Rattle.script_line.specs.declared.content.FieldContent.TheVariants as said;
ghost use Rattle.script_line.specs.declared.kind.LineKind.TheVariants as line_kind;

use crate::{Form, HostPart, Item, Phase, Script, Show};
use cp_base::{Bytes, Config, NoMemory, SpaceId};
use script_line::FieldContent::{self, Count};
use script_line::{LineKind, SpaceKind, Version, push_line, push_send, push_take};
use std::alloc::Global;

/// The one text of a script: its lines in their order, each ended by a newline. `parse` reads it again
/// where the script keeps order and limits; a script that `parse` gave has the text that it was read from. `NoMemory` where memory is wanting.
pub fn print(alloc: Global, script: &Script) -> Result<Bytes, NoMemory>
    ensures text { IfOk result (λ text. text.items ≡ script_text script.now) }
    ensures sized { OnOk result (AreSized (lines_of script.now)) }
    ensures accepted { OnOk result (KeepsOrderAndLimits script.now
        → first_fault (script_text script.now) ≡ None) }
{
    let mut out = Bytes::new(alloc);
    push_configuration(&mut out, script.form, &script.config)?;
    push_phases(&mut out, script.form, script.phases.as_slice())?;
    push_shows(&mut out, script.shows.as_slice())?;
    Ok(out)
}

// Adds the header and the lines of the namespaces.
fn push_configuration(out: &mut Bytes, form: Form, config: &Config) -> Result<(), NoMemory>
    ensures { OnOk result (Prints (configuration_lines form config.now) out.old.items out.new.items) }
{
    push_header(out, form, config)?;
    push_sizes(out, SpaceKind::Nvm, config.nvm())?;
    push_sizes(out, SpaceKind::Mem, config.mem())?;
    Ok(())
}

// Adds the header.
fn push_header(out: &mut Bytes, form: Form, config: &Config) -> Result<(), NoMemory>
    ensures { OnOk result (Prints (header_line form config.now ∷ []) out.old.items out.new.items) }
{
    let kind = LineKind::Header(form.version);
    let block = small(config.block());
    let depth = small(config.depth());
    let budget = Count(config.budget());
    match form.version {
        Version::One => push_line(out, kind, &[block, depth, budget]),
        Version::Two => {
            let depth = small(config.depth().checked_div(form.queues).unwrap_or(0));
            push_line(out, kind, &[block, small(form.queues), depth, budget])
        }
    }
}

// A number of 32 bits as a field's content.
fn small(n: u32) -> FieldContent<'static>
    ensures { result ≡ said.Count n }
{
    Count(u64::from(n))
}

// Adds a line for each size that is not 0. They are numbered from 1.
fn push_sizes(out: &mut Bytes, kind: SpaceKind, sizes: &[u32]) -> Result<(), NoMemory>
    requires { length sizes.now ≤ NAMESPACES }
    ensures { OnOk result (Prints (size_lines (line_kind.Namespace kind) 1 sizes.now) out.old.items out.new.items) }
{
    let mut number = 1;
    for size in sizes {
        push_size(out, kind, number, *size)?;
        number += 1;
    }
    Ok(())
}

// Adds the line of a size, where it is not 0.
fn push_size(out: &mut Bytes, kind: SpaceKind, number: u32, size: u32) -> Result<(), NoMemory>
    ensures { OnOk result
        (Prints (size_lines (line_kind.Namespace kind) number (size ∷ [])) out.old.items out.new.items) }
{
    if size == 0 {
        return Ok(());
    }
    push_line(
        out,
        LineKind::Namespace(kind),
        &[small(number), small(size)],
    )
}

// Adds the lines of phases.
fn push_phases(out: &mut Bytes, form: Form, phases: &[Phase]) -> Result<(), NoMemory>
    ensures { OnOk result (Prints (phase_lines form phases.now) out.old.items out.new.items) }
{
    for phase in phases {
        push_line(out, LineKind::Phase, &[])?;
        push_parts(out, form, phase.hosts.as_slice())?;
    }
    Ok(())
}

// Adds the lines of the parts of a phase.
fn push_parts(out: &mut Bytes, form: Form, parts: &[HostPart]) -> Result<(), NoMemory>
    ensures { OnOk result (Prints (part_lines form parts.now) out.old.items out.new.items) }
{
    for part in parts {
        push_line(out, LineKind::Host, &[small(part.host)])?;
        push_items(out, form, part.items.as_slice())?;
    }
    Ok(())
}

// Adds the lines of what a host does.
fn push_items(out: &mut Bytes, form: Form, items: &[Item]) -> Result<(), NoMemory>
    ensures { OnOk result (Prints (item_lines form items.now) out.old.items out.new.items) }
{
    for item in items {
        push_item(out, form, item)?;
    }
    Ok(())
}

// Adds the line of one thing that a host does.
fn push_item(out: &mut Bytes, form: Form, item: &Item) -> Result<(), NoMemory>
    ensures { OnOk result (Prints (item_line form item.now ∷ []) out.old.items out.new.items) }
{
    match item {
        Item::Send { cid, command } => push_send(out, form.version, *cid, command),
        Item::Take { cid } => push_take(out, form.version, *cid),
    }
}

// Adds the lines of what is shown.
fn push_shows(out: &mut Bytes, shows: &[Show]) -> Result<(), NoMemory>
    ensures { OnOk result (Prints (show_lines shows.now) out.old.items out.new.items) }
{
    for show in shows {
        push_show(out, show)?;
    }
    Ok(())
}

// Adds the line of one thing that is shown.
fn push_show(out: &mut Bytes, show: &Show) -> Result<(), NoMemory>
    ensures { OnOk result (Prints (show_line show.now ∷ []) out.old.items out.new.items) }
{
    let start = Count(show.range.start());
    let len = Count(show.range.len());
    match show.range.space() {
        SpaceId::Nvm(n) => push_line(out, LineKind::Show(SpaceKind::Nvm), &[small(n), start, len]),
        SpaceId::Mem(n) => push_line(out, LineKind::Show(SpaceKind::Mem), &[small(n), start, len]),
    }
}
