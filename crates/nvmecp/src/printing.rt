// Printing: the line of each command that is over, then the line of each show, each offered to the sink as one piece
// from one line buffer that has room for the longest line.
ghost use Rattle.std.specs.Prelude.{◌≡◌, ◌≢◌, ◌+◌, ◌-◌, ◌<◌, ◌≤◌, ◌⊎◌, All, length, slice_index, take, unwrap_or, OnOk, OnErr};
ghost use Rattle.std.specs.List.{concat};
ghost use Rattle.std.specs.Io.KnownBytes.{Appends};
ghost use Rattle.cp_base.specs.Configuration.{size_of};
ghost use Rattle.cp_base.specs.Contents.{bytes_in};
ghost use Rattle.cp_io.specs.Counting.{Rose};
ghost use Rattle.cp_io.specs.Sink.{AppendsFront};
ghost use Rattle.history_model.specs.Text.{shown_text};
ghost use Rattle.device_core.specs.Gives.{ended_as_shown, world_in};
ghost use Rattle.nvmecp.specs.Ends.{EndsAnswered};
ghost use Rattle.nvmecp.specs.Finished.{printed_text};
ghost use Rattle.nvmecp.specs.Lines.{ended_line, ended_lines, shown_lines};
ghost use Rattle.nvmecp.specs.Shown.{AreInside, AreShort, HasRoomFor, IsAllAtHome};

use crate::ending::Ending;
use crate::finished::Finished;
use cp_base::{Bytes, MAX_TRANSFER};
use cp_io::{Sink, WriteFault, write_all};
use device_core::{Core, EntryRef};
use replay_print::{EntryLine, LONGEST_LINE, push_entry, push_show};
use script_cmds::Show;

// Writes the line of a command that is over. The line's number `k` counts from 1.
fn print_entry<K: Sink>(
    sink: &mut K,
    line: &mut Bytes,
    k: u32,
    entry: &EntryRef<'_>,
) -> Result<(), WriteFault>
    requires room { HasRoomFor LONGEST_LINE line.old }
    requires short { length entry.now.reply.now.bytes.items ≤ MAX_TRANSFER }
    ensures room { HasRoomFor LONGEST_LINE line.new }
    ensures all { OnOk result (Appends (K.held sink.old) (K.held sink.new) (ended_line k (ended_as_shown entry.now))) }
    ensures front { OnErr result
        (AppendsFront (K.held sink.old) (K.held sink.new) (ended_line k (ended_as_shown entry.now))) }
    ensures fault { OnErr result (Rose (K.faults sink.old) (K.faults sink.new)) }
    ensures later { K.faults sink.old ≤ K.faults sink.new }
{
    line.clear();
    let entry = EntryLine {
        host: entry.host,
        ordinal: entry.ordinal,
        cid: entry.cid,
        word: entry.command.word(),
        status: entry.reply.status,
        result: entry.reply.result,
        bytes: entry.reply.bytes.as_slice(),
    };
    let Ok(()) = push_entry(line, k, &entry) else {
        unreachable!("there is room for the longest line");
    };
    write_all(sink, line.as_slice())
}

// Writes the lines of the commands that are over, in the order in which they ended.
fn print_entries<K: Sink>(sink: &mut K, line: &mut Bytes, core: &Core) -> Result<(), WriteFault>
    requires room { HasRoomFor LONGEST_LINE line.old }
    requires short { AreShort (world_in core.now).history }
    ensures room { HasRoomFor LONGEST_LINE line.new }
    ensures all { OnOk result
        (Appends (K.held sink.old) (K.held sink.new) (concat (ended_lines 1 (world_in core.now).history))) }
    ensures front { OnErr result
        (AppendsFront (K.held sink.old) (K.held sink.new) (concat (ended_lines 1 (world_in core.now).history))) }
    ensures fault { OnErr result (Rose (K.faults sink.old) (K.faults sink.new)) }
    ensures later { K.faults sink.old ≤ K.faults sink.new }
{
    for k in 0..core.ended() {
        let Some(entry) = core.entry(k) else {
            unreachable!("the history goes so far");
        };
        print_entry(sink, line, k + 1, &entry)?;
    }
    Ok(())
}

// Writes the line of a show with its bytes, which are gathered in a buffer of their own.
fn print_show<K: Sink>(
    sink: &mut K,
    line: &mut Bytes,
    shown: &mut Bytes,
    core: &Core,
    show: &Show,
) -> Result<(), WriteFault>
    requires room { HasRoomFor LONGEST_LINE line.old }
    requires bytes { HasRoomFor MAX_TRANSFER shown.old }
    requires short { show.now.range.len ≤ MAX_TRANSFER }
    requires inside { show.now.range.start + show.now.range.len ≤ unwrap_or (size_of core.now.config show.now.range.space) 0 }
    requires home { IsAllAtHome core.now }
    ensures room { HasRoomFor LONGEST_LINE line.new }
    ensures bytes { HasRoomFor MAX_TRANSFER shown.new }
    ensures all { OnOk result
        (Appends (K.held sink.old) (K.held sink.new) (shown_text show.now (bytes_in (world_in core.now).state.contents show.now.range))) }
    ensures front { OnErr result
        (AppendsFront (K.held sink.old) (K.held sink.new) (shown_text show.now (bytes_in (world_in core.now).state.contents show.now.range))) }
    ensures fault { OnErr result (Rose (K.faults sink.old) (K.faults sink.new)) }
    ensures later { K.faults sink.old ≤ K.faults sink.new }
{
    line.clear();
    shown.clear();
    core.append(&show.range, shown);
    let Ok(()) = push_show(line, show, shown.as_slice()) else {
        unreachable!("there is room for the longest line");
    };
    write_all(sink, line.as_slice())
}

// Writes the lines of the shows.
fn print_shows<K: Sink>(
    sink: &mut K,
    line: &mut Bytes,
    shown: &mut Bytes,
    core: &Core,
    shows: &[Show],
) -> Result<(), WriteFault>
    requires room { HasRoomFor LONGEST_LINE line.old }
    requires bytes { HasRoomFor MAX_TRANSFER shown.old }
    requires inside { AreInside core.now.config shows.now }
    requires home { IsAllAtHome core.now }
    ensures all { OnOk result
        (Appends (K.held sink.old) (K.held sink.new) (concat (shown_lines (world_in core.now).state.contents shows.now))) }
    ensures front { OnErr result
        (AppendsFront (K.held sink.old) (K.held sink.new) (concat (shown_lines (world_in core.now).state.contents shows.now))) }
    ensures fault { OnErr result (Rose (K.faults sink.old) (K.faults sink.new)) }
    ensures later { K.faults sink.old ≤ K.faults sink.new }
{
    for show in shows {
        print_show(sink, line, shown, core, show)?;
    }
    Ok(())
}

/// Writes the line of each command that is over, and then the line of each show.
pub fn print<K: Sink>(sink: &mut K, finished: Finished, shows: &[Show]) -> Result<(), WriteFault>
    requires line { HasRoomFor LONGEST_LINE finished.line }
    requires bytes { HasRoomFor MAX_TRANSFER finished.shown }
    requires short { AreShort (world_in finished.core).history }
    requires inside { AreInside finished.core.config shows.now }
    requires home { IsAllAtHome finished.core }
    ensures all { OnOk result (Appends (K.held sink.old) (K.held sink.new) (printed_text finished.core shows.now)) }
    ensures front { OnErr result
        (AppendsFront (K.held sink.old) (K.held sink.new) (printed_text finished.core shows.now)) }
    ensures fault { OnErr result (Rose (K.faults sink.old) (K.faults sink.new)) }
    ensures later { K.faults sink.old ≤ K.faults sink.new }
{
    let mut line = finished.line;
    let mut shown = finished.shown;
    print_entries(sink, &mut line, &finished.core)?;
    print_shows(sink, &mut line, &mut shown, &finished.core, shows)
}

// How many bytes the first line of a text has, with its newline.
fn first_line(text: &[u8]) -> usize
    requires { 0 < length text.now }
    ensures within { (0 < result) × (result ≤ length text.now) }
    ensures ended { (result ≡ length text.now) ⊎ (slice_index text.now (result - 1) ≡ 10) }
    ensures first { All (λ byte. byte ≢ 10) (take (result - 1) text.now) }
{
    match text.iter().position(|byte| *byte == b'\n') {
        Some(end) => end + 1,
        None => text.len(),
    }
}

// Writes a text, each of its lines as one piece.
fn print_lines<K: Sink>(sink: &mut K, text: &[u8]) -> Result<(), WriteFault>
    ensures all { OnOk result (Appends (K.held sink.old) (K.held sink.new) text.now) }
    ensures front { OnErr result (AppendsFront (K.held sink.old) (K.held sink.new) text.now) }
    ensures fault { OnErr result (Rose (K.faults sink.old) (K.faults sink.new)) }
    ensures later { K.faults sink.old ≤ K.faults sink.new }
{
    let mut written = 0;
    while written < text.len() {
        let end = written + first_line(&text[written..]);
        write_all(sink, &text[written..end])?;
        written = end;
    }
    Ok(())
}

/// Writes a text that answers an input, each of its lines as one piece.
pub fn answer_lines<K: Sink>(sink: &mut K, text: &[u8]) -> Ending
    ensures ends { EndsAnswered (λ answer. answer ≡ text.now) K.held K.faults sink.old sink.new result }
    ensures done { (result ≡ Ending.Done) ⊎ (result ≡ Ending.WriteFault) }
{
    match print_lines(sink, text) {
        Ok(()) => Ending::Done,
        Err(_) => Ending::WriteFault,
    }
}
