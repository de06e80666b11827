// The text of a load, line by line.
ghost use Rattle.std.specs.Prelude.{◌≡◌, ◌+◌, ◌/◌, ◌%◌, ◌<◌, ◌≤◌, ◌==◌, ◌∷◌, [], ◌++◌, if◌then◌else◌, length, nat_lt, IfOk, OnOk};
ghost use Rattle.cp_base.specs.declared.commands.Command.TheVariants as command;
ghost use Rattle.script_line.specs.Line.{counts, fields_of};
ghost use Rattle.script_line.specs.Field.{IsShaped};
ghost use Rattle.script_line.specs.Sized.{AreSized};
ghost use Rattle.script_line.specs.declared.kind.LineKind.TheVariants as line_kind;
ghost use Rattle.script_cmds.specs.Text.{numbers_line};
ghost use Rattle.load_maker.specs.Load.{device_lines, done_lines, first_set, host_line, host_part, host_turns, load_lines, load_text, open_range, ready_lines, ready_slot, second_set, seed_state, seed_word, take_reply_line, turn_lines, turn_takes, whole_program, word_command, work_lines};
ghost use Rattle.load_maker.specs.Made.{PrintsLines};

use crate::command::command_of;
use cp_base::{Access, Bytes, Command, MemRange, NoMemory, SetRanges};
use cp_line::MAX_MADE;
use rand_core::SeedableRng;
use rand_core::utils::NextWord;
use rand_xoshiro::SplitMix64;
use script_line::FieldContent::Count;
use script_line::{LineKind, SpaceKind, Version, push_line, push_send};
use std::alloc::Global;

// The hosts of the second phase.
const HOSTS: u32 = 4;

// The identifiers of a host, and so the most of its commands that are outstanding.
const IDENTIFIERS: u32 = 16;

// The program of the load. It counts the first byte of its first range up by one; the result is one more than that was.
const PROGRAM: [u8; 48] = [
    0x18, 0x01, 0, 0, 0, 0, 0, 0, // lddw r1 4294967296
    0, 0, 0, 0, 0x01, 0, 0, 0, //
    0x71, 0x10, 0, 0, 0, 0, 0, 0, // ldxb r0 r1 0
    0x07, 0, 0, 0, 0x01, 0, 0, 0, // add64 r0 1
    0x73, 0x01, 0, 0, 0, 0, 0, 0, // stxb r1 0 r0
    0x95, 0, 0, 0, 0, 0, 0, 0, // exit
];

/// The script of the load that a seed and a number of commands give, as its text. Host 1 makes two sets and a
/// program ready; then four hosts send the commands in turn, which the words of SplitMix64 choose. `NoMemory` where
/// memory is wanting.
pub fn make(alloc: Global, seed: u64, commands: u32) -> Result<Bytes, NoMemory>
    requires { commands ≤ MAX_MADE }
    ensures text { IfOk result (λ text. text.items ≡ load_text seed commands) }
    ensures sized { OnOk result (AreSized (load_lines seed commands)) }
{
    let mut out = Bytes::new(alloc);
    push_load(alloc, &mut out, seed, commands)?;
    Ok(out)
}

// Adds the lines of the load.
fn push_load(alloc: Global, out: &mut Bytes, seed: u64, commands: u32) -> Result<(), NoMemory>
    ensures { OnOk result (PrintsLines (load_lines seed commands) out.old.items out.new.items) }
{
    push_device(out)?;
    push_ready(alloc, out)?;
    push_work(alloc, out, seed, commands)?;
    Ok(())
}

// Adds a line of one number.
fn push_number(out: &mut Bytes, kind: LineKind, number: u32) -> Result<(), NoMemory>
    requires { IsShaped (fields_of kind) (counts (number ∷ [])) }
    ensures { OnOk result (PrintsLines (numbers_line kind (number ∷ []) ∷ []) out.old.items out.new.items) }
{
    push_line(out, kind, &[Count(u64::from(number))])
}

// Adds the header and the lines of the two namespaces.
#[tactic(auto, using(crate::proofs::Printed::prints_first, crate::proofs::Printed::prints_one))]
fn push_device(out: &mut Bytes) -> Result<(), NoMemory>
    ensures { OnOk result (PrintsLines device_lines out.old.items out.new.items) }
{
    push_line(
        out,
        LineKind::Header(Version::One),
        &[Count(512), Count(16), Count(1_000)],
    )?;
    push_line(
        out,
        LineKind::Namespace(SpaceKind::Nvm),
        &[Count(1), Count(64)],
    )?;
    push_line(
        out,
        LineKind::Namespace(SpaceKind::Mem),
        &[Count(1), Count(65_536)],
    )
}

// Adds the first phase.
fn push_ready(alloc: Global, out: &mut Bytes) -> Result<(), NoMemory>
    ensures { OnOk result (PrintsLines ready_lines out.old.items out.new.items) }
{
    push_line(out, LineKind::Phase, &[])?;
    push_number(out, LineKind::Host, 1)?;
    push_set(alloc, out, 1, &[open_range(0, 256)])?;
    push_set(alloc, out, 2, &[open_range(1_024, 256), open_range(0, 16)])?;
    push_program(alloc, out)?;
    push_done(out, 4, &Command::Activate { slot: 0 })?;
    Ok(())
}

// Bytes of the memory namespace, which a program reads and writes.
fn open_range(at: u64, len: u64) -> MemRange
    ensures { result ≡ open_range at len }
{
    MemRange {
        ns: 1,
        at,
        len,
        access: Access::ReadWrite,
    }
}

// Adds the command that makes a set of one or two ranges, and the take of its reply.
fn push_set(alloc: Global, out: &mut Bytes, cid: u32, ranges: &[MemRange]) -> Result<(), NoMemory>
    requires { (1 ≤ length ranges.now) × (length ranges.now ≤ 2) }
    ensures { OnOk result (PrintsLines (done_lines cid (command.SetCreate ranges.now)) out.old.items out.new.items) }
{
    let ranges = SetRanges::new(alloc, ranges)?.unwrap();
    push_done(out, cid, &Command::SetCreate { ranges })
}

// Adds the command that loads the program, and the take of its reply.
fn push_program(alloc: Global, out: &mut Bytes) -> Result<(), NoMemory>
    ensures { OnOk result (PrintsLines (done_lines 3 whole_program) out.old.items out.new.items) }
{
    let bytes = Bytes::from_slice(alloc, &PROGRAM)?;
    let load = Command::Load {
        slot: 0,
        size: 48,
        at: 0,
        bytes,
    };
    push_done(out, 3, &load)
}

// Adds a command and the take of its reply.
fn push_done(out: &mut Bytes, cid: u32, sent: &Command) -> Result<(), NoMemory>
    ensures { OnOk result (PrintsLines (done_lines cid sent.now) out.old.items out.new.items) }
{
    push_send(out, Version::One, cid, sent)?;
    push_number(out, LineKind::Take(Version::One), cid)
}

// Adds the second phase.
fn push_work(alloc: Global, out: &mut Bytes, seed: u64, commands: u32) -> Result<(), NoMemory>
    ensures { OnOk result (PrintsLines (work_lines seed commands) out.old.items out.new.items) }
{
    push_line(out, LineKind::Phase, &[])?;
    push_part(alloc, out, seed, commands, 0)?;
    push_part(alloc, out, seed, commands, 1)?;
    push_part(alloc, out, seed, commands, 2)?;
    push_part(alloc, out, seed, commands, 3)?;
    Ok(())
}

// Adds the part of a host, 0 to 3, which in scripts has the next number.
fn push_part(
    alloc: Global,
    out: &mut Bytes,
    seed: u64,
    commands: u32,
    host: u32,
) -> Result<(), NoMemory>
    requires { host < 4 }
    ensures { OnOk result (PrintsLines (host_part seed commands host) out.old.items out.new.items) }
{
    push_number(out, LineKind::Host, host + 1)?;
    push_turns(alloc, out, seed, commands, host)
}

// Adds what a host does of the first commands.
fn push_turns(
    alloc: Global,
    out: &mut Bytes,
    seed: u64,
    commands: u32,
    host: u32,
) -> Result<(), NoMemory>
    ensures { OnOk result (PrintsLines (host_turns seed host commands) out.old.items out.new.items) }
{
    let mut words = SplitMix64::seed_from_u64(seed);
    for number in 0..commands {
        let word = words.next_word();
        push_own(alloc, out, number, host, word)?;
    }
    Ok(())
}

// Adds a command of this number and word where it is the host's.
fn push_own(
    alloc: Global,
    out: &mut Bytes,
    number: u32,
    host: u32,
    word: u64,
) -> Result<(), NoMemory>
    ensures { OnOk result
        (PrintsLines (if number % 4 == host then turn_lines (number / 4) (word_command word) else []) out.old.items out.new.items) }
{
    if number % HOSTS != host {
        return Ok(());
    }
    let sent = command_of(alloc, word)?;
    push_turn(out, number / HOSTS, &sent)
}

// Adds a host's command under its number, and in front of it the take of the reply to the command that had the
// identifier before.
fn push_turn(out: &mut Bytes, number: u32, sent: &Command) -> Result<(), NoMemory>
    ensures { OnOk result (PrintsLines (turn_lines number sent.now) out.old.items out.new.items) }
{
    push_turn_take(out, number)?;
    push_send(out, Version::One, number % IDENTIFIERS, sent)?;
    Ok(())
}

// Adds the take in front of a host's command under its number, where the identifier was used before.
fn push_turn_take(out: &mut Bytes, number: u32) -> Result<(), NoMemory>
    ensures { OnOk result (PrintsLines (turn_takes number) out.old.items out.new.items) }
{
    if number < IDENTIFIERS {
        return Ok(());
    }
    push_number(out, LineKind::Take(Version::One), number % IDENTIFIERS)
}
