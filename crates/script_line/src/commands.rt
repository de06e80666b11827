// All that a script says of each command: the fields of its line, the command that they make, and what they say of it.
ghost use Rattle.std.specs.Prelude.{◌≡◌, ℕ, ◌<◌, ◌≤◌, ◌++◌, ◌∷◌, [], List, true, map, length, All, IfOk};
ghost use Rattle.cp_base.specs.Commands.{word_of};
ghost use Rattle.script_line.specs.Field as grammar;
ghost use Rattle.script_line.specs.Field.{IsShaped};
ghost use Rattle.script_line.specs.Fits.{ranges_fit, source_space, sources_fit, values_fit};
ghost use Rattle.script_line.specs.Line.{command_fields, command_values, fields_of, send_values};
ghost use Rattle.script_line.specs.Sized.{IsSized};
ghost use Rattle.script_line.specs.Values.{content_view, identifier_at, number_at, range_view, source_view, value_view};
ghost use Rattle.script_line.specs.declared.commands.TheConstants.{MOST_SAID};
ghost use Rattle.script_line.specs.declared.kind.LineKind.TheVariants as line_kind;
ghost use Rattle.script_line.specs.declared.limits.TheConstants.{MAX_32, MAX_CID, MAX_VALUE};
ghost use Rattle.script_line.specs.private.Outcomes.{field_view};

use crate::Version;
use crate::content::FieldContent::{self, Copied, Count, Covered, Data};
use crate::content::{identifier, small};
use crate::field::{
    Field, FieldValue, RangeText, SourceText, identifier_at, number_at, ranges_at, sources_at,
};
use crate::kind::{AT, CID, QUEUED};
use crate::limits::{MAX_32, MAX_64, MAX_CID, MAX_VALUE};
use arrayvec::ArrayVec;
use cp_base::{Bytes, Command, CommandWord, CopySource, MemRange, NoMemory, SetRanges, SourceList};
use std::alloc::Global;

// The most fields that are no words in a line that sends a command.
const MOST_SAID: usize = 6;

const SEND: Field = Field::Word(b"send");

const NS: Field = Field::Number(b"ns=", 0, MAX_32);

const LBA: Field = Field::Number(b"lba=", 0, MAX_64);

const COUNT: Field = Field::Number(b"count=", 0, MAX_64);

const LEN: Field = Field::Number(b"len=", 0, MAX_64);

const VALUE: Field = Field::Number(b"value=", 0, MAX_VALUE);

const DATA: Field = Field::Hex(b"data=");

const FROM: Field = Field::Sources(b"from=");

const RANGES: Field = Field::Ranges(b"ranges=");

const SET: Field = Field::Number(b"set=", 0, MAX_32);

const SLOT: Field = Field::Number(b"slot=", 0, MAX_32);

const SIZE: Field = Field::Number(b"size=", 0, MAX_64);

const P1: Field = Field::Number(b"p1=", 0, MAX_64);

const P2: Field = Field::Number(b"p2=", 0, MAX_64);

const BUDGET: Field = Field::Number(b"budget=", 0, MAX_64);

// The table of the fields of lines that send a command, with the field of the command's identifier and that of the
// identifier that an Abort names.
macro_rules! send_table {
    ($word:expr, $sent:expr, $named:expr) => {
        match $word {
            CommandWord::NvmRead => &[SEND, $sent, Field::Word(b"nvmread"), NS, LBA, COUNT],
            CommandWord::NvmWrite => &[SEND, $sent, Field::Word(b"nvmwrite"), NS, LBA, DATA],
            CommandWord::NvmZeroes => &[SEND, $sent, Field::Word(b"nvmzeroes"), NS, LBA, COUNT],
            CommandWord::NvmCopy => &[SEND, $sent, Field::Word(b"nvmcopy"), NS, LBA, FROM],
            CommandWord::MemRead => &[SEND, $sent, Field::Word(b"memread"), NS, AT, LEN],
            CommandWord::MemWrite => &[SEND, $sent, Field::Word(b"memwrite"), NS, AT, DATA],
            CommandWord::MemFill => &[SEND, $sent, Field::Word(b"memfill"), NS, AT, LEN, VALUE],
            CommandWord::MemCopy => &[SEND, $sent, Field::Word(b"memcopy"), NS, AT, FROM],
            CommandWord::SetCreate => &[SEND, $sent, Field::Word(b"setcreate"), RANGES],
            CommandWord::SetDelete => &[SEND, $sent, Field::Word(b"setdelete"), SET],
            CommandWord::Load => &[SEND, $sent, Field::Word(b"load"), SLOT, SIZE, AT, DATA],
            CommandWord::Unload => &[SEND, $sent, Field::Word(b"unload"), SLOT],
            CommandWord::Activate => &[SEND, $sent, Field::Word(b"activate"), SLOT],
            CommandWord::Deactivate => &[SEND, $sent, Field::Word(b"deactivate"), SLOT],
            CommandWord::Execute => &[SEND, $sent, Field::Word(b"execute"), SLOT, SET, P1, P2, BUDGET],
            CommandWord::Abort => &[SEND, $sent, Field::Word(b"abort"), $named],
        }
    };
}

/// The fields of a line that sends a command, in their order.
pub fn send_fields(version: Version, word: CommandWord) -> &'static [Field]
    ensures fields { map field_view result.now ≡ fields_of (line_kind.Send version word) }
    ensures some { 0 < length result.now }
{
    match version {
        Version::One => send_table!(word, CID, Field::Number(b"cid=", 0, MAX_CID)),
        Version::Two => send_table!(word, QUEUED, Field::Identifier(b"cid=")),
    }
}

/// The command of a send line of a script of this version, by its word and what its fields say, which keeps their
/// limits. `NoMemory` where memory is wanting.
pub fn command_of(
    alloc: Global,
    version: Version,
    word: CommandWord,
    values: Vec<FieldValue>,
) -> Result<Command, NoMemory>
    requires shaped { IsShaped (fields_of (line_kind.Send version word)) (map value_view values.items) }
    requires sized { All IsSized (map value_view values.items) }
    requires fits { values_fit (fields_of (line_kind.Send version word)) (map value_view values.items) ≡ true }
    ensures values { IfOk result
        (λ c. send_values version (identifier_at (map value_view values.items) 0) c ≡ map value_view values.items) }
    ensures word { IfOk result (λ c. word_of c ≡ word) }
{
    let mut values = values;
    values.remove(0);
    command_behind(alloc, version, word, values)
}

// The command of a send line by what its fields say behind the identifier.
fn command_behind(
    alloc: Global,
    version: Version,
    word: CommandWord,
    values: Vec<FieldValue>,
) -> Result<Command, NoMemory>
    requires shaped { IsShaped (command_fields version word) (map value_view values.items) }
    requires sized { All IsSized (map value_view values.items) }
    requires fits { values_fit (command_fields version word) (map value_view values.items) ≡ true }
    ensures values { IfOk result (λ c. command_values version c ≡ map value_view values.items) }
    ensures word { IfOk result (λ c. word_of c ≡ word) }
{
    let said = values.as_slice();
    let first = number_at(said, 0);
    let second = number_at(said, 1);
    let third = number_at(said, 2);
    let fourth = number_at(said, 3);
    let fifth = number_at(said, 4);
    match word {
        CommandWord::NvmRead => Ok(Command::NvmRead {
            ns: first as u32,
            lba: second,
            count: third,
        }),
        CommandWord::NvmWrite => Ok(Command::NvmWrite {
            ns: first as u32,
            lba: second,
            bytes: last_data(alloc, values),
        }),
        CommandWord::NvmZeroes => Ok(Command::NvmZeroes {
            ns: first as u32,
            lba: second,
            count: third,
        }),
        CommandWord::NvmCopy => Ok(Command::NvmCopy {
            ns: first as u32,
            lba: second,
            from: source_list(alloc, sources_at(said, 2))?,
        }),
        CommandWord::MemRead => Ok(Command::MemRead {
            ns: first as u32,
            at: second,
            len: third,
        }),
        CommandWord::MemWrite => Ok(Command::MemWrite {
            ns: first as u32,
            at: second,
            bytes: last_data(alloc, values),
        }),
        CommandWord::MemFill => Ok(Command::MemFill {
            ns: first as u32,
            at: second,
            len: third,
            value: fourth as u8,
        }),
        CommandWord::MemCopy => Ok(Command::MemCopy {
            ns: first as u32,
            at: second,
            from: source_list(alloc, sources_at(said, 2))?,
        }),
        CommandWord::SetCreate => Ok(Command::SetCreate {
            ranges: range_list(alloc, ranges_at(said, 0))?,
        }),
        CommandWord::SetDelete => Ok(Command::SetDelete { set: first as u32 }),
        CommandWord::Load => Ok(Command::Load {
            slot: first as u32,
            size: second,
            at: third,
            bytes: last_data(alloc, values),
        }),
        CommandWord::Unload => Ok(Command::Unload { slot: first as u32 }),
        CommandWord::Activate => Ok(Command::Activate { slot: first as u32 }),
        CommandWord::Deactivate => Ok(Command::Deactivate { slot: first as u32 }),
        CommandWord::Execute => Ok(Command::Execute {
            slot: first as u32,
            set: second as u32,
            p1: third,
            p2: fourth,
            budget: fifth,
        }),
        CommandWord::Abort => Ok(Command::Abort {
            cid: identifier_at(said, 0) as u32,
        }),
    }
}

/// What all fields of a line say that sends this command under an identifier of the device, in a script of this version.
pub fn contents_of(
    version: Version,
    cid: u32,
    command: &Command,
) -> ArrayVec<FieldContent<'_>, MOST_SAID>
    ensures { map content_view result.items ≡ send_values version cid command.now }
{
    let id = identifier(version, cid);
    match command {
        Command::NvmRead { ns, lba, count } => said(&[id, small(*ns), Count(*lba), Count(*count)]),
        Command::NvmWrite { ns, lba, bytes } => said(&[id, small(*ns), Count(*lba), Data(bytes)]),
        Command::NvmZeroes { ns, lba, count } => {
            said(&[id, small(*ns), Count(*lba), Count(*count)])
        }
        Command::NvmCopy { ns, lba, from } => said(&[id, small(*ns), Count(*lba), Copied(from)]),
        Command::MemRead { ns, at, len } => said(&[id, small(*ns), Count(*at), Count(*len)]),
        Command::MemWrite { ns, at, bytes } => said(&[id, small(*ns), Count(*at), Data(bytes)]),
        Command::MemFill { ns, at, len, value } => said(&[
            id,
            small(*ns),
            Count(*at),
            Count(*len),
            Count(u64::from(*value)),
        ]),
        Command::MemCopy { ns, at, from } => said(&[id, small(*ns), Count(*at), Copied(from)]),
        Command::SetCreate { ranges } => said(&[id, Covered(ranges.as_list())]),
        Command::SetDelete { set } => said(&[id, small(*set)]),
        Command::Load {
            slot,
            size,
            at,
            bytes,
        } => said(&[id, small(*slot), Count(*size), Count(*at), Data(bytes)]),
        Command::Unload { slot } => said(&[id, small(*slot)]),
        Command::Activate { slot } => said(&[id, small(*slot)]),
        Command::Deactivate { slot } => said(&[id, small(*slot)]),
        Command::Execute {
            slot,
            set,
            p1,
            p2,
            budget,
        } => said(&[
            id,
            small(*slot),
            small(*set),
            Count(*p1),
            Count(*p2),
            Count(*budget),
        ]),
        Command::Abort { cid: named } => said(&[id, identifier(version, *named)]),
    }
}

// What the fields of a line say, as a list that takes no memory.
fn said<'a>(fields: &[FieldContent<'a>]) -> ArrayVec<FieldContent<'a>, MOST_SAID>
    requires { length fields.now ≤ MOST_SAID }
    ensures { result.items ≡ fields.now }
{
    let mut contents = ArrayVec::new();
    for content in fields {
        contents.push(*content);
    }
    contents
}

// The data that the last field says.
fn last_data(alloc: Global, mut values: Vec<FieldValue>) -> Bytes
    ensures { (bytes : List ℕ) (front : List grammar.Value)
        → map value_view values.items ≡ front ++ grammar.Data bytes ∷ []
        → result.items ≡ bytes }
{
    match values.pop() {
        Some(value) => value.into_data(alloc),
        None => Bytes::new(alloc),
    }
}

// Sources as a list.
#[tactic(auto, using(crate::proofs::Elements::source_small, crate::proofs::Elements::few_sources))]
fn source_list(alloc: Global, sources: &[SourceText]) -> Result<SourceList, NoMemory>
    requires some { 0 < length sources.now }
    requires fits { sources_fit (map source_view sources.now) ≡ true }
    ensures { IfOk result (λ list. list ≡ map source_view sources.now) }
{
    let mut items = Vec::new(alloc);
    for source in sources {
        items.push(source_of(*source))?;
    }
    Ok(SourceList::new(alloc, items.as_slice())?.unwrap())
}

// A source, whose namespace has a number of 32 bits.
fn source_of(source: SourceText) -> CopySource
    requires { source_space (source_view source) ≤ MAX_32 }
    ensures { result ≡ source_view source }
{
    match source {
        SourceText::Nvm(triple) => CopySource::Nvm {
            ns: triple.ns as u32,
            lba: triple.start,
            count: triple.len,
        },
        SourceText::Mem(triple) => CopySource::Mem {
            ns: triple.ns as u32,
            at: triple.start,
            len: triple.len,
        },
    }
}

// Ranges as a list.
#[tactic(auto, using(crate::proofs::Elements::range_small, crate::proofs::Elements::few_ranges))]
fn range_list(alloc: Global, ranges: &[RangeText]) -> Result<SetRanges, NoMemory>
    requires some { 0 < length ranges.now }
    requires fits { ranges_fit (map range_view ranges.now) ≡ true }
    ensures { IfOk result (λ list. list ≡ map range_view ranges.now) }
{
    let mut items = Vec::new(alloc);
    for range in ranges {
        items.push(range_of(*range))?;
    }
    Ok(SetRanges::new(alloc, items.as_slice())?.unwrap())
}

// A range, whose namespace has a number of 32 bits.
fn range_of(range: RangeText) -> MemRange
    requires { range.triple.ns ≤ MAX_32 }
    ensures { result ≡ range_view range }
{
    MemRange {
        ns: range.triple.ns as u32,
        at: range.triple.start,
        len: range.triple.len,
        access: range.access,
    }
}
