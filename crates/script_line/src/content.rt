// What the fields of a line say, and the line's text.
ghost use Rattle.std.specs.Prelude.{◌≡◌, ◌^◌, ◌<◌, ◌++◌, ◌∷◌, [], List, drop, map, decimal, All, IfOk, OnOk};
ghost use Rattle.cp_text.specs.HexText.{AreBytes, hex_text};
ghost use Rattle.cp_text.specs.Parts.{joined_by};
ghost use Rattle.script_line.specs.Field as grammar;
ghost use Rattle.script_line.specs.Field.{IsShaped, queued_text, range_text, source_text, triple_text, value_text};
ghost use Rattle.script_line.specs.Line.{fields_of, identifier_value};
ghost use Rattle.script_line.specs.Printing.{PrintsLine};
ghost use Rattle.script_line.specs.Sized.{IsSized, IsSizedRange, IsSizedSource};
ghost use Rattle.script_line.specs.Values.{content_view};
ghost use Rattle.script_line.specs.declared.content.FieldContent.TheVariants as said;
ghost use Rattle.script_line.specs.private.Outcomes.{field_view};
ghost use Rattle.script_line.specs.private.Pushed.{PrintsFields, joined_behind};

use crate::field::Field;
use crate::limits::QUEUE_CIDS;
use crate::{LineKind, Version};
use cp_base::{Access, Bytes, CopySource, MemRange, NoMemory, RangeList, SourceList};
use cp_text::{push_hex, push_number, push_piece};

/// What one field says, as it stands in a script.
#[derive(Clone, Copy, Debug)]
pub enum FieldContent<'a> {
    Count(u64),
    /// A queue and an identifier in it.
    Queued(u64, u64),
    Data(&'a Bytes),
    Copied(&'a SourceList),
    Covered(&'a RangeList),
}

// What stands in the unused places of a list of contents.
impl Default for FieldContent<'_> {
    fn default() -> Self {
        FieldContent::Count(0)
    }
}

/// What a field says that names an identifier of the device: in version 2 by its queue.
pub fn identifier<'a>(version: Version, cid: u32) -> FieldContent<'a>
    ensures { content_view result ≡ identifier_value version cid }
{
    let cid = u64::from(cid);
    match version {
        Version::One => FieldContent::Count(cid),
        Version::Two => FieldContent::Queued(cid / QUEUE_CIDS + 1, cid % QUEUE_CIDS),
    }
}

/// What a field says that is a number of 32 bits.
pub fn small<'a>(n: u32) -> FieldContent<'a>
    ensures { result ≡ said.Count n }
{
    FieldContent::Count(u64::from(n))
}

// Adds a number.
fn push_count(out: &mut Bytes, n: u64) -> Result<(), NoMemory>
    ensures text { OnOk result (out.new.items ≡ out.old.items ++ decimal n) }
    ensures sized { n < 2 ^ 64 }
{
    push_number(out, n)
}

// Adds a queue and an identifier in it, with a colon between.
fn push_queued(out: &mut Bytes, queue: u64, cid: u64) -> Result<(), NoMemory>
    ensures text { OnOk result (out.new.items ≡ out.old.items ++ queued_text queue cid) }
    ensures sized { (queue < 2 ^ 64) × (cid < 2 ^ 64) }
{
    push_number(out, queue)?;
    push_piece(out, b":")?;
    push_number(out, cid)
}

// Adds the digits of data.
fn push_data(out: &mut Bytes, bytes: &[u8]) -> Result<(), NoMemory>
    ensures text { OnOk result (out.new.items ≡ out.old.items ++ hex_text bytes.now) }
    ensures sized { AreBytes bytes.now }
{
    push_hex(out, bytes)
}

// Adds three numbers with colons between.
fn push_triple(out: &mut Bytes, ns: u32, start: u64, len: u64) -> Result<(), NoMemory>
    ensures text { OnOk result (out.new.items ≡ out.old.items ++ triple_text ns start len) }
    ensures sized { (ns < 2 ^ 64) × (start < 2 ^ 64) × (len < 2 ^ 64) }
{
    push_number(out, u64::from(ns))?;
    push_piece(out, b":")?;
    push_number(out, start)?;
    push_piece(out, b":")?;
    push_number(out, len)
}

// Adds a source.
fn push_source(out: &mut Bytes, source: CopySource) -> Result<(), NoMemory>
    ensures text { OnOk result (out.new.items ≡ out.old.items ++ source_text source) }
    ensures sized { OnOk result (IsSizedSource source) }
{
    match source {
        CopySource::Nvm { ns, lba, count } => {
            push_piece(out, b"n")?;
            push_triple(out, ns, lba, count)
        }
        CopySource::Mem { ns, at, len } => {
            push_piece(out, b"m")?;
            push_triple(out, ns, at, len)
        }
    }
}

// Adds a range.
fn push_range(out: &mut Bytes, range: MemRange) -> Result<(), NoMemory>
    ensures text { OnOk result (out.new.items ≡ out.old.items ++ range_text range) }
    ensures sized { OnOk result (IsSizedRange range) }
{
    push_triple(out, range.ns, range.at, range.len)?;
    match range.access {
        Access::ReadWrite => Ok(()),
        Access::ReadOnly => push_piece(out, b":r"),
    }
}

// Adds sources with one comma between two.
fn push_sources(out: &mut Bytes, sources: &[CopySource]) -> Result<(), NoMemory>
    ensures text { OnOk result (out.new.items ≡ out.old.items ++ joined_by 44 (map source_text sources.now)) }
    ensures sized { OnOk result (All IsSizedSource sources.now) }
{
    let mut before: &[u8] = b"";
    for source in sources {
        push_piece(out, before)?;
        push_source(out, *source)?;
        before = b",";
    }
    Ok(())
}

// Adds ranges with one comma between two.
fn push_ranges(out: &mut Bytes, ranges: &[MemRange]) -> Result<(), NoMemory>
    ensures text { OnOk result (out.new.items ≡ out.old.items ++ joined_by 44 (map range_text ranges.now)) }
    ensures sized { OnOk result (All IsSizedRange ranges.now) }
{
    let mut before: &[u8] = b"";
    for range in ranges {
        push_piece(out, before)?;
        push_range(out, *range)?;
        before = b",";
    }
    Ok(())
}

// Adds what a field says, without the field's name.
fn push_content(out: &mut Bytes, content: FieldContent) -> Result<(), NoMemory>
    ensures text { OnOk result (out.new.items ≡ out.old.items ++ value_text (content_view content.entry)) }
    ensures sized { OnOk result (IsSized (content_view content.entry)) }
{
    match content {
        FieldContent::Count(n) => push_count(out, n),
        FieldContent::Queued(queue, cid) => push_queued(out, queue, cid),
        FieldContent::Data(bytes) => push_data(out, bytes.as_slice()),
        FieldContent::Copied(sources) => push_sources(out, sources.as_slice()),
        FieldContent::Covered(ranges) => push_ranges(out, ranges.as_slice()),
    }
}

// Adds the next field of a line behind some bytes, and gives the place of the next content. A field that
// is no word takes the content at this place, which is of its kind.
fn push_field(
    out: &mut Bytes,
    before: &[u8],
    field: Field,
    contents: &[FieldContent],
    place: usize,
) -> Result<usize, NoMemory>
    ensures { IfOk result (λ next. (more : List grammar.Field)
        → IsShaped (field_view field ∷ more) (map content_view (drop place contents.now))
        → PrintsFields before.now (32 ∷ []) (field_view field ∷ more) more (map content_view (drop place contents.now))
        (map content_view (drop next contents.now)) out.old.items out.new.items) }
{
    push_piece(out, before)?;
    push_piece(out, field.front())?;
    if field.is_word() {
        return Ok(place);
    }
    match contents.get(place) {
        Some(content) => {
            push_content(out, *content)?;
            Ok(place + 1)
        }
        None => Ok(place),
    }
}

// Adds fields with one space between two. Those that are no words take these contents.
fn push_fields(out: &mut Bytes, fields: &[Field], contents: &[FieldContent]) -> Result<(), NoMemory>
    requires { IsShaped (map field_view fields.now) (map content_view contents.now) }
    ensures { OnOk result
        (PrintsFields [] (32 ∷ []) (map field_view fields.now) [] (map content_view contents.now) [] out.old.items out.new.items) }
{
    let mut before: &[u8] = b"";
    let mut place = 0;
    for field in fields {
        place = push_field(out, before, *field, contents, place)?;
        before = b" ";
    }
    Ok(())
}

/// Adds a line with its newline. There is a content for each of its fields that is no word.
pub fn push_line(out: &mut Bytes, kind: LineKind, contents: &[FieldContent]) -> Result<(), NoMemory>
    requires { IsShaped (fields_of kind) (map content_view contents.now) }
    ensures { OnOk result
        (PrintsLine (record { kind = kind; values = map content_view contents.now }) out.old.items out.new.items) }
{
    push_fields(out, kind.fields(), contents)?;
    push_piece(out, b"\n")?;
    Ok(())
}
