// The fields of a line, and what they say.
ghost use Rattle.std.specs.Prelude.{◌≡◌, ◌^◌, ◌<◌, ◌&&◌, nat_le, Some, map, length, option_map};
ghost use Rattle.std.specs.List.{list_all};
ghost use Rattle.cp_base.specs.declared.limits.TheConstants.{MAX_ITEMS};
ghost use Rattle.script_line.specs.Fits.{is_within, ranges_fit, source_space, sources_fit, value_fits};
ghost use Rattle.script_line.specs.Reading.{after_name};
ghost use Rattle.script_line.specs.Values.{identifier_at, identifier_in, number_at, number_in, queue_at, queue_in, range_view, source_view, value_view};
ghost use Rattle.script_line.specs.declared.field.RangeText.{RangeText};
ghost use Rattle.script_line.specs.declared.field.SourceText.{SourceText};
ghost use Rattle.script_line.specs.declared.limits.TheConstants.{MAX_32};
ghost use Rattle.script_line.specs.private.Outcomes.{data_in, field_view, ranges_at, ranges_in, sources_at, sources_in};
ghost use Rattle.script_line.specs.private.Pushed.{front_of, is_word};

use crate::limits::{MAX_32, MAX_CID, QUEUE_CIDS, VERSION_2};
use cp_base::{Access, Bytes, MAX_ITEMS};
use std::alloc::Global;

/// A kind of field.
#[derive(Clone, Copy, Debug)]
pub enum Field {
    /// This very word.
    Word(&'static [u8]),
    /// A name and a number, which is at least and at most this.
    Number(&'static [u8], u64, u64),
    /// A name, and a queue and an identifier in it.
    Identifier(&'static [u8]),
    /// A name and data.
    Hex(&'static [u8]),
    /// A name and the sources of a copy.
    Sources(&'static [u8]),
    /// A name and ranges of memory.
    Ranges(&'static [u8]),
}

/// Three numbers: a namespace, a place in it, and how much from there on.
#[derive(Clone, Copy, Debug)]
pub struct Triple {
    pub ns: u64,
    pub start: u64,
    pub len: u64,
}

/// A source as a text says it.
#[derive(Clone, Copy, Debug)]
pub enum SourceText {
    Nvm(Triple),
    Mem(Triple),
}

/// A range as a text says it.
#[derive(Clone, Copy, Debug)]
pub struct RangeText {
    pub triple: Triple,
    pub access: Access,
}

/// What one field says.
#[derive(Debug, Drop)]
pub enum FieldValue {
    Count(u64),
    /// A queue and an identifier in it.
    Queued(u64, u64),
    Data(Bytes),
    Copied(Vec<SourceText>),
    Covered(Vec<RangeText>),
}

impl Field {
    /// The word, or the name in front of what the field says.
    pub fn front(self) -> &'static [u8]
        ensures { result.now ≡ front_of (field_view self) }
    {
        match self {
            Field::Word(text) => text,
            Field::Number(name, _, _)
            | Field::Identifier(name)
            | Field::Hex(name)
            | Field::Sources(name)
            | Field::Ranges(name) => name,
        }
    }

    /// Whether it is a word.
    pub fn is_word(self) -> bool
        ensures { result ≡ is_word (field_view self) }
    {
        match self {
            Field::Word(_) => true,
            Field::Number(_, _, _)
            | Field::Identifier(_)
            | Field::Hex(_)
            | Field::Sources(_)
            | Field::Ranges(_) => false,
        }
    }

    /// Whether what the field says keeps the field's limit.
    pub fn admits(self, value: &FieldValue) -> bool
        ensures { result ≡ value_fits (field_view self) (value_view value.now) }
    {
        match (self, value) {
            (Field::Number(_, least, most), FieldValue::Count(n)) => is_within(least, most, *n),
            (Field::Identifier(_), FieldValue::Queued(queue, cid)) => {
                is_within(1, VERSION_2.queues, *queue) && *cid <= MAX_CID
            }
            (Field::Sources(_), FieldValue::Copied(sources)) => sources_fit(sources.as_slice()),
            (Field::Ranges(_), FieldValue::Covered(ranges)) => ranges_fit(ranges.as_slice()),
            _ => true,
        }
    }
}

// Whether a number lies from low to high.
fn is_within(low: u64, high: u64, n: u64) -> bool
    ensures { result ≡ is_within low high n }
{
    low <= n && n <= high
}

// Whether these are not too many sources, and their namespaces have numbers of 32 bits.
fn sources_fit(sources: &[SourceText]) -> bool
    ensures { result ≡ sources_fit (map source_view sources.now) }
{
    sources.len() <= MAX_ITEMS && have_small_spaces(sources)
}

// Whether the namespaces of sources have numbers of 32 bits.
fn have_small_spaces(sources: &[SourceText]) -> bool
    ensures { result ≡ list_all (λ (s : SourceText). nat_le (source_space (source_view s)) MAX_32) sources.now }
{
    sources.iter().all(|source| source.triple().ns <= MAX_32)
}

// Whether these are not too many ranges, and their namespaces have numbers of 32 bits.
fn ranges_fit(ranges: &[RangeText]) -> bool
    ensures { result ≡ ranges_fit (map range_view ranges.now) }
{
    ranges.len() <= MAX_ITEMS && lie_in_small_spaces(ranges)
}

// Whether the namespaces of ranges have numbers of 32 bits.
fn lie_in_small_spaces(ranges: &[RangeText]) -> bool
    ensures { result ≡ list_all (λ (range : RangeText). nat_le range.triple.ns MAX_32) ranges.now }
{
    ranges.iter().all(|range| range.triple.ns <= MAX_32)
}

impl SourceText {
    // The numbers of a source.
    fn triple(self) -> Triple
        ensures { source_space (source_view self) ≡ result.ns }
    {
        match self {
            SourceText::Nvm(triple) => triple,
            SourceText::Mem(triple) => triple,
        }
    }
}

impl FieldValue {
    // The number that it says; 0 where it says none.
    fn number(&self) -> u64
        ensures { result ≡ number_in (Some (value_view self.now)) }
    {
        match self {
            FieldValue::Count(n) => *n,
            FieldValue::Queued(_, _)
            | FieldValue::Data(_)
            | FieldValue::Copied(_)
            | FieldValue::Covered(_) => 0,
        }
    }

    // The identifier of the device that it says; 0 where it says none.
    fn identifier(&self) -> u64
        requires { identifier_in (Some (value_view self.now)) < 2 ^ 64 }
        ensures { result ≡ identifier_in (Some (value_view self.now)) }
    {
        match self {
            FieldValue::Count(n) => *n,
            FieldValue::Queued(queue, cid) => queue.saturating_sub(1) * QUEUE_CIDS + *cid,
            FieldValue::Data(_) | FieldValue::Copied(_) | FieldValue::Covered(_) => 0,
        }
    }

    /// The queue that it says; 1 where it says none.
    pub fn queue(&self) -> u64
        ensures { result ≡ queue_in (Some (value_view self.now)) }
    {
        match self {
            FieldValue::Queued(queue, _) => *queue,
            FieldValue::Count(_)
            | FieldValue::Data(_)
            | FieldValue::Copied(_)
            | FieldValue::Covered(_) => 1,
        }
    }

    /// The data that it says; none where it says none.
    pub fn into_data(self, alloc: Global) -> Bytes
        ensures { result.items ≡ data_in (value_view self) }
    {
        match self {
            FieldValue::Data(bytes) => bytes,
            FieldValue::Count(_)
            | FieldValue::Queued(_, _)
            | FieldValue::Copied(_)
            | FieldValue::Covered(_) => Bytes::new(alloc),
        }
    }

    // The sources that it says; none where it says none.
    fn sources(&self) -> &[SourceText]
        ensures { map source_view result.now ≡ sources_in (Some (value_view self.now)) }
    {
        match self {
            FieldValue::Copied(sources) => sources.as_slice(),
            FieldValue::Count(_)
            | FieldValue::Queued(_, _)
            | FieldValue::Data(_)
            | FieldValue::Covered(_) => &[],
        }
    }

    // The ranges that it says; none where it says none.
    fn ranges(&self) -> &[RangeText]
        ensures { map range_view result.now ≡ ranges_in (Some (value_view self.now)) }
    {
        match self {
            FieldValue::Covered(ranges) => ranges.as_slice(),
            FieldValue::Count(_)
            | FieldValue::Queued(_, _)
            | FieldValue::Data(_)
            | FieldValue::Copied(_) => &[],
        }
    }
}

/// The number at a place of what a line's fields say; 0 where there is none.

pub fn number_at(values: &[FieldValue], place: usize) -> u64
    ensures { result ≡ number_at (map value_view values.now) place }
{
    match values.get(place) {
        Some(value) => value.number(),
        None => 0,
    }
}

/// The identifier of the device at a place of what a line's fields say: the identifiers of a queue, of which there are
/// 65,536, come behind those of the queues before it. 0 where there is none.
pub fn identifier_at(values: &[FieldValue], place: usize) -> u64
    requires { identifier_at (map value_view values.now) place < 2 ^ 64 }
    ensures { result ≡ identifier_at (map value_view values.now) place }
{
    match values.get(place) {
        Some(value) => value.identifier(),
        None => 0,
    }
}

/// The queue at a place of what a line's fields say; 1 where there is none.
pub fn queue_at(values: &[FieldValue], place: usize) -> u64
    ensures { result ≡ queue_at (map value_view values.now) place }
{
    match values.get(place) {
        Some(value) => value.queue(),
        None => 1,
    }
}

/// The sources at a place of what a line's fields say; none where there are none.

pub fn sources_at(values: &[FieldValue], place: usize) -> &[SourceText]
    ensures { map source_view result.now ≡ sources_at (map value_view values.now) place }
{
    match values.get(place) {
        Some(value) => value.sources(),
        None => &[],
    }
}

/// The ranges at a place of what a line's fields say; none where there are none.

pub fn ranges_at(values: &[FieldValue], place: usize) -> &[RangeText]
    ensures { map range_view result.now ≡ ranges_at (map value_view values.now) place }
{
    match values.get(place) {
        Some(value) => value.ranges(),
        None => &[],
    }
}

/// What stands behind a name at the front of a text, where it stands there.
pub fn after_name<'a>(name: &[u8], text: &'a [u8]) -> Option<&'a [u8]>
    ensures { option_map (λ rest. rest.now) result ≡ after_name name.now text.now }
{
    text.strip_prefix(name)
}
