// A line by its text.
ghost use Rattle.std.specs.Prelude.{◌≡◌, ◌++◌, [], ◌∷◌, List, None, map, option_map, Result, IfOk, OnOk};
ghost use Rattle.cp_text.specs.HexText.{hex_of};
ghost use Rattle.script_line.specs.declared.fault.TextCause.{TextCause};
ghost use Rattle.script_line.specs.declared.fault.TextCause.TheVariants as cause;
ghost use Rattle.script_line.specs.Field as grammar;
ghost use Rattle.script_line.specs.Field.{Value};
ghost use Rattle.script_line.specs.Fits.{line_fits, values_fit};
ghost use Rattle.script_line.specs.Reading.{both, line_of, or_cause, read_field};
ghost use Rattle.script_line.specs.Values.{ReadsAs, line_view, value_view};
ghost use Rattle.script_line.specs.private.Outcomes.{field_view, noted, outcome_with, read_identifier, read_rest, reading_outcome, so_far, values_of, version_of};

use crate::field::{Field, FieldValue, after_name};
use crate::kind::{CutLine, identifier_field};
use crate::lists::{noted, read_number, read_queued, read_ranges, read_sources};
use crate::{LineEnd, LineKind, TextCause, Version};
use cp_base::{Bytes, NoMemory};
use cp_text::{hex_bytes, split_part};
use std::alloc::Global;

/// What a line says: its kind, and what its fields say, without its words.
#[derive(Debug, Drop)]
pub struct ReadLine {
    pub kind: LineKind,
    pub values: Vec<FieldValue>,
}

/// What a line of a script of this version says by its text, without its newline; a header is read by the version that
/// it states. The line's place in a script, and whether what it says keeps its limits, are not looked at. `NoMemory`
/// where memory is wanting.
pub fn read_line(alloc: Global, version: Version, text: &[u8]) -> Result<ReadLine, LineEnd>
    ensures { ReadsAs line_view result (line_of version text.now) }
{
    let cut = match LineKind::cut(version, text) {
        Ok(cut) => cut,
        Err(cause) => return Err(LineEnd::Fault(cause)),
    };
    let values = read_values(alloc, cut)?;
    let kind = cut.kind;
    Ok(ReadLine { kind, values })
}

// What the fields of a line say, whose words are read.
fn read_values(alloc: Global, line: CutLine) -> Result<Vec<FieldValue>, LineEnd>
    ensures { ReadsAs (λ values. map value_view values.items) result (read_rest line.entry) }
{
    let mut reading = read_identifier(alloc, line)?;
    reading.take_all(alloc, line.kind.fields_behind())?;
    reading.finish()
}

// A line of which the identifier is read, where it sends a command.
#[tactic(auto, using(crate::proofs::Heads::nothing_first))]
fn read_identifier(alloc: Global, line: CutLine) -> Result<Reading, NoMemory>
    ensures read { IfOk result (λ reading. (more : Result (List Value) TextCause)
        → reading_outcome reading more
        ≡ both
        (λ xs ys. xs ++ ys)
        (read_identifier (version_of line.entry.kind) (option_map (λ text. text.now) line.entry.identifier)) more) }
    ensures rest { IfOk result (λ reading. reading.rest ≡ line.entry.rest) }
{
    let mut reading = Reading::new(alloc, line.rest);
    match line.identifier {
        None => Ok(reading),
        Some(identifier) => {
            reading.read(alloc, identifier_field(line.kind.version()), identifier)?;
            Ok(reading)
        }
    }
}

/// Whether what a line says keeps the limits of its fields.
pub fn fits(line: &ReadLine) -> bool
    ensures { result ≡ line_fits (line_view line.now) }
{
    values_fit(line.kind.fields(), line.values.as_slice())
}

// Whether what the fields of a line say keeps their limits.
fn values_fit(fields: &[Field], values: &[FieldValue]) -> bool
    ensures { result ≡ values_fit (map field_view fields.now) (map value_view values.now) }
{
    let mut place = 0;
    for field in fields {
        if !field.is_word() {
            match values.get(place) {
                Some(value) if field.admits(value) => place += 1,
                Some(_) => return false,
                None => return true,
            }
        }
    }
    true
}

// Data by its text.
fn read_data(alloc: Global, text: &[u8]) -> Result<Bytes, LineEnd>
    ensures { ReadsAs (λ bytes. bytes.items) result (or_cause cause.Hex (hex_of text.now)) }
{
    match hex_bytes(alloc, text)? {
        Some(bytes) => Ok(bytes),
        None => Err(LineEnd::Fault(TextCause::Hex)),
    }
}

// What a field says by its text. A word says nothing more than itself.
fn read_field(alloc: Global, field: Field, text: &[u8]) -> Result<Option<FieldValue>, LineEnd>
    ensures { ReadsAs (λ value. values_of value) result (read_field (field_view field) text.now) }
{
    match field {
        Field::Word(word) => read_word(word, text),
        Field::Number(name, _, _) => match after_name(name, text) {
            Some(text) => Ok(Some(FieldValue::Count(read_number(text)?))),
            None => Err(LineEnd::Fault(TextCause::Field)),
        },
        Field::Identifier(name) => match after_name(name, text) {
            Some(text) => Ok(Some(read_queued(text)?)),
            None => Err(LineEnd::Fault(TextCause::Field)),
        },
        Field::Hex(name) => match after_name(name, text) {
            Some(text) => Ok(Some(FieldValue::Data(read_data(alloc, text)?))),
            None => Err(LineEnd::Fault(TextCause::Field)),
        },
        Field::Sources(name) => match after_name(name, text) {
            Some(text) => Ok(Some(FieldValue::Copied(read_sources(alloc, text)?))),
            None => Err(LineEnd::Fault(TextCause::Field)),
        },
        Field::Ranges(name) => match after_name(name, text) {
            Some(text) => Ok(Some(FieldValue::Covered(read_ranges(alloc, text)?))),
            None => Err(LineEnd::Fault(TextCause::Field)),
        },
    }
}

// This very word.
fn read_word(word: &[u8], text: &[u8]) -> Result<Option<FieldValue>, LineEnd>
    ensures { ReadsAs (λ value. values_of value) result (read_field (grammar.Word word.now) text.now) }
{
    if text == word {
        Ok(None)
    } else {
        Err(LineEnd::Fault(TextCause::Field))
    }
}

/// A line of which some fields are read: what they say, the first cause among them, and the text of
/// the fields after them, where there are any.
#[derive(Drop)]
pub struct Reading<'a> {
    values: Vec<FieldValue>,
    fault: Option<TextCause>,
    rest: Option<&'a [u8]>,
}

impl<'a> Reading<'a> {
    // A line of which no field is read.
    fn new(alloc: Global, rest: Option<&'a [u8]>) -> Reading<'a>
        ensures values { result.values.items ≡ [] }
        ensures fault { result.fault ≡ None }
        ensures rest { result.rest ≡ rest.entry }
    {
        Reading {
            values: Vec::new(alloc),
            fault: None,
            rest,
        }
    }

    // Reads a field by its text.
    fn read(&mut self, alloc: Global, field: Field, text: &[u8]) -> Result<(), NoMemory>
        ensures read { OnOk result ((more : Result (List Value) TextCause)
            → reading_outcome self.new more
            ≡ reading_outcome self.old (both (λ xs ys. xs ++ ys) (read_field (field_view field) text.now) more)) }
        ensures rest { OnOk result (self.new.rest ≡ self.old.rest) }
    {
        match read_field(alloc, field, text) {
            Ok(None) => {}
            Ok(Some(value)) => self.values.push(value)?,
            Err(LineEnd::Fault(cause)) => self.fault = noted(self.fault, cause),
            Err(LineEnd::NoMemory) => return Err(NoMemory),
        }
        Ok(())
    }

    // Reads the next field.
    fn take(&mut self, alloc: Global, field: Field) -> Result<(), NoMemory>
        ensures { OnOk result ((fields : List grammar.Field)
            → outcome_with self.new fields ≡ outcome_with self.old (field_view field ∷ fields)) }
    {
        let rest = match self.rest {
            Some(rest) => rest,
            None => {
                self.fault = noted(self.fault, TextCause::Field);
                return Ok(());
            }
        };
        let (text, after) = split_part(rest, b' ');
        self.rest = after;
        self.read(alloc, field, text)
    }

    // Reads the next fields.
    fn take_all(&mut self, alloc: Global, fields: &[Field]) -> Result<(), NoMemory>
        ensures { OnOk result ((more : List grammar.Field)
            → outcome_with self.new more ≡ outcome_with self.old (map field_view fields.now ++ more)) }
    {
        for field in fields {
            self.take(alloc, *field)?;
        }
        Ok(())
    }

    // The first cause, if no field is to follow.
    #[tactic(auto, using(crate::proofs::Outcomes::ended, crate::proofs::Outcomes::too_many))]
    fn last_fault(&self) -> Option<TextCause>
        ensures { outcome_with self.now [] ≡ so_far result (map value_view self.now.values.items) }
    {
        match self.rest {
            None => self.fault,
            Some(_) => noted(self.fault, TextCause::Field),
        }
    }

    // What the fields say, if they are all.
    fn finish(self) -> Result<Vec<FieldValue>, LineEnd>
        ensures { ReadsAs (λ values. map value_view values.items) result (outcome_with self.entry []) }
    {
        match self.last_fault() {
            None => Ok(self.values),
            Some(cause) => Err(LineEnd::Fault(cause)),
        }
    }
}
