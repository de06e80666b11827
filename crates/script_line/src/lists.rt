// Numbers, and the lists of sources and ranges, by their texts.
ghost use Rattle.std.specs.Prelude.{◌≡◌, ℕ, List, ◌∷◌, [], map, IfOk, MatchOption, option_map};
ghost use Rattle.cp_text.specs.Parts.{parts_between, parts_in};
ghost use Rattle.script_line.specs.Reading.{range_in, read_each, read_number, read_queued, read_range, read_source, read_three_numbers, read_triple};
ghost use Rattle.script_line.specs.Values.{ReadsAs, range_view, source_view, value_view};
ghost use Rattle.script_line.specs.private.Outcomes.{IsShort, followed, noted, range_with};

use crate::field::{FieldValue, RangeText, SourceText, Triple};
use crate::{LineEnd, TextCause};
use cp_base::{Access, NoMemory};
use cp_text::{number, split_part};
use std::alloc::Global;

/// A number by its text.
pub fn read_number(text: &[u8]) -> Result<u64, LineEnd>
    ensures { ReadsAs (λ n. n) result (read_number text.now) }
{
    match number(text) {
        Some(n) => Ok(n),
        None => Err(LineEnd::Fault(TextCause::Number)),
    }
}

/// A queue and an identifier in it, with a colon between.
#[tactic(auto, using(crate::proofs::Queues::one_part, crate::proofs::Queues::three_parts, crate::proofs::Queues::no_queue, crate::proofs::Queues::no_cid))]
pub fn read_queued(text: &[u8]) -> Result<FieldValue, LineEnd>
    ensures { ReadsAs value_view result (read_queued text.now) }
{
    let (queue, rest) = split_part(text, b':');
    let Some(rest) = rest else {
        return Err(LineEnd::Fault(TextCause::Field));
    };
    let (cid, more) = split_part(rest, b':');
    if more.is_some() {
        return Err(LineEnd::Fault(TextCause::Field));
    }
    let Some(queue) = number(queue) else {
        return Err(LineEnd::Fault(TextCause::Number));
    };
    let Some(cid) = number(cid) else {
        return Err(LineEnd::Fault(TextCause::Number));
    };
    Ok(FieldValue::Queued(queue, cid))
}

// A text of three parts or more, with colons between: the three, and what stands behind them.
type Parts<'a> = (&'a [u8], &'a [u8], &'a [u8], Option<&'a [u8]>);

// The first three parts of a text between colons, and what stands behind them.
fn three_parts(text: &[u8]) -> Option<Parts>
    ensures { MatchOption result (IsShort (parts_between 58 text.now))
        (λ p. parts_between 58 text.now ≡ p.0.now ∷ p.1.now ∷ p.2.now ∷ parts_in 58 (option_map (λ t. t.now) p.3)) }
{
    let (ns, rest) = split_part(text, b':');
    let (start, rest) = split_part(rest?, b':');
    let (len, rest) = split_part(rest?, b':');
    Some((ns, start, len, rest))
}

// Three numbers with colons between.
#[tactic(auto, using(crate::proofs::Triples::four_parts, crate::proofs::Triples::short_triple))]
fn read_triple(text: &[u8]) -> Result<Triple, LineEnd>
    ensures { ReadsAs (λ t. t) result (read_triple (parts_between 58 text.now)) }
{
    match three_parts(text) {
        Some((ns, start, len, None)) => numbers_of(ns, start, len),
        Some((_, _, _, Some(_))) | None => Err(LineEnd::Fault(TextCause::Field)),
    }
}

// Three numbers by their texts.
#[tactic(auto, using(crate::proofs::Triples::no_first, crate::proofs::Triples::no_second, crate::proofs::Triples::no_third))]
fn numbers_of(ns: &[u8], start: &[u8], len: &[u8]) -> Result<Triple, LineEnd>
    ensures { ReadsAs (λ t. t) result (read_three_numbers ns.now start.now len.now) }
{
    let Some(ns) = number(ns) else {
        return Err(LineEnd::Fault(TextCause::Number));
    };
    let Some(start) = number(start) else {
        return Err(LineEnd::Fault(TextCause::Number));
    };
    let Some(len) = number(len) else {
        return Err(LineEnd::Fault(TextCause::Number));
    };
    Ok(Triple { ns, start, len })
}

// A source by its text.
fn read_source(text: &[u8]) -> Result<SourceText, LineEnd>
    ensures { ReadsAs source_view result (read_source text.now) }
{
    let Some((kind, rest)) = text.split_first() else {
        return Err(LineEnd::Fault(TextCause::Field));
    };
    if *kind == b'n' {
        Ok(SourceText::Nvm(read_triple(rest)?))
    } else if *kind == b'm' {
        Ok(SourceText::Mem(read_triple(rest)?))
    } else {
        Err(LineEnd::Fault(TextCause::Field))
    }
}

// A range by its text.
#[tactic(auto, using(crate::proofs::Triples::short_range))]
fn read_range(text: &[u8]) -> Result<RangeText, LineEnd>
    ensures { ReadsAs range_view result (read_range text.now) }
{
    let Some((ns, start, len, rest)) = three_parts(text) else {
        return Err(LineEnd::Fault(TextCause::Field));
    };
    let Some(access) = access_of(rest) else {
        return Err(LineEnd::Fault(TextCause::Field));
    };
    let triple = numbers_of(ns, start, len)?;
    Ok(RangeText { triple, access })
}

// What a program may do with a range, by what stands behind the three numbers.
#[tactic(auto, using(crate::proofs::Triples::five_parts))]
fn access_of(rest: Option<&[u8]>) -> Option<Access>
    ensures { (a b c : List ℕ)
        → range_in (a ∷ b ∷ c ∷ parts_in 58 (option_map (λ t. t.now) rest.entry)) ≡ range_with result a b c }
{
    let Some(text) = rest else {
        return Some(Access::ReadWrite);
    };
    let (part, more) = split_part(text, b':');
    if more.is_some() || part != b"r".as_slice() {
        return None;
    }
    Some(Access::ReadOnly)
}

/// The first cause so far, with another one.
pub fn noted(fault: Option<TextCause>, cause: TextCause) -> Option<TextCause>
    ensures { result ≡ noted fault cause }
{
    match fault {
        None => Some(cause),
        Some(first) => Some(first.first_of_two(cause)),
    }
}

/// Sources by their text.
pub fn read_sources(alloc: Global, text: &[u8]) -> Result<Vec<SourceText>, LineEnd>
    ensures { ReadsAs (λ sources. map source_view sources.items) result
        (read_each read_source (parts_between 44 text.now)) }
{
    let mut sources = Vec::new(alloc);
    let mut fault = None;
    let mut rest = Some(text);
    while let Some(list) = rest {
        let (part, after) = split_part(list, b',');
        fault = take_source(&mut sources, fault, part)?;
        rest = after;
    }
    match fault {
        None => Ok(sources),
        Some(cause) => Err(LineEnd::Fault(cause)),
    }
}

// Reads one more source, and gives the first cause so far.
fn take_source(
    sources: &mut Vec<SourceText>,
    fault: Option<TextCause>,
    part: &[u8],
) -> Result<Option<TextCause>, NoMemory>
    ensures { IfOk result (λ now. (parts : List (List ℕ))
        → followed now (map source_view sources.new.items) (read_each read_source parts)
        ≡ followed fault (map source_view sources.old.items) (read_each read_source (part.now ∷ parts))) }
{
    match read_source(part) {
        Ok(source) => {
            sources.push(source)?;
            Ok(fault)
        }
        Err(LineEnd::Fault(cause)) => Ok(noted(fault, cause)),
        Err(LineEnd::NoMemory) => Err(NoMemory),
    }
}

/// Ranges by their text.
pub fn read_ranges(alloc: Global, text: &[u8]) -> Result<Vec<RangeText>, LineEnd>
    ensures { ReadsAs (λ ranges. map range_view ranges.items) result
        (read_each read_range (parts_between 44 text.now)) }
{
    let mut ranges = Vec::new(alloc);
    let mut fault = None;
    let mut rest = Some(text);
    while let Some(list) = rest {
        let (part, after) = split_part(list, b',');
        fault = take_range(&mut ranges, fault, part)?;
        rest = after;
    }
    match fault {
        None => Ok(ranges),
        Some(cause) => Err(LineEnd::Fault(cause)),
    }
}

// Reads one more range, and gives the first cause so far.
fn take_range(
    ranges: &mut Vec<RangeText>,
    fault: Option<TextCause>,
    part: &[u8],
) -> Result<Option<TextCause>, NoMemory>
    ensures { IfOk result (λ now. (parts : List (List ℕ))
        → followed now (map range_view ranges.new.items) (read_each read_range parts)
        ≡ followed fault (map range_view ranges.old.items) (read_each read_range (part.now ∷ parts))) }
{
    match read_range(part) {
        Ok(range) => {
            ranges.push(range)?;
            Ok(fault)
        }
        Err(LineEnd::Fault(cause)) => Ok(noted(fault, cause)),
        Err(LineEnd::NoMemory) => Err(NoMemory),
    }
}
