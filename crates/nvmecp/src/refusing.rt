// What is told of an input that is refused, or that says what does not hold.
ghost use Rattle.std.specs.Prelude.{◌≡◌, ◌≢◌, IfOk};
ghost use Rattle.script_plan.specs.Cause.{breach_of};
ghost use Rattle.nvmecp.specs.Check.{bad_line};
ghost use Rattle.nvmecp.specs.Ends.{EndsDenied, EndsRefused};
ghost use Rattle.nvmecp.specs.Refusal.{breach_text, cause_text, place_line, refusal_line};

use crate::ending::Ending;
use cp_base::{Bytes, NoMemory};
use cp_io::{Sink, write_all};
use cp_text::{push_number, push_piece};
use script_line::TextCause;
use script_plan::PlanCause;
use std::alloc::Global;

/// The name of what is wrong with a line by itself, its place and its limits.
pub fn cause_name(cause: TextCause) -> &'static str
    ensures { result.now ≡ cause_text cause }
{
    match cause {
        TextCause::Word => "Word",
        TextCause::Field => "Field",
        TextCause::Number => "Number",
        TextCause::Hex => "Hex",
        TextCause::Order => "Order",
        TextCause::Limit => "Limit",
    }
}

/// The name of a rule of queues that a line breaks.
pub fn breach_name(cause: PlanCause) -> &'static str
    ensures { result.now ≡ breach_text (breach_of cause) }
{
    match cause {
        PlanCause::QueueFull => "QueueFull",
        PlanCause::CidBusy => "CidBusy",
        PlanCause::NotOutstanding => "NotOutstanding",
        PlanCause::NoHosts => "NoHosts",
    }
}

// The line that tells a line of the input, counted from 1, and what is wrong with it.
fn line_text(alloc: Global, line: u32, name: &str) -> Result<Bytes, NoMemory>
    ensures { IfOk result (λ text. text.items ≡ refusal_line line name.now) }
{
    let mut text = Bytes::new(alloc);
    push_piece(&mut text, b"line ")?;
    push_number(&mut text, line as u64)?;
    push_piece(&mut text, b": ")?;
    push_piece(&mut text, name.as_bytes())?;
    push_piece(&mut text, b"\n")?;
    Ok(text)
}

// The line that tells a place of code that has no instruction.
fn place_text(alloc: Global, place: u32) -> Result<Bytes, NoMemory>
    ensures { IfOk result (λ text. text.items ≡ place_line place) }
{
    let mut text = Bytes::new(alloc);
    push_piece(&mut text, b"place ")?;
    push_number(&mut text, place as u64)?;
    push_piece(&mut text, b": BadInsn\n")?;
    Ok(text)
}

// The line that tells the first bad line of a history, counted from 1.
fn bad_line_text(alloc: Global, line: u32) -> Result<Bytes, NoMemory>
    ensures { IfOk result (λ text. text.items ≡ bad_line line) }
{
    let mut text = Bytes::new(alloc);
    push_piece(&mut text, b"history line ")?;
    push_number(&mut text, line as u64)?;
    push_piece(&mut text, b": NotLegal\n")?;
    Ok(text)
}

/// Writes a line that tells a refusal.
pub fn refuse<K: Sink>(sink: &mut K, line: &[u8]) -> Ending
    ensures ends { EndsRefused line.now K.held K.faults sink.old sink.new result }
    ensures memory { result ≢ Ending.NoMemory }
{
    match write_all(sink, line) {
        Ok(()) => Ending::Refused,
        Err(_) => Ending::WriteFault,
    }
}

/// Tells a line of the input and what is wrong with it.
pub fn refuse_line<K: Sink>(alloc: Global, sink: &mut K, line: u32, name: &str) -> Ending
    ensures { EndsRefused (refusal_line line name.now) K.held K.faults sink.old sink.new result }
{
    match line_text(alloc, line, name) {
        Ok(text) => refuse(sink, text.as_slice()),
        Err(NoMemory) => Ending::NoMemory,
    }
}

/// Tells a place of code that has no instruction.
pub fn refuse_place<K: Sink>(alloc: Global, sink: &mut K, place: u32) -> Ending
    ensures { EndsRefused (place_line place) K.held K.faults sink.old sink.new result }
{
    match place_text(alloc, place) {
        Ok(text) => refuse(sink, text.as_slice()),
        Err(NoMemory) => Ending::NoMemory,
    }
}

/// Tells the first bad line of a history.
pub fn deny_line<K: Sink>(alloc: Global, sink: &mut K, line: u32) -> Ending
    ensures { EndsDenied (bad_line line) K.held K.faults sink.old sink.new result }
{
    match bad_line_text(alloc, line) {
        Ok(text) => match write_all(sink, text.as_slice()) {
            Ok(()) => Ending::Denied,
            Err(_) => Ending::WriteFault,
        },
        Err(NoMemory) => Ending::NoMemory,
    }
}
