// Executions of the device's own programs, which work on the pieces themselves.
ghost use Rattle.std.specs.Prelude.{◌≡◌, ◌≤◌, ◌<◌, ◌-◌, ◌*◌, ◌^◌, ◌==◌, ◌%◌, [], ℕ, All, List, Some, count_by, length, option_map, slice_get, slice_set, sum, sum_by, take, unwrap_or};
ghost use Rattle.cp_base.specs.Pieces.{patched};
ghost use Rattle.cp_base.specs.declared.limits.TheConstants.{MAX_ITEMS, MAX_NAMESPACE};
ghost use Rattle.device_model.specs.Builtin as builtin;
ghost use Rattle.device_model.specs.Builtin.{Builtin, builtin_at, builtin_outcome, common_len, cost_of, marks_of, total_of, window_at};
ghost use Rattle.device_model.specs.Execution.{told_of};
ghost use Rattle.trail_model.specs.LocalEffects.{ranges_with};
ghost use Rattle.trail_model.specs.Pieces.{RegionBytes};
ghost use Rattle.job_run.specs.Own.{named_builtin};
ghost use Rattle.job_run.specs.Windows.{piece_bytes};
ghost use Rattle.job_run.specs.Works.{AreOfRanges, memory_in, piece_holding, region_bytes};

use crate::pieces::{put_bytes, take_bytes};
use builtin_programs::{count_byte, first_difference, mark_class, sum_bytes};
use cp_base::{Access, Bytes, MemRange, Piece, SLOTS, Status};

// How many marks are kept beside the pieces before they are put into one.
const MARKS: usize = 4096;

// A program of the device.
#[derive(Clone, Copy, Debug, PartialEq, Eq)]
pub(crate) enum OwnProgram {
    // How many bytes have a value.
    Count,
    // The sum of the bytes.
    Sum,
    // The first place at which the first two pieces differ.
    Compare,
    // Which bytes of the first piece lie in a class, with a mark for each in the second.
    Classes,
}

// The program of the device in a slot. `None` where it has none there.
pub(crate) fn own_program(slot: u32) -> Option<OwnProgram>
    ensures { option_map named_builtin result ≡ builtin_at slot }
{
    match slot.checked_sub(SLOTS) {
        Some(0) => Some(OwnProgram::Count),
        Some(1) => Some(OwnProgram::Sum),
        Some(2) => Some(OwnProgram::Compare),
        Some(3) => Some(OwnProgram::Classes),
        _ => None,
    }
}

/// Executes the device's own program of a slot on the pieces. Answers what a host is told.
pub(crate) fn execute_own(
    pieces: &mut Vec<Piece>,
    ranges: &[MemRange],
    slot: u32,
    p1: u64,
    p2: u64,
    budget: u64,
) -> (Status, u64)
    requires few { length ranges.now ≤ MAX_ITEMS }
    requires of_ranges { AreOfRanges pieces.old.items ranges.now }
    ensures told { (program : Builtin) → builtin_at slot ≡ Some program
        → told_of budget (builtin_outcome program ranges.now (memory_in pieces.old.items) p1 p2 budget).ending
        ≡ record { status = result.0; result = result.1; bytes = [] } }
    ensures left { (program : Builtin) → builtin_at slot ≡ Some program
        → region_bytes pieces.new.items
        ≡ ranges_with (builtin_outcome program ranges.now (memory_in pieces.old.items) p1 p2 budget).memory ranges.now }
{
    let Some(program) = own_program(slot) else {
        return (Status::Ok, 0);
    };
    let cost = cost(pieces, program);
    if cost > budget {
        return (Status::BudgetSpent, budget);
    }
    match program {
        OwnProgram::Count => (Status::Ok, counted(pieces, (p1 % 256) as u8)),
        OwnProgram::Sum => (Status::Ok, summed(pieces)),
        OwnProgram::Compare => (Status::Ok, compared(pieces, cost)),
        OwnProgram::Classes => classes(pieces, ranges, cost, (p1 % 256) as u8, (p2 % 256) as u8),
    }
}

// What a program costs of the budget.
fn cost(pieces: &[Piece], program: OwnProgram) -> u64
    requires few { length pieces.now ≤ MAX_ITEMS }
    requires short { All (λ piece. length piece.bytes.items ≤ MAX_NAMESPACE) pieces.now }
    ensures { result ≡ cost_of (named_builtin program) (piece_bytes pieces.now) }
{
    match program {
        OwnProgram::Count | OwnProgram::Sum => total(pieces),
        OwnProgram::Compare | OwnProgram::Classes => common(pieces),
    }
}

// How many bytes the pieces have together.
fn total(pieces: &[Piece]) -> u64
    requires few { length pieces.now ≤ MAX_ITEMS }
    requires short { All (λ piece. length piece.bytes.items ≤ MAX_NAMESPACE) pieces.now }
    ensures { result ≡ total_of (piece_bytes pieces.now) }
{
    let mut bytes = 0u64;
    for piece in pieces {
        bytes += piece.bytes.len();
    }
    bytes
}

// How many bytes the first two pieces both have.
fn common(pieces: &[Piece]) -> u64
    ensures { result ≡ common_len (piece_bytes pieces.now) }
{
    if pieces.len() < 2 {
        return 0;
    }
    pieces[0].bytes.len().min(pieces[1].bytes.len())
}

// How many bytes of the pieces have a value.
fn counted(pieces: &[Piece], value: u8) -> u64
    requires few { length pieces.now ≤ MAX_ITEMS }
    requires short { All (λ piece. length piece.bytes.items ≤ MAX_NAMESPACE) pieces.now }
    ensures { result ≡ sum_by (λ window. count_by (λ byte. byte == value) window) (piece_bytes pieces.now) }
{
    let mut number = 0u64;
    for piece in pieces {
        number += counted_in(piece.bytes.as_slice(), value);
    }
    number
}

// How many bytes have a value; no more than there are.
fn counted_in(bytes: &[u8], value: u8) -> u64
    ensures count { result ≡ count_by (λ byte. byte == value) bytes.now }
    ensures bounded { result ≤ length bytes.now }
{
    count_byte(bytes, value)
}

// The sum of the bytes of the pieces.
fn summed(pieces: &[Piece]) -> u64
    requires few { length pieces.now ≤ MAX_ITEMS }
    requires short { All (λ piece. length piece.bytes.items ≤ MAX_NAMESPACE) pieces.now }
    ensures { result ≡ sum_by sum (piece_bytes pieces.now) }
{
    let mut total = 0u64;
    for piece in pieces {
        total += summed_in(piece.bytes.as_slice());
    }
    total
}

// The sum of bytes, which has 32 bits.
fn summed_in(bytes: &[u8]) -> u64
    requires { length bytes.now ≤ MAX_NAMESPACE }
    ensures sum { result ≡ sum bytes.now }
    ensures bounded { result < 2 ^ 32 }
{
    sum_bytes(bytes)
}

// Where the first two pieces first differ, among as many bytes as both have.
fn compared(pieces: &[Piece], cost: u64) -> u64
    requires { cost ≡ common_len (piece_bytes pieces.now) }
    ensures { result
        ≡ unwrap_or
        (builtin.first_difference (window_at (piece_bytes pieces.now) 0) (window_at (piece_bytes pieces.now) 1))
        (2 ^ 64 - 1) }
{
    if pieces.len() < 2 {
        return u64::MAX;
    }
    let len = cost as usize;
    let a = &pieces[0].bytes.as_slice()[..len];
    let b = &pieces[1].bytes.as_slice()[..len];
    first_difference(a, b).unwrap_or(u64::MAX)
}

// Marks the bytes of the first piece that lie in a class in the second one, as many as both have.
fn classes(
    pieces: &mut Vec<Piece>,
    ranges: &[MemRange],
    cost: u64,
    low: u8,
    high: u8,
) -> (Status, u64)
    requires of_ranges { AreOfRanges pieces.old.items ranges.now }
    requires cost { cost ≡ common_len (piece_bytes pieces.old.items) }
    ensures told { (p1 p2 budget : ℕ) → low ≡ p1 % 256 → high ≡ p2 % 256 → cost ≤ budget
        → told_of budget (builtin_outcome builtin.Classes ranges.now (memory_in pieces.old.items) p1 p2 budget).ending
        ≡ record { status = result.0; result = result.1; bytes = [] } }
    ensures left { (p1 p2 budget : ℕ) → low ≡ p1 % 256 → high ≡ p2 % 256 → cost ≤ budget
        → region_bytes pieces.new.items
        ≡ ranges_with
        (builtin_outcome builtin.Classes ranges.now (memory_in pieces.old.items) p1 p2 budget).memory ranges.now }
{
    if cost == 0 {
        return (Status::Ok, 0);
    }
    match ranges[1].access {
        Access::ReadOnly => (Status::BadAccess, 0),
        Access::ReadWrite => (Status::Ok, marked(pieces, cost, low, high)),
    }
}

// Marks the first bytes of the first piece in the second one. Answers how many lie in the class.
fn marked(pieces: &mut Vec<Piece>, cost: u64, low: u8, high: u8) -> u64
    requires first { cost ≤ length (window_at (piece_bytes pieces.old.items) 0) }
    requires second { cost ≤ length (window_at (piece_bytes pieces.old.items) 1) }
    requires two { 2 ≤ length pieces.old.items }
    ensures number { result ≡ sum (marks_of low high (take cost (window_at (piece_bytes pieces.old.items) 0))) }
    ensures marks { (piece : RegionBytes) → slice_get (region_bytes pieces.old.items) 1 ≡ Some piece
        → region_bytes pieces.new.items ≡ slice_set (region_bytes pieces.old.items) 1
        (piece_holding (patched piece.bytes 0 (marks_of low high (take cost (window_at (piece_bytes pieces.old.items) 0)))) piece) }
{
    let mut into = take_bytes(pieces, 1);
    let number = mark(
        &pieces[0].bytes.as_slice()[..cost as usize],
        &mut into,
        low,
        high,
    );
    put_bytes(pieces, 1, into);
    number
}

// Puts marks over the first bytes of a buffer. Answers how many of the bytes lie in the class.
pub(crate) fn mark(from: &[u8], into: &mut Bytes, low: u8, high: u8) -> u64
    requires { length from.now ≤ length into.old.items }
    ensures number { result ≡ sum (marks_of low high from.now) }
    ensures marks { into.new.items ≡ patched into.old.items 0 (marks_of low high from.now) }
{
    let mut marks = [0u8; MARKS];
    let mut number = 0u64;
    let mut at = 0usize;
    while at < from.len() {
        let len = (from.len() - at).min(MARKS);
        number += mark_class(&from[at..at + len], &mut marks[..len], low, high);
        into.write(at as u64, &marks[..len]);
        at += len;
    }
    number
}
