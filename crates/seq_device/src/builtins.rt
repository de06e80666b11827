// The programs that the device itself has, by plain loops. They cost a byte of the budget for each byte that
// they look at.
ghost use Rattle.std.specs.Prelude.{◌≡◌, ℕ, ◌+◌, ◌%◌, ◌==◌, ◌≤◌, ◌<◌, ◌*◌, ◌-◌, ◌^◌, unwrap_or, All, length, count_by, sum, sum_by, take, option_copied, option_map, slice_get, IfSome, IfOk, OnOk, OnErr};
ghost use Rattle.cp_base.specs.Contents.{Contents};
ghost use Rattle.cp_base.specs.declared.limits.TheConstants.{MAX_ITEMS, MAX_NAMESPACE};
ghost use Rattle.bpf_model.specs.Memory.{Memory, bytes_from, windows_of};
ghost use Rattle.device_model.specs.Builtin as builtin;
ghost use Rattle.device_model.specs.Builtin.{builtin_at, builtin_outcome, cost_of, first_difference, marks_of, result_of, total_of};
ghost use Rattle.device_model.specs.Execution.{OfDevice, memory_of, outcome_on, with_memory};
ghost use Rattle.seq_device.specs.Programs.{builtin_of};
ghost use Rattle.seq_device.specs.Ranges.{AreAtHand, IsAtHand};

use crate::loaded::{is_read_write, region};
use bpf_exec::End;
use cp_base::{ByteRange, Bytes, MemRange, NoMemory, SLOTS, SpaceId};
use slm_bytes::Flat;
use std::alloc::Global;

/// A program of the device.
#[derive(Clone, Copy, Debug, PartialEq, Eq)]
pub(crate) enum DeviceProgram {
    /// How many bytes of the ranges have a value.
    Count,
    /// The sum of the bytes of the ranges.
    Sum,
    /// The first place at which the first two ranges differ.
    Compare,
    /// Which bytes of the first range lie in a class, with a mark for each in the second.
    Classes,
}

/// The program of the device in a slot. `None` where it has none there.
pub(crate) fn device_program(slot: u32) -> Option<DeviceProgram>
    ensures { option_map builtin_of result ≡ builtin_at slot }
{
    match slot.checked_sub(SLOTS) {
        Some(0) => Some(DeviceProgram::Count),
        Some(1) => Some(DeviceProgram::Sum),
        Some(2) => Some(DeviceProgram::Compare),
        Some(3) => Some(DeviceProgram::Classes),
        _ => None,
    }
}

// The bytes of a range.
#[tactic(auto, using(crate::proofs::Windows::bytes_seen))]
fn bytes_of<'f>(flat: &'f Flat, range: &MemRange) -> &'f [u8]
    requires { IsAtHand flat.now range.now }
    ensures bytes { result.now ≡ bytes_from (memory_of flat.now) range.now.ns range.now.at range.now.len }
    ensures len { length result.now ≡ range.now.len }
{
    flat.slice(&region(range))
}

// The range of this index.
fn range_at(ranges: &[MemRange], index: usize) -> Option<&MemRange>
    ensures range { option_copied result ≡ slice_get ranges.now index }
    ensures at_hand { (contents : Contents) → All (IsAtHand contents) ranges.now
        → IfSome result (λ range. IsAtHand contents range.now) }
{
    ranges.get(index)
}

// The bytes of the range of this index; none where there is no such range.
fn window_at<'f>(flat: &'f Flat, ranges: &[MemRange], index: usize) -> &'f [u8]
    requires { All (IsAtHand flat.now) ranges.now }
    ensures bytes { result.now ≡ builtin.window_at (windows_of (memory_of flat.now) ranges.now) index }
    ensures short { length result.now ≤ MAX_NAMESPACE }
{
    match ranges.get(index) {
        Some(range) => bytes_of(flat, range),
        None => &[],
    }
}

// How many bytes have a value.
fn count_bytes(bytes: &[u8], value: u8) -> u64
    ensures count { result ≡ count_by (λ byte. byte == value) bytes.now }
    ensures bounded { result ≤ length bytes.now }
{
    bytes.iter().filter(|byte| **byte == value).count() as u64
}

// The sum of bytes.
fn sum_bytes(bytes: &[u8]) -> u64
    requires { length bytes.now ≤ MAX_NAMESPACE }
    ensures sum { result ≡ sum bytes.now }
    ensures bounded { result ≤ 255 * MAX_NAMESPACE }
{
    let mut total = 0;
    for byte in bytes {
        total += u64::from(*byte);
    }
    total
}

// The first place at which two lists differ before one ends, or `u64::MAX` where there is none.
fn difference(a: &[u8], b: &[u8]) -> u64
    requires { length a.now ≤ MAX_NAMESPACE }
    ensures { result ≡ unwrap_or (first_difference a.now b.now) (2 ^ 64 - 1) }
{
    for (place, byte) in a.iter().enumerate() {
        if place >= b.len() {
            break;
        }
        if *byte != b[place] {
            return place as u64;
        }
    }
    u64::MAX
}

// 1 for each byte of a class, which goes from low to high, and 0 for each other.
fn marks_of(alloc: Global, bytes: &[u8], low: u8, high: u8) -> Result<Bytes, NoMemory>
    ensures { IfOk result (λ marks. marks.items ≡ marks_of low high bytes.now) }
{
    let marks = marked(alloc, bytes, low, high)?;
    Bytes::from_slice(alloc, marks.as_slice())
}

// The marks, as a list.
fn marked(alloc: Global, bytes: &[u8], low: u8, high: u8) -> Result<Vec<u8>, NoMemory>
    ensures { IfOk result (λ marks. marks.items ≡ marks_of low high bytes.now) }
{
    let mut marks = Vec::with_capacity(alloc, bytes.len())?;
    for byte in bytes {
        marks.push(u8::from(low <= *byte && *byte <= high))?;
    }
    Ok(marks)
}

// How many bytes the ranges have.
fn total_len(ranges: &[MemRange]) -> u64
    requires few { length ranges.now ≤ MAX_ITEMS }
    requires short { All (λ range. range.len ≤ MAX_NAMESPACE) ranges.now }
    ensures total { (memory : Memory) → result ≡ total_of (windows_of memory ranges.now) }
{
    let mut total = 0;
    for range in ranges {
        total += range.len;
    }
    total
}

// How many bytes the first two ranges both have.
fn common_len(flat: &Flat, ranges: &[MemRange]) -> usize
    requires { All (IsAtHand flat.now) ranges.now }
    ensures len { result ≡ builtin.common_len (windows_of (memory_of flat.now) ranges.now) }
    ensures short { result ≤ MAX_NAMESPACE }
{
    window_at(flat, ranges, 0)
        .len()
        .min(window_at(flat, ranges, 1).len())
}

// What a program costs of the budget.
fn cost(flat: &Flat, ranges: &[MemRange], program: DeviceProgram) -> u64
    requires few { length ranges.now ≤ MAX_ITEMS }
    requires at_hand { All (IsAtHand flat.now) ranges.now }
    ensures { result ≡ cost_of (builtin_of program) (windows_of (memory_of flat.now) ranges.now) }
{
    match program {
        DeviceProgram::Count | DeviceProgram::Sum => total_len(ranges),
        DeviceProgram::Compare | DeviceProgram::Classes => common_len(flat, ranges) as u64,
    }
}

// How many bytes of ranges have a value.
fn count(flat: &Flat, ranges: &[MemRange], value: u8) -> u64
    requires few { length ranges.now ≤ MAX_ITEMS }
    requires at_hand { All (IsAtHand flat.now) ranges.now }
    ensures { result
        ≡ sum_by (λ window. count_by (λ byte. byte == value) window) (windows_of (memory_of flat.now) ranges.now) }
{
    let mut total = 0;
    for range in ranges {
        total += count_bytes(bytes_of(flat, range), value);
    }
    total
}

// The sum of the bytes of ranges.
fn sum(flat: &Flat, ranges: &[MemRange]) -> u64
    requires few { length ranges.now ≤ MAX_ITEMS }
    requires at_hand { All (IsAtHand flat.now) ranges.now }
    ensures { result ≡ sum_by sum (windows_of (memory_of flat.now) ranges.now) }
{
    let mut total = 0;
    for range in ranges {
        total += sum_bytes(bytes_of(flat, range));
    }
    total
}

// Marks in the second range which bytes of the first lie in a class, as far as both go, and tells how many do.
fn classes(
    alloc: Global,
    flat: &mut Flat,
    ranges: &[MemRange],
    p1: u64,
    p2: u64,
) -> Result<End, NoMemory>
    requires { All (IsAtHand flat.old) ranges.now }
    ensures ending { (budget : ℕ) → builtin.common_len (windows_of (memory_of flat.old) ranges.now) ≤ budget →
        IfOk result (λ ending. ending ≡ (builtin_outcome builtin.Classes ranges.now (memory_of flat.old) p1 p2 budget).ending) }
    ensures left { (budget : ℕ) → builtin.common_len (windows_of (memory_of flat.old) ranges.now) ≤ budget →
        OnOk result (flat.new ≡ with_memory flat.old (builtin_outcome builtin.Classes ranges.now (memory_of flat.old) p1 p2 budget).memory) }
    ensures unchanged { OnErr result (flat.new ≡ flat.old) }
{
    let Some(from) = range_at(ranges, 0) else {
        return Ok(End::Exit(0));
    };
    let Some(into) = range_at(ranges, 1) else {
        return Ok(End::Exit(0));
    };
    if !is_read_write(into) {
        return Ok(End::BadAccess(0));
    }
    let common = from.len.min(into.len);
    let marks = class_marks(alloc, flat, from, common, p1, p2)?;
    let members = sum_bytes(marks.as_slice());
    flat.patch(&first_bytes(into, common), &marks);
    Ok(End::Exit(members))
}

// So many bytes of a range, from its first on.
fn first_bytes(range: &MemRange, len: u64) -> ByteRange
    requires some { 0 < len }
    requires fits { len ≤ range.now.len }
    requires short { range.now.at + range.now.len ≤ MAX_NAMESPACE }
    ensures { result ≡ record { space = SpaceId.Mem range.now.ns; start = range.now.at; len = len } }
{
    ByteRange::new(SpaceId::Mem(range.ns), range.at, len).unwrap()
}

// The marks of so many bytes of a range, from its first on.
#[tactic(auto, using(crate::proofs::Windows::first_seen))]
fn class_marks(
    alloc: Global,
    flat: &Flat,
    from: &MemRange,
    len: u64,
    p1: u64,
    p2: u64,
) -> Result<Bytes, NoMemory>
    requires at_hand { IsAtHand flat.now from.now }
    requires some { 0 < len }
    requires fits { len ≤ from.now.len }
    ensures marks { IfOk result (λ marks. marks.items
        ≡ builtin.marks_of (p1 % 256) (p2 % 256) (bytes_from (memory_of flat.now) from.now.ns from.now.at len)) }
{
    let bytes = flat.slice(&first_bytes(from, len));
    marks_of(alloc, bytes, (p1 % 256) as u8, (p2 % 256) as u8)
}

/// Executes a program of the device on ranges, and tells how it ends. Where it costs more than the budget,
/// nothing is done.
///
/// # Errors
///
/// `NoMemory` where there is none for the marks. Then nothing changes.
pub(crate) fn run_builtin(
    alloc: Global,
    flat: &mut Flat,
    ranges: &[MemRange],
    program: DeviceProgram,
    p1: u64,
    p2: u64,
    budget: u64,
) -> Result<End, NoMemory>
    requires few { length ranges.now ≤ MAX_ITEMS }
    requires at_hand { AreAtHand flat.old ranges.now }
    ensures ending { IfOk result (λ ending.
        ending ≡ (outcome_on (OfDevice (builtin_of program)) ranges.now (memory_of flat.old) p1 p2 budget).ending) }
    ensures left { OnOk result
        (flat.new ≡ with_memory flat.old (outcome_on (OfDevice (builtin_of program)) ranges.now (memory_of flat.old) p1 p2 budget).memory) }
    ensures unchanged { OnErr result (flat.new ≡ flat.old) }
{
    if cost(flat, ranges, program) > budget {
        return Ok(End::BudgetSpent);
    }
    match program {
        DeviceProgram::Count => Ok(End::Exit(count(flat, ranges, (p1 % 256) as u8))),
        DeviceProgram::Sum => Ok(End::Exit(sum(flat, ranges))),
        DeviceProgram::Compare => Ok(End::Exit(difference(
            window_at(flat, ranges, 0),
            window_at(flat, ranges, 1),
        ))),
        DeviceProgram::Classes => classes(alloc, flat, ranges, p1, p2),
    }
}
