//! The programs of the device, by their kernels and by plain loops.
ghost use Rattle.std.specs.Prelude.{◌≡◌, ◌≤◌, ◌==◌, length, count_by, sum, IfSome};
ghost use Rattle.std.specs.List.{common_prefix_len};
ghost use Rattle.device_model.specs.Builtin.{marks_of};
ghost use Rattle.parts_bench.specs.Parts.{GivesOn};

use crate::workload::Builtin;
use builtin_programs::{count_byte, first_difference, mark_class, sum_bytes};
use cp_base::{Bytes, MAX_NAMESPACE};
use std::alloc::Global;

// What a program gives by its kernel. The marks of a class go into as many places.
fn by_kernel(program: Builtin, bytes: &[u8], same: &[u8], marks: &mut [u8]) -> u64
    requires short { length bytes.now ≤ MAX_NAMESPACE }
    requires same { same.now ≡ bytes.now }
    requires marks { length marks.old ≡ length bytes.now }
    ensures { GivesOn program bytes.now result marks.old marks.new }
{
    match program {
        Builtin::Count => count_byte(bytes, 1),
        Builtin::Sum => sum_bytes(bytes),
        Builtin::Compare => first_difference(bytes, same).unwrap_or(bytes.len() as u64),
        Builtin::Classes => mark_class(bytes, marks, 1, 2),
    }
}

// The same by a plain loop.
fn plainly(program: Builtin, bytes: &[u8], same: &[u8], marks: &mut [u8]) -> u64
    requires short { length bytes.now ≤ MAX_NAMESPACE }
    requires same { same.now ≡ bytes.now }
    requires marks { length marks.old ≡ length bytes.now }
    ensures { GivesOn program bytes.now result marks.old marks.new }
{
    match program {
        Builtin::Count => counted(bytes, 1),
        Builtin::Sum => summed(bytes),
        Builtin::Compare => same_from_start(bytes, same),
        Builtin::Classes => marked(bytes, marks, 1, 2),
    }
}

// How many bytes have a value.
fn counted(bytes: &[u8], value: u8) -> u64
    ensures { result ≡ count_by (λ byte. byte == value) bytes.now }
{
    bytes.iter().filter(|byte| **byte == value).count() as u64
}

// The sum of bytes.
fn summed(bytes: &[u8]) -> u64
    requires { length bytes.now ≤ MAX_NAMESPACE }
    ensures { result ≡ sum bytes.now }
{
    let mut total = 0;
    for byte in bytes {
        total += u64::from(*byte);
    }
    total
}

// How many bytes are the same before the first that differ.
fn same_from_start(a: &[u8], b: &[u8]) -> u64
    requires { length a.now ≡ length b.now }
    ensures { result ≡ common_prefix_len (λ x y. x == y) a.now b.now }
{
    for i in 0..a.len() {
        if a[i] != b[i] {
            return i as u64;
        }
    }
    a.len() as u64
}

// Marks the bytes of a class, and answers how many there are.
fn marked(from: &[u8], into: &mut [u8], low: u8, high: u8) -> u64
    requires { length from.now ≡ length into.old }
    ensures marks { into.new ≡ marks_of low high from.now }
    ensures number { result ≡ sum (marks_of low high from.now) }
{
    let mut number = 0;
    for i in 0..from.len() {
        let mark = u8::from(low <= from[i] && from[i] <= high);
        into[i] = mark;
        number += u64::from(mark);
    }
    number
}

// The same by one of both.
fn once(program: Builtin, plain: bool, bytes: &[u8], same: &[u8], marks: &mut [u8]) -> u64
    requires short { length bytes.now ≤ MAX_NAMESPACE }
    requires same { same.now ≡ bytes.now }
    requires marks { length marks.old ≡ length bytes.now }
    ensures { GivesOn program bytes.now result marks.old marks.new }
{
    if plain {
        plainly(program, bytes, same, marks)
    } else {
        by_kernel(program, bytes, same, marks)
    }
}

// How many of the rounds give what a plain loop gave before them.
fn repeated(
    program: Builtin,
    plain: bool,
    bytes: &[u8],
    same: &[u8],
    marks: &mut [u8],
    rounds: u32,
) -> u64
    requires short { length bytes.now ≤ MAX_NAMESPACE }
    requires same { same.now ≡ bytes.now }
    requires marks { length marks.old ≡ length bytes.now }
    ensures { result ≡ rounds }
{
    let wanted = plainly(program, bytes, same, marks);
    let mut agreed = 0;
    for _ in 0..rounds {
        if once(program, plain, bytes, same, marks) == wanted {
            agreed += 1;
        }
    }
    agreed
}

/// Runs a program of the device so many times over so many bytes that are 1, by its kernel or by a plain loop. Answers how
/// many of the runs give what a plain loop gives. `None` where there is no memory.
pub fn run(alloc: Global, program: Builtin, plain: bool, len: u64, rounds: u32) -> Option<u64>
    requires { len ≤ MAX_NAMESPACE }
    ensures { IfSome result (λ agreed. agreed ≡ rounds) }
{
    let bytes = Bytes::filled(alloc, len, 1).ok()?;
    let same = Bytes::filled(alloc, len, 1).ok()?;
    let mut marks = Vec::new(alloc);
    marks.resize(len as usize, 0u8).ok()?;
    Some(repeated(
        program,
        plain,
        bytes.as_slice(),
        same.as_slice(),
        &mut marks,
        rounds,
    ))
}
