// A run of the program: words, reading and answering, in this order.
ghost use Rattle.std.specs.Prelude.{◌≡◌, ℕ, ◌≤◌, ◌⊎◌, ◌↔◌, List, Some, None, IfSome, length, map};
ghost use Rattle.std.specs.String.{string_bytes};
ghost use Rattle.cp_io.specs.Counting.{Rose};
ghost use Rattle.cp_line.specs.declared.limits.TheConstants.{MAX_MADE};
ghost use Rattle.nvmecp.specs.Ends.{Writes, WritesFront, status_of};
ghost use Rattle.nvmecp.specs.Make.{IsSummary};
ghost use Rattle.nvmecp.specs.Run.{Done, IsCutShort, IsDenied, IsMade, IsRefused, NoFault};
ghost use Rattle.nvmecp.specs.Words.{HasWorkers, asked_of, errand_of, load_of, task_of};
ghost use Rattle.nvmecp.specs.declared.words.Asked.{Asked};

use crate::ending::Ending;
use crate::make;
use crate::refusing::refuse;
use crate::words::{Asked, Errand, Load, read_words};
use cp_io::{ReadEnd, Sink, Source, read_all};
use std::alloc::Global;

// Reads an input and answers it.
fn read_and_answer<S: Source, K: Sink>(
    alloc: Global,
    asked: Asked,
    source: &mut S,
    sink: &mut K,
) -> Ending
    requires { HasWorkers asked }
    ensures status { (status_of result ≡ 0) ⊎ (status_of result ≡ 2) ⊎ (status_of result ≡ 3) ⊎ (status_of result ≡ 4)
        ⊎ (status_of result ≡ 5) ⊎ (status_of result ≡ 6) }
    ensures done { status_of result ≡ 0
        → Done (task_of asked) S.left S.given K.held source.old source.new sink.old sink.new }
    ensures refused { status_of result ≡ 2
        → IsRefused (task_of asked) S.left S.given K.held source.old source.new sink.old sink.new }
    ensures denied { status_of result ≡ 6
        → IsDenied (task_of asked) S.left S.given K.held source.old source.new sink.old sink.new }
    ensures cut_short { status_of result ≡ 4
        → IsCutShort (task_of asked) S.left S.given K.held source.old source.new sink.old sink.new }
    ensures read_fault { status_of result ≡ 3 → Rose (S.faults source.old) (S.faults source.new) }
    ensures write_fault { status_of result ≡ 4 → Rose (K.faults sink.old) (K.faults sink.new) }
    ensures unwritten { (status_of result ≡ 3) ⊎ (status_of result ≡ 5) → sink.new ≡ sink.old }
    ensures accepted { (input : List ℕ) → S.left source.old ≡ Some input → length input ≤ (task_of asked).limit
        → (task_of asked).Accepts input → (status_of result ≡ 2) ⊎ (status_of result ≡ 6) → ⊥ }
    ensures rejected { (input : List ℕ) → S.left source.old ≡ Some input → (task_of asked).Rejects input
        → (status_of result ≡ 0) ⊎ (status_of result ≡ 6) → ⊥ }
    ensures belied { (input : List ℕ) → S.left source.old ≡ Some input → length input ≤ (task_of asked).limit
        → (task_of asked).Belies input → (status_of result ≡ 0) ⊎ (status_of result ≡ 2) → ⊥ }
{
    match read_all(alloc, source, asked.limit()) {
        Ok(input) => asked.answer(alloc, &input, sink),
        Err(ReadEnd::TooLong) => refuse(sink, b"too long\n"),
        Err(ReadEnd::Fault) => Ending::ReadFault,
        Err(ReadEnd::NoMemory) => Ending::NoMemory,
    }
}

// Makes a load and sums it up.
fn make_and_sum_up<K: Sink>(alloc: Global, load: Load, sink: &mut K) -> Ending
    requires { load.commands ≤ MAX_MADE }
    ensures status { (status_of result ≡ 0) ⊎ (status_of result ≡ 4) ⊎ (status_of result ≡ 5) }
    ensures done { status_of result ≡ 0 → Writes (IsSummary load) (K.held sink.old) (K.held sink.new) }
    ensures cut_short { status_of result ≡ 4 → WritesFront (IsSummary load) (K.held sink.old) (K.held sink.new) }
    ensures write_fault { status_of result ≡ 4 → Rose (K.faults sink.old) (K.faults sink.new) }
    ensures unwritten { status_of result ≡ 5 → sink.new ≡ sink.old }
{
    make::answer(alloc, load, sink)
}

/// Runs every word but `serve`: the words behind the program's name, the source of its input and the
/// sink of its text. Gives the status: 0 done, 1 wrong words, 2 the input is refused, 3 the source failed,
/// 4 the sink failed, 5 memory is wanting, 6 what the input says does not hold.
pub fn run<S: Source, K: Sink>(alloc: Global, words: &[String], source: &mut S, sink: &mut K) -> u8
    // The words.
    ensures usage { (result ≡ 1) ↔ (errand_of (map string_bytes words.now) ≡ None) }
    ensures untouched { result ≡ 1 → (source.new ≡ source.old) × (sink.new ≡ sink.old) }

    // The headline: what was asked for is written. For `step` that is the text of a history that is legal for the plan
    // of the script that was read, told by a trail of the schedule that the workers and the choices select.
    ensures done { result ≡ 0 → IfSome (asked_of (map string_bytes words.now)) (λ asked.
        Done (task_of asked) S.left S.given K.held source.old source.new sink.old sink.new) }

    // A load: nothing is read, and what is written is the summary of the history that the schedule of four workers gives
    // of its script, by the seed.
    ensures made { IfSome (load_of (map string_bytes words.now)) (λ load.
        IsMade load K.held source.old source.new sink.old sink.new result) }

    // What is told otherwise, and its causes.
    ensures refused { result ≡ 2 → IfSome (asked_of (map string_bytes words.now)) (λ asked.
        IsRefused (task_of asked) S.left S.given K.held source.old source.new sink.old sink.new) }
    ensures denied { result ≡ 6 → IfSome (asked_of (map string_bytes words.now)) (λ asked.
        IsDenied (task_of asked) S.left S.given K.held source.old source.new sink.old sink.new) }
    ensures read_fault { result ≡ 3 → Rose (S.faults source.old) (S.faults source.new) }
    ensures write_fault { result ≡ 4 → Rose (K.faults sink.old) (K.faults sink.new) }
    ensures cut_short { result ≡ 4 → IfSome (asked_of (map string_bytes words.now)) (λ asked.
        IsCutShort (task_of asked) S.left S.given K.held source.old source.new sink.old sink.new) }
    ensures unwritten { (result ≡ 3) ⊎ (result ≡ 5) → sink.new ≡ sink.old }
    ensures statuses { result ≤ 6 }

    // Good words and no fault: an accepted input is done and a rejected one is refused, unless memory is
    // wanting.
    ensures accepted { (asked : Asked) (input : List ℕ) → asked_of (map string_bytes words.now) ≡ Some asked
        → S.left source.old ≡ Some input
        → length input ≤ (task_of asked).limit → (task_of asked).Accepts input
        → NoFault S.faults K.faults source.old source.new sink.old sink.new → (result ≡ 0) ⊎ (result ≡ 5) }
    ensures rejected { (asked : Asked) (input : List ℕ) → asked_of (map string_bytes words.now) ≡ Some asked
        → S.left source.old ≡ Some input
        → length input ≤ (task_of asked).limit → (task_of asked).Rejects input
        → NoFault S.faults K.faults source.old source.new sink.old sink.new → (result ≡ 2) ⊎ (result ≡ 5) }
    ensures belied { (asked : Asked) (input : List ℕ) → asked_of (map string_bytes words.now) ≡ Some asked
        → S.left source.old ≡ Some input
        → length input ≤ (task_of asked).limit → (task_of asked).Belies input
        → NoFault S.faults K.faults source.old source.new sink.old sink.new → (result ≡ 6) ⊎ (result ≡ 5) }
{
    let ending = match read_words(words) {
        Some(Errand::Answer(asked)) => read_and_answer(alloc, asked, source, sink),
        Some(Errand::Make(load)) => make_and_sum_up(alloc, load, sink),
        None => Ending::Usage,
    };
    ending.status()
}
