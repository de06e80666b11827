// The word `serve`: a script is carried out by threads that share one device, and its history printed.
ghost use Rattle.std.specs.Prelude.{◌≡◌, ◌≢◌, ◌≤◌, ◌⊎◌, ◌↔◌, ℕ, All, IfOk, IfSome, IsSome, List, None, Some, length, map};
ghost use Rattle.std.specs.String.{string_bytes};
ghost use Rattle.cp_base.specs.declared.limits.TheConstants.{MAX_COMMANDS, MAX_HOSTS};
ghost use Rattle.cp_io.specs.Counting.{Rose};
ghost use Rattle.history_model.specs.Plain.{plain_phases};
ghost use Rattle.history_model.specs.Rules.{KeepsRules};
ghost use Rattle.history_model.specs.Sent.{sends_of};
ghost use Rattle.schedule_model.specs.Deeds.{HostsDid};
ghost use Rattle.nvmecp.specs.Ends.{EndsAnswered, EndsBy, status_of};
ghost use Rattle.nvmecp.specs.Finished.{IsFinished};
ghost use Rattle.nvmecp.specs.Planned.{IsPlanned};
ghost use Rattle.nvmecp.specs.Run.{Done, IsCutShort, IsRefused, NoFault};
ghost use Rattle.nvmecp.specs.Serve.{IsPrintOfHosts, serve_task};
ghost use Rattle.nvmecp.specs.Words.{AreInRange, workers_of_words};

use crate::ending::Ending;
use crate::finished::{Finished, line_buffer, show_buffer};
use crate::planned::planned_script;
use crate::printing::print;
use crate::refusing::refuse;
use cp_base::{Bytes, Config, NoMemory};
use cp_io::{ReadEnd, Sink, Source, read_all};
use cp_line::Order;
use script_cmds::Script;
use script_line::VERSION_1;
use script_plan::Plan;
use std::alloc::Global;
use std::sync::Wait;
use std::thread::Threads;
use workers::{Gate, run_plan};

// Carries out a plan by threads: those of the hosts, and so many workers. The buffers are taken before a thread begins.
fn finish<R: Threads + Wait + Sync, G: Gate>(
    rt: &R,
    alloc: Global,
    config: &Config,
    plan: Plan,
    workers: u32,
    gate: &G,
) -> Result<Finished, NoMemory>
    requires workers { (1 ≤ workers) × (workers ≤ MAX_HOSTS) }
    requires commands { plan.commands ≡ length (sends_of plan.phases) }
    requires limited { plan.commands ≤ MAX_COMMANDS }
    requires rules { All (KeepsRules config.now.depth) plan.phases }
    ensures finished { IfOk result (IsFinished config.now plan.phases) }
    ensures did { IfOk result (λ finished. HostsDid (plain_phases plan.phases) finished.core.trail) }
{
    let line = line_buffer(alloc)?;
    let shown = show_buffer(alloc)?;
    let core = run_plan(rt, alloc, config, plan, workers, gate)?;
    Ok(Finished { core, line, shown })
}

// Carries out a plan by threads and prints its history.
fn carry_out<R: Threads + Wait + Sync, K: Sink, G: Gate>(
    rt: &R,
    alloc: Global,
    script: &Script,
    plan: Plan,
    workers: u32,
    sink: &mut K,
    gate: &G,
) -> Ending
    requires workers { (1 ≤ workers) × (workers ≤ MAX_HOSTS) }
    requires planned { IsPlanned script.now plan }
    ensures ends { EndsAnswered (IsPrintOfHosts script.now) K.held K.faults sink.old sink.new result }
    ensures answered { result ≢ Ending.Refused }
{
    // Called for its clause that a configuration keeps the limits.
    let _depth = script.config.depth();
    match finish(rt, alloc, &script.config, plan, workers, gate) {
        Ok(finished) => match print(sink, finished, script.shows.as_slice()) {
            Ok(()) => Ending::Done,
            Err(_) => Ending::WriteFault,
        },
        Err(NoMemory) => Ending::NoMemory,
    }
}

// Answers an input that is to be a script: the history that its hosts and so many workers made of it as threads is
// printed, or the first line that is wrong is told.
fn answer<R: Threads + Wait + Sync, K: Sink, G: Gate>(
    rt: &R,
    alloc: Global,
    input: &Bytes,
    workers: u32,
    sink: &mut K,
    gate: &G,
) -> Ending
    requires workers { (1 ≤ workers) × (workers ≤ MAX_HOSTS) }
    requires within { length input.now.items ≤ serve_task.limit }
    ensures ends { EndsBy (serve_task.Answers input.now.items)
        (serve_task.Refuses input.now.items) K.held K.faults sink.old sink.new result }
    ensures accepted { serve_task.Accepts input.now.items → result ≡ Ending.Refused → ⊥ }
    ensures rejected { serve_task.Rejects input.now.items → result ≡ Ending.Done → ⊥ }
{
    match planned_script(alloc, input, sink) {
        Ok((script, plan)) => carry_out(rt, alloc, &script, plan, workers, sink, gate),
        Err(ending) => ending,
    }
}

// Reads an input and answers it.
fn read_and_answer<R: Threads + Wait + Sync, S: Source, K: Sink, G: Gate>(
    rt: &R,
    alloc: Global,
    workers: u32,
    source: &mut S,
    sink: &mut K,
    gate: &G,
) -> Ending
    requires workers { (1 ≤ workers) × (workers ≤ MAX_HOSTS) }
    ensures status { (status_of result ≡ 0) ⊎ (status_of result ≡ 2) ⊎ (status_of result ≡ 3) ⊎ (status_of result ≡ 4)
        ⊎ (status_of result ≡ 5) }
    ensures done { status_of result ≡ 0
        → Done serve_task S.left S.given K.held source.old source.new sink.old sink.new }
    ensures refused { status_of result ≡ 2
        → IsRefused serve_task S.left S.given K.held source.old source.new sink.old sink.new }
    ensures cut_short { status_of result ≡ 4
        → IsCutShort serve_task S.left S.given K.held source.old source.new sink.old sink.new }
    ensures read_fault { status_of result ≡ 3 → Rose (S.faults source.old) (S.faults source.new) }
    ensures write_fault { status_of result ≡ 4 → Rose (K.faults sink.old) (K.faults sink.new) }
    ensures unwritten { (status_of result ≡ 3) ⊎ (status_of result ≡ 5) → sink.new ≡ sink.old }
    ensures accepted { (input : List ℕ) → S.left source.old ≡ Some input → length input ≤ serve_task.limit
        → serve_task.Accepts input → status_of result ≡ 2 → ⊥ }
    ensures rejected { (input : List ℕ) → S.left source.old ≡ Some input → serve_task.Rejects input
        → status_of result ≡ 0 → ⊥ }
{
    match read_all(alloc, source, VERSION_1.bytes) {
        Ok(input) => answer(rt, alloc, &input, workers, sink, gate),
        Err(ReadEnd::TooLong) => refuse(sink, b"too long\n"),
        Err(ReadEnd::Fault) => Ending::ReadFault,
        Err(ReadEnd::NoMemory) => Ending::NoMemory,
    }
}

// The workers that words ask for, which begin with `serve`. `None` for all other words.
fn read_workers(words: &[String]) -> Option<u32>
    ensures workers { result ≡ workers_of_words (map string_bytes words.now) }
    ensures range { IfSome result AreInRange }
{
    match cp_line::read_words(words)? {
        Order::Serve { workers } => Some(workers),
        Order::Step { .. }
        | Order::Make { .. }
        | Order::Asm
        | Order::Dis
        | Order::Upgrade
        | Order::Check => None,
    }
}

/// Runs the word `serve`: the words behind the program's name, the source of its input, the sink of its text, and a gate
/// that may hold threads. In each phase the script's hosts and the workers are threads that share one device. Where a
/// thread cannot be made, the caller does that part itself. It returns only where the threads let each other. Gives the
/// status: 0 done, 1 wrong words, 2 the input is refused, 3 the source failed, 4 the sink failed,
/// 5 memory is wanting.
pub fn serve<R: Threads + Wait + Sync, S: Source, K: Sink, G: Gate>(
    rt: &R,
    alloc: Global,
    words: &[String],
    source: &mut S,
    sink: &mut K,
    gate: &G,
) -> u8
    // The words.
    ensures usage { (result ≡ 1) ↔ (workers_of_words (map string_bytes words.now) ≡ None) }
    ensures untouched { result ≡ 1 → (source.new ≡ source.old) × (sink.new ≡ sink.old) }

    // The headline: what is written is the text of a history that is legal for the plan of the script that was read,
    // told by a lawful trail in which the hosts did the plan.
    ensures done { result ≡ 0 → Done serve_task S.left S.given K.held source.old source.new sink.old sink.new }

    // What is told otherwise, and its causes.
    ensures refused { result ≡ 2 → IsRefused serve_task S.left S.given K.held source.old source.new sink.old sink.new }
    ensures read_fault { result ≡ 3 → Rose (S.faults source.old) (S.faults source.new) }
    ensures write_fault { result ≡ 4 → Rose (K.faults sink.old) (K.faults sink.new) }
    ensures cut_short { result ≡ 4
        → IsCutShort serve_task S.left S.given K.held source.old source.new sink.old sink.new }
    ensures unwritten { (result ≡ 3) ⊎ (result ≡ 5) → sink.new ≡ sink.old }
    ensures statuses { result ≤ 5 }

    // Good words and no fault: an accepted input is done and a rejected one is refused, unless memory is wanting.
    ensures accepted { (input : List ℕ) → IsSome (workers_of_words (map string_bytes words.now))
        → S.left source.old ≡ Some input
        → length input ≤ serve_task.limit → serve_task.Accepts input
        → NoFault S.faults K.faults source.old source.new sink.old sink.new → (result ≡ 0) ⊎ (result ≡ 5) }
    ensures rejected { (input : List ℕ) → IsSome (workers_of_words (map string_bytes words.now))
        → S.left source.old ≡ Some input
        → length input ≤ serve_task.limit → serve_task.Rejects input
        → NoFault S.faults K.faults source.old source.new sink.old sink.new → (result ≡ 2) ⊎ (result ≡ 5) }
{
    let ending = match read_workers(words) {
        Some(workers) => read_and_answer(rt, alloc, workers, source, sink, gate),
        None => Ending::Usage,
    };
    ending.status()
}
