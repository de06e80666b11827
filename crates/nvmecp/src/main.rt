//! The program: one device that hosts share, run from a script of what the hosts do.
#![tactic(auto)]

ghost use Rattle.std.specs.Prelude.{◌≡◌, ◌≢◌, IfOk, drop, false, map, true};
ghost use Rattle.std.specs.IoError.{error_kind};
ghost use Rattle.std.specs.Process.{exit_status};
ghost use Rattle.std.specs.String.{string_bytes};
ghost use Rattle.std.specs.Vec.Iter.{into_iter_items};
ghost use Rattle.nvmecp.specs.Run.{Ran, Served};
ghost use Rattle.nvmecp.specs.Words.{begins_with_serve};

mod asm;
mod check;
mod dis;
mod ending;
mod finished;
mod laws;
mod make;
mod parting;
mod planned;
mod printing;
mod refusing;
mod run;
mod scheduled;
mod serve;
mod step;
mod summing;
#[cfg(test)]
mod tests;
mod upgrade;
mod words;

use cp_base::NoMemory;
use cp_io::{Sink, Source, StdSink, StdSource};
use ending::Ending;
use run::run;
use serve::serve;
use std::alloc::Global;
use std::io::ErrorKind;
use std::process::ExitCode;
use std::sync::Wait;
use std::thread::Threads;
use std::{env, io};
use workers::NoGate;

// The words after the program's name: all of them, in order.
fn words_behind_the_name(alloc: Global, args: env::Args) -> Result<Vec<String>, NoMemory>
    ensures { IfOk result (λ words. map string_bytes words.items ≡ drop 1 (map string_bytes (into_iter_items args))) }
{
    let mut args = args;
    args.next();
    let mut words = Vec::new(alloc);
    while let Some(word) = args.next() {
        words.push(word)?;
    }
    Ok(words)
}

// The status where the arguments cannot be read: an argument that is no text makes the words wrong.
fn status_without_words(error: &io::Error) -> u8
    ensures memory { error_kind error.now ≡ ErrorKind.OutOfMemory → result ≡ 5 }
    ensures usage { error_kind error.now ≢ ErrorKind.OutOfMemory → result ≡ 1 }
{
    if error.kind() == ErrorKind::OutOfMemory {
        Ending::NoMemory.status()
    } else {
        Ending::Usage.status()
    }
}

// Whether the first word is `serve`.
fn begins_with_serve(words: &[String]) -> bool
    ensures { result ≡ begins_with_serve (map string_bytes words.now) }
{
    match words {
        [first, ..] => first.as_str() == "serve",
        [] => false,
    }
}

// Runs the program on these words, by threads exactly where the first one is `serve`.
fn run_words<R: Threads + Wait + Sync, S: Source, K: Sink>(
    rt: &R,
    alloc: Global,
    words: &[String],
    source: &mut S,
    sink: &mut K,
) -> u8
    ensures ran { begins_with_serve (map string_bytes words.now) ≡ false
        → Ran (map string_bytes words.now) S.left S.given S.faults K.held K.faults
        source.old source.new sink.old sink.new result }
    ensures served { begins_with_serve (map string_bytes words.now) ≡ true
        → Served (map string_bytes words.now) S.left S.given S.faults K.held K.faults
        source.old source.new sink.old sink.new result }
{
    if begins_with_serve(words) {
        serve(rt, alloc, words, source, sink, &NoGate)
    } else {
        run(alloc, words, source, sink)
    }
}

// Runs the program on these arguments, and leaves with the status of the run.
fn run_on<R: Threads + Wait + Sync, S: Source, K: Sink>(
    rt: &R,
    alloc: Global,
    args: env::Args,
    source: &mut S,
    sink: &mut K,
) -> ExitCode
    ensures ran { begins_with_serve (drop 1 (map string_bytes (into_iter_items args))) ≡ false
        → Ran (drop 1 (map string_bytes (into_iter_items args))) S.left S.given S.faults K.held K.faults
        source.old source.new sink.old sink.new (exit_status result) }
    ensures served { begins_with_serve (drop 1 (map string_bytes (into_iter_items args))) ≡ true
        → Served (drop 1 (map string_bytes (into_iter_items args))) S.left S.given S.faults K.held K.faults
        source.old source.new sink.old sink.new (exit_status result) }
{
    match words_behind_the_name(alloc, args) {
        Ok(words) => ExitCode::from(run_words(rt, alloc, words.as_slice(), source, sink)),
        Err(NoMemory) => ExitCode::from(Ending::NoMemory.status()),
    }
}

fn main(rt: HostRuntime) -> ExitCode {
    let mut source = StdSource::new(rt.reader());
    let mut sink = StdSink::new(io::writer(&rt));
    match env::args(&rt) {
        Ok(args) => run_on(&rt, rt.alloc(), args, &mut source, &mut sink),
        Err(error) => ExitCode::from(status_without_words(&error)),
    }
}
