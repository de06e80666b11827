//! Does one thing of one part of the core for so many rounds, to be timed from outside: `parts_bench WORKLOAD ROUNDS`. It
//! prints how much was done.
#![tactic(auto)]

ghost use Rattle.std.specs.Prelude.{◌≡◌, IfSome};
ghost use Rattle.parts_bench.specs.Tally.{tally};

mod builtins;
mod claims;
mod exchanges;
mod pieces;
mod workload;

use cp_base::MAX_PROGRAM;
use cp_text::number;
use std::alloc::Global;
use std::env;
use std::process::ExitCode;
use workload::Workload;

// How many bytes a program of the device looks at.
const MIB: u64 = 1_048_576;

// The words are wrong, memory is missing, or the output was refused.
const USAGE: u8 = 1;

const NO_MEMORY: u8 = 3;

const NOT_WRITTEN: u8 = 4;

// The workload and the number of rounds that the words name.
fn given(rt: &HostRuntime) -> Option<(Workload, u32)> {
    let mut words = env::args(rt).ok()?.skip(1);
    let workload = Workload::named(words.next()?.as_str())?;
    let rounds = number(words.next()?.as_bytes())?;
    Some((workload, u32::try_from(rounds).ok()?))
}

// Does all rounds of a workload, and answers how much was done. `None` where there is no memory, or no place for so
// many pieces.
fn done(alloc: Global, workload: Workload, rounds: u32) -> Option<u64>
    ensures { IfSome result (λ done. done ≡ tally workload rounds) }
{
    match workload {
        Workload::Pieces => pieces::load(alloc, MAX_PROGRAM, u64::from(rounds)),
        Workload::AskOne => claims::ask(alloc, 32, 1, rounds),
        Workload::AskSixteen => claims::ask(alloc, 32, 16, rounds),
        Workload::ChangeOne => claims::change(alloc, 0, 1, rounds),
        Workload::ChangeSixteen => claims::change(alloc, 16, 16, rounds),
        Workload::Exchange(places) => exchanges::exchange_all(alloc, places, rounds),
        Workload::Kernel(program) => builtins::run(alloc, program, false, MIB, rounds),
        Workload::Plain(program) => builtins::run(alloc, program, true, MIB, rounds),
    }
}

fn main(rt: HostRuntime) -> ExitCode {
    let Some((workload, rounds)) = given(&rt) else {
        return ExitCode::from(USAGE);
    };
    let Some(done) = done(rt.alloc(), workload, rounds) else {
        return ExitCode::from(NO_MEMORY);
    };
    match println!(rt; "{done}") {
        Ok(()) => ExitCode::SUCCESS,
        Err(_) => ExitCode::from(NOT_WRITTEN),
    }
}
