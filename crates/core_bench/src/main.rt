//! Lets the core of a device carry out commands, to be timed from outside: `core_bench WORKLOAD ROUNDS`. It prints how
//! many are over.
#![tactic(auto)]

ghost use Rattle.std.specs.Prelude.{◌≡◌, IfSome, OnSome};
ghost use Rattle.core_bench.specs.Loads.{HasDone};

mod device;
mod loads;
mod workload;

use cp_base::{MAX_COMMANDS, MAX_SPAN};
use cp_text::number;
use loads::{OUTSTANDING, deep, fill_alone, one_by_one};
use std::alloc::Global;
use std::env;
use std::process::ExitCode;
use workload::Workload;

// The words are wrong, memory is missing, or the output was refused.
const USAGE: u8 = 1;

const NO_MEMORY: u8 = 3;

const NOT_WRITTEN: u8 = 4;

// The workload and the number of rounds that the words name.
fn given(rt: &HostRuntime) -> Option<(Workload, u32)> {
    let mut words = env::args(rt).ok()?.skip(1);
    let workload = Workload::named(words.next()?.as_str())?;
    let rounds = number(words.next()?.as_bytes())?;
    Some((workload, u32::try_from(rounds).ok()?))
}

// Does all rounds of a workload, and answers how many commands are over. `None` where there is no memory, where a device
// has no place for so many commands, or where one was refused.
fn done(alloc: Global, workload: Workload, rounds: u32) -> Option<u32>
    ensures told { IfSome result (λ done. done ≡ rounds) }
    ensures done { OnSome result (HasDone workload rounds) }
{
    match workload {
        Workload::OneByOne(places) if rounds <= MAX_COMMANDS => one_by_one(alloc, places, rounds),
        Workload::Deep if rounds <= MAX_COMMANDS - OUTSTANDING => deep(alloc, true, rounds),
        Workload::DeepOnOne if rounds <= MAX_COMMANDS - OUTSTANDING => deep(alloc, false, rounds),
        Workload::FillAlone => fill_alone(alloc, MAX_SPAN, rounds),
        _ => None,
    }
}

fn main(rt: HostRuntime) -> ExitCode {
    let Some((workload, rounds)) = given(&rt) else {
        return ExitCode::from(USAGE);
    };
    let Some(done) = done(rt.alloc(), workload, rounds) else {
        return ExitCode::from(NO_MEMORY);
    };
    match println!(rt; "{done}") {
        Ok(()) => ExitCode::SUCCESS,
        Err(_) => ExitCode::from(NOT_WRITTEN),
    }
}
