//! Executes one of a few short programs for so many rounds, to be timed from outside: `bpf_bench PROGRAM
//! ROUNDS`. It prints how many instructions were to be executed, and how the execution ended.
#![tactic(auto)]

ghost use Rattle.std.specs.Prelude.{◌≡◌, ◌-◌, ◌^◌, ◌<◌, ◌≤◌, ℕ, min, true, pos, [], ◌∷◌, replicate, IfSome};
ghost use Rattle.bpf_decode.specs.Slots.{insn_at};
ghost use Rattle.bpf_model.specs.Address.{stack_len};
ghost use Rattle.bpf_model.specs.Outcome.{outcome};
ghost use Rattle.bpf_model.specs.Step.{Program};
ghost use Rattle.bpf_model.specs.Walk.{instruction_at};
ghost use Rattle.bpf_bench.specs.Counts.{instructions_in_all};
ghost use Rattle.bpf_bench.specs.Programs.{encoded, program_for};
ghost use Rattle.bpf_bench.specs.Range.{ending_of, one_range, ones};

mod code;
#[cfg(test)]
mod tests;
mod workload;

use bpf_decode::{Decoded, decode};
use bpf_exec::run;
use bpf_isa::End;
use code::code_of;
use confined_view::{View, Window};
use cp_base::Bytes;
use cp_text::number;
use std::alloc::Global;
use std::env;
use std::process::ExitCode;
use workload::Workload;

// How many bytes the one range has that a program may touch; each byte is 1 at first.
const RANGE_LEN: u64 = 65_536;

// The words are wrong, memory is missing, or the output was refused.
const USAGE: u8 = 1;

const NO_MEMORY: u8 = 3;

const NOT_WRITTEN: u8 = 4;

// The workload and the number of rounds that the words name.
fn given(rt: &HostRuntime) -> Option<(Workload, u64)> {
    let mut words = env::args(rt).ok()?.skip(1);
    let workload = Workload::named(words.next()?.as_str())?;
    let rounds = number(words.next()?.as_bytes())?;
    Some((workload, rounds))
}

// One range of so many bytes that are 1, and a stack of zeros. `None` where there is no memory.
fn range_of_ones(alloc: Global, len: u64) -> Option<View>
    requires { len < 2 ^ 32 }
    ensures windows { IfSome result (λ view. view.windows ≡ replicate len 1 ∷ []) }
    ensures writable { IfSome result (λ view. view.writable ≡ true ∷ []) }
    ensures stack { IfSome result (λ view. view.stack ≡ replicate stack_len 0) }
{
    let window = Window {
        bytes: Bytes::filled(alloc, len, 1).ok()?,
        writable: true,
    };
    let windows = vec![in alloc; window].ok()?;
    let stack = Bytes::filled(alloc, 4096, 0).ok()?;
    Some(View::new(windows, stack))
}

// How a program ends on a range of so many bytes that are 1, with the number of rounds and the length of
// the range as its parameters. `None` where there is no memory.
fn executed(alloc: Global, code: &Decoded, rounds: u64, len: u64, budget: u64) -> Option<End>
    requires len { len < 2 ^ 32 }
    requires budget { 1 ≤ budget }
    ensures { (program : Program) → ((place : ℕ) → insn_at code.now (pos place) ≡ program place) →
        IfSome result (λ end. end ≡ (outcome program (one_range len) ones rounds len budget).ending) }
{
    let mut view = range_of_ones(alloc, len)?;
    Some(run(code, &mut view, rounds, len, budget))
}

// The code of a workload, decoded. `None` where there is no memory.
fn decoded(alloc: Global, workload: Workload) -> Option<Decoded>
    ensures { IfSome result (λ code. (place : ℕ) →
        insn_at code (pos place) ≡ instruction_at (encoded (program_for workload)) place) }
{
    let Ok(code) = code_of(alloc, workload) else {
        return None;
    };
    match decode(alloc, &code) {
        Ok(decoded) => Some(decoded),
        Err(_) => None,
    }
}

// How many instructions the program of a workload has for so many rounds, and how it ends with a budget of
// exactly these. `None` where there is no memory.
fn timed(alloc: Global, workload: Workload, rounds: u64) -> Option<(u64, End)>
    ensures instructions { IfSome result (λ t. t.0 ≡ min (instructions_in_all workload rounds) (2 ^ 64 - 1)) }
    ensures ending { IfSome result (λ t. t.1 ≡ ending_of workload rounds t.0) }
{
    let code = decoded(alloc, workload)?;
    let instructions = workload.instructions(rounds);
    let end = executed(alloc, &code, rounds, RANGE_LEN, instructions)?;
    Some((instructions, end))
}

fn main(rt: HostRuntime) -> ExitCode {
    let Some((workload, rounds)) = given(&rt) else {
        return ExitCode::from(USAGE);
    };
    let Some((instructions, end)) = timed(rt.alloc(), workload, rounds) else {
        return ExitCode::from(NO_MEMORY);
    };
    match println!(rt; "{instructions} instructions, {end:?}") {
        Ok(()) => ExitCode::SUCCESS,
        Err(_) => ExitCode::from(NOT_WRITTEN),
    }
}
