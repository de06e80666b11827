//! Runs: a step, the loop over steps, and a run from the start.
ghost use Rattle.std.specs.Prelude.{◌≡◌, ◌≤◌, ℕ, List, pos, Some, replicate, IfOk};
ghost use Rattle.cp_base.specs.declared.lists.MemRange.{MemRange};
ghost use Rattle.bpf_model.specs.Address.{stack_len};
ghost use Rattle.bpf_model.specs.Encoding.{IsAllowed};
ghost use Rattle.bpf_model.specs.Memory.{Memory, windows_of};
ghost use Rattle.bpf_model.specs.Outcome.{outcome, outcome_from};
ghost use Rattle.bpf_model.specs.Machine.{Machine};
ghost use Rattle.bpf_model.specs.Step.{Program, Goes, settled, step};
ghost use Rattle.bpf_decode.specs.Slots.{insn_at};
ghost use Rattle.confined_view.specs.Touched.{Touched};
ghost use Rattle.bpf_exec.specs.Seen.{machine_of, window_memory, step_seen, KeepsWindows};
ghost use Rattle.bpf_exec.specs.Setting.{Describes, decoded_program};

use crate::execute::execute;
use crate::processor::{Next, Processor};
use bpf_decode::Decoded;
use bpf_isa::{End, Insn};
use confined_view::View;

/// Goes on at a target, where an instruction starts, or ends where none does.
#[inline(always)]
fn moved<'c>(code: &'c Decoded, processor: &mut Processor, target: i64) -> Result<&'c Insn, End>
    ensures step { (m : Machine) (t : Touched) → m.counter ≡ processor.old.place →
        settled (decoded_program code.now) m (Goes (machine_of processor.old t) target) ≡ step_seen result processor.new t }
    ensures next { IfOk result (λ next. insn_at code.now (pos processor.new.place) ≡ Some next.now) }
    ensures next_allowed { IfOk result (λ next. IsAllowed next.now) }
{
    match code.at(target) {
        Some(next) => {
            processor.place = target as u32;
            Ok(next)
        }
        None => Err(End::BadJump(processor.place)),
    }
}

/// Executes the instruction at the program counter, and answers the one at the next place or the end.
#[inline(always)]
fn advance<'c>(
    code: &'c Decoded,
    processor: &mut Processor,
    insn: &Insn,
    view: &mut View,
) -> Result<&'c Insn, End>
    requires current { insn_at code.now (pos processor.old.place) ≡ Some insn.now }
    requires allowed { IsAllowed insn.now }
    ensures step { step (decoded_program code.now) (machine_of processor.old view.old)
        ≡ step_seen result processor.new view.new }
    ensures next { IfOk result (λ next. insn_at code.now (pos processor.new.place) ≡ Some next.now) }
    ensures next_allowed { IfOk result (λ next. IsAllowed next.now) }
    ensures windows { KeepsWindows view.old view.new }
{
    let behind = i64::from(processor.place) + 1;
    match execute(insn, processor, view) {
        Next::Behind => moved(code, processor, behind),
        Next::By(distance) => moved(code, processor, behind + i64::from(distance)),
        Next::At(place) => moved(code, processor, i64::from(place)),
        Next::Ended(end) => Err(end),
    }
}

/// Executes instructions from the program counter on, at most as many as the budget allows.
fn run_from(
    code: &Decoded,
    processor: &mut Processor,
    first: &Insn,
    view: &mut View,
    budget: u64,
) -> End
    requires current { insn_at code.now (pos processor.old.place) ≡ Some first.now }
    requires allowed { IsAllowed first.now }
    ensures outcome { outcome_from (decoded_program code.now) budget (machine_of processor.old view.old)
        ≡ record { ending = result; memory = window_memory view.new.windows } }
    ensures windows { KeepsWindows view.old view.new }
{
    let mut insn = first;
    let mut left = budget;
    while left > 0 {
        match advance(code, processor, insn, view) {
            Ok(next) => insn = next,
            Err(end) => return end,
        }
        left -= 1;
    }
    End::BudgetSpent
}

/// Executes a program from place 0 on, with the parameters `p1` in R1 and `p2` in R2 and the number of the
/// view's ranges in R3 (RFC 9669, sections 4 and 5; the layout of memory, the frames, the helper and the
/// faults are this project's own).
///
/// `budget` is the most instructions that are executed: each one counts, the last one too, also where it
/// is a fault. The stack is all zero at first.
///
/// The end is that of the outcome: `Exit` with R0, a fault with the place of its instruction in units of
/// 8 bytes, or `BudgetSpent`. However it ends, the windows hold what the program has stored until then.
/// What is left on the stack is not told.
///
/// The loop is a function of its own in each program: within a caller it would share the caller's registers.
#[inline(never)]
pub fn run(code: &Decoded, view: &mut View, p1: u64, p2: u64, budget: u64) -> End
    requires budget { 1 ≤ budget }
    requires stack { view.old.stack ≡ replicate stack_len 0 }
    ensures ending { (program : Program) (ranges : List MemRange) (memory : Memory)
        → Describes program ranges memory code.now view.old →
        result ≡ (outcome program ranges memory p1 p2 budget).ending }
    ensures windows { (program : Program) (ranges : List MemRange) (memory : Memory)
        → Describes program ranges memory code.now view.old →
        view.new.windows ≡ windows_of (outcome program ranges memory p1 p2 budget).memory ranges }
{
    let Some(first) = code.at(0) else {
        return End::BadJump(0);
    };
    let mut processor = Processor::entry(p1, p2, view.ranges());
    run_from(code, &mut processor, first, view, budget)
}
