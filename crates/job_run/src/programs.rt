// Executions of loaded code on a view of the pieces.
ghost use Rattle.std.specs.Prelude.{◌≡◌, ◌≤◌, [], ℕ, List, length, pos, replicate, vec_capacity};
ghost use Rattle.cp_base.specs.declared.limits.TheConstants.{MAX_ITEMS};
ghost use Rattle.bpf_model.specs.Address.{stack_len};
ghost use Rattle.bpf_model.specs.Walk.{instruction_at};
ghost use Rattle.bpf_decode.specs.Slots.{insn_at};
ghost use Rattle.device_model.specs.Execution.{Loaded, outcome_on, told_of};
ghost use Rattle.trail_model.specs.LocalEffects.{ranges_with};
ghost use Rattle.job_run.specs.Works.{AreOfRanges, memory_in, region_bytes};

use crate::windows::{from_windows, into_windows};
use bpf_decode::Decoded;
use bpf_exec::{End, run};
use confined_view::{View, Window};
use cp_base::{Bytes, MemRange, Piece, Status};

/// Executes loaded code on the pieces, one for each range. Answers what a host is told.
#[allow(clippy::too_many_arguments)]
pub(crate) fn execute(
    pieces: &mut Vec<Piece>,
    ranges: &[MemRange],
    windows: Vec<Window>,
    code: &Decoded,
    stack: Bytes,
    p1: u64,
    p2: u64,
    budget: u64,
) -> (Status, u64)
    requires budget { 1 ≤ budget }
    requires few { length ranges.now ≤ MAX_ITEMS }
    requires of_ranges { AreOfRanges pieces.old.items ranges.now }
    requires empty { windows.items ≡ [] }
    requires room { length pieces.old.items ≤ vec_capacity windows }
    requires stack { stack.items ≡ replicate stack_len 0 }
    ensures told { (bytes : List ℕ) → ((place : ℕ) → insn_at code.now (pos place) ≡ instruction_at bytes place)
        → told_of budget (outcome_on (Loaded bytes) ranges.now (memory_in pieces.old.items) p1 p2 budget).ending
        ≡ record { status = result.0; result = result.1; bytes = [] } }
    ensures left { (bytes : List ℕ) → ((place : ℕ) → insn_at code.now (pos place) ≡ instruction_at bytes place)
        → region_bytes pieces.new.items
        ≡ ranges_with
        (outcome_on (Loaded bytes) ranges.now (memory_in pieces.old.items) p1 p2 budget).memory ranges.now }
{
    let windows = into_windows(pieces, ranges, windows);
    let mut view = View::new(windows, stack);
    let end = run(code, &mut view, p1, p2, budget);
    let (windows, _) = view.into_parts();
    from_windows(pieces, windows);
    told(end, budget)
}

// What a host is told of an end.
fn told(end: End, budget: u64) -> (Status, u64)
    ensures { told_of budget end ≡ record { status = result.0; result = result.1; bytes = [] } }
{
    match end {
        End::Exit(value) => (Status::Ok, value),
        End::BadAccess(place) => (Status::BadAccess, u64::from(place)),
        End::BadJump(place) => (Status::BadJump, u64::from(place)),
        End::CallDepth(place) => (Status::CallDepth, u64::from(place)),
        End::BudgetSpent => (Status::BudgetSpent, budget),
    }
}
