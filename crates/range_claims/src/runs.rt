// The runs of what a command touches, in the segments of what all of them touch.
ghost use Rattle.std.specs.Prelude.{◌≡◌, ℕ, ◌+◌, ◌*◌, ◌≤◌, length, List};
ghost use Rattle.cp_base.specs.Region.{Region};
ghost use Rattle.cp_base.specs.Touching.{share_byte};
ghost use Rattle.cp_base.specs.declared.limits.TheConstants.{MAX_RUNS};
ghost use Rattle.range_claims.specs.Counts.{ArePlaced, CountWith, HaveRoom, IsCountOf, count_at, regions_at};
ghost use Rattle.range_claims.specs.Segments.{AreMaximal};
ghost use Rattle.range_claims.specs.Steps.{binary_digits};

use crate::search::counts_range;
use crate::segments::Segments;
use crate::steps::Steps;
use cp_base::Spans;
use std::sync::ledger::Ledger;

// Counts the bytes of runs once more.
pub(crate) fn add_runs(segments: &mut Segments, runs: &Spans)
    requires { (regions : List Region) × HaveRoom regions segments.old }
    ensures counts { (x : ℕ)
        → count_at segments.new.segments x ≡ count_at segments.old.segments x + regions_at runs.now x }
    ensures fewest { AreMaximal segments.new.segments }
    ensures room { segments.new.room ≡ segments.old.room }
    ensures placed { ArePlaced runs.now }
    ensures few { length runs.now ≤ MAX_RUNS }
{
    let count = runs.count();
    for i in 0..count {
        segments.add(&runs.as_slice()[i]);
    }
}

// Counts the bytes of runs once less.
pub(crate) fn remove_runs(segments: &mut Segments, runs: &Spans)
    requires { (others : List Region) × CountWith runs.now others segments.old }
    ensures counts { (x : ℕ)
        → count_at segments.new.segments x + regions_at runs.now x ≡ count_at segments.old.segments x }
    ensures fewest { AreMaximal segments.new.segments }
    ensures room { segments.new.room ≡ segments.old.room }
{
    let count = runs.count();
    for i in 0..count {
        segments.remove(&runs.as_slice()[i]);
    }
}

// Whether a byte of a run is counted.
pub(crate) fn counts_any<L: Ledger>(segments: &Segments, runs: &Spans, steps: &mut Steps<L>) -> bool
    ensures value { (regions : List Region) → IsCountOf regions segments.now.segments → ArePlaced regions
        → result ≡ share_byte runs.now regions }
    ensures steps { steps.new ≤ steps.old + length runs.now * (binary_digits (length segments.now.segments) + 1) }
{
    let count = runs.count();
    for i in 0..count {
        if counts_range(segments, &runs.as_slice()[i], steps) {
            return true;
        }
    }
    false
}
