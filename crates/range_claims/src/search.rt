// Where a range lies among segments, found by few reads of them.
ghost use Rattle.std.specs.Prelude.{◌≡◌, ◌+◌, ◌<◌, ◌≤◌, nat_le, nat_lt, false, length, get_or};
ghost use Rattle.range_claims.specs.Changes.{ended};
ghost use Rattle.range_claims.specs.Counts.{IsPlaced, any_between};
ghost use Rattle.range_claims.specs.Places.{end_of, start_of};
ghost use Rattle.range_claims.specs.Segments.{AreMaximal};
ghost use Rattle.range_claims.specs.Steps.{binary_digits};
ghost use Rattle.range_claims.specs.declared.segments.Segment.{Segment};

use crate::places::{end, start};
use crate::segments::Segments;
use crate::steps::Steps;
use cp_base::ByteRange;
use std::sync::ledger::Ledger;

// Whether a segment ends before a place or there.
fn ends_by<L: Ledger>(segments: &Segments, i: usize, place: u64, steps: &mut Steps<L>) -> bool
    requires within { i < length segments.now.segments }
    requires fewest { AreMaximal segments.now.segments }
    ensures value { (d : Segment) → result ≡ nat_le (get_or segments.now.segments i d).to place }
    ensures steps { steps.new ≡ steps.old + 1 }
{
    match segments.probe(i, steps) {
        Some(bytes) => end(&bytes) <= place,
        None => true,
    }
}

// Whether there is a segment, and it begins before a place.
fn begins_before<L: Ledger>(segments: &Segments, i: usize, place: u64, steps: &mut Steps<L>) -> bool
    requires { AreMaximal segments.now.segments }
    ensures value { (d : Segment) → i < length segments.now.segments
        → result ≡ nat_lt (get_or segments.now.segments i d).from place }
    ensures none { length segments.now.segments ≤ i → result ≡ false }
    ensures steps { steps.new ≡ steps.old + 1 }
{
    match segments.probe(i, steps) {
        Some(bytes) => start(&bytes) < place,
        None => false,
    }
}

// The first segment that ends behind a place.
fn first_behind<L: Ledger>(segments: &Segments, place: u64, steps: &mut Steps<L>) -> usize
    ensures value { result ≡ ended place segments.now.segments }
    ensures fewest { AreMaximal segments.now.segments }
    ensures steps { steps.new ≤ steps.old + binary_digits (length segments.now.segments) }
{
    let mut low = 0;
    let mut high = segments.count();
    while low < high {
        let middle = low + (high - low) / 2;
        if ends_by(segments, middle, place, steps) {
            low = middle + 1;
        } else {
            high = middle;
        }
    }
    low
}

// Whether a byte of a range is counted.
pub(crate) fn counts_range<L: Ledger>(
    segments: &Segments,
    range: &ByteRange,
    steps: &mut Steps<L>,
) -> bool
    ensures value { result ≡ any_between segments.now.segments (start_of range.now) (end_of range.now) }
    ensures fewest { AreMaximal segments.now.segments }
    ensures placed { IsPlaced range.now }
    ensures steps { steps.new ≤ steps.old + (binary_digits (length segments.now.segments) + 1) }
{
    let to = end(range);
    let i = first_behind(segments, start(range), steps);
    begins_before(segments, i, to, steps)
}
