// Bytes with the number of the ranges that have them, as segments that are as few as can be.
ghost use Rattle.std.specs.Prelude.{◌≡◌, ℕ, ◌+◌, ◌*◌, ◌^◌, ◌<◌, ◌≤◌, [], ◌∷◌, ◌++◌, All, IfOk, IfSome, Some, length, take, drop, slice_get, slice_index_or, option_map};
ghost use Rattle.std.specs.Vec.{vec_capacity};
ghost use Rattle.range_claims.specs.Changes.{added, cut_at, ended, joined_at, joins, lowered, raised, raised_from, taken_away};
ghost use Rattle.range_claims.specs.Counts.{AreCounted, IsPlaced, count_at, counted_once, held_at};
ghost use Rattle.range_claims.specs.Places.{base_of, end_of, start_of};
ghost use Rattle.range_claims.specs.declared.segments.Segment.{Segment};
ghost use Rattle.range_claims.specs.Segments.{AreMaximal, AreSmall, Ascend, IsCut, IsFrom};
ghost use Rattle.range_claims.specs.Steps.{segment_region};

use crate::places::{base, end, start};
use crate::steps::Steps;
use cp_base::{ByteRange, NoMemory, SpaceId};
use std::alloc::Global;
use std::marker::Model;
use std::sync::ledger::Ledger;

/// Some bytes of one namespace, from one place up to and without another, and how many ranges have each of them.
#[derive(Clone, Copy, Debug, PartialEq, Eq)]
pub(crate) struct Segment {
    space: SpaceId,
    from: u64,
    to: u64,
    count: u64,
}

// The first segment that ends behind a place.
fn first_behind(list: &[Segment], place: u64) -> usize
    requires { Ascend 0 list.now }
    ensures value { result ≡ ended place list.now }
    ensures bounded { result ≤ length list.now }
{
    let mut low = 0;
    let mut high = list.len();
    while low < high {
        let middle = low + (high - low) / 2;
        if list[middle].to <= place {
            low = middle + 1;
        } else {
            high = middle;
        }
    }
    low
}

// Cuts the segment that has a place inside, so that none has.
fn cut(list: &mut Vec<Segment>, place: u64)
    requires ascend { Ascend 0 list.old.items }
    requires room { length list.old.items < vec_capacity list.old }
    ensures cut { list.new.items ≡ cut_at place list.old.items }
    ensures capacity { vec_capacity list.new ≡ vec_capacity list.old }
{
    let i = first_behind(list.as_slice(), place);
    if i < list.len() && list[i].from < place {
        let rest = Segment {
            from: place,
            ..list[i]
        };
        list[i].to = place;
        list.insert(i + 1, rest).unwrap();
    }
}

// Whether two segments touch at a place and count the same.
fn joins(place: u64, before: &Segment, behind: &Segment) -> bool
    ensures { result ≡ joins place before.now behind.now }
{
    before.to == place && behind.from == place && behind.count == before.count
}

// Joins the two segments that touch at a place, where they count the same.
fn join(list: &mut Vec<Segment>, place: u64)
    requires { Ascend 0 list.old.items }
    ensures joined { list.new.items ≡ joined_at place list.old.items }
    ensures capacity { vec_capacity list.new ≡ vec_capacity list.old }
{
    let i = first_behind(list.as_slice(), place);
    if i > 0 && i < list.len() && joins(place, &list[i - 1], &list[i]) {
        list[i - 1].to = list[i].to;
        list.remove(i);
    }
}

// Counts a segment once more, and the bytes from a place up to it once; answers the place in the list behind it.
fn raise_one(list: &mut Vec<Segment>, i: usize, space: SpaceId, at: u64) -> usize
    requires within { i < length list.old.items }
    requires ready { Ascend at (drop i list.old.items) }
    requires small { AreSmall (drop i list.old.items) }
    requires room { length list.old.items < vec_capacity list.old }
    ensures raised { (to : ℕ) (s : Segment) → s ≡ slice_index_or list.old.items i s → s.from < to
        → raised_from space s.to to result list.new.items ≡ raised_from space at to i list.old.items }
    ensures rest { drop result list.new.items ≡ drop (i + 1) list.old.items }
    ensures length { length list.new.items ≤ length list.old.items + 1 }
    ensures left { length list.new.items + (i + 1) ≡ length list.old.items + result }
    ensures capacity { vec_capacity list.new ≡ vec_capacity list.old }
{
    let segment = list[i];
    list[i].count += 1;
    if at < segment.from {
        let before = Segment {
            space,
            from: at,
            to: segment.from,
            count: 1,
        };
        list.insert(i, before).unwrap();
        return i + 2;
    }
    i + 1
}

// Counts the bytes from one place up to another once more, where segments are cut at both.
fn raise(list: &mut Vec<Segment>, space: SpaceId, from: u64, to: u64)
    requires ascend { Ascend 0 list.old.items }
    requires begin { IsCut from list.old.items }
    requires end { IsCut to list.old.items }
    requires order { from < to }
    requires small { AreSmall list.old.items }
    requires room { 2 * length list.old.items < vec_capacity list.old }
    ensures raised { list.new.items ≡ raised space from to list.old.items }
    ensures capacity { vec_capacity list.new ≡ vec_capacity list.old }
{
    let mut i = first_behind(list.as_slice(), from);
    let mut at = from;
    while i < list.len() && list[i].from < to {
        let end = list[i].to;
        i = raise_one(list, i, space, at);
        at = end;
    }
    if at < to {
        let rest = Segment {
            space,
            from: at,
            to,
            count: 1,
        };
        list.insert(i, rest).unwrap();
    }
}

// Counts the bytes from one place up to another once less, where segments are cut at both.
fn lower(list: &mut Vec<Segment>, from: u64, to: u64)
    requires ascend { Ascend 0 list.old.items }
    requires begin { IsCut from list.old.items }
    ensures lowered { list.new.items ≡ lowered from to list.old.items }
    ensures capacity { vec_capacity list.new ≡ vec_capacity list.old }
{
    let mut i = first_behind(list.as_slice(), from);
    while i < list.len() && list[i].from < to {
        if list[i].count == 1 {
            list.remove(i);
        } else {
            list[i].count -= 1;
            i += 1;
        }
    }
}

// The bytes of a segment.
fn bytes_of(segment: &Segment) -> Option<ByteRange>
    requires { IsFrom 0 segment.now }
    ensures { result ≡ Some (segment_region segment.now) }
{
    let first = base(segment.space);
    ByteRange::new(
        segment.space,
        segment.from - first,
        segment.to - segment.from,
    )
}

/// Bytes with the number of the ranges that have them: segments in order, as few as can be.
#[derive(Debug, Drop)]
pub(crate) struct Segments {
    list: Vec<Segment>,
}

impl Model for Segments {
    ghost use Rattle.std.specs.Vec.{vec_capacity};
    ghost use Rattle.range_claims.specs.Segments.{AreMaximal, Counted};

    ghost Value = { Counted };

    ghost view = { λ s. record { segments = s.list.items; room = vec_capacity s.list } };

    ghost invariant = { λ s. AreMaximal s.list.items };
}

impl Segments {
    // No byte yet, with the room for so many segments.
    pub(crate) fn new(alloc: Global, room: usize) -> Result<Segments, NoMemory>
        ensures empty { IfOk result (λ made. made.segments ≡ []) }
        ensures room { IfOk result (λ made. room ≤ made.room) }
    {
        let list = Vec::with_capacity(alloc, room)?;
        Ok(Segments { list })
    }

    // Counts the bytes of a range once more.
    pub(crate) fn add(&mut self, range: &ByteRange)
        requires room { 2 * (length self.old.segments + 2) < self.old.room }
        requires small { (x : ℕ) → count_at self.old.segments x + 1 < 2 ^ 64 }
        ensures counts { (x : ℕ)
            → count_at self.new.segments x ≡ count_at self.old.segments x + held_at (counted_once range.now) x }
        ensures fewest { AreMaximal self.new.segments }
        ensures room { self.new.room ≡ self.old.room }
        ensures placed { IsPlaced range.now }
    {
        let from = start(range);
        let to = end(range);
        cut(&mut self.list, from);
        cut(&mut self.list, to);
        raise(&mut self.list, range.space(), from, to);
        join(&mut self.list, from);
        join(&mut self.list, to);
    }

    // Counts the bytes of a range, which are counted, once less.
    pub(crate) fn remove(&mut self, range: &ByteRange)
        requires room { length self.old.segments + 2 ≤ self.old.room }
        requires counted { AreCounted (start_of range.now) (end_of range.now) self.old.segments }
        ensures counts { (x : ℕ)
            → count_at self.new.segments x + held_at (counted_once range.now) x ≡ count_at self.old.segments x }
        ensures fewest { AreMaximal self.new.segments }
        ensures room { self.new.room ≡ self.old.room }
    {
        let from = start(range);
        let to = end(range);
        cut(&mut self.list, from);
        cut(&mut self.list, to);
        lower(&mut self.list, from, to);
        join(&mut self.list, from);
        join(&mut self.list, to);
    }

    // How many segments.
    pub(crate) fn count(&self) -> usize
        ensures value { result ≡ length self.now.segments }
        ensures fewest { AreMaximal self.now.segments }
    {
        self.list.len()
    }

    // The bytes of a segment, for one step. `None` exactly where there are not so many segments, for one step too.
    pub(crate) fn probe<L: Ledger>(&self, i: usize, steps: &mut Steps<L>) -> Option<ByteRange>
        ensures value { result ≡ option_map segment_region (slice_get self.now.segments i) }
        ensures steps { steps.new ≡ steps.old + 1 }
    {
        steps.add_one();
        if i < self.list.len() {
            return bytes_of(&self.list[i]);
        }
        None
    }
}
