//! Claims: whether commands may begin beside them, and claims that come and go.
ghost use Rattle.std.specs.Prelude.{◌≡◌, ◌-◌, ◌*◌, ◌<◌, ◌≤◌, ◌^◌, false, length, IfSome};
ghost use Rattle.cp_base.specs.Runs.{runs_of};
ghost use Rattle.range_claims.specs.Kept.{is_kept};
ghost use Rattle.range_claims.specs.Steps.{ranges_touched};
ghost use Rattle.parts_bench.specs.Parts.{claims_of, footprint_at, footprints_between, free_among, free_in, strided};

use cp_base::{ByteRange, Footprint, MAX_RUNS, SpaceId, Spans};
use range_claims::Claims;
use std::alloc::Global;

// How many claims are kept in all.
const MOST: u32 = 32;

// How many bytes each range has, and how far apart the ranges of one command and the first ranges of two commands start.
const LEN: u64 = 16;

const STRIDE: u64 = 2_048;

const NEXT: u64 = 64;

// Where the ranges lie that a command reads, beside those that it writes, and where those of an asked command do.
const BETWEEN: u64 = 32;

// So many ranges of memory namespace 1, the first of them at a place.
fn strided(alloc: Global, first: u64, count: u64) -> Option<Spans>
    requires first { first < 2 ^ 32 }
    requires count { count ≤ MAX_RUNS }
    ensures { IfSome result (λ spans. spans ≡ runs_of (strided first count)) }
{
    let mut ranges = Vec::new(alloc);
    for number in 0..count {
        let range = ByteRange::new(SpaceId::Mem(1), first + STRIDE * number, LEN)?;
        ranges.push(range).ok()?;
    }
    Spans::of(alloc, ranges.as_slice())
}

// What a command touches that reads so many ranges and writes so many.
fn footprint(alloc: Global, first: u64, reads: u64, writes: u64) -> Option<Footprint>
    requires first { first < 2 ^ 31 }
    requires reads { reads ≤ MAX_RUNS }
    requires writes { writes ≤ MAX_RUNS }
    ensures { IfSome result (λ footprint. footprint ≡ footprint_at first reads writes) }
{
    Some(Footprint {
        reads: strided(alloc, first + BETWEEN, reads)?,
        writes: strided(alloc, first, writes)?,
        slot: None,
        set: None,
    })
}

// So many claims, under the keys from 0 on, each of which reads so many ranges and writes so many.
fn kept(alloc: Global, count: u32, reads: u64, writes: u64) -> Option<Claims>
    requires count { count ≤ MOST }
    requires reads { reads ≤ MAX_RUNS }
    requires writes { writes ≤ MAX_RUNS }
    ensures { IfSome result (λ claims. claims ≡ record { most = MOST; kept = claims_of reads writes count }) }
{
    let mut claims = Claims::new(alloc, MOST).ok()?;
    for key in 0..count {
        claims.add(key, footprint(alloc, NEXT * u64::from(key), reads, writes)?);
    }
    Some(claims)
}

// So many commands, each of which writes so many ranges between those of the claims.
fn asked(alloc: Global, count: u32, writes: u64) -> Option<Vec<Footprint>>
    requires count { count ≤ MOST }
    requires writes { writes ≤ MAX_RUNS }
    ensures asked { IfSome result (λ asked. asked.items ≡ footprints_between writes count) }
    ensures few { IfSome result (λ asked. length asked.items ≤ MOST) }
{
    let mut asked = Vec::new(alloc);
    for number in 0..count {
        let footprint = footprint(alloc, NEXT * u64::from(number) + BETWEEN, 0, writes)?;
        asked.push(footprint).ok()?;
    }
    Some(asked)
}

// How many of the commands may begin.
fn free_among(claims: &Claims, asked: &[Footprint]) -> u64
    requires { length asked.now ≤ MOST }
    ensures value { result ≡ free_among claims.now.kept asked.now }
    ensures bounded { result ≤ MOST }
{
    let mut free = 0;
    for footprint in asked {
        if claims.free(footprint) {
            free += 1;
        }
    }
    free
}

// How many of the commands may begin, in all rounds.
fn ask_all(claims: &Claims, asked: &[Footprint], rounds: u32) -> u64
    requires { length asked.now ≤ MOST }
    ensures { result ≡ rounds * free_among claims.now.kept asked.now }
{
    let mut free = 0;
    for _ in 0..rounds {
        free += free_among(claims, asked);
    }
    free
}

/// Asks in each round of so many commands, each of which writes so many ranges, whether they may begin beside as many claims
/// of 16 ranges. Answers how often one may. `None` where there is no memory.
#[tactic(auto, unfolding(crate::specs::Parts::free_in))]
pub fn ask(alloc: Global, count: u32, writes: u64, rounds: u32) -> Option<u64>
    requires count { count ≤ MOST }
    requires writes { writes ≤ MAX_RUNS }
    ensures { IfSome result (λ free. free ≡ rounds * free_in count writes) }
{
    let claims = kept(alloc, count, 0, 16)?;
    let asked = asked(alloc, count, writes)?;
    Some(ask_all(&claims, asked.as_slice(), rounds))
}

// Keeps one more claim and gives it back, so many times. Answers how many ranges were given back, and leaves the claims
// as they were.
fn change_all(claims: &mut Claims, last: Footprint, rounds: u32) -> u64
    requires room { length claims.old.kept < claims.old.most }
    requires new_key { is_kept claims.old.kept MOST ≡ false }
    ensures claims { claims.new ≡ claims.old }
    ensures ranges { result ≡ rounds * ranges_touched last }
{
    let mut footprint = last;
    let mut ranges = 0;
    for _ in 0..rounds {
        claims.add(MOST, footprint);
        footprint = claims.remove(MOST);
        ranges += footprint.writes.count() as u64 + footprint.reads.count() as u64;
    }
    ranges
}

/// Keeps in each round one more claim beside 31, each of which reads so many ranges and writes so many, and gives it
/// back. Answers how many ranges were given back. `None` where there is no memory.
pub fn change(alloc: Global, reads: u64, writes: u64, rounds: u32) -> Option<u64>
    requires reads { reads ≤ MAX_RUNS }
    requires writes { writes ≤ MAX_RUNS }
    ensures { IfSome result
        (λ ranges. ranges ≡ rounds * ranges_touched (footprint_at (NEXT * (MOST - 1)) reads writes)) }
{
    let mut claims = kept(alloc, MOST - 1, reads, writes)?;
    let last = footprint(alloc, NEXT * u64::from(MOST - 1), reads, writes)?;
    Some(change_all(&mut claims, last, rounds))
}
