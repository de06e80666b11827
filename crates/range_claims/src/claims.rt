// The claims that are kept.
ghost use Rattle.std.specs.Prelude.{◌≡◌, ◌==◌, ◌+◌, ◌<◌, ◌≤◌, [], ◌∷◌, ◌++◌, Some, IsTrue, IfOk, length, not, position};
ghost use Rattle.std.specs.List.{list_any};
ghost use Rattle.std.specs.Vec.{vec_capacity};
ghost use Rattle.cp_base.specs.Touching.{meets};
ghost use Rattle.range_claims.specs.Kept.{footprint_under, is_held, is_kept, without_key};
ghost use Rattle.range_claims.specs.Steps.{steps_at_most};

use crate::runs::{add_runs, counts_any, remove_runs};
use crate::segments::Segments;
use crate::steps::Steps;
use cp_base::{Footprint, NoMemory};
use std::alloc::Global;
use std::marker::{Brand, Model};
use std::sync::ledger::{Blank, Ledger};

// The room for the segments of one claim: two for each of its ranges, and as much again for those that are cut.
const SEGMENTS_A_CLAIM: usize = 80;

/// A command that is carried out: its key, by which its claim is found again, and what it touches and holds.
#[derive(Debug, Drop)]
pub struct Claim {
    pub key: u32,
    pub footprint: Footprint,
}

/// The claims of the commands that are carried out. Contracts see the claims in order of adding, and how many find
/// room.
#[derive(Debug, Drop)]
pub struct Claims {
    most: u32,
    kept: Vec<Claim>,
    writes: Segments,
    reads: Segments,
}

impl Model for Claims {
    ghost use Rattle.std.specs.Prelude.{◌≤◌};
    ghost use Rattle.std.specs.Vec.{vec_capacity};
    ghost use Rattle.range_claims.specs.Kept.{AreCountedBy, KeptClaims};

    ghost Value = { KeptClaims };

    ghost view = { λ c. record { most = c.most; kept = c.kept.items } };

    ghost invariant = { λ c. (c.most ≤ vec_capacity c.kept) × AreCountedBy c.most c.kept.items c.writes c.reads };
}

// Whether a number is there and is this one.
fn is_held(number: u32, held: Option<u32>) -> bool
    ensures { result ≡ is_held number held }
{
    match held {
        Some(other) => other == number,
        None => false,
    }
}

// Where the first claim of a key stands.
fn place_of(kept: &[Claim], key: u32) -> Option<usize>
    ensures { result ≡ position (λ claim. claim.key == key) kept.now }
{
    kept.iter().position(|claim| claim.key == key)
}

// Puts a claim behind the others, which have room for it.
fn put_behind(kept: &mut Vec<Claim>, claim: Claim)
    requires { length kept.old.items < vec_capacity kept.old }
    ensures items { kept.new.items ≡ kept.old.items ++ claim ∷ [] }
    ensures capacity { vec_capacity kept.old ≤ vec_capacity kept.new }
{
    kept.push(claim).unwrap();
}

// Takes the first claim of a key out.
fn take_out(kept: &mut Vec<Claim>, key: u32) -> Footprint
    requires { IsTrue (is_kept kept.old.items key) }
    ensures footprint { footprint_under kept.old.items key ≡ Some result }
    ensures kept { kept.new.items ≡ without_key key kept.old.items }
    ensures capacity { vec_capacity kept.new ≡ vec_capacity kept.old }
{
    let place = place_of(kept.as_slice(), key).unwrap();
    kept.remove(place).footprint
}

// Whether what a command touches meets nothing that is kept, with a counter of steps that nobody reads.
fn free_unread<L: Ledger>(claims: &Claims, footprint: &Footprint, blank: Blank) -> bool
    requires name { blank.name ≡ L.name }
    requires parts { blank.parts ≡ L.parts }
    requires one { L.parts ≡ 1 }
    ensures { result ≡ not (list_any (λ claim. meets footprint.now claim.footprint) claims.now.kept) }
{
    let mut steps = Steps::<L>::new(blank);
    claims.free_counted(footprint, &mut steps)
}

impl Claims {
    /// No claim yet, with the room for so many of them.
    pub fn new(alloc: Global, most: u32) -> Result<Claims, NoMemory>
        ensures { IfOk result (λ claims. claims ≡ record { most = most; kept = [] }) }
    {
        let kept = Vec::with_capacity(alloc, most as usize)?;
        let room = SEGMENTS_A_CLAIM * most as usize + 1;
        let writes = Segments::new(alloc, room)?;
        let reads = Segments::new(alloc, room)?;
        Ok(Claims {
            most,
            kept,
            writes,
            reads,
        })
    }

    /// Whether what a command touches meets nothing that is kept: no byte that one of both may write is touched by
    /// the other.
    pub fn free(&self, footprint: &Footprint) -> bool
        ensures { result ≡ not (list_any (λ claim. meets footprint.now claim.footprint) self.now.kept) }
    {
        free_unread::<Brand>(self, footprint, Blank::new(1))
    }

    /// The same, with a counter of the segments that are read: for each range of the command at most two for each
    /// binary digit of twice the number of kept ranges, and two more.
    pub fn free_counted<L: Ledger>(&self, footprint: &Footprint, steps: &mut Steps<L>) -> bool
        ensures value { result ≡ not (list_any (λ claim. meets footprint.now claim.footprint) self.now.kept) }
        ensures steps { steps.new ≤ steps.old + steps_at_most footprint.now self.now.kept }
    {
        if counts_any(&self.writes, &footprint.writes, steps) {
            return false;
        }
        if counts_any(&self.reads, &footprint.writes, steps) {
            return false;
        }
        !counts_any(&self.writes, &footprint.reads, steps)
    }

    /// Whether a kept claim holds a slot.
    pub fn holds_slot(&self, slot: u32) -> bool
        ensures { result ≡ list_any (λ claim. is_held slot claim.footprint.slot) self.now.kept }
    {
        self.kept
            .iter()
            .any(|claim| is_held(slot, claim.footprint.slot))
    }

    /// Whether a kept claim holds a set.
    pub fn holds_set(&self, set: u32) -> bool
        ensures { result ≡ list_any (λ claim. is_held set claim.footprint.set) self.now.kept }
    {
        self.kept
            .iter()
            .any(|claim| is_held(set, claim.footprint.set))
    }

    /// Keeps a claim behind those that are kept, of which there are fewer than find room. It takes no memory.
    pub fn add(&mut self, key: u32, footprint: Footprint)
        requires { length self.old.kept < self.old.most }
        ensures { self.new ≡ record {
          most = self.old.most;
          kept = self.old.kept ++ record { key = key; footprint = footprint } ∷ [];
        } }
    {
        add_runs(&mut self.writes, &footprint.writes);
        add_runs(&mut self.reads, &footprint.reads);
        put_behind(&mut self.kept, Claim { key, footprint });
    }

    /// Gives the first kept claim of a key back. It takes no memory.
    pub fn remove(&mut self, key: u32) -> Footprint
        requires { IsTrue (is_kept self.old.kept key) }
        ensures footprint { footprint_under self.old.kept key ≡ Some result }
        ensures kept { self.new ≡ record { most = self.old.most; kept = without_key key self.old.kept } }
    {
        let footprint = take_out(&mut self.kept, key);
        remove_runs(&mut self.writes, &footprint.writes);
        remove_runs(&mut self.reads, &footprint.reads);
        footprint
    }
}
