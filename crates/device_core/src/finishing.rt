// Claims that are over: what they may write comes home, and the reply is posted.
ghost use Rattle.std.specs.Prelude.{◌≡◌, ◌+◌, ◌<◌, ◌≤◌, ◌==◌, ◌++◌, ◌∷◌, [], ℕ, Some, IsTrue, find, length, vec_capacity, vec_len};
ghost use Rattle.cp_base.specs.Answer.{Answer};
ghost use Rattle.cp_base.specs.Configuration.{Configuration};
ghost use Rattle.queue_pairs.specs.Outstanding.{under};
ghost use Rattle.queue_pairs.specs.Places.{PlacesDiffer};
ghost use Rattle.range_claims.specs.Kept.{is_kept};
ghost use Rattle.trail_model.specs.Lawful.{IsAllowedIn, world_of};
ghost use Rattle.trail_model.specs.Pieces.{any_has_byte};
ghost use Rattle.trail_model.specs.declared.events.Event.TheVariants as event;
ghost use Rattle.core_model.specs.Moves.{FinishMoves, without_place};
ghost use Rattle.core_model.specs.Ties.{StandFor};
ghost use Rattle.device_core.specs.Homecoming.{BringsHome, CameHome, CanComeHome, homebound, writes_under};
ghost use Rattle.device_core.specs.Keep.{KeepsRoom, parts_of, queue_of};
ghost use Rattle.device_core.specs.Recorded.{trail_of};

use crate::Event;
use crate::asked::asked_in;
use crate::keep::Keep;
use crate::queues::post_claimed;
use core_model::{ClaimPlaces, EntryPlaces};
use cp_base::{ByteRange, Piece, Spans};
use extents::Extents;
use queue_pairs::Stage;

// The open claim of a place.
fn claim_of(claims: &[ClaimPlaces], place: u32) -> Option<ClaimPlaces>
    ensures { result ≡ find (λ claim. claim.claim == place) claims.now }
{
    for claim in claims {
        if claim.claim == place {
            return Some(*claim);
        }
    }
    None
}

// The open claims without the one of a place.
fn leave_out(claims: &mut Vec<ClaimPlaces>, place: u32)
    ensures left { claims.new.items ≡ without_place claims.old.items place }
    ensures capacity { vec_capacity claims.new ≡ vec_capacity claims.old }
{
    claims.retain(|claim| claim.claim != place);
}

// Whether the first byte of a range lies in one of these.
fn begins_in(runs: &[ByteRange], range: &ByteRange) -> bool
    ensures { result ≡ any_has_byte runs.now range.now.space range.now.start }
{
    runs.iter().any(|run| {
        run.space() == range.space() && run.start() <= range.start() && range.start() < run.end()
    })
}

// Puts home what lies where bytes were taken out. The other pieces are copies, and are let go of.
fn put_home(store: &mut Extents, writes: &Spans, pieces: Vec<Piece>)
    requires { CanComeHome store.old (homebound writes.now pieces.items) }
    ensures { CameHome store.old store.new (homebound writes.now pieces.items) }
{
    for piece in pieces {
        let Piece { range, bytes } = piece;
        if begins_in(writes.as_slice(), &range) {
            store.put(&range, bytes);
        }
    }
}

impl Keep {
    // Ends an open claim: its pieces come home, and the reply to its command is posted, at a place of the trail.
    fn end_claim(&mut self, claim: ClaimPlaces, cid: u32, posted: u32, pieces: Vec<Piece>)
        requires host { (1 ≤ claim.host) × (claim.host ≤ length self.old.queues.items) }
        requires claimed { under (queue_of self.old.queues.items claim.host) cid
            ≡ Some (record { cid = cid; sent = claim.sent; stage = Stage.Picked }) }
        requires kept { IsTrue (is_kept self.old.kept.kept claim.claim) }
        requires room { vec_len self.old.entries < vec_capacity self.old.entries }
        requires home { CanComeHome self.old.store
            (homebound (writes_under self.old.kept.kept claim.claim) pieces.items) }
        ensures moves { PlacesDiffer (queue_of self.old.queues.items claim.host)
            → FinishMoves (parts_of posted self.old) (parts_of (posted + 1) self.new) claim.claim claim.host claim.sent
            (homebound (writes_under self.old.kept.kept claim.claim) pieces.items) }
        ensures room { KeepsRoom self.old self.new }
    {
        let footprint = self.kept.remove(claim.claim);
        put_home(&mut self.store, &footprint.writes, pieces);
        leave_out(&mut self.claims, claim.claim);
        post_claimed(&mut self.queues, claim.host, cid, claim.sent, posted);
        self.entries.push_reserved(EntryPlaces {
            sent: claim.sent,
            posted,
        });
    }
}

/// Ends the open claim of a place of the trail: these are its pieces after its work, which come home.
pub(crate) fn bring_home(keep: &mut Keep, trail: &[Event], place: u32, pieces: Vec<Piece>)
    requires { (c : Configuration) × (commands : ℕ) × BringsHome c commands trail.now keep.old place pieces.items }
    ensures stands { (c : Configuration) (commands by : ℕ) (answer : Answer)
        → BringsHome c commands trail.now keep.old place pieces.items
        → IsAllowedIn c commands (world_of c (trail_of trail.now)) (event.Finish by place answer)
        → StandFor c commands (parts_of (length trail.now + 1) keep.new)
        (trail_of trail.now ++ event.Finish by place answer ∷ []) }
    ensures room { KeepsRoom keep.old keep.new }
{
    let claim = claim_of(&keep.claims, place).unwrap();
    let asked = asked_in(trail, claim.sent).unwrap();
    let posted = trail.len() as u32;
    keep.end_claim(claim, asked.cid, posted, pieces);
}
