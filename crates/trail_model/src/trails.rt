//! The laws of lawful trails. The functions do nothing: what they ensure is what is proved.
ghost use Rattle.std.specs.Prelude.{◌≡◌, ◌++◌, ◌∷◌, [], ℕ, ◌+◌, ◌*◌, ◌≤◌, IsTrue, if◌then◌else◌, is_some, Option, length, slice_get};
ghost use Rattle.std.specs.List.{AllByRecursion};
ghost use Rattle.cp_base.specs.Answer.{Answer};
ghost use Rattle.cp_base.specs.Configuration.{Configuration, IsWithinLimits};
ghost use Rattle.cp_base.specs.Contents.{bytes_of};
ghost use Rattle.cp_base.specs.declared.region.SpaceId.{SpaceId};
ghost use Rattle.device_model.specs.Execution.{tells};
ghost use Rattle.device_model.specs.State.{opening};
ghost use Rattle.trail_model.specs.Aborts.{AreAbortsPaired};
ghost use Rattle.trail_model.specs.Accounts.{account_in, account_of, events_of};
ghost use Rattle.trail_model.specs.Claims.{DoNotMeet, FindsItself, HoldsTables};
ghost use Rattle.trail_model.specs.Each.{EachTwo};
ghost use Rattle.trail_model.specs.Fits.{StateFits};
ghost use Rattle.trail_model.specs.Footprints.{carried_regions};
ghost use Rattle.trail_model.specs.Histories.{LeadsTo};
ghost use Rattle.trail_model.specs.Lawful.{IsLawful, Trail, history_of, is_abort, world_of};
ghost use Rattle.trail_model.specs.Linked.{IsLinked};
ghost use Rattle.trail_model.specs.Pieces.{pieces_of};
ghost use Rattle.trail_model.specs.Sized.{AnswerSized, EventSized};
ghost use Rattle.trail_model.specs.Traced.{IsTraced};
ghost use Rattle.trail_model.specs.World.{Completion, OpenClaim, Submission, claim_at, claim_by, home, pickable_among, queued_among, submit_at, withdrawn_place};

use crate::Event;
use cp_base::{Command, Status};

/// One history. The history of a lawful trail replays on the sequential device, from the opening state to
/// the state of the trail's world. That state has the bytes that are at home, and where bytes are out those
/// that open claims carry.
pub fn histories_replay()
    ensures replays { (c : Configuration) (commands : ℕ) (trail : Trail) → IsLawful c commands trail
        → LeadsTo c (opening c) (history_of c trail) (world_of c trail).state }
    ensures at_home { (c : Configuration) (trail : Trail) (space : SpaceId) (offset byte : ℕ)
        → home c (world_of c trail) space offset ≡ Some byte
        → slice_get (bytes_of (world_of c trail).state.contents space) offset ≡ Some byte }
    ensures carried { (c : Configuration) (commands : ℕ) (trail : Trail) → IsLawful c commands trail
        → AllByRecursion (λ (claim : OpenClaim). claim.pieces
        ≡ pieces_of (world_of c trail).state.contents (carried_regions c claim.execution.ranges claim.request.command))
        (world_of c trail).claims }
    ensures fits { (c : Configuration) (commands : ℕ) (trail : Trail) → IsLawful c commands trail
        → StateFits c (world_of c trail).state }
{}

/// What open claims hold. Each finds the device as it was when it was made; for an execution that is the code of
/// its slot, still active, and the ranges of its set; and no two of them meet.
pub fn open_claims_hold()
    ensures found { (c : Configuration) (commands : ℕ) (trail : Trail) → IsLawful c commands trail
        → AllByRecursion (FindsItself c (world_of c trail).state) (world_of c trail).claims }
    ensures tables { (c : Configuration) (commands : ℕ) (trail : Trail) (place : ℕ) (claim : OpenClaim) (slot set p1 p2 budget : ℕ)
        → IsLawful c commands trail → claim_at (world_of c trail).claims place ≡ Some claim
        → claim.request.command ≡ Command.Execute slot set p1 p2 budget
        → HoldsTables (world_of c trail).state slot set claim.execution }
    ensures apart { (c : Configuration) (commands : ℕ) (trail : Trail) → IsLawful c commands trail
        → EachTwo (DoNotMeet c) (world_of c trail).claims }
{}

/// Never stuck: with no open claim each queued command may be picked.
pub fn trails_are_never_stuck()
    ensures { (c : Configuration) (commands : ℕ) (trail : Trail)
        → IsLawful c commands trail → (world_of c trail).claims ≡ []
        → pickable_among c (world_of c trail) ≡ queued_among (world_of c trail).submits }
{}

/// Submits and open claims belong together.
pub fn submits_and_claims_are_linked()
    ensures { (c : Configuration) (commands : ℕ) (trail : Trail)
        → IsLawful c commands trail → IsLinked (world_of c trail) }
{}

/// A trail for so many commands has at most five events for each, and one more.
pub fn trails_are_bounded()
    ensures counted { (c : Configuration) (trail : Trail) → (world_of c trail).count ≡ length trail }
    ensures bounded { (c : Configuration) (commands : ℕ) (trail : Trail)
        → IsLawful c commands trail → length trail ≤ 5 * commands + 1 }
{}

/// A beginning of a lawful trail is lawful.
pub fn beginnings_are_lawful()
    ensures { (c : Configuration) (commands : ℕ) (seen more : Trail)
        → IsLawful c commands (seen ++ more) → IsLawful c commands seen }
{}

/// A party's own events tell the ordinal of its next command, its outstanding commands in order of sending,
/// which commands its Aborts name, and its open claim: in a lawful trail these are the world's.
pub fn own_events_tell_the_account()
    ensures { (c : Configuration) (commands : ℕ) (trail : Trail) (party : ℕ) → IsLawful c commands trail
        → account_of (events_of party trail) ≡ account_in (world_of c trail) party }
{}

/// A claim stays open, with the same pieces, as long as its party does nothing more.
pub fn claims_stay_open()
    ensures { (c : Configuration) (commands : ℕ) (seen more : Trail) (party : ℕ) (claim : OpenClaim)
        → IsLawful c commands (seen ++ more)
        → events_of party more ≡ [] → claim_by (world_of c seen).claims party ≡ Some claim
        → claim_by (world_of c (seen ++ more)).claims party ≡ Some claim }
{}

/// A trail holds what its world tells: each submit and each open claim at its place, and where a reply is
/// posted the finish or the do of that command, or the do that withdraws it.
pub fn trails_hold_their_events()
    ensures { (c : Configuration) (commands : ℕ) (trail : Trail)
        → IsLawful c commands trail → IsTraced trail (world_of c trail) }
{}

/// Aborts. In the history of a lawful trail an aborted command stands directly behind the Abort that names
/// it and tells 0, and directly behind each such Abort stands one. An Abort tells 0 exactly where the
/// command that it names is still queued when it is done, and else 1.
pub fn aborts_withdraw_what_is_queued()
    ensures paired { (c : Configuration) (commands : ℕ) (trail : Trail)
        → IsLawful c commands trail → AreAbortsPaired (history_of c trail) }
    ensures told { (c : Configuration) (commands : ℕ) (seen more : Trail) (by host ordinal sent : ℕ)
        (answer : Answer) (aborts : Option ℕ) (s : Submission)
        → IsLawful c commands (seen ++ Event.Do by host ordinal sent answer aborts ∷ more)
        → submit_at (world_of c seen).submits sent ≡ Some s → IsTrue (is_abort s.request.command)
        → answer ≡ tells Status.Ok (if is_some (withdrawn_place (world_of c seen).submits s.request) then 0 else 1) }
{}

/// Where the submitted commands are sized, so is every answer in the history of a lawful trail: it has at
/// most as many bytes as one command may move, each of them a byte, and a number of 64 bits.
pub fn answers_are_sized()
    ensures { (c : Configuration) (commands : ℕ) (trail : Trail)
        → IsWithinLimits c → IsLawful c commands trail → AllByRecursion EventSized trail
        → AllByRecursion (λ (done : Completion). AnswerSized done.answer) (history_of c trail) }
{}
