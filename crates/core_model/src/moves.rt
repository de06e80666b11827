//! The laws of single events: so moved, the parts stand for the trail with the event. The functions do nothing:
//! what they ensure is what is proved.
ghost use Rattle.std.specs.Prelude.{◌≡◌, ◌++◌, ◌∷◌, [], ℕ, Option, Some};
ghost use Rattle.cp_base.specs.Answer.{Answer};
ghost use Rattle.cp_base.specs.Configuration.{Configuration};
ghost use Rattle.cp_base.specs.declared.commands.Command.{Command};
ghost use Rattle.trail_model.specs.Lawful.{IsAllowedIn, Trail, world_of};
ghost use Rattle.trail_model.specs.World.{OpenClaim, claim_at, effect_of_claim, state_after};
ghost use Rattle.queue_pairs.specs.Outstanding.{under};
ghost use Rattle.queue_pairs.specs.declared.command.Outstanding.{Outstanding};
ghost use Rattle.core_model.specs.Asked.{Asked, asked_at};
ghost use Rattle.core_model.specs.Moves.{ClaimMoves, FinishMoves, PostMoves, RestMoves, SubmitMoves, TakeMoves, WithdrawMoves};
ghost use Rattle.core_model.specs.Parts.{Parts, tables_in};
ghost use Rattle.core_model.specs.Picking.{taken_for, touched_by};
ghost use Rattle.core_model.specs.Ties.{AreFirst, StandFor};

use trail_model::Event;

/// The parts of a new device stand for the empty trail.
pub fn parts_begin()
    ensures { (c : Configuration) (commands : ℕ) (p : Parts) → AreFirst c p → StandFor c commands p [] }
{}

/// So moved, the parts stand for the trail with a submit.
pub fn parts_move_at_submits()
    ensures { (c : Configuration) (commands : ℕ) (old new : Parts) (trail : Trail) (by cid ordinal : ℕ) (command : Command)
        → StandFor c commands old trail
        → IsAllowedIn c commands (world_of c trail) (Event.Submit by cid ordinal command)
        → SubmitMoves old new by cid command
        → StandFor c commands new (trail ++ Event.Submit by cid ordinal command ∷ []) }
{}

/// So moved, the parts stand for the trail with a take of the reply to the command of a submit.
pub fn parts_move_at_takes()
    ensures { (c : Configuration) (commands : ℕ) (old new : Parts) (trail : Trail) (by cid posted : ℕ) (x : Outstanding)
        → StandFor c commands old trail
        → IsAllowedIn c commands (world_of c trail) (Event.Take by cid posted)
        → under (old.queues by) cid ≡ Some x
        → TakeMoves old new by x.sent
        → StandFor c commands new (trail ++ Event.Take by cid posted ∷ []) }
{}

/// So moved, the parts stand for the trail with a rest.
pub fn parts_move_at_rests()
    ensures { (c : Configuration) (commands : ℕ) (old new : Parts) (trail : Trail) (by : ℕ)
        → StandFor c commands old trail
        → IsAllowedIn c commands (world_of c trail) (Event.Rest by)
        → RestMoves old new
        → StandFor c commands new (trail ++ Event.Rest by ∷ []) }
{}

/// So moved, the parts stand for the trail with a claim of what the submit at place `sent` asks for.
pub fn parts_move_at_claims()
    ensures { (c : Configuration) (commands : ℕ) (old new : Parts) (trail : Trail) (by host ordinal sent : ℕ) (asked : Asked)
        → StandFor c commands old trail
        → IsAllowedIn c commands (world_of c trail) (Event.Claim by host ordinal sent)
        → asked_at trail sent ≡ Some asked
        → ClaimMoves old new by asked.host sent (touched_by c old asked.command) (taken_for c old asked.command)
        → StandFor c commands new (trail ++ Event.Claim by host ordinal sent ∷ []) }
{}

/// So moved, the parts stand for the trail with a command done at once: they move once for the command
/// itself, and once more for the command that it withdraws, where it is an Abort that withdraws one.
pub fn parts_move_at_dos()
    ensures { (c : Configuration) (commands : ℕ) (old between new : Parts) (trail : Trail) (by host ordinal sent : ℕ)
        (answer : Answer)
        (aborts : Option ℕ) (asked : Asked)
        → StandFor c commands old trail
        → IsAllowedIn c commands (world_of c trail) (Event.Do by host ordinal sent answer aborts)
        → asked_at trail sent ≡ Some asked
        → PostMoves old between asked.host sent old.count (state_after c (tables_in old) asked.command answer)
        → WithdrawMoves trail between new old.count aborts
        → StandFor c commands new (trail ++ Event.Do by host ordinal sent answer aborts ∷ []) }
{}

/// So moved, the parts stand for the trail with the finish of an open claim, whose pieces come home with
/// what its command wrote.
pub fn parts_move_at_finishes()
    ensures { (c : Configuration) (commands : ℕ) (old new : Parts) (trail : Trail) (by place : ℕ)
        (answer : Answer) (claim : OpenClaim)
        → StandFor c commands old trail
        → IsAllowedIn c commands (world_of c trail) (Event.Finish by place answer)
        → claim_at (world_of c trail).claims place ≡ Some claim
        → FinishMoves old new place claim.request.host claim.request.place (effect_of_claim c claim).pieces
        → StandFor c commands new (trail ++ Event.Finish by place answer ∷ []) }
{}
