//! What the queues of the parts have, which calls by identifier rely on. The functions do nothing: what they
//! ensure is what is proved.
ghost use Rattle.std.specs.Prelude.{◌≡◌, ◌<◌, ℕ, List, Some, slice_get};
ghost use Rattle.cp_base.specs.Configuration.{Configuration};
ghost use Rattle.device_model.specs.State.{State};
ghost use Rattle.queue_pairs.specs.Outstanding.{CidsDiffer, under};
ghost use Rattle.queue_pairs.specs.Places.{PlacesDiffer, restaged};
ghost use Rattle.queue_pairs.specs.declared.command.Outstanding.{Outstanding};
ghost use Rattle.queue_pairs.specs.declared.command.Stage.{Stage};
ghost use Rattle.queue_pairs.specs.declared.command.Stage.TheVariants.{Queued, Picked};
ghost use Rattle.trail_model.specs.Lawful.{Trail, world_of};
ghost use Rattle.trail_model.specs.World.{OpenClaim, claim_at};
ghost use Rattle.core_model.specs.Asked.{Asked, asked_at};
ghost use Rattle.core_model.specs.Moves.{PostMoves};
ghost use Rattle.core_model.specs.Parts.{Parts, WaitingSubmit};
ghost use Rattle.core_model.specs.Picking.{withdrawn_waiting};
ghost use Rattle.core_model.specs.Ties.{StandFor};

/// The commands of a queue were submitted at different places. What waits is queued in its host's queue, and
/// what an open claim carries out is picked there.
pub fn queues_by_parts()
    ensures places { (c : Configuration) (commands : ℕ) (p : Parts) (trail : Trail) (host : ℕ)
        → StandFor c commands p trail
        → PlacesDiffer (p.queues host) }
    ensures waiting { (c : Configuration) (commands : ℕ) (p : Parts) (trail : Trail) (i : ℕ) (x : WaitingSubmit) (asked : Asked)
        → StandFor c commands p trail → slice_get p.waiting i ≡ Some x → asked_at trail x.sent ≡ Some asked
        → CidsDiffer (p.queues asked.host)
        → under (p.queues asked.host) asked.cid ≡ Some (record { cid = asked.cid; sent = x.sent; stage = Queued }) }
    ensures claimed { (c : Configuration) (commands : ℕ) (p : Parts) (trail : Trail) (place : ℕ) (claim : OpenClaim)
        → StandFor c commands p trail → claim_at (world_of c trail).claims place ≡ Some claim
        → CidsDiffer (p.queues claim.request.host)
        → under (p.queues claim.request.host) claim.request.cid
        ≡ Some (record { cid = claim.request.cid; sent = claim.request.place; stage = Picked }) }
{}

/// What a waiting Abort withdraws was submitted before it and waits too, and its host's queue still has it once
/// the reply to the Abort is posted.
pub fn withdrawn_commands_wait()
    ensures earlier { (c : Configuration) (commands : ℕ) (p : Parts) (trail : Trail) (i place : ℕ) (x : WaitingSubmit)
        → StandFor c commands p trail → slice_get p.waiting i ≡ Some x → withdrawn_waiting p.waiting x.names
        ≡ Some place
        → (place < x.sent) × (j : ℕ) × (y : WaitingSubmit) × (slice_get p.waiting j ≡ Some y) × (y.sent ≡ place) }
    ensures still { (old between : Parts) (host sent posted : ℕ) (tables : State) (other cid : ℕ) (o : Outstanding)
        → PostMoves old between host sent posted tables → under (old.queues other) cid ≡ Some o → (o.sent ≡ sent → ⊥)
        → under (between.queues other) cid ≡ Some o }
{}

/// A command that is picked and then posted is at the last of the two stages, and places go on to differ.
pub fn stages_follow()
    ensures last { (commands : List Outstanding) (place : ℕ) (first second : Stage)
        → restaged (restaged commands place first) place second ≡ restaged commands place second }
    ensures places { (commands : List Outstanding) (place : ℕ) (stage : Stage) → PlacesDiffer commands
        → PlacesDiffer (restaged commands place stage) }
{}
