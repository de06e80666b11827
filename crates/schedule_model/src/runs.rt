//! The laws of runs of a schedule that go on. The function does nothing: what it ensures is what is proved.
ghost use Rattle.std.specs.Prelude.{◌≡◌, ◌++◌, ◌∷◌, [], ℕ, ◌<◌, ◌≤◌, All, Contains, IsFalse, List, length};
ghost use Rattle.cp_base.specs.Configuration.{Configuration};
ghost use Rattle.script_cmds.specs.declared.item.Phase.{Phase};
ghost use Rattle.history_model.specs.Plain.{PlainPart, plain_phases};
ghost use Rattle.history_model.specs.Rules.{KeepsRules};
ghost use Rattle.history_model.specs.Sent.{sends_of};
ghost use Rattle.trail_model.specs.Lawful.{IsLawful, Trail, world_of};
ghost use Rattle.trail_model.specs.Lawful.{MaySubmit};
ghost use Rattle.trail_model.specs.World.{first_world, ordinal_after};
ghost use Rattle.trail_model.specs.declared.events.Event.{Event};
ghost use Rattle.schedule_model.specs.Deeds.{Phases};
ghost use Rattle.schedule_model.specs.Schedule.{GoesOn, IsScheduled, RunsTo, Sending, actions, all_done, not_over};

use cp_base::Command;

/// How a trail of the schedule is made. One event that goes on makes the run one event longer, and where no
/// phase is left it is a trail of the schedule. For a plan that keeps the rules each part of a run is lawful,
/// each listed send may be submitted, and where a worker is there and a host has something left some action is
/// listed.
pub fn schedules_go_on()
    ensures goes_on { (c : Configuration) (phases : Phases) (workers choices : ℕ) (seen : Trail) (left : Phases) (rest : ℕ)
        (e : Event) (next : Phases) (more : ℕ)
        → RunsTo c workers (first_world c) phases choices seen left rest
        → GoesOn c workers (world_of c seen) (not_over (world_of c seen).at_rest left) rest e
        (λ ps n. (next ≡ ps) × (more ≡ n))
        → RunsTo c workers (first_world c) phases choices (seen ++ e ∷ []) next more }
    ensures ends { (c : Configuration) (phases : Phases) (workers choices : ℕ) (seen : Trail) (left : Phases) (rest : ℕ)
        → RunsTo c workers (first_world c) phases choices seen left rest → not_over (world_of c seen).at_rest left ≡ []
        → IsScheduled c phases workers choices seen }
    ensures lawful { (c : Configuration) (plan : List Phase) (workers choices : ℕ) (seen : Trail) (left : Phases) (rest : ℕ)
        → All (KeepsRules c.depth) plan → RunsTo c workers (first_world c) (plain_phases plan) choices seen left rest
        → IsLawful c (length (sends_of plan)) seen }
    ensures submits { (c : Configuration) (plan : List Phase) (workers choices : ℕ) (seen : Trail) (left : Phases) (rest : ℕ)
        (phase : List PlainPart) (later : Phases) (host cid : ℕ) (command : Command)
        → All (KeepsRules c.depth) plan → RunsTo c workers (first_world c) (plain_phases plan) choices seen left rest
        → not_over (world_of c seen).at_rest left ≡ phase ∷ later
        → Contains (actions c workers (world_of c seen) phase) (Sending host cid command)
        → MaySubmit c (length (sends_of plan)) (world_of c seen) host cid
        (ordinal_after (world_of c seen).submits host) }
    ensures never_stuck { (c : Configuration) (plan : List Phase) (workers choices : ℕ) (seen : Trail) (left : Phases) (rest : ℕ)
        (phase : List PlainPart) (later : Phases)
        → All (KeepsRules c.depth) plan → 1 ≤ workers
        → RunsTo c workers (first_world c) (plain_phases plan) choices seen left rest
        → not_over (world_of c seen).at_rest left ≡ phase ∷ later → IsFalse (all_done phase)
        → 0 < length (actions c workers (world_of c seen) phase) }
{}
