//! The laws of plans that the hosts did. The functions do nothing: what they ensure is what is proved.
ghost use Rattle.std.specs.Prelude.{◌++◌, ◌∷◌, [], ℕ, All, List};
ghost use Rattle.cp_base.specs.Configuration.{Configuration};
ghost use Rattle.script_cmds.specs.declared.item.Phase.{Phase};
ghost use Rattle.history_model.specs.Plain.{PlainPart, plain_phases};
ghost use Rattle.history_model.specs.Rules.{KeepsRules};
ghost use Rattle.trail_model.specs.Lawful.{IsLawful, Trail, world_of};
ghost use Rattle.schedule_model.specs.Deeds.{BeginsWith, HaveDone, HostsDid, Phases};
ghost use Rattle.schedule_model.specs.Told.{TellsPlan};

/// A lawful trail in which the hosts did a plan tells a legal history of it, whatever the order of the
/// turns was: its completions, in their order, are entries of the plan's commands, and they lead to the
/// state of its world. Nothing is outstanding at its end, no claim is open, and each byte is at home. The
/// plan keeps the rules of queues at the depth of the configuration.
pub fn trails_tell_legal_histories()
    ensures { (c : Configuration) (commands : ℕ) (plan : List Phase) (trail : Trail) → All (KeepsRules c.depth) plan
        → IsLawful c commands trail → HostsDid (plain_phases plan) trail → TellsPlan c plan (world_of c trail) }
{}

/// How a trail comes to be one in which the hosts did a plan, phase by phase: at first they did none; where
/// they have then done one phase more and nothing else, they did the plan with that phase behind it; and
/// whatever comes behind in which no host does anything changes nothing.
pub fn plans_grow_by_a_phase()
    ensures begins { HostsDid [] [] }
    ensures grows { (phases : Phases) (phase : List PlainPart) (trail whole : Trail) → HostsDid phases trail
        → BeginsWith whole trail
        → HaveDone (phases ++ phase ∷ []) whole → HostsDid (phases ++ phase ∷ []) whole }
    ensures stays { (phases : Phases) (trail whole : Trail) → HostsDid phases trail → BeginsWith whole trail
        → HaveDone phases whole → HostsDid phases whole }
{}
