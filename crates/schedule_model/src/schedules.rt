//! The laws of schedules. The functions do nothing: what they ensure is what is proved.
ghost use Rattle.std.specs.Prelude.{◌≡◌, ℕ, All, List, length};
ghost use Rattle.std.specs.List.{AllByRecursion};
ghost use Rattle.cp_base.specs.Configuration.{Configuration};
ghost use Rattle.script_cmds.specs.declared.item.Phase.{Phase};
ghost use Rattle.history_model.specs.Plain.{plain_phases};
ghost use Rattle.history_model.specs.Rules.{KeepsRules};
ghost use Rattle.history_model.specs.Sent.{sends_of};
ghost use Rattle.trail_model.specs.Lawful.{IsLawful, Trail};
ghost use Rattle.schedule_model.specs.Deeds.{HostsDid, Phases};
ghost use Rattle.schedule_model.specs.Schedule.{HasMemory, IsScheduled};

/// A trail of the schedule of a plan that keeps the rules is lawful for as many commands as the plan sends,
/// and the hosts did the plan in it, for any number of workers and whatever is chosen.
pub fn schedules_are_lawful()
    ensures lawful { (c : Configuration) (plan : List Phase) (workers choices : ℕ) (trail : Trail)
        → All (KeepsRules c.depth) plan
        → IsScheduled c (plain_phases plan) workers choices trail → IsLawful c (length (sends_of plan)) trail }
    ensures did { (c : Configuration) (plan : List Phase) (workers choices : ℕ) (trail : Trail)
        → All (KeepsRules c.depth) plan
        → IsScheduled c (plain_phases plan) workers choices trail → HostsDid (plain_phases plan) trail }
{}

/// A plan, a number of workers and a number that chooses settle the schedule: two trails that follow it are
/// the same, where no command is done for want of memory.
pub fn schedules_are_settled()
    ensures { (c : Configuration) (phases : Phases) (workers choices : ℕ) (one other : Trail)
        → IsScheduled c phases workers choices one → IsScheduled c phases workers choices other
        → AllByRecursion HasMemory one → AllByRecursion HasMemory other → one ≡ other }
{}
