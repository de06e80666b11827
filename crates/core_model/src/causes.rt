//! When a call may go on: where its test over the parts passes, its event is allowed. The functions do nothing:
//! what they ensure is what is proved.
ghost use Rattle.std.specs.Prelude.{◌≡◌, ◌≤◌, ℕ, IsSome, IsTrue, None, Ok, Some, false, slice_get};
ghost use Rattle.cp_base.specs.Answer.{Answer};
ghost use Rattle.cp_base.specs.Configuration.{Configuration};
ghost use Rattle.cp_base.specs.declared.commands.Command.{Command};
ghost use Rattle.cp_base.specs.declared.limits.TheConstants.{MAX_HOSTS};
ghost use Rattle.device_model.specs.Checks.{refusal_of};
ghost use Rattle.device_model.specs.Memory.{moves_bytes};
ghost use Rattle.trail_model.specs.Lawful.{IsAllowedIn, IsParty, Trail, is_idle, world_of};
ghost use Rattle.trail_model.specs.World.{is_no_memory};
ghost use Rattle.core_model.specs.Asked.{Asked, asked_at};
ghost use Rattle.core_model.specs.Causes.{MayTell, submit_cause, submit_cause_in, take_answer, take_answer_in};
ghost use Rattle.core_model.specs.Parts.{Parts, WaitingSubmit, tables_in};
ghost use Rattle.core_model.specs.Picking.{is_clear_of, may_pick, touched_by, withdrawn_waiting};
ghost use Rattle.core_model.specs.Ties.{StandFor};

use trail_model::Event;

/// Why a host may not submit is the same by the parts. Where there is no cause, the submit of its next ordinal
/// is allowed.
pub fn submits_by_parts()
    ensures cause { (c : Configuration) (commands : ℕ) (p : Parts) (trail : Trail) (by cid : ℕ)
        → StandFor c commands p trail
        → submit_cause_in c commands p by cid ≡ submit_cause c commands (world_of c trail) by cid }
    ensures allowed { (c : Configuration) (commands : ℕ) (p : Parts) (trail : Trail) (by cid : ℕ) (command : Command)
        → StandFor c commands p trail
        → 1 ≤ by → by ≤ MAX_HOSTS → submit_cause_in c commands p by cid ≡ None
        → IsAllowedIn c commands (world_of c trail) (Event.Submit by cid (p.ordinals by) command) }
{}

/// Where a reply is posted, or why there is none to take, is the same by the parts. Where one is posted, its
/// take is allowed.
pub fn takes_by_parts()
    ensures answer { (c : Configuration) (commands : ℕ) (p : Parts) (trail : Trail) (by cid : ℕ)
        → StandFor c commands p trail
        → take_answer_in p by cid ≡ take_answer (world_of c trail) by cid }
    ensures allowed { (c : Configuration) (commands : ℕ) (p : Parts) (trail : Trail) (by cid posted : ℕ)
        → StandFor c commands p trail
        → take_answer_in p by cid ≡ Ok posted → IsAllowedIn c commands (world_of c trail) (Event.Take by cid posted) }
{}

/// Where the device is not at rest, a rest is allowed.
pub fn rests_by_parts()
    ensures { (c : Configuration) (commands : ℕ) (p : Parts) (trail : Trail) (by : ℕ) → StandFor c commands p trail
        → IsParty by → p.at_rest ≡ false → IsAllowedIn c commands (world_of c trail) (Event.Rest by) }
{}

/// What waits was asked for in the trail. An idle party may claim it, where it moves bytes, passes its checks and
/// meets nothing that is kept; and may do it at once, where it may be picked and is told so.
pub fn picks_by_parts()
    ensures asked { (c : Configuration) (commands : ℕ) (p : Parts) (trail : Trail) (i : ℕ) (x : WaitingSubmit)
        → StandFor c commands p trail
        → slice_get p.waiting i ≡ Some x → IsSome (asked_at trail x.sent) }
    ensures claims { (c : Configuration) (commands : ℕ) (p : Parts) (trail : Trail) (by i : ℕ) (x : WaitingSubmit) (asked : Asked)
        → StandFor c commands p trail → IsParty by → IsTrue (is_idle (world_of c trail) by)
        → slice_get p.waiting i ≡ Some x → asked_at trail x.sent ≡ Some asked
        → IsTrue (moves_bytes asked.command) → refusal_of c (tables_in p) asked.command ≡ None
        → IsTrue (is_clear_of p.kept (touched_by c p asked.command))
        → IsAllowedIn c commands (world_of c trail) (Event.Claim by asked.host asked.ordinal x.sent) }
    ensures dos { (c : Configuration) (commands : ℕ) (p : Parts) (trail : Trail) (by i : ℕ) (x : WaitingSubmit)
        (asked : Asked) (answer : Answer)
        → StandFor c commands p trail → IsParty by → IsTrue (is_idle (world_of c trail) by)
        → slice_get p.waiting i ≡ Some x → asked_at trail x.sent ≡ Some asked
        → IsTrue (may_pick c p asked.command)
        → MayTell (is_no_memory answer.status) c p asked.command (withdrawn_waiting p.waiting x.names) answer
        → IsAllowedIn c commands (world_of c trail)
        (Event.Do by asked.host asked.ordinal x.sent answer (withdrawn_waiting p.waiting x.names)) }
{}
