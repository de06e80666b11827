// Laws of the definitions. The functions do nothing: what they ensure is what is proved.
ghost use Rattle.std.specs.Prelude.{◌≡◌, ◌≢◌, ◌^◌, ◌<◌, ◌≤◌, All, AllPairs, List, length};
ghost use Rattle.cp_base.specs.declared.limits.TheConstants.{MAX_BUDGET};
ghost use Rattle.device_model.specs.Step.{DeviceStep, outcome_of};
ghost use Rattle.history_model.specs.Entry.{Entry};
ghost use Rattle.history_model.specs.Legal.{IsLegal, after_status};
ghost use Rattle.history_model.specs.Rules.{KeepsRules};
ghost use Rattle.history_model.specs.Sent.{sends_of};
ghost use Rattle.history_model.specs.Sized.{IsSizedEntry, IsSizedSend};
ghost use Rattle.history_model.specs.Text.{history_text};
ghost use Rattle.script_cmds.specs.Hosts.{hosts_of};

use cp_base::{Command, Status};

/// What the device answers settles the state after the command.
pub fn step_is_settled()
    ensures settled { (c : _) (s : _) (command : _) (answer : _) (next : _) → DeviceStep c s command answer next
        → next ≡ after_status s (outcome_of c s command).next answer.status }
{}

/// A legal history is sized where what its plan sends is sized: its numbers have 64 bits and what was read
/// are bytes, whatever a program does.
pub fn legal_histories_are_sized()
    ensures { (c : _) (plan : _) (history : List Entry) → c.budget ≤ MAX_BUDGET → length (sends_of plan) < 2 ^ 64
        → All IsSizedSend (sends_of plan)
        → IsLegal c plan history → All IsSizedEntry history }
{}

/// The text of a history tells it: two legal histories of one plan that have the same text are the same,
/// entry by entry. Their numbers have 64 bits, and what was read are bytes, as in every history of the
/// program.
pub fn text_tells_the_history()
    ensures { (c : _) (plan : _) (shows : _) (one other : List Entry) → IsLegal c plan one → IsLegal c plan other
        → All IsSizedEntry one → All IsSizedEntry other
        → history_text c shows one ≡ history_text c shows other → one ≡ other }
{}

/// Where a plan has no Abort, no history withdraws a command: the same histories are legal as for a
/// device that knows no Abort.
pub fn none_is_withdrawn_without_an_abort()
    ensures { (c : _) (plan : _) (history : List Entry) → IsLegal c plan history
        → All (λ sent. (cid : _) → sent.command ≢ Command.Abort cid) (sends_of plan)
        → All (λ entry. entry.answer.status ≢ Status.Aborted) history }
{}

/// The hosts that act in a phase of a plan are different ones, 1 to 16.
pub fn hosts_of_a_phase_differ()
    ensures differ { (depth : _) (phase : _) → KeepsRules depth phase → AllPairs (λ a b. a ≢ b) (hosts_of phase.hosts) }
    ensures numbered { (depth : _) (phase : _) → KeepsRules depth phase
        → All (λ host. (1 ≤ host) × (host ≤ 16)) (hosts_of phase.hosts) }
{}
