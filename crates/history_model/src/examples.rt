// Worked examples of the definitions. The functions do nothing: what they ensure is what is proved.
ghost use Rattle.std.specs.Prelude.{◌≡◌, ◌++◌, ◌∷◌, [], None, Some, codes};
ghost use Rattle.history_model.specs.Examples.{answered, fill, fill_and_withdraw, filled, look, looked, named_by, one_host, one_phase, part, script_of, sending, small_device, entry_told, two_hosts, withdraw, with_two_queues, withdrawing};
ghost use Rattle.history_model.specs.Legal.{IsLegal};
ghost use Rattle.history_model.specs.Plain.{plain_phases};
ghost use Rattle.history_model.specs.Plan.{QueueFull, CidBusy, NotOutstanding, NoHosts, breaks, plan_of};
ghost use Rattle.history_model.specs.Sent.{sends_of};
ghost use Rattle.history_model.specs.Text.{entry_text, shown_text};
ghost use Rattle.script_cmds.specs.declared.item.Item.TheVariants as item;
ghost use Rattle.cp_base.specs.declared.region.SpaceId.TheVariants as space;

use cp_base::Status;

/// Scripts that break a rule of queues, each by the first line that does.
pub fn faults_of_plans_by_example()
    ensures full { (shared : _)
        → plan_of (one_host 1 (sending shared 1 fill ∷ sending shared 2 fill ∷ [])) ≡ breaks 6 QueueFull }
    ensures full_deeper { (shared : _)
        → plan_of (one_host 2 (sending shared 1 fill ∷ sending shared 2 fill ∷ sending shared 3 fill ∷ []))
        ≡ breaks 7 QueueFull }
    ensures busy { (shared : _)
        → plan_of (one_host 2 (sending shared 1 fill ∷ sending shared 1 fill ∷ [])) ≡ breaks 6 CidBusy }
    ensures full_before_busy { (shared : _)
        → plan_of (one_host 1 (sending shared 1 fill ∷ sending shared 1 fill ∷ [])) ≡ breaks 6 QueueFull }
    ensures second_queue_full { (shared : _)
        → plan_of (with_two_queues 1 (sending shared 7 fill ∷ sending shared 65543 fill ∷ sending shared 65544 fill ∷ [])) ≡ breaks 7 QueueFull }
    ensures busy_in_queue { (shared : _)
        → plan_of (with_two_queues 2 (sending shared 7 fill ∷ sending shared 7 fill ∷ [])) ≡ breaks 6 CidBusy }
    ensures not_outstanding { plan_of (one_host 1 (item.Take 5 ∷ [])) ≡ breaks 5 NotOutstanding }
    ensures no_hosts { plan_of (script_of 1 (one_phase [])) ≡ breaks 3 NoHosts }
{}

/// Scripts that keep the rules, with their plans.
pub fn plans_by_example()
    ensures taken_at_end { (shared : _)
        → plan_of (one_host 2 (sending shared 2 fill ∷ sending shared 1 fill ∷ []))
        ≡ Ok (one_phase (part 1 (sending shared 2 fill ∷ sending shared 1 fill ∷ item.Take 2 ∷ item.Take 1 ∷ []) ∷ [])) }
    ensures taken_between { (shared : _)
        → plan_of (one_host 1 (sending shared 1 fill ∷ item.Take 1 ∷ sending shared 1 look ∷ []))
        ≡ Ok (one_phase (part 1 (sending shared 1 fill ∷ item.Take 1 ∷ sending shared 1 look ∷ item.Take 1 ∷ []) ∷ [])) }
    ensures two_queues { (shared : _)
        → plan_of (with_two_queues 1 (sending shared 7 fill ∷ sending shared 65543 fill ∷ []))
        ≡ Ok (one_phase (part 1 (sending shared 7 fill ∷ sending shared 65543 fill ∷ item.Take 7 ∷ item.Take 65543 ∷ []) ∷ [])) }
    ensures equal_cids { (shared : _)
        → plan_of (script_of 1 (two_hosts shared))
        ≡ Ok (one_phase (part 1 (sending shared 1 fill ∷ item.Take 1 ∷ []) ∷ part 2 (sending shared 1 look ∷ item.Take 1 ∷ []) ∷ [])) }
{}

/// Two hosts act side by side, so either may be first, and what the second reads tells which was.
pub fn histories_by_example()
    ensures sent { (shared : _) → sends_of (two_hosts shared) ≡ filled ∷ looked ∷ [] }
    ensures fill_first { (shared : _)
        → IsLegal (small_device 1) (two_hosts shared) (answered filled [] ∷ answered looked (7 ∷ 7 ∷ []) ∷ []) }
    ensures look_first { (shared : _)
        → IsLegal (small_device 1) (two_hosts shared) (answered looked (0 ∷ 0 ∷ []) ∷ answered filled [] ∷ []) }
    ensures not_legal { (shared : _)
        → IsLegal (small_device 1) (two_hosts shared) (answered looked (7 ∷ 7 ∷ []) ∷ answered filled [] ∷ []) → ⊥ }
{}

/// An Abort names a command of its host that waits, never itself and none of an earlier phase. It stands
/// directly before the command that it withdraws, or withdraws none.
pub fn aborts_by_example()
    ensures sent { (shared : _) → sends_of (fill_and_withdraw shared) ≡ filled ∷ withdrawing ∷ [] }
    ensures last { (shared : _)
        → named_by (one_phase (part 1 (sending shared 1 fill ∷ sending shared 2 (withdraw 1) ∷ item.Take 1
        ∷ sending shared 1 fill ∷ sending shared 3 (withdraw 1) ∷ []) ∷ [])) ≡ None ∷ Some 1 ∷ None ∷ Some 3 ∷ [] }
    ensures taken { (shared : _)
        → named_by (one_phase (part 1 (sending shared 1 fill ∷ item.Take 1 ∷ sending shared 2 (withdraw 1) ∷ []) ∷ []))
        ≡ None ∷ None ∷ [] }
    ensures itself { (shared : _)
        → named_by (one_phase (part 1 (sending shared 1 (withdraw 1) ∷ []) ∷ [])) ≡ None ∷ [] }
    ensures earlier_phase { (shared : _)
        → named_by (one_phase (part 1 (sending shared 1 fill ∷ []) ∷ []) ++ one_phase (part 1 (sending shared 2 (withdraw 1) ∷ []) ∷ [])) ≡ None ∷ None ∷ [] }
    ensures other_host { (shared : _)
        → named_by (one_phase (part 1 (sending shared 1 fill ∷ []) ∷ part 2 (sending shared 2 (withdraw 1) ∷ []) ∷ []))
        ≡ None ∷ None ∷ [] }
    ensures withdrawn { (shared : _)
        → IsLegal (small_device 2) (fill_and_withdraw shared)
        (entry_told withdrawing Status.Ok 0 ∷ entry_told filled Status.Aborted 0 ∷ []) }
    ensures too_late { (shared : _)
        → IsLegal (small_device 2) (fill_and_withdraw shared)
        (entry_told filled Status.Ok 0 ∷ entry_told withdrawing Status.Ok 1 ∷ []) }
    ensures wrong_order { (shared : _)
        → IsLegal (small_device 2) (fill_and_withdraw shared) (entry_told filled Status.Aborted 0 ∷ entry_told withdrawing Status.Ok 0 ∷ []) → ⊥ }
    ensures not_withdrawn { (shared : _)
        → IsLegal (small_device 2) (fill_and_withdraw shared) (entry_told withdrawing Status.Ok 0 ∷ entry_told filled Status.Ok 0 ∷ []) → ⊥ }
{}

/// The line of an entry and the line of a show, to the byte.
pub fn lines_by_example()
    ensures entry { entry_text 1 (answered looked (7 ∷ 255 ∷ []))
        ≡ codes "#1 h2 n1 c1 memread Ok r=0 d=07ff" ++ 10 ∷ [] }
    ensures show { shown_text (record { range = record { space = space.Mem 1; start = 0; len = 2 } }) (7 ∷ 255 ∷ [])
        ≡ codes "show mem 1 at=0 len=2 d=07ff" ++ 10 ∷ [] }
{}
