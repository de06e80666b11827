// Worked examples of the definitions. The functions do nothing: what they ensure is what is proved.
ghost use Rattle.std.specs.Prelude.{◌≡◌, ◌++◌, ◌∷◌, [], ℕ, Err, None, Ok, Some, false, true};
ghost use Rattle.cp_base.specs.Configuration.{Configuration};
ghost use Rattle.cp_base.specs.Region.{region_of};
ghost use Rattle.cp_base.specs.declared.region.SpaceId.TheVariants.{Mem};
ghost use Rattle.device_model.specs.Examples.{small};
ghost use Rattle.queue_pairs.specs.declared.causes.SendCause.TheVariants.{CidBusy, Spent};
ghost use Rattle.queue_pairs.specs.declared.causes.TakeCause.TheVariants.{NotOutstanding, NotYet};
ghost use Rattle.trail_model.specs.Examples.{answered_ok, fill_and_abort, first_is_over, two_that_meet};
ghost use Rattle.trail_model.specs.Lawful.{IsLawful, Trail};
ghost use Rattle.core_model.specs.Causes.{submit_cause_in, take_answer_in};
ghost use Rattle.core_model.specs.Picking.{pickable_waiting, withdrawn_waiting};
ghost use Rattle.core_model.specs.Ties.{StandFor, entries_of, entry_of, parts_at};

use trail_model::Event;

/// For each lawful trail there are parts that stand for it.
pub fn trails_have_parts()
    ensures { (c : Configuration) (commands : ℕ) (trail : Trail) → IsLawful c commands trail
        → StandFor c commands (parts_at c trail) trail }
{}

/// While a fill is claimed that a read meets, its bytes and its region are out, and the read waits and may not be
/// picked; after its finish it may, and the reply to the fill may be taken.
pub fn parts_by_example()
    ensures waits { pickable_waiting small (parts_at small two_that_meet) two_that_meet ≡ [] }
    ensures out { (parts_at small two_that_meet).store (Mem 1) 3 ≡ None }
    ensures taken { (parts_at small two_that_meet).out (region_of (Mem 1) 0 4) ≡ true }
    ensures not_another { (parts_at small two_that_meet).out (region_of (Mem 1) 0 3) ≡ false }
    ensures not_yet { take_answer_in (parts_at small two_that_meet) 1 1 ≡ Err NotYet }
    ensures busy { submit_cause_in small 3 (parts_at small two_that_meet) 1 1 ≡ Some CidBusy }
    ensures spent { submit_cause_in small 2 (parts_at small two_that_meet) 1 1 ≡ Some Spent }
    ensures may { pickable_waiting small (parts_at small first_is_over) first_is_over
        ≡ record { sent = 1; names = None } ∷ [] }
    ensures home { (parts_at small first_is_over).store (Mem 1) 3 ≡ Some 1 }
    ensures back { (parts_at small first_is_over).out (region_of (Mem 1) 0 4) ≡ false }
    ensures posted { take_answer_in (parts_at small first_is_over) 1 1 ≡ Ok 3 }
    ensures not_outstanding { take_answer_in (parts_at small first_is_over) 3 1 ≡ Err NotOutstanding }
{}

/// An Abort names the fill before it, which it withdraws where both still wait, and the two entries stand at one
/// place of the trail.
pub fn withdrawn_parts_by_example()
    ensures names { withdrawn_waiting (parts_at small fill_and_abort).waiting (Some 0) ≡ Some 0 }
    ensures claimed { withdrawn_waiting (parts_at small (fill_and_abort ++ Event.Claim 17 1 1 0 ∷ [])).waiting (Some 0)
        ≡ None }
    ensures entries { entries_of small (fill_and_abort ++ Event.Do 17 1 2 1 answered_ok (Some 0) ∷ [])
        ≡ entry_of 2 1 ∷ entry_of 2 0 ∷ [] }
{}
