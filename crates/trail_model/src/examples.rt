// Worked examples of the definitions. The functions do nothing: what they ensure is what is proved.
ghost use Rattle.std.specs.Prelude.{◌≡◌, ◌++◌, ◌∷◌, []};
ghost use Rattle.device_model.specs.Examples.{small};
ghost use Rattle.device_model.specs.Execution.{tells};
ghost use Rattle.trail_model.specs.Examples.{answered_ok, ends_so, fill_and_abort, first_is_over, held_set_trail, home_after, pickable_after, told_after, two_readers, two_that_meet};
ghost use Rattle.trail_model.specs.Lawful.{IsLawful};

use crate::Event;
use cp_base::Status;

/// A fill and a read that meet: while the fill is claimed its bytes are out, and the read may not be picked.
pub fn meeting_by_example()
    ensures lawful { IsLawful small 2 two_that_meet }
    ensures waits { pickable_after two_that_meet ≡ [] }
    ensures out { home_after two_that_meet 3 ≡ None }
    ensures at_home { home_after two_that_meet 4 ≡ Some 0 }
    ensures free { pickable_after first_is_over ≡ 1 ∷ [] }
    ensures brought { home_after first_is_over 3 ≡ Some 1 }
    ensures told { told_after first_is_over ≡ ends_so 0 Status.Ok 0 ∷ [] }
    ensures lawful_end { IsLawful small 2 first_is_over }
    ensures too_early { IsLawful small 2 (two_that_meet ++ Event.Claim 18 2 1 1 ∷ []) → ⊥ }
    ensures anothers { IsLawful small 2 (two_that_meet ++ Event.Finish 18 2 answered_ok ∷ []) → ⊥ }
{}

/// Two reads share bytes, which stay at home; a fill of one of them waits for both.
pub fn readers_by_example()
    ensures lawful { IsLawful small 3 two_readers }
    ensures waits { pickable_after two_readers ≡ [] }
    ensures at_home { home_after two_readers 0 ≡ Some 0 }
{}

/// A set that an open execution holds is not deleted until the execution is over.
pub fn held_set_by_example()
    ensures lawful { IsLawful small 3 held_set_trail }
    ensures waits { pickable_after held_set_trail ≡ [] }
    ensures free { pickable_after (held_set_trail ++ Event.Finish 17 4 answered_ok ∷ []) ≡ 3 ∷ [] }
    ensures over { IsLawful small 3
        (held_set_trail ++ Event.Finish 17 4 answered_ok ∷ Event.Do 18 2 1 3 answered_ok None ∷ []) }
{}

/// An Abort withdraws a command that is still queued, and no command that is claimed.
pub fn aborts_by_example()
    ensures queued { pickable_after fill_and_abort ≡ 0 ∷ 1 ∷ [] }
    ensures withdraws { IsLawful small 2 (fill_and_abort ++ Event.Do 17 1 2 1 answered_ok (Some 0) ∷ []) }
    ensures both_told { told_after (fill_and_abort ++ Event.Do 17 1 2 1 answered_ok (Some 0) ∷ [])
        ≡ ends_so 1 Status.Ok 0 ∷ ends_so 0 Status.Aborted 0 ∷ [] }
    ensures taken { IsLawful small 2 (fill_and_abort
        ++ Event.Do 17 1 2 1 answered_ok (Some 0) ∷ Event.Take 1 1 2 ∷ Event.Take 1 2 2 ∷ []) }
    ensures too_late { IsLawful small 2 (fill_and_abort
        ++ Event.Claim 17 1 1 0 ∷ Event.Do 18 1 2 1 (tells Status.Ok 1) None ∷ []) }
    ensures told_too_late { told_after (fill_and_abort
        ++ Event.Claim 17 1 1 0 ∷ Event.Do 18 1 2 1 (tells Status.Ok 1) None ∷ Event.Finish 17 2 answered_ok ∷ [])
        ≡ ends_so 1 Status.Ok 1 ∷ ends_so 0 Status.Ok 0 ∷ [] }
    ensures not_1 { IsLawful small 2 (fill_and_abort ++ Event.Do 17 1 2 1 (tells Status.Ok 1) None ∷ []) → ⊥ }
    ensures not_0 { IsLawful small 2 (fill_and_abort
        ++ Event.Claim 17 1 1 0 ∷ Event.Do 18 1 2 1 answered_ok (Some 0) ∷ []) → ⊥ }
{}
