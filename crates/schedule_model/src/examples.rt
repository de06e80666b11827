// Worked examples of the definitions. The functions do nothing: what they ensure is what is proved.
ghost use Rattle.std.specs.Prelude.{◌≡◌};
ghost use Rattle.device_model.specs.Examples.{small};
ghost use Rattle.schedule_model.specs.Deeds.{HaveDone, HostsDid};
ghost use Rattle.schedule_model.specs.Examples.{fill_then_abort, idle_phases, in_time, in_turn, one_after_another, one_rest, too_late};
ghost use Rattle.schedule_model.specs.Schedule.{IsScheduled};

/// What is chosen decides whether an Abort comes in time: 0 always takes the first action that is listed.
pub fn schedules_by_example()
    ensures first { IsScheduled small fill_then_abort 1 0 too_late }
    ensures third { IsScheduled small fill_then_abort 1 2 in_time }
    ensures not_third { IsScheduled small fill_then_abort 1 2 too_late → ⊥ }
    ensures rests { IsScheduled small idle_phases 1 0 one_rest }
    ensures phases { IsScheduled small one_after_another 1 0 in_turn }
{}
