//! What every step of the sequential device keeps. The function does nothing: what it ensures is what is proved.
ghost use Rattle.std.specs.Prelude.{◌≡◌, ℕ, [], IsFalse, map, unwrap_or};
ghost use Rattle.cp_base.specs.Answer.{Answer};
ghost use Rattle.cp_base.specs.Configuration.{Configuration};
ghost use Rattle.cp_base.specs.Sets.{ranges_under};
ghost use Rattle.cp_base.specs.Sharing.{range_region};
ghost use Rattle.cp_base.specs.declared.commands.Command.{Command};
ghost use Rattle.cp_base.specs.declared.region.SpaceId.{SpaceId};
ghost use Rattle.device_model.specs.State.{State, opening};
ghost use Rattle.device_model.specs.Step.{DeviceStep};
ghost use Rattle.trail_model.specs.Fits.{StateFits};
ghost use Rattle.trail_model.specs.Footprints.{execution_of, writable_ranges, writes_of};
ghost use Rattle.trail_model.specs.Pieces.{all_bytes, any_has_byte};

/// No command changes a byte that it may not write, whatever it is told. This holds in every state that fits the
/// configuration, and these are the opening state and each state that a step leads to from such a one. An execution
/// may write the read-write ranges of its set alone, also where it fails.
pub fn steps_are_confined()
    ensures opening { (c : Configuration) → StateFits c (opening c) }
    ensures fits { (c : Configuration) (s : State) (command : Command) (answer : Answer) (next : State)
        → StateFits c s → DeviceStep c s command answer next → StateFits c next }
    ensures confined { (c : Configuration) (s : State) (command : Command) (answer : Answer) (next : State)
        → StateFits c s → DeviceStep c s command answer next
        → (space : SpaceId) (offset : ℕ)
        → IsFalse (any_has_byte (writes_of c (execution_of s command).ranges command) space offset)
        → all_bytes next.contents space offset ≡ all_bytes s.contents space offset }
    ensures execution { (c : Configuration) (s : State) (slot set p1 p2 budget : ℕ) (answer : Answer) (next : State)
        → StateFits c s → DeviceStep c s (Command.Execute slot set p1 p2 budget) answer next
        → (space : SpaceId) (offset : ℕ)
        → IsFalse (any_has_byte (map range_region (writable_ranges (unwrap_or (ranges_under s.sets set) []))) space offset)
        → all_bytes next.contents space offset ≡ all_bytes s.contents space offset }
{}
