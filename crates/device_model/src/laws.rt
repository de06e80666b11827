// Laws of the definitions. The functions do nothing: what they ensure is what is proved.
ghost use Rattle.std.specs.Prelude.{◌≤◌};
ghost use Rattle.cp_base.specs.declared.limits.TheConstants.{MAX_BUDGET};
ghost use Rattle.device_model.specs.Sized.{IsSizedAnswer, IsSizedCommand, IsSizedState};
ghost use Rattle.device_model.specs.State.{opening};
ghost use Rattle.device_model.specs.Step.{DeviceStep};

/// Numbers keep their 64 bits and bytes stay bytes: the opening state is sized, and from a sized state the
/// device answers a sized command with a sized answer and goes on to a sized state, whatever a program
/// does.
pub fn answers_are_sized()
    ensures opening { (c : _) → IsSizedState (opening c) }
    ensures answer { (c : _) (s : _) (command : _) (answer : _) (next : _) → c.budget ≤ MAX_BUDGET → IsSizedState s
        → IsSizedCommand command
        → DeviceStep c s command answer next → IsSizedAnswer answer }
    ensures next { (c : _) (s : _) (command : _) (answer : _) (next : _) → c.budget ≤ MAX_BUDGET → IsSizedState s
        → IsSizedCommand command
        → DeviceStep c s command answer next → IsSizedState next }
{}
