// Which commands take memory, and so may find none.
ghost use Rattle.std.specs.Prelude.{◌≡◌, true, false, IsTrue, is_none};
ghost use Rattle.cp_base.specs.Checks.{first_failing};
ghost use Rattle.cp_base.specs.Commands.{nature_of};
ghost use Rattle.cp_base.specs.declared.commands.Nature.TheVariants as nature;
ghost use Rattle.device_model.specs.Checks.{activate_checks, checks_of, load_checks};
ghost use Rattle.device_model.specs.Memory.{moves_bytes, takes_memory};
ghost use Rattle.device_model.specs.State.{slot_at};
ghost use Rattle.trail_model.specs.Footprints.{is_execution};

use crate::SeqDevice;
use cp_base::{Command, Nature};
use footprints::check_touched;

impl SeqDevice {
    /// Whether a command takes memory in the state of the device, and so may find none: it is of a kind that does,
    /// and none of its checks fails, of which that of a program itself is made with memory. The call takes none.
    pub fn takes_memory(&self, command: &Command) -> bool
        ensures { result ≡ takes_memory self.now.config self.now.state command.now }
    {
        match command.nature() {
            Nature::Reads | Nature::Writes | Nature::Copies => self.can_touch(command),
            Nature::Executes { .. } => self.can_execute(command),
            Nature::Builds => self.can_build(command),
            Nature::Arranges
            | Nature::Deletes { .. }
            | Nature::Stops { .. }
            | Nature::Withdraws { .. } => false,
        }
    }

    // Whether no check of a command fails that reads, writes or copies bytes.
    fn can_touch(&self, command: &Command) -> bool
        requires moves { IsTrue (moves_bytes command.now) }
        requires no_execution { is_execution command.now ≡ false }
        ensures { result ≡ is_none (first_failing (checks_of self.now.config self.now.state command.now)) }
    {
        match check_touched(self.alloc, &self.config, command) {
            Ok(_) => true,
            Err(_) => false,
        }
    }

    // Whether no check of an execution fails.
    fn can_execute(&self, command: &Command) -> bool
        requires { is_execution command.now ≡ true }
        ensures { result ≡ is_none (first_failing (checks_of self.now.config self.now.state command.now)) }
    {
        let Command::Execute {
            slot,
            set,
            budget,
            ..
        } = command
        else {
            unreachable!();
        };
        match self.check_execute(*slot, *set, *budget) {
            Ok(()) => true,
            Err(_) => false,
        }
    }

    // Whether no check of a command fails that builds a program, but for that of the program itself.
    fn can_build(&self, command: &Command) -> bool
        requires { nature_of command.now ≡ nature.Builds }
        ensures { result ≡ is_none (first_failing (checks_of self.now.config self.now.state command.now)) }
    {
        if let Command::Load {
            slot,
            size,
            at,
            bytes,
        } = command
        {
            return self.can_load(*slot, *size, *at, bytes.len());
        }
        let Command::Activate { slot } = command else {
            unreachable!();
        };
        self.can_activate(*slot)
    }

    // Whether no check of a load fails.
    fn can_load(&self, slot: u32, size: u64, at: u64, len: u64) -> bool
        ensures { result ≡ is_none (first_failing (load_checks (slot_at self.now.state slot) size at len)) }
    {
        match self.slots.check_load(slot, size, at, len) {
            Ok(()) => true,
            Err(_) => false,
        }
    }

    // Whether no check of an activation fails, but for that of the program itself.
    fn can_activate(&self, slot: u32) -> bool
        ensures { result ≡ is_none (first_failing (activate_checks (slot_at self.now.state slot))) }
    {
        match self.slots.check_activate(slot) {
            Ok(()) => true,
            Err(_) => false,
        }
    }
}
