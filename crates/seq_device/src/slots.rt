// Programs in slots (Computational Programs Command Set 1.0, in outline).
ghost use Rattle.std.specs.Prelude.{◌≡◌, length};
ghost use Rattle.cp_base.specs.Answer.{answer_of};
ghost use Rattle.seq_device.specs.Standing.{IsCarriedOut, IsDone};

use crate::SeqDevice;
use crate::replies::done_or_refused;
use cp_base::{Bytes, Command, Reply};

impl SeqDevice {
    // Loads a piece of a program of `size` bytes, from its byte `at` on.
    pub(crate) fn load_piece(&mut self, slot: u32, size: u64, at: u64, bytes: &Bytes) -> Reply
        ensures carried { IsCarriedOut self.old (Command.Load slot size at bytes.now) (answer_of result) self.new }
        ensures empty { length result.bytes.items ≡ 0 }
    {
        let answer = self.slots.load(slot, size, at, bytes);
        done_or_refused(self.alloc, answer)
    }

    // Makes a slot empty.
    pub(crate) fn unload(&mut self, slot: u32) -> Reply
        ensures done { IsDone self.old (Command.Unload slot) (answer_of result) self.new }
        ensures empty { length result.bytes.items ≡ 0 }
    {
        let answer = self.slots.unload(slot);
        done_or_refused(self.alloc, answer)
    }

    // Makes a loaded program executable.
    pub(crate) fn activate(&mut self, slot: u32) -> Reply
        ensures carried { IsCarriedOut self.old (Command.Activate slot) (answer_of result) self.new }
        ensures empty { length result.bytes.items ≡ 0 }
    {
        let answer = self.slots.activate(slot);
        done_or_refused(self.alloc, answer)
    }

    // Makes a program loaded and no more.
    pub(crate) fn deactivate(&mut self, slot: u32) -> Reply
        ensures done { IsDone self.old (Command.Deactivate slot) (answer_of result) self.new }
        ensures empty { length result.bytes.items ≡ 0 }
    {
        let answer = self.slots.deactivate(slot);
        done_or_refused(self.alloc, answer)
    }
}
