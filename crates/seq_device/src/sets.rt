// Sets of memory ranges (Computational Programs Command Set 1.0, in outline).
ghost use Rattle.std.specs.Prelude.{◌≡◌, length};
ghost use Rattle.cp_base.specs.Answer.{answer_of};
ghost use Rattle.seq_device.specs.Standing.{IsDone};

use crate::SeqDevice;
use crate::replies::{only, told};
use cp_base::{Command, RangeList, Reply, Status};

impl SeqDevice {
    // Makes a set of memory ranges, whose number is the result.
    pub(crate) fn create_set(&mut self, ranges: &RangeList) -> Reply
        ensures done { IsDone self.old (Command.SetCreate ranges.now) (answer_of result) self.new }
        ensures empty { length result.bytes.items ≡ 0 }
    {
        match self.sets.create(&self.config, ranges) {
            Ok(number) => told(self.alloc, Status::Ok, u64::from(number)),
            Err(status) => only(self.alloc, status),
        }
    }

    // Takes a set of memory ranges away.
    pub(crate) fn delete_set(&mut self, set: u32) -> Reply
        ensures done { IsDone self.old (Command.SetDelete set) (answer_of result) self.new }
        ensures empty { length result.bytes.items ≡ 0 }
    {
        match self.sets.delete(set) {
            Ok(()) => only(self.alloc, Status::Ok),
            Err(status) => only(self.alloc, status),
        }
    }
}
