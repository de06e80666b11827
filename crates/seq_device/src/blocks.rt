// Reads, writes and zeroes of NVM namespaces (NVM Command Set, in outline).
ghost use Rattle.std.specs.Prelude.{◌≡◌, ◌≤◌, length};
ghost use Rattle.cp_base.specs.Answer.{answer_of};
ghost use Rattle.seq_device.specs.Standing.{IsCarriedOut, IsDone};

use crate::SeqDevice;
use crate::replies::only;
use cp_base::{Bytes, Command, MAX_SPAN, MAX_TRANSFER, Reply, Status};
use nvm_blocks::{blocks_to_range, write_to_range};

impl SeqDevice {
    // Reads blocks.
    pub(crate) fn read_blocks(&self, ns: u32, lba: u64, count: u64) -> Reply
        ensures carried { IsCarriedOut self.now (Command.NvmRead ns lba count) (answer_of result) self.now }
        ensures short { length result.bytes.items ≤ MAX_TRANSFER }
    {
        match blocks_to_range(&self.config, ns, lba, count, MAX_TRANSFER) {
            Ok(range) => self.read(&range),
            Err(status) => only(self.alloc, status),
        }
    }

    // Writes whole blocks.
    pub(crate) fn write_blocks(&mut self, ns: u32, lba: u64, bytes: &Bytes) -> Reply
        ensures done { IsDone self.old (Command.NvmWrite ns lba bytes.now) (answer_of result) self.new }
        ensures empty { length result.bytes.items ≡ 0 }
    {
        match write_to_range(&self.config, ns, lba, bytes.len(), MAX_TRANSFER) {
            Ok(range) => {
                self.patch(&range, bytes);
                only(self.alloc, Status::Ok)
            }
            Err(status) => only(self.alloc, status),
        }
    }

    // Fills blocks with zeros.
    pub(crate) fn zero_blocks(&mut self, ns: u32, lba: u64, count: u64) -> Reply
        ensures done { IsDone self.old (Command.NvmZeroes ns lba count) (answer_of result) self.new }
        ensures empty { length result.bytes.items ≡ 0 }
    {
        match blocks_to_range(&self.config, ns, lba, count, MAX_SPAN) {
            Ok(range) => {
                self.fill(&range, 0);
                only(self.alloc, Status::Ok)
            }
            Err(status) => only(self.alloc, status),
        }
    }
}
