// Reads, writes and fills of memory namespaces (Subsystem Local Memory Command Set 1.0, in outline).
ghost use Rattle.std.specs.Prelude.{◌≡◌, ◌≤◌, length};
ghost use Rattle.cp_base.specs.Answer.{answer_of};
ghost use Rattle.seq_device.specs.Standing.{IsCarriedOut, IsDone};

use crate::SeqDevice;
use crate::replies::only;
use cp_base::{Bytes, Command, MAX_SPAN, MAX_TRANSFER, Reply, Status};
use slm_bytes::bytes_to_range;

impl SeqDevice {
    // Reads bytes of a memory namespace.
    pub(crate) fn read_memory(&self, ns: u32, at: u64, len: u64) -> Reply
        ensures carried { IsCarriedOut self.now (Command.MemRead ns at len) (answer_of result) self.now }
        ensures short { length result.bytes.items ≤ MAX_TRANSFER }
    {
        match bytes_to_range(&self.config, ns, at, len, MAX_TRANSFER) {
            Ok(range) => self.read(&range),
            Err(status) => only(self.alloc, status),
        }
    }

    // Writes bytes of a memory namespace.
    pub(crate) fn write_memory(&mut self, ns: u32, at: u64, bytes: &Bytes) -> Reply
        ensures done { IsDone self.old (Command.MemWrite ns at bytes.now) (answer_of result) self.new }
        ensures empty { length result.bytes.items ≡ 0 }
    {
        match bytes_to_range(&self.config, ns, at, bytes.len(), MAX_TRANSFER) {
            Ok(range) => {
                self.patch(&range, bytes);
                only(self.alloc, Status::Ok)
            }
            Err(status) => only(self.alloc, status),
        }
    }

    // Fills bytes of a memory namespace with one value.
    pub(crate) fn fill_memory(&mut self, ns: u32, at: u64, len: u64, value: u8) -> Reply
        ensures done { IsDone self.old (Command.MemFill ns at len value) (answer_of result) self.new }
        ensures empty { length result.bytes.items ≡ 0 }
    {
        match bytes_to_range(&self.config, ns, at, len, MAX_SPAN) {
            Ok(range) => {
                self.fill(&range, value);
                only(self.alloc, Status::Ok)
            }
            Err(status) => only(self.alloc, status),
        }
    }
}
