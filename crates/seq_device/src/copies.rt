// Copies between namespaces of either kind (NVM and Subsystem Local Memory Command Sets, in outline).
ghost use Rattle.std.specs.Prelude.{◌≡◌, ◌+◌, ◌≤◌, length, unwrap_or, All, IfOk, IsSome};
ghost use Rattle.cp_base.specs.Answer.{answer_of};
ghost use Rattle.cp_base.specs.Configuration.{size_of};
ghost use Rattle.cp_base.specs.Contents.{joined};
ghost use Rattle.copy_ranges.specs.Copies.{copy_of};
ghost use Rattle.seq_device.specs.Standing.{IsCarriedOut};

use crate::SeqDevice;
use crate::replies::only;
use copy_ranges::check_copy;
use cp_base::{ByteRange, Bytes, Command, NoMemory, Reply, Status};

impl SeqDevice {
    #[tactic(auto, using(crate::proofs::Gathered::copy_inside))]
    // Copies the sources of a copy, all of them read before a byte is put.
    pub(crate) fn copy(&mut self, command: &Command) -> Reply
        requires { IsSome (copy_of self.old.config command.now) }
        ensures carried { IsCarriedOut self.old command.now (answer_of result) self.new }
        ensures empty { length result.bytes.items ≡ 0 }
    {
        let plan = match check_copy(self.alloc, &self.config, command) {
            Ok(plan) => plan,
            Err(status) => return only(self.alloc, status),
        };
        match self.gather(plan.sources.as_slice()) {
            Ok(bytes) => {
                self.patch(&plan.to, &bytes);
                only(self.alloc, Status::Ok)
            }
            Err(NoMemory) => only(self.alloc, Status::NoMemory),
        }
    }

    #[tactic(auto, using(crate::proofs::Gathered::joined_snoc))]
    // The bytes of ranges, one after the other, in one buffer.
    fn gather(&self, ranges: &[ByteRange]) -> Result<Bytes, NoMemory>
        requires { All (λ range. range.start + range.len ≤ unwrap_or (size_of self.now.config range.space) 0) ranges.now }
        ensures { IfOk result (λ bytes. bytes.items ≡ joined self.now.state.contents ranges.now) }
    {
        let mut bytes = Bytes::new(self.alloc);
        bytes.reserve(total_len(ranges))?;
        for range in ranges {
            bytes.reserve(range.len())?;
            bytes.append(self.slice(range));
        }
        Ok(bytes)
    }
}

// How many bytes at most 16 ranges have together; more are counted as far as 64 bits go.
fn total_len(ranges: &[ByteRange]) -> u64 {
    let mut total = 0u64;
    for range in ranges {
        total = total.saturating_add(range.len());
    }
    total
}
