// The sequential device.
ghost use Rattle.std.specs.Prelude.{◌≡◌, ◌≢◌, ◌⊎◌, ◌+◌, ◌≤◌, replicate, IsTrue, length, slice_get, unwrap_or, IfOk};
ghost use Rattle.cp_base.specs.Configuration.{size_of};
ghost use Rattle.cp_base.specs.Answer.{answer_of, only_status};
ghost use Rattle.cp_base.specs.Contents.{bytes_in, bytes_of};
ghost use Rattle.device_model.specs.State.{opening};
ghost use Rattle.device_model.specs.Step.{DeviceStep};
ghost use Rattle.seq_device.specs.Standing.{IsCarriedOut, IsDone, was_read, with_put, works_in_place};

use crate::replies::{only, read, told};
use cp_base::{ByteRange, Bytes, Command, Config, MAX_TRANSFER, NoMemory, Reply, SpaceId, Status};
use program_slots::Slots;
use range_sets::Sets;
use slm_bytes::Flat;
use std::alloc::Global;
use std::marker::Model;

/// A device that carries out one command after the other. Contracts see its configuration and its
/// state, and nothing of how it is kept.
#[derive(Debug, Drop)]
pub struct SeqDevice {
    pub(crate) alloc: Global,
    pub(crate) config: Config,
    pub(crate) flat: Flat,
    pub(crate) slots: Slots,
    pub(crate) sets: Sets,
}

impl Model for SeqDevice {
    ghost use Rattle.range_sets.specs.Fit.{AllFit};
    ghost use Rattle.seq_device.specs.Standing.{Standing, HasSizes};

    ghost Value = { Standing };

    ghost view = { λ d. record { config = d.config; state = record { contents = d.flat; slots = d.slots; sets = d.sets } } };

    ghost invariant = { λ d. HasSizes d.config d.flat × AllFit d.config d.sets };
}

impl SeqDevice {
    /// A device in the opening state.
    pub fn new(alloc: Global, config: &Config) -> Result<SeqDevice, NoMemory>
        ensures { IfOk result (λ device. device ≡ record { config = config.now; state = opening config.now }) }
    {
        let flat = Flat::new(alloc, config)?;
        let slots = Slots::new(alloc)?;
        let sets = Sets::new(alloc)?;
        Ok(SeqDevice {
            alloc,
            config: *config,
            flat,
            slots,
            sets,
        })
    }

    #[tactic(auto, using(crate::proofs::Withdrawn::outcome_other))]
    /// Carries out a command. Where it needs memory that is not there, the reply is `NoMemory` and
    /// nothing is changed.
    pub fn step(&mut self, command: &Command) -> Reply
        ensures step { DeviceStep self.old.config self.old.state command.now (answer_of result) self.new.state }
        ensures carried { IsCarriedOut self.old command.now (answer_of result) self.new }
        ensures in_place { IsTrue (works_in_place command.now)
            → IsDone self.old command.now (answer_of result) self.new }
        ensures not_withdrawn { result.status ≢ Status.Aborted }
        ensures config { self.new.config ≡ self.old.config }
        ensures short { length result.bytes.items ≤ MAX_TRANSFER }
    {
        match command {
            Command::NvmRead { ns, lba, count } => self.read_blocks(*ns, *lba, *count),
            Command::NvmWrite { ns, lba, bytes } => self.write_blocks(*ns, *lba, bytes),
            Command::NvmZeroes { ns, lba, count } => self.zero_blocks(*ns, *lba, *count),
            Command::NvmCopy { .. } | Command::MemCopy { .. } => self.copy(command),
            Command::MemRead { ns, at, len } => self.read_memory(*ns, *at, *len),
            Command::MemWrite { ns, at, bytes } => self.write_memory(*ns, *at, bytes),
            Command::MemFill { ns, at, len, value } => self.fill_memory(*ns, *at, *len, *value),
            Command::SetCreate { ranges } => self.create_set(ranges.as_list()),
            Command::SetDelete { set } => self.delete_set(*set),
            Command::Load {
                slot,
                size,
                at,
                bytes,
            } => self.load_piece(*slot, *size, *at, bytes),
            Command::Unload { slot } => self.unload(*slot),
            Command::Activate { slot } => self.activate(*slot),
            Command::Deactivate { slot } => self.deactivate(*slot),
            Command::Execute {
                slot,
                set,
                p1,
                p2,
                budget,
            } => self.execute(*slot, *set, *p1, *p2, *budget),
            Command::Abort { .. } => told(self.alloc, Status::Ok, 1),
        }
    }

    // Puts bytes over those of a range, which the namespace has by the configuration.
    pub(crate) fn patch(&mut self, range: &ByteRange, bytes: &Bytes)
        requires inside { range.now.start + range.now.len ≤ unwrap_or (size_of self.old.config range.now.space) 0 }
        requires length { length bytes.now.items ≡ range.now.len }
        ensures { self.new ≡ with_put self.old range.now.space range.now.start bytes.now.items }
    {
        self.flat.patch(range, bytes);
    }

    // Puts the same byte over those of a range, which the namespace has by the configuration.
    pub(crate) fn fill(&mut self, range: &ByteRange, value: u8)
        requires { range.now.start + range.now.len ≤ unwrap_or (size_of self.old.config range.now.space) 0 }
        ensures { self.new ≡ with_put self.old range.now.space range.now.start (replicate range.now.len value) }
    {
        self.flat.fill(range, value);
    }

    // The bytes of a range, which the namespace has by the configuration, or that there is no memory for them.
    pub(crate) fn read(&self, range: &ByteRange) -> Reply
        requires { range.now.start + range.now.len ≤ unwrap_or (size_of self.now.config range.now.space) 0 }
        ensures { (answer_of result ≡ was_read self.now.state.contents range.now)
            ⊎ (answer_of result ≡ only_status Status.NoMemory) }
    {
        match self.flat.piece(range) {
            Ok(bytes) => read(bytes),
            Err(NoMemory) => only(self.alloc, Status::NoMemory),
        }
    }

    /// The byte at a place of a namespace. `None` where the place is outside.
    pub fn byte(&self, space: SpaceId, at: u64) -> Option<u8>
        ensures { result ≡ slice_get (bytes_of self.now.state.contents space) at }
    {
        self.flat.byte(space, at)
    }

    /// The bytes of a range, which the namespace has by the configuration.
    pub fn slice(&self, range: &ByteRange) -> &[u8]
        requires { range.now.start + range.now.len ≤ unwrap_or (size_of self.now.config range.now.space) 0 }
        ensures { result.now ≡ bytes_in self.now.state.contents range.now }
    {
        let flat = &self.flat;
        flat.slice(range)
    }
}
