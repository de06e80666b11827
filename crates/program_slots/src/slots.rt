// All slots.
ghost use Rattle.std.specs.Prelude.{◌≡◌, ◌⊎◌, None, Some, true, false, ℕ, length, map, replicate, slice_get, slice_set, option_map, option_copied, IfErr, IfOk, OnOk, OnErr, MatchResult};
ghost use Rattle.std.specs.Arc.{arc_value};
ghost use Rattle.cp_base.specs.Checks.{first_failing};
ghost use Rattle.cp_base.specs.Pieces.{patched};
ghost use Rattle.device_model.specs.Checks.{activate_checks, code_of, deactivate_checks, load_checks, program_refusal, slot_bytes, unload_checks};
ghost use Rattle.device_model.specs.Effect.{begun};
ghost use Rattle.device_model.specs.State.{Empty, Holding};
ghost use Rattle.program_slots.specs.Program.{IsDecodedFrom, slot_of};
ghost use Rattle.program_slots.specs.Refusals.{IsOfChecks, IsOfProgram, IsWantOfMemory};

use crate::changes::{activate_in, deactivate_in, load_into, refused};
use crate::checks::{check_activate, check_deactivate, check_load, check_unload};
use crate::program::Program;
use bpf_decode::Decoded;
use cp_base::{Bytes, NoMemory, Refusal, SLOTS, Status};
use std::alloc::Global;
use std::marker::Model;
use std::sync::Arc;

/// The slots into which hosts load programs, numbered from 0 to 63. Contracts see the slots of the
/// device's state: for each the bytes of its program, of which some may be missing, and whether it is
/// active.
#[derive(Debug, Drop)]
pub struct Slots {
    alloc: Global,
    programs: Vec<Option<Program>>,
}

impl Model for Slots {
    ghost use Rattle.std.specs.Prelude.{◌≡◌, List, length, map};
    ghost use Rattle.cp_base.specs.declared.limits.TheConstants.{SLOTS};
    ghost use Rattle.device_model.specs.State.{Slot};
    ghost use Rattle.program_slots.specs.Program.{slot_of};

    ghost Value = { List Slot };

    ghost view = { λ s. map slot_of s.programs.items };

    ghost invariant = { λ s. length s.programs.items ≡ SLOTS };
}

// The slot of a number.
fn slot_at(programs: &[Option<Program>], slot: u32) -> Option<&Option<Program>>
    ensures { option_map slot_of (option_copied result) ≡ slice_get (map slot_of programs.now) slot }
{
    programs.get(slot as usize)
}

impl Slots {
    /// 64 empty slots.
    pub fn new(alloc: Global) -> Result<Slots, NoMemory>
        ensures { IfOk result (λ slots. slots ≡ replicate SLOTS Empty) }
    {
        let mut programs = Vec::with_capacity(alloc, SLOTS as usize)?;
        for _ in 0..SLOTS {
            programs.push(None)?;
        }
        Ok(Slots { alloc, programs })
    }

    /// The checks of loading a piece of `len` bytes at place `at` of a program of `size` bytes.
    ///
    /// # Errors
    ///
    /// The first of these that holds: `NoSuchSlot` where the number is above 63; `SlotActive`; `BadLength` where
    /// the size is below 8 or no multiple of 8, or the piece has no bytes; `TooLong` where the size is above 65,536
    /// or the piece above 8,192 bytes; `OutOfRange` where a byte lies behind the program; `SlotComplete` where no
    /// byte is missing; `SizeDiffers` where the slot holds a program of another size; `PieceOverlap` where a byte of
    /// the piece is loaded. The result is 0.
    pub fn check_load(&self, slot: u32, size: u64, at: u64, len: u64) -> Result<(), Refusal>
        ensures passed { OnOk result (first_failing (load_checks (slice_get self.now slot) size at len) ≡ None) }
        ensures refused { IfErr result (IsOfChecks (load_checks (slice_get self.now slot) size at len)) }
    {
        let Some(held) = slot_at(&self.programs, slot) else {
            return Err(refused(Status::NoSuchSlot));
        };
        match check_load(held, size, at, len) {
            Ok(()) => Ok(()),
            Err(status) => Err(refused(status)),
        }
    }

    /// The checks of making a program active, but for that of the program itself.
    ///
    /// # Errors
    ///
    /// The first of these that holds: `NoSuchSlot` where the number is above 63; `SlotEmpty`; `SlotActive`;
    /// `SlotPartial` where a byte is missing. The result is 0.
    pub fn check_activate(&self, slot: u32) -> Result<(), Refusal>
        ensures passed { OnOk result (first_failing (activate_checks (slice_get self.now slot)) ≡ None) }
        ensures refused { IfErr result (IsOfChecks (activate_checks (slice_get self.now slot))) }
    {
        let Some(held) = slot_at(&self.programs, slot) else {
            return Err(refused(Status::NoSuchSlot));
        };
        match check_activate(held) {
            Ok(()) => Ok(()),
            Err(status) => Err(refused(status)),
        }
    }

    /// Loads a piece of a program of `size` bytes into a slot, from its byte `at` on. An empty slot is one of
    /// this size from then on.
    ///
    /// # Errors
    ///
    /// As for `check_load`; and `NoMemory`, which comes only where no check fails. Then nothing changes.
    pub fn load(&mut self, slot: u32, size: u64, at: u64, bytes: &Bytes) -> Result<(), Refusal>
        ensures passed { OnOk result
            (first_failing (load_checks (slice_get self.old slot) size at (length bytes.now.items)) ≡ None) }
        ensures refused { IfErr result (λ refusal.
            IsOfChecks (load_checks (slice_get self.old slot) size at (length bytes.now.items)) refusal
            ⊎ IsWantOfMemory (load_checks (slice_get self.old slot) size at (length bytes.now.items)) refusal) }
        ensures loaded { OnOk result (self.new ≡ slice_set self.old slot
            (Holding
            (patched (begun (slice_get self.old slot) size) at (map (λ byte. Some byte) bytes.now.items))
            false)) }
        ensures unchanged { OnErr result (self.new ≡ self.old) }
    {
        self.check_load(slot, size, at, bytes.len())?;
        let alloc = self.alloc;
        let Ok(()) = load_into(alloc, &mut self.programs[slot as usize], size, at, bytes) else {
            return Err(refused(Status::NoMemory));
        };
        Ok(())
    }

    /// Makes a slot empty, whether or not a byte of its program is missing.
    ///
    /// # Errors
    ///
    /// The first of these that holds: `NoSuchSlot` where the number is above 63; `SlotEmpty`; `SlotActive`. The
    /// result is 0. Then nothing changes.
    pub fn unload(&mut self, slot: u32) -> Result<(), Refusal>
        ensures passed { OnOk result (first_failing (unload_checks (slice_get self.old slot)) ≡ None) }
        ensures refused { IfErr result (IsOfChecks (unload_checks (slice_get self.old slot))) }
        ensures unloaded { OnOk result (self.new ≡ slice_set self.old slot Empty) }
        ensures unchanged { OnErr result (self.new ≡ self.old) }
    {
        let Some(held) = slot_at(&self.programs, slot) else {
            return Err(refused(Status::NoSuchSlot));
        };
        if let Err(status) = check_unload(held) {
            return Err(refused(status));
        }
        self.programs[slot as usize] = None;
        Ok(())
    }

    /// Decodes a complete program and makes it active.
    ///
    /// # Errors
    ///
    /// As for `check_activate`; then `BadProgram`, with the first place that has no instruction as its result; and
    /// `NoMemory`, which comes only where no check before `BadProgram` fails. Then nothing changes.
    pub fn activate(&mut self, slot: u32) -> Result<(), Refusal>
        ensures passed { OnOk result (first_failing (activate_checks (slice_get self.old slot)) ≡ None) }
        ensures well_formed { OnOk result (program_refusal (slice_get self.old slot) ≡ None) }
        ensures refused { IfErr result (λ refusal.
            IsOfChecks (activate_checks (slice_get self.old slot)) refusal
            ⊎ (IsOfProgram (slice_get self.old slot) refusal
            ⊎ IsWantOfMemory (activate_checks (slice_get self.old slot)) refusal)) }
        ensures activated { OnOk result
            (self.new ≡ slice_set self.old slot (Holding (slot_bytes (slice_get self.old slot)) true)) }
        ensures unchanged { OnErr result (self.new ≡ self.old) }
    {
        self.check_activate(slot)?;
        let alloc = self.alloc;
        if let Err(refusal) = activate_in(alloc, &mut self.programs[slot as usize]) {
            return Err(refusal);
        }
        Ok(())
    }

    /// Makes a program inactive. Its bytes stay.
    ///
    /// # Errors
    ///
    /// The first of these that holds: `NoSuchSlot` where the number is above 63; `SlotEmpty`; `SlotInactive`. The
    /// result is 0. Then nothing changes.
    pub fn deactivate(&mut self, slot: u32) -> Result<(), Refusal>
        ensures passed { OnOk result (first_failing (deactivate_checks (slice_get self.old slot)) ≡ None) }
        ensures refused { IfErr result (IsOfChecks (deactivate_checks (slice_get self.old slot))) }
        ensures deactivated { OnOk result
            (self.new ≡ slice_set self.old slot (Holding (slot_bytes (slice_get self.old slot)) false)) }
        ensures unchanged { OnErr result (self.new ≡ self.old) }
    {
        let Some(held) = slot_at(&self.programs, slot) else {
            return Err(refused(Status::NoSuchSlot));
        };
        if let Err(status) = check_deactivate(held) {
            return Err(refused(status));
        }
        deactivate_in(&mut self.programs[slot as usize]);
        Ok(())
    }

    /// What the active program of a slot was decoded to: the instruction of each place of its code where one
    /// starts.
    ///
    /// # Errors
    ///
    /// The first of these that holds: `NoSuchSlot` where the number is above 63; `SlotEmpty`; `SlotInactive`.
    pub fn code(&self, slot: u32) -> Result<&Arc<Decoded>, Status>
        ensures checked { MatchResult result
            (λ _. first_failing (deactivate_checks (slice_get self.now slot)) ≡ None)
            (λ status. first_failing (deactivate_checks (slice_get self.now slot)) ≡ Some status) }
        ensures decoded { IfOk result (λ code. IsDecodedFrom (arc_value code.now) (code_of (slice_get self.now slot))) }
    {
        let Some(held) = slot_at(&self.programs, slot) else {
            return Err(Status::NoSuchSlot);
        };
        let Some(program) = held else {
            return Err(Status::SlotEmpty);
        };
        match program.code() {
            Some(code) => Ok(code),
            None => Err(Status::SlotInactive),
        }
    }
}
