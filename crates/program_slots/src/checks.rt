// The checks of commands on one slot.
ghost use Rattle.std.specs.Prelude.{◌≡◌, ◌+◌, ◌<◌, ◌≤◌, None, Some, false, is_some, MatchResult};
ghost use Rattle.std.specs.List.{list_any};
ghost use Rattle.cp_base.specs.Checks.{first_failing};
ghost use Rattle.cp_base.specs.Pieces.{piece};
ghost use Rattle.device_model.specs.Checks.{activate_checks, deactivate_checks, is_active, is_complete, load_checks, slot_bytes, unload_checks};
ghost use Rattle.program_slots.specs.Program.{is_of_another_size, slot_of};

use crate::program::Program;
use cp_base::{MAX_PROGRAM, MAX_TRANSFER, Status, UNIT};

// Whether a slot holds an active program.
fn is_active(held: &Option<Program>) -> bool
    ensures { result ≡ is_active (Some (slot_of held.now)) }
{
    match held {
        Some(program) => program.is_active(),
        None => false,
    }
}

// Whether a slot holds a program of which no byte is missing.
fn is_complete(held: &Option<Program>) -> bool
    ensures { result ≡ is_complete (Some (slot_of held.now)) }
{
    match held {
        Some(program) => program.is_complete(),
        None => false,
    }
}

// Whether a slot holds a program of another size.
fn differs(held: &Option<Program>, size: u64) -> bool
    ensures { result ≡ is_of_another_size (slot_of held.now) size }
{
    match held {
        Some(program) => program.size() != size,
        None => false,
    }
}

// Whether one of the `len` bytes from place `at` on is there, of a program of a size, if the slot holds one.
fn meets(held: &Option<Program>, size: u64, at: u64, len: u64) -> bool
    requires some { 0 < len }
    requires inside { at + len ≤ size }
    requires size { is_of_another_size (slot_of held.now) size ≡ false }
    ensures { result ≡ list_any (λ byte. is_some byte) (piece (slot_bytes (Some (slot_of held.now))) at len) }
{
    match held {
        Some(program) => program.meets(at, len),
        None => false,
    }
}

/// The checks of a piece of `len` bytes at place `at` of a program of a size.
pub(crate) fn check_load(held: &Option<Program>, size: u64, at: u64, len: u64) -> Result<(), Status>
    ensures { MatchResult result
        (λ _. first_failing (load_checks (Some (slot_of held.now)) size at len) ≡ None)
        (λ status. first_failing (load_checks (Some (slot_of held.now)) size at len) ≡ Some status) }
{
    if is_active(held) {
        return Err(Status::SlotActive);
    }
    if size < UNIT || size % UNIT != 0 || len == 0 {
        return Err(Status::BadLength);
    }
    if size > MAX_PROGRAM || len > MAX_TRANSFER {
        return Err(Status::TooLong);
    }
    if at > size || len > size - at {
        return Err(Status::OutOfRange);
    }
    if is_complete(held) {
        return Err(Status::SlotComplete);
    }
    if differs(held, size) {
        return Err(Status::SizeDiffers);
    }
    if meets(held, size, at, len) {
        return Err(Status::PieceOverlap);
    }
    Ok(())
}

/// The checks of making a slot empty.
pub(crate) fn check_unload(held: &Option<Program>) -> Result<(), Status>
    ensures { MatchResult result
        (λ _. first_failing (unload_checks (Some (slot_of held.now))) ≡ None)
        (λ status. first_failing (unload_checks (Some (slot_of held.now))) ≡ Some status) }
{
    if held.is_none() {
        return Err(Status::SlotEmpty);
    }
    if is_active(held) {
        return Err(Status::SlotActive);
    }
    Ok(())
}

/// The checks of making a program active, but for that of the program itself.
pub(crate) fn check_activate(held: &Option<Program>) -> Result<(), Status>
    ensures { MatchResult result
        (λ _. first_failing (activate_checks (Some (slot_of held.now))) ≡ None)
        (λ status. first_failing (activate_checks (Some (slot_of held.now))) ≡ Some status) }
{
    check_unload(held)?;
    if !is_complete(held) {
        return Err(Status::SlotPartial);
    }
    Ok(())
}

/// The checks of making a program inactive.
pub(crate) fn check_deactivate(held: &Option<Program>) -> Result<(), Status>
    ensures { MatchResult result
        (λ _. first_failing (deactivate_checks (Some (slot_of held.now))) ≡ None)
        (λ status. first_failing (deactivate_checks (Some (slot_of held.now))) ≡ Some status) }
{
    if held.is_none() {
        return Err(Status::SlotEmpty);
    }
    if !is_active(held) {
        return Err(Status::SlotInactive);
    }
    Ok(())
}
