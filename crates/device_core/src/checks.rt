// The checks of commands that move bytes.
ghost use Rattle.std.specs.Prelude.{◌≡◌, None, Some, is_some, IsTrue, MatchResult};
ghost use Rattle.cp_base.specs.Checks.{first_failing};
ghost use Rattle.device_model.specs.Builtin.{builtin_at};
ghost use Rattle.device_model.specs.Checks.{checks_of, execute_checks, runnable_checks};
ghost use Rattle.device_model.specs.Memory.{moves_bytes};
ghost use Rattle.core_model.specs.Parts.{tables_of};

use cp_base::{Command, Config, SLOTS, Status};
use footprints::check_touched;
use program_slots::Slots;
use range_sets::Sets;
use std::alloc::Global;

/// Whether the device has a program of its own in a slot: in the four behind those that hosts load.
pub(crate) fn is_builtin(slot: u32) -> bool
    ensures { result ≡ is_some (builtin_at slot) }
{
    match slot.checked_sub(SLOTS) {
        Some(0) | Some(1) | Some(2) | Some(3) => true,
        _ => false,
    }
}

// The checks that the program of a slot can be executed: those of the device itself always can.
fn check_runnable(slots: &Slots, sets: &Sets, slot: u32) -> Result<(), Status>
    ensures { MatchResult result
        (λ _. first_failing (runnable_checks (tables_of slots.now sets.now) slot) ≡ None)
        (λ status. first_failing (runnable_checks (tables_of slots.now sets.now) slot) ≡ Some status) }
{
    if is_builtin(slot) {
        return Ok(());
    }
    match slots.code(slot) {
        Ok(_) => Ok(()),
        Err(status) => Err(status),
    }
}

// The checks of an execution.
fn check_execute(
    config: &Config,
    slots: &Slots,
    sets: &Sets,
    slot: u32,
    set: u32,
    budget: u64,
) -> Result<(), Status>
    ensures { MatchResult result
        (λ _. first_failing (execute_checks config.now (tables_of slots.now sets.now) slot set budget) ≡ None)
        (λ status. first_failing (execute_checks config.now (tables_of slots.now sets.now) slot set budget) ≡ Some status) }
{
    check_runnable(slots, sets, slot)?;
    if sets.get(set).is_none() {
        return Err(Status::NoSuchSet);
    }
    if budget == 0 || budget > config.budget() {
        return Err(Status::BudgetRange);
    }
    Ok(())
}

/// The checks of a command that moves bytes.
pub(crate) fn check_moving(
    alloc: Global,
    config: &Config,
    slots: &Slots,
    sets: &Sets,
    command: &Command,
) -> Result<(), Status>
    requires { IsTrue (moves_bytes command.now) }
    ensures { MatchResult result
        (λ _. first_failing (checks_of config.now (tables_of slots.now sets.now) command.now) ≡ None)
        (λ status. first_failing (checks_of config.now (tables_of slots.now sets.now) command.now) ≡ Some status) }
{
    if let Command::Execute {
        slot,
        set,
        budget,
        ..
    } = command
    {
        return check_execute(config, slots, sets, *slot, *set, *budget);
    }
    check_touched(alloc, config, command)?;
    Ok(())
}
