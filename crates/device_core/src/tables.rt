// Commands that change tables, done at once.
ghost use Rattle.std.specs.Prelude.{◌≡◌, IfErr, IsTrue, OnOk};
ghost use Rattle.cp_base.specs.Answer.{answer_of, only_status};
ghost use Rattle.device_model.specs.Execution.{tells};
ghost use Rattle.device_model.specs.Step.{outcome_of};
ghost use Rattle.program_slots.specs.Refusals.{told_by_refusal};
ghost use Rattle.core_model.specs.Parts.{tables_of};
ghost use Rattle.device_core.specs.AtOnce.{CarriesOut, changes_tables};

use cp_base::{Bytes, Command, Config, RangeList, Refusal, Reply, Status};
use program_slots::Slots;
use range_sets::Sets;
use std::alloc::Global;

/// A reply of a status and a number.
pub(crate) fn told(alloc: Global, status: Status, number: u64) -> Reply
    ensures { answer_of result ≡ tells status number }
{
    Reply {
        status,
        result: number,
        bytes: Bytes::new(alloc),
    }
}

/// A reply of a status alone.
pub(crate) fn only(alloc: Global, status: Status) -> Reply
    ensures { answer_of result ≡ only_status status }
{
    told(alloc, status, 0)
}

// The reply to a command that was done, or else was refused so.
fn done_or_refused(alloc: Global, answer: Result<(), Refusal>) -> Reply
    ensures done { OnOk answer (answer_of result ≡ only_status Status.Ok) }
    ensures refused { IfErr answer (λ refusal. answer_of result ≡ told_by_refusal refusal) }
{
    match answer {
        Ok(()) => only(alloc, Status::Ok),
        Err(refusal) => told(alloc, refusal.status, refusal.result),
    }
}

// Makes a set of memory ranges, whose number is the result.
fn create_set(
    alloc: Global,
    config: &Config,
    slots: &Slots,
    sets: &mut Sets,
    ranges: &RangeList,
) -> Reply
    ensures { outcome_of config.now (tables_of slots.now sets.old) (Command.SetCreate ranges.now)
        ≡ record { answer = answer_of result; next = tables_of slots.now sets.new } }
{
    match sets.create(config, ranges) {
        Ok(number) => told(alloc, Status::Ok, u64::from(number)),
        Err(status) => only(alloc, status),
    }
}

// Takes a set of memory ranges away.
fn delete_set(alloc: Global, config: &Config, slots: &Slots, sets: &mut Sets, set: u32) -> Reply
    ensures { outcome_of config.now (tables_of slots.now sets.old) (Command.SetDelete set)
        ≡ record { answer = answer_of result; next = tables_of slots.now sets.new } }
{
    match sets.delete(set) {
        Ok(()) => only(alloc, Status::Ok),
        Err(status) => only(alloc, status),
    }
}

/// Carries out or refuses a command that changes tables. Where it needs memory that is not there, the reply is
/// `NoMemory` and nothing is changed.
pub(crate) fn change_tables(
    alloc: Global,
    config: &Config,
    slots: &mut Slots,
    sets: &mut Sets,
    command: &Command,
) -> Reply
    requires { IsTrue (changes_tables command.now) }
    ensures { CarriesOut config.now (tables_of slots.old sets.old) command.now (answer_of result)
        (tables_of slots.new sets.new) }
{
    let answer = match command {
        Command::SetCreate { ranges } => {
            return create_set(alloc, config, slots, sets, ranges.as_list());
        }
        Command::SetDelete { set } => return delete_set(alloc, config, slots, sets, *set),
        Command::Load {
            slot,
            size,
            at,
            bytes,
        } => slots.load(*slot, *size, *at, bytes),
        Command::Unload { slot } => slots.unload(*slot),
        Command::Activate { slot } => slots.activate(*slot),
        Command::Deactivate { slot } => slots.deactivate(*slot),
        _ => unreachable!(),
    };
    done_or_refused(alloc, answer)
}
