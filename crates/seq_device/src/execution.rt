// Executions (Computational Programs Command Set 1.0, in outline).
ghost use Rattle.std.specs.Prelude.{◌≡◌, ◌≤◌, None, Some, IfOk, OnOk, OnErr, MatchResult, length};
ghost use Rattle.cp_base.specs.Answer.{answer_of};
ghost use Rattle.cp_base.specs.Checks.{first_failing};
ghost use Rattle.cp_base.specs.Configuration.{IsWithinLimits};
ghost use Rattle.cp_base.specs.Sets.{ranges_under};
ghost use Rattle.device_model.specs.Checks.{execute_checks, runnable_checks};
ghost use Rattle.device_model.specs.Execution.{executed, told_of};
ghost use Rattle.seq_device.specs.Standing.{IsCarriedOut};

use crate::SeqDevice;
use crate::builtins::{device_program, run_builtin};
use crate::loaded::run_loaded;
use crate::replies::{only, told};
use bpf_exec::End;
use cp_base::{Command, NoMemory, Reply, Status};
use std::alloc::Global;

// What a host is told of the end of an execution with this budget.
fn ended(alloc: Global, budget: u64, end: End) -> Reply
    ensures { answer_of result ≡ told_of budget end }
{
    match end {
        End::Exit(value) => told(alloc, Status::Ok, value),
        End::BadAccess(place) => told(alloc, Status::BadAccess, u64::from(place)),
        End::BadJump(place) => told(alloc, Status::BadJump, u64::from(place)),
        End::CallDepth(place) => told(alloc, Status::CallDepth, u64::from(place)),
        End::BudgetSpent => told(alloc, Status::BudgetSpent, budget),
    }
}

impl SeqDevice {
    // Executes the program of a slot on the ranges of a set.
    pub(crate) fn execute(&mut self, slot: u32, set: u32, p1: u64, p2: u64, budget: u64) -> Reply
        ensures carried { IsCarriedOut self.old (Command.Execute slot set p1 p2 budget) (answer_of result) self.new }
        ensures empty { length result.bytes.items ≡ 0 }
    {
        if let Err(status) = self.check_execute(slot, set, budget) {
            return only(self.alloc, status);
        }
        match self.run(slot, set, p1, p2, budget) {
            Ok(end) => ended(self.alloc, budget, end),
            Err(NoMemory) => only(self.alloc, Status::NoMemory),
        }
    }

    // The checks of an execution.
    pub(crate) fn check_execute(&self, slot: u32, set: u32, budget: u64) -> Result<(), Status>
        ensures checked { MatchResult result
            (λ _. first_failing (execute_checks self.now.config self.now.state slot set budget) ≡ None)
            (λ status. first_failing (execute_checks self.now.config self.now.state slot set budget) ≡ Some status) }
        ensures limits { OnOk result (IsWithinLimits self.now.config) }
    {
        self.check_runnable(slot)?;
        if self.sets.get(set).is_none() {
            return Err(Status::NoSuchSet);
        }
        if budget == 0 || budget > self.config.budget() {
            return Err(Status::BudgetRange);
        }
        Ok(())
    }

    // The checks that the program of a slot can be executed: those of the device itself always can.
    fn check_runnable(&self, slot: u32) -> Result<(), Status>
        ensures checked { MatchResult result
            (λ _. first_failing (runnable_checks self.now.state slot) ≡ None)
            (λ status. first_failing (runnable_checks self.now.state slot) ≡ Some status) }
    {
        if device_program(slot).is_some() {
            return Ok(());
        }
        match self.slots.code(slot) {
            Ok(_) => Ok(()),
            Err(status) => Err(status),
        }
    }

    // Runs the program of a slot on the ranges of a set, where no check of the execution fails. Where there is
    // no memory for that, nothing changes.
    fn run(&mut self, slot: u32, set: u32, p1: u64, p2: u64, budget: u64) -> Result<End, NoMemory>
        requires passes { first_failing (execute_checks self.old.config self.old.state slot set budget) ≡ None }
        requires limits { IsWithinLimits self.old.config }
        ensures done { IfOk result (λ ending.
            executed self.old.state slot (ranges_under self.old.state.sets set) p1 p2 budget
            ≡ record { answer = told_of budget ending; next = self.new.state }) }
        ensures config { self.new.config ≡ self.old.config }
        ensures unchanged { OnErr result (self.new ≡ self.old) }
    {
        let alloc = self.alloc;
        let Some(ranges) = self.sets.get(set) else {
            unreachable!();
        };
        let ranges = ranges.as_slice();
        if let Some(program) = device_program(slot) {
            return run_builtin(alloc, &mut self.flat, ranges, program, p1, p2, budget);
        }
        let Ok(code) = self.slots.code(slot) else {
            unreachable!();
        };
        run_loaded(alloc, &mut self.flat, ranges, code, p1, p2, budget)
    }
}
