// An input that is to be a script with a plan.
ghost use Rattle.std.specs.Prelude.{◌≡◌, ◌≤◌, Err, IfErr, IfOk, None, length};
ghost use Rattle.script_cmds.specs.Fault.{first_fault};
ghost use Rattle.nvmecp.specs.Ends.{EndsBy};
ghost use Rattle.nvmecp.specs.Planned.{IsPlanned};
ghost use Rattle.nvmecp.specs.Step.{HasNoPlan, HasPlan, IsTextOf, TellsScript};
ghost use Rattle.nvmecp.specs.Task.{max_input};

use crate::ending::Ending;
use crate::refusing::{breach_name, cause_name, refuse_line};
use cp_base::Bytes;
use cp_io::Sink;
use script_cmds::{ParseEnd, Script, parse};
use script_plan::{Plan, PlanEnd, plan};
use std::alloc::Global;

/// Reads an input that is to be a script, and plans it. Where a line is wrong, the first one is told.
///
/// # Errors
///
/// How the answer to the input ended: the line was told or the sink failed, or memory is wanting.
pub fn planned_script<K: Sink>(
    alloc: Global,
    input: &Bytes,
    sink: &mut K,
) -> Result<(Script, Plan), Ending>
    requires within { length input.now.items ≤ max_input }
    ensures unwritten { IfOk result (λ read. sink.new ≡ sink.old) }
    ensures faultless { IfOk result (λ read. first_fault input.now.items ≡ None) }
    ensures text { IfOk result (λ read. IsTextOf read.0 input.now.items) }
    ensures planned { IfOk result (λ read. IsPlanned read.0 read.1) }
    ensures ends { IfErr result
        (λ end. EndsBy (λ answer. ⊥) (TellsScript input.now.items) K.held K.faults sink.old sink.new end) }
    ensures accepted { HasPlan input.now.items → result ≡ Err Ending.Refused → ⊥ }
    ensures rejected { HasNoPlan input.now.items → IfOk result (λ read. ⊥) }
    ensures answered { IfErr result (λ end. end ≡ Ending.Done → ⊥) }
{
    let script = match parse(alloc, input) {
        Ok(script) => script,
        Err(ParseEnd::Fault(fault)) => {
            return Err(refuse_line(alloc, sink, fault.line, cause_name(fault.cause)));
        }
        Err(ParseEnd::NoMemory) => return Err(Ending::NoMemory),
    };
    match plan(alloc, &script) {
        Ok(plan) => Ok((script, plan)),
        Err(PlanEnd::Fault(fault)) => {
            Err(refuse_line(alloc, sink, fault.line, breach_name(fault.cause)))
        }
        Err(PlanEnd::NoMemory) => Err(Ending::NoMemory),
    }
}
