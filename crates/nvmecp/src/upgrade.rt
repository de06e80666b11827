// The word `upgrade`: a script is written as version 2.
ghost use Rattle.std.specs.Prelude.{◌≡◌, ◌≢◌, ◌≤◌, None, length};
ghost use Rattle.history_model.specs.Plan.{plan_of};
ghost use Rattle.script_cmds.specs.Fault.{first_fault};
ghost use Rattle.script_cmds.specs.Kept.{KeepsOrderAndLimits};
ghost use Rattle.script_cmds.specs.Queues.{AreExact};
ghost use Rattle.script_upgrade.specs.Upgraded.{upgraded};
ghost use Rattle.nvmecp.specs.Ends.{EndsAnswered, EndsBy};
ghost use Rattle.nvmecp.specs.Step.{IsTextOf};
ghost use Rattle.nvmecp.specs.Upgrade.{upgrade_task};

use crate::ending::Ending;
use crate::printing::answer_lines;
use crate::refusing::{breach_name, cause_name, refuse_line};
use cp_base::{Bytes, NoMemory};
use cp_io::Sink;
use script_cmds::{ParseEnd, Script, parse, print};
use script_plan::{PlanEnd, plan};
use script_upgrade::upgrade;
use std::alloc::Global;

// Writes a script as version 2.
fn write_upgraded<K: Sink>(alloc: Global, script: Script, sink: &mut K) -> Ending
    requires queues { AreExact script.form script.config.depth }
    requires kept { KeepsOrderAndLimits script }
    ensures ends { EndsAnswered (λ text. IsTextOf (upgraded script) text × (first_fault text ≡ None)) K.held K.faults sink.old sink.new result }
    ensures answered { result ≢ Ending.Refused }
    ensures plan { plan_of (upgraded script) ≡ plan_of script }
{
    let upgraded = upgrade(script);
    match print(alloc, &upgraded) {
        Ok(text) => answer_lines(sink, text.as_slice()),
        Err(NoMemory) => Ending::NoMemory,
    }
}

/// Answers an input that is to be a script: it is written as version 2, or the first line that is wrong is told.
pub fn answer<K: Sink>(alloc: Global, input: &Bytes, sink: &mut K) -> Ending
    requires within { length input.now.items ≤ upgrade_task.limit }
    ensures ends { EndsBy (upgrade_task.Answers input.now.items)
        (upgrade_task.Refuses input.now.items) K.held K.faults sink.old sink.new result }
    ensures accepted { upgrade_task.Accepts input.now.items → result ≡ Ending.Refused → ⊥ }
    ensures rejected { upgrade_task.Rejects input.now.items → result ≡ Ending.Done → ⊥ }
{
    let script = match parse(alloc, input) {
        Ok(script) => script,
        Err(ParseEnd::Fault(fault)) => {
            return refuse_line(alloc, sink, fault.line, cause_name(fault.cause));
        }
        Err(ParseEnd::NoMemory) => return Ending::NoMemory,
    };
    match plan(alloc, &script) {
        Ok(_) => write_upgraded(alloc, script, sink),
        Err(PlanEnd::Fault(fault)) => {
            refuse_line(alloc, sink, fault.line, breach_name(fault.cause))
        }
        Err(PlanEnd::NoMemory) => Ending::NoMemory,
    }
}
