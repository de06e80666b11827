// The word `step`: a script is carried out by its schedule and its history printed.
ghost use Rattle.std.specs.Prelude.{◌≡◌, ◌≢◌, ◌≤◌, length};
ghost use Rattle.cp_base.specs.declared.limits.TheConstants.{MAX_HOSTS};
ghost use Rattle.nvmecp.specs.Ends.{EndsAnswered, EndsBy};
ghost use Rattle.nvmecp.specs.Planned.{IsPlanned};
ghost use Rattle.nvmecp.specs.Step.{IsPrintOf, step_task};

use crate::ending::Ending;
use crate::planned::planned_script;
use crate::printing::print;
use crate::scheduled::finish;
use cp_base::{Bytes, NoMemory};
use cp_io::Sink;
use script_cmds::Script;
use script_plan::Plan;
use std::alloc::Global;

// Carries out a plan by its schedule and prints its history.
fn carry_out<K: Sink>(
    alloc: Global,
    script: &Script,
    plan: Plan,
    workers: u32,
    choices: u64,
    sink: &mut K,
) -> Ending
    requires workers { (1 ≤ workers) × (workers ≤ MAX_HOSTS) }
    requires planned { IsPlanned script.now plan }
    ensures ends { EndsAnswered (IsPrintOf script.now workers choices) K.held K.faults sink.old sink.new result }
    ensures answered { result ≢ Ending.Refused }
{
    // Called for its clause that a configuration keeps the limits.
    let _depth = script.config.depth();
    match finish(alloc, &script.config, plan, workers, choices) {
        Ok(finished) => match print(sink, finished, script.shows.as_slice()) {
            Ok(()) => Ending::Done,
            Err(_) => Ending::WriteFault,
        },
        Err(NoMemory) => Ending::NoMemory,
    }
}

/// Answers an input that is to be a script: its history by the schedule of so many workers that the choices select is
/// printed, or the first line that is wrong is told.
pub fn answer<K: Sink>(
    alloc: Global,
    input: &Bytes,
    workers: u32,
    choices: u64,
    sink: &mut K,
) -> Ending
    requires workers { (1 ≤ workers) × (workers ≤ MAX_HOSTS) }
    requires within { length input.now.items ≤ (step_task workers choices).limit }
    ensures ends { EndsBy ((step_task workers choices).Answers input.now.items)
        ((step_task workers choices).Refuses input.now.items) K.held K.faults sink.old sink.new result }
    ensures accepted { (step_task workers choices).Accepts input.now.items → result ≡ Ending.Refused → ⊥ }
    ensures rejected { (step_task workers choices).Rejects input.now.items → result ≡ Ending.Done → ⊥ }
{
    match planned_script(alloc, input, sink) {
        Ok((script, plan)) => carry_out(alloc, &script, plan, workers, choices, sink),
        Err(ending) => ending,
    }
}
