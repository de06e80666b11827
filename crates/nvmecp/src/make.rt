// The word `make`: a load is made and carried out, and its history summed up.
ghost use Rattle.std.specs.Prelude.{◌≡◌, ◌≢◌, ◌≤◌, ◌⊎◌, All, IfOk, Ok, length};
ghost use Rattle.cp_base.specs.declared.limits.TheConstants.{MAX_COMMANDS};
ghost use Rattle.cp_line.specs.declared.limits.TheConstants.{MAX_MADE};
ghost use Rattle.script_line.specs.Sized.{AreSized};
ghost use Rattle.script_cmds.specs.Kept.{KeepsOrderAndLimits};
ghost use Rattle.script_cmds.specs.Text.{lines_of};
ghost use Rattle.history_model.specs.Plain.{plain_phase, plain_phases};
ghost use Rattle.history_model.specs.Plan.{plan_of};
ghost use Rattle.history_model.specs.Rules.{KeepsRules};
ghost use Rattle.history_model.specs.Sent.{sends_of};
ghost use Rattle.script_plan.specs.Meant.{meant};
ghost use Rattle.load_maker.specs.Load.{load_text};
ghost use Rattle.nvmecp.specs.Ends.{EndsAnswered};
ghost use Rattle.nvmecp.specs.Make.{IsSummary, SumsUp};
ghost use Rattle.nvmecp.specs.Step.{IsTextOf};

use crate::ending::Ending;
use crate::printing::answer_lines;
use crate::scheduled::finish;
use crate::summing::summary_of;
use crate::words::Load;
use cp_base::{Bytes, NoMemory};
use cp_io::Sink;
use load_maker::make;
use replay_print::push_summary;
use script_cmds::{ParseEnd, Script, parse};
use script_plan::{Plan, PlanEnd, plan};
use std::alloc::Global;

// So many workers carry out a load.
const WORKERS: u32 = 4;

// The script of a load.
fn script_of(alloc: Global, load: Load) -> Result<Script, NoMemory>
    requires { load.commands ≤ MAX_MADE }
    ensures made { IfOk result (λ script. IsTextOf script (load_text load.seed load.commands)) }
    ensures kept { IfOk result KeepsOrderAndLimits }
    ensures lines { IfOk result (λ script. length (lines_of script) ≤ 4294967294) }
{
    let text = make(alloc, load.seed, load.commands)?;
    match parse(alloc, &text) {
        Ok(script) => Ok(script),
        Err(ParseEnd::Fault(_)) => unreachable!("no line of a load is faulty"),
        Err(ParseEnd::NoMemory) => Err(NoMemory),
    }
}

// Carries out a plan by the schedule of four workers that the choices select, and sums it up. The text is put where a
// line of a history would be, so no memory is taken for it.
fn sum_up(alloc: Global, script: &Script, plan: Plan, choices: u64) -> Result<Bytes, NoMemory>
    requires commands { plan.commands ≡ length (sends_of plan.phases) }
    requires limited { plan.commands ≤ MAX_COMMANDS }
    requires rules { All (KeepsRules script.now.config.depth) plan.phases }
    requires planned { meant plain_phase (plan_of script.now) ≡ Ok (plain_phases plan.phases) }
    requires given { (given : _) → plan_of script.now ≡ Ok given → sends_of given ≡ sends_of plan.phases }
    requires kept { KeepsOrderAndLimits script.now }
    requires sized { AreSized (lines_of script.now) }
    ensures { IfOk result (λ text. SumsUp script.now choices text.items) }
{
    let finished = finish(alloc, &script.config, plan, WORKERS, choices)?;
    let summary = summary_of(&finished.core);
    let mut text = finished.line;
    text.clear();
    let Ok(()) = push_summary(&mut text, &summary) else {
        unreachable!("there is room for the longest line");
    };
    Ok(text)
}

// The summary of a load.
fn summary(alloc: Global, load: Load) -> Result<Bytes, NoMemory>
    requires { load.commands ≤ MAX_MADE }
    ensures { IfOk result (λ text. IsSummary load text.items) }
{
    let script = script_of(alloc, load)?;
    match plan(alloc, &script) {
        Ok(plan) => sum_up(alloc, &script, plan, load.seed),
        Err(PlanEnd::Fault(_)) => unreachable!("a load breaks no rule of queues"),
        Err(PlanEnd::NoMemory) => Err(NoMemory),
    }
}

/// Makes a load, carries it out by the schedule of four workers that the seed selects, and writes the summary of its
/// history.
pub fn answer<K: Sink>(alloc: Global, load: Load, sink: &mut K) -> Ending
    requires { load.commands ≤ MAX_MADE }
    ensures ends { EndsAnswered (IsSummary load) K.held K.faults sink.old sink.new result }
    ensures answered { result ≢ Ending.Refused }
{
    match summary(alloc, load) {
        Ok(text) => answer_lines(sink, text.as_slice()),
        Err(NoMemory) => Ending::NoMemory,
    }
}
