// The word `check`: a history is held against its script.
ghost use Rattle.std.specs.Prelude.{◌≡◌, ◌≢◌, ◌≤◌, ◌⊎◌, length};
ghost use Rattle.script_line.specs.Sized.{AreSized};
ghost use Rattle.script_cmds.specs.Kept.{KeepsOrderAndLimits};
ghost use Rattle.script_cmds.specs.Text.{lines_of};
ghost use Rattle.history_model.specs.Sent.{sends_of};
ghost use Rattle.nvmecp.specs.Check.{IsIllegalFor, IsLegalFor, JudgesBad, JudgesLegal, TellsBad, TellsLegal, check_task, max_trace};
ghost use Rattle.nvmecp.specs.Ends.{EndsOn};
ghost use Rattle.nvmecp.specs.Step.{HasNoPlan, TellsScript};

use crate::ending::Ending;
use crate::parting::first_empty_line;
use crate::printing::answer_lines;
use crate::refusing::{breach_name, cause_name, deny_line, refuse, refuse_line};
use cp_base::{Bytes, NoMemory};
use cp_io::Sink;
use history_check::{Verdict, check};
use script_cmds::{ParseEnd, Script, parse};
use script_plan::{Plan, PlanEnd, plan};
use std::alloc::Global;

// Tells whether a history is legal for a plan, and else its first bad line.
fn judge<K: Sink>(
    alloc: Global,
    script: &Script,
    plan: &Plan,
    history: &[u8],
    sink: &mut K,
) -> Ending
    requires commands { plan.now.commands ≡ length (sends_of plan.now.phases) }
    requires sends { sends_of plan.now.phases ≡ sends_of script.now.phases }
    requires lines { length (lines_of script.now) ≤ 4294967294 }
    requires kept { KeepsOrderAndLimits script.now }
    requires sized { AreSized (lines_of script.now) }
    ensures ends { EndsOn (JudgesLegal script.now.config plan.now.phases script.now.shows history.now) (λ told. ⊥)
        (JudgesBad script.now.config plan.now.phases script.now.shows history.now) K.held K.faults sink.old sink.new result }
    ensures answered { result ≢ Ending.Refused }
{
    // Called for its clause that a configuration keeps the limits.
    let _depth = script.config.depth();
    match check(
        alloc,
        &script.config,
        plan,
        script.shows.as_slice(),
        history,
    ) {
        Ok(Verdict::Legal) => answer_lines(sink, b"legal\n"),
        Ok(Verdict::Breaks { line }) => deny_line(alloc, sink, line),
        Err(NoMemory) => Ending::NoMemory,
    }
}

// Holds a history against the text of its script.
fn check_script<K: Sink>(alloc: Global, text: &Bytes, history: &[u8], sink: &mut K) -> Ending
    requires within { length text.now.items ≤ max_trace }
    ensures ends { EndsOn (λ line. TellsLegal line text.now.items history.now) (TellsScript text.now.items)
        (λ line. TellsBad line text.now.items history.now) K.held K.faults sink.old sink.new result }
    ensures accepted { IsLegalFor text.now.items history.now → (result ≡ Ending.Refused) ⊎ (result ≡ Ending.Denied)
        → ⊥ }
    ensures rejected { HasNoPlan text.now.items → (result ≡ Ending.Done) ⊎ (result ≡ Ending.Denied) → ⊥ }
    ensures belied { IsIllegalFor text.now.items history.now → (result ≡ Ending.Done) ⊎ (result ≡ Ending.Refused) → ⊥ }
{
    let script = match parse(alloc, text) {
        Ok(script) => script,
        Err(ParseEnd::Fault(fault)) => {
            return refuse_line(alloc, sink, fault.line, cause_name(fault.cause));
        }
        Err(ParseEnd::NoMemory) => return Ending::NoMemory,
    };
    match plan(alloc, &script) {
        Ok(plan) => judge(alloc, &script, &plan, history, sink),
        Err(PlanEnd::Fault(fault)) => {
            refuse_line(alloc, sink, fault.line, breach_name(fault.cause))
        }
        Err(PlanEnd::NoMemory) => Ending::NoMemory,
    }
}

/// Answers an input that is to be a script, an empty line and a history: whether a device that carries out one command after
/// the other can have answered so, and else the first line of the history with which no such answers go on.
pub fn answer<K: Sink>(alloc: Global, input: &Bytes, sink: &mut K) -> Ending
    requires within { length input.now.items ≤ check_task.limit }
    ensures ends { EndsOn (check_task.Answers input.now.items) (check_task.Refuses input.now.items)
        (check_task.Denies input.now.items) K.held K.faults sink.old sink.new result }
    ensures accepted { check_task.Accepts input.now.items → (result ≡ Ending.Refused) ⊎ (result ≡ Ending.Denied) → ⊥ }
    ensures rejected { check_task.Rejects input.now.items → (result ≡ Ending.Done) ⊎ (result ≡ Ending.Denied) → ⊥ }
    ensures belied { check_task.Belies input.now.items → (result ≡ Ending.Done) ⊎ (result ≡ Ending.Refused) → ⊥ }
{
    let bytes = input.as_slice();
    let Some(place) = first_empty_line(bytes) else {
        return refuse(sink, b"no history\n");
    };
    match Bytes::from_slice(alloc, &bytes[..place]) {
        Ok(text) => check_script(alloc, &text, &bytes[place + 1..], sink),
        Err(NoMemory) => Ending::NoMemory,
    }
}
