// The plan of a script.
ghost use Rattle.std.specs.Prelude.{◌≡◌, ◌+◌, ◌++◌, ◌<◌, ◌≤◌, ◌^◌, [], map, Ok, Err, All, IfOk, IfErr, OnOk, length};
ghost use Rattle.script_cmds.specs.Kept.{KeepsOrderAndLimits};
ghost use Rattle.script_cmds.specs.Queues.{queue_depth};
ghost use Rattle.script_cmds.specs.Text.{lines_of};
ghost use Rattle.script_plan.specs.Counted.{lines_of_phases};
ghost use Rattle.history_model.specs.Plain.{hosts_by_phase, Takes, plain_item, plain_items, plain_part, plain_parts, plain_phase, plain_phases};
ghost use Rattle.history_model.specs.Plan.{plan_of, planned_items, planned_parts, planned_hosts, planned_phases, lines_of_parts};
ghost use Rattle.history_model.specs.Rules.{KeepEachQueue, KeepsRules};
ghost use Rattle.history_model.specs.Sent.{sends_of};
ghost use Rattle.script_plan.specs.Cause.{breach_of, ForFault};
ghost use Rattle.script_plan.specs.Meant.{meant};
ghost use Rattle.script_plan.specs.Step.{outstanding_after, sent_after, taken_after};

use crate::count::{configuration_lines, part_lines, phase_sends};
use crate::outstanding::Outstanding;
use crate::{Plan, PlanCause, PlanEnd, PlanFault};
use cp_base::Sequence;
use script_cmds::{Form, HostPart, Item, Phase, Script};
use script_line::Version;
use std::alloc::Global;
use std::sync::Arc;

fn fault(line: u32, cause: PlanCause) -> PlanEnd
    ensures { result ≡ PlanEnd.Fault (record { line = line; cause = cause }) }
{
    PlanEnd::Fault(PlanFault { line, cause })
}

// A command is sent: it needs a place in its queue, which has this depth, and an identifier of its own.
fn send(outstanding: &mut Outstanding, depth: u32, line: u32, cid: u32) -> Result<(), PlanEnd>
    ensures ok { OnOk result (sent_after depth outstanding.old cid ≡ Ok outstanding.new) }
    ensures err { IfErr result
        (λ end. ForFault end (λ f. (f.line ≡ line) × (sent_after depth outstanding.old cid ≡ Err f.breach))) }
{
    if outstanding.in_queue_of(cid) >= depth {
        return Err(fault(line, PlanCause::QueueFull));
    }
    if outstanding.contains(cid) {
        return Err(fault(line, PlanCause::CidBusy));
    }
    outstanding.add(cid)?;
    Ok(())
}

// A command is taken: it has to be outstanding.
fn take(outstanding: &mut Outstanding, line: u32, cid: u32) -> Result<(), PlanEnd>
    ensures ok { OnOk result (taken_after outstanding.old cid ≡ Ok outstanding.new) }
    ensures err { IfErr result
        (λ end. ForFault end (λ f. (f.line ≡ line) × (taken_after outstanding.old cid ≡ Err f.breach))) }
{
    if !outstanding.remove(cid) {
        return Err(fault(line, PlanCause::NotOutstanding));
    }
    Ok(())
}

// One item of a host, with its command shared.
fn planned_item(
    outstanding: &mut Outstanding,
    depth: u32,
    line: u32,
    item: &Item,
) -> Result<Item, PlanEnd>
    ensures same { IfOk result (λ planned. plain_item planned ≡ plain_item item.now) }
    ensures ok { OnOk result (outstanding_after depth outstanding.old item.now ≡ Ok outstanding.new) }
    ensures err { IfErr result
        (λ end. ForFault end (λ f. (f.line ≡ line) × (outstanding_after depth outstanding.old item.now ≡ Err f.breach))) }
{
    match item {
        Item::Send { cid, command } => {
            send(outstanding, depth, line, *cid)?;
            let command = Arc::try_clone(command)?;
            Ok(Item::Send { cid: *cid, command })
        }
        Item::Take { cid } => {
            take(outstanding, line, *cid)?;
            Ok(Item::Take { cid: *cid })
        }
    }
}

// A host takes what is outstanding at the end of its part, in order of sending.
fn push_takes(planned: &mut Vec<Item>, cids: &[u32]) -> Result<(), PlanEnd>
    ensures ok { OnOk result
        (plain_items planned.new.items ≡ plain_items planned.old.items ++ map (λ cid. Takes cid) cids.now) }
    ensures err { IfErr result (λ end. end ≡ PlanEnd.NoMemory) }
{
    for cid in cids {
        planned.push(Item::Take { cid: *cid })?;
    }
    Ok(())
}

// The items of a host's part, of which the first stands at this line, and the takes that its end adds.
fn planned_items(
    alloc: Global,
    depth: u32,
    mut line: u32,
    items: &[Item],
) -> Result<Sequence<Item>, PlanEnd>
    requires { line + length items.now < 2 ^ 32 }
    ensures ok { IfOk result
        (λ planned. meant plain_item (planned_items depth line [] items.now) ≡ Ok (plain_items planned)) }
    ensures err { IfErr result (λ end. ForFault end (λ f. planned_items depth line [] items.now ≡ Err f)) }
{
    let mut outstanding = Outstanding::new(alloc);
    let mut planned = Vec::new(alloc);
    for item in items {
        let next = planned_item(&mut outstanding, depth, line, item)?;
        planned.push(next)?;
        line += 1;
    }
    push_takes(&mut planned, outstanding.as_slice())?;
    Ok(Sequence::new(planned))
}

// The parts of a phase, of which the first has its host line here.
fn planned_parts(
    alloc: Global,
    depth: u32,
    mut line: u32,
    parts: &[HostPart],
) -> Result<Sequence<HostPart>, PlanEnd>
    requires { line + lines_of_parts parts.now < 2 ^ 32 }
    ensures ok { IfOk result
        (λ planned. meant plain_part (planned_parts depth line parts.now) ≡ Ok (plain_parts planned)) }
    ensures err { IfErr result (λ end. ForFault end (λ f. planned_parts depth line parts.now ≡ Err f)) }
{
    let mut planned = Vec::new(alloc);
    for part in parts {
        let items = planned_items(alloc, depth, line + 1, part.items.as_slice())?;
        let host = part.host;
        planned.push(HostPart { host, items })?;
        line += 1 + part.items.as_slice().len() as u32;
    }
    Ok(Sequence::new(planned))
}

// A phase, which needs a host, with its line here.
fn planned_phase(alloc: Global, depth: u32, line: u32, phase: &Phase) -> Result<Phase, PlanEnd>
    requires { line + 1 + lines_of_parts phase.now.hosts < 2 ^ 32 }
    ensures ok { IfOk result
        (λ planned. meant plain_part (planned_hosts depth line phase.now.hosts) ≡ Ok (plain_phase planned)) }
    ensures err { IfErr result (λ end. ForFault end (λ f. planned_hosts depth line phase.now.hosts ≡ Err f)) }
{
    let parts = phase.hosts.as_slice();
    if parts.is_empty() {
        return Err(fault(line, PlanCause::NoHosts));
    }
    let hosts = planned_parts(alloc, depth, line + 1, parts)?;
    Ok(Phase { hosts })
}

// Phases, of which the first has its line here.
fn planned_phases(
    alloc: Global,
    depth: u32,
    mut line: u32,
    phases: &[Phase],
) -> Result<Sequence<Phase>, PlanEnd>
    requires { line + lines_of_phases phases.now < 2 ^ 32 }
    ensures ok { IfOk result
        (λ planned. meant plain_phase (planned_phases depth line phases.now) ≡ Ok (plain_phases planned)) }
    ensures err { IfErr result (λ end. ForFault end (λ f. planned_phases depth line phases.now ≡ Err f)) }
{
    let mut planned = Vec::new(alloc);
    for phase in phases {
        let next = planned_phase(alloc, depth, line, phase)?;
        planned.push(next)?;
        line += 1 + part_lines(phase.hosts.as_slice());
    }
    Ok(Sequence::new(planned))
}

// The depth of each queue of a host, where all of them together have this one.
fn queue_depth(form: Form, depth: u32) -> u32
    ensures { result ≡ queue_depth form depth }
{
    match form.version {
        Version::One => depth,
        Version::Two => depth.checked_div(form.queues).unwrap_or(0),
    }
}

/// The plan of a script: each host's part with the takes that its end adds, in order of sending. The
/// commands are shared with the script. Else the first line, from the top of the text, that breaks a rule of queues.
///
/// Between its `send` and its `take` a command is outstanding. A `send` needs fewer outstanding
/// commands of its queue than the queue's depth, and then an identifier that none of the host's has; a `take`
/// needs one of that identifier; a phase needs a host.
pub fn plan(alloc: Global, script: &Script) -> Result<Plan, PlanEnd>
    // What `parse` says of every script that it reads.
    requires lines { length (lines_of script.now) ≤ 4294967294 }
    ensures planned { IfOk result (λ plan. meant plain_phase (plan_of script.now) ≡ Ok (plain_phases plan.phases)) }
    ensures fault { IfErr result (λ end. ForFault end (λ f. plan_of script.now ≡ Err f)) }

    // The commands, by name, are those of the definition's plan and of the script, host by host.
    ensures given { IfOk result
        (λ plan. (given : _) → plan_of script.now ≡ Ok given → sends_of given ≡ sends_of plan.phases) }
    ensures sends { IfOk result (λ plan. sends_of plan.phases ≡ sends_of script.now.phases) }
    ensures hosts { IfOk result (λ plan. hosts_by_phase plan.phases ≡ hosts_by_phase script.now.phases) }
    ensures commands { IfOk result (λ plan. plan.commands ≡ length (sends_of plan.phases)) }
    ensures queues { IfOk result
        (λ plan. All (KeepEachQueue (queue_depth script.now.form script.now.config.depth)) plan.phases) }
    ensures rules { KeepsOrderAndLimits script.now
        → IfOk result (λ plan. All (KeepsRules script.now.config.depth) plan.phases) }
{
    let phases = script.phases.as_slice();
    let line = configuration_lines(&script.config) + 1;
    let depth = queue_depth(script.form, script.config.depth());
    let planned = planned_phases(alloc, depth, line, phases)?;
    let commands = phase_sends(phases);
    Ok(Plan {
        phases: planned,
        commands,
    })
}
