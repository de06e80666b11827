// A phase, run by the threads of its hosts and of the workers.
ghost use Rattle.std.specs.Prelude.{◌≡◌, ◌≤◌, ◌+◌, ◌-◌, ℕ, [], ◌∷◌, ◌++◌, Contains, Some};
ghost use Rattle.std.specs.Thread.{IsSync};
ghost use Rattle.cp_base.specs.declared.limits.TheConstants.{MAX_HOSTS};
ghost use Rattle.history_model.specs.Plain.{plain_items, plain_parts, plain_phase};
ghost use Rattle.history_model.specs.Rules.{KeepsRules};
ghost use Rattle.script_cmds.specs.Hosts.{hosts_of};
ghost use Rattle.seat_lock.specs.Passes.{HaveMet, at_home, seats_in, seen_by};
ghost use Rattle.schedule_model.specs.Deeds.{HaveDone, Phases, items_in_phase};
ghost use Rattle.device_lock.specs.Passes.{AreAllOfDevice, AreIdle, IsIdle, IsOfDevice};
ghost use Rattle.workers.specs.Further.{IsFurther, outstanding_by};
ghost use Rattle.workers.specs.Phases.{AreFurther, AreReady, HaveDoneSoFar, HaveNoneOutstanding, IsHostReady, rests_of};

use crate::gates::Gate;
use crate::hosts::host_loop;
use crate::serving::work_loop;
use cp_base::MAX_HOSTS;
use device_lock::{Device, Pass, Passes};
use script_cmds::{HostPart, Phase};
use std::alloc::Global;
use std::sync::Wait;
use std::thread::{Threads, join};

// Runs parts of different hosts, each in a thread of its own, the last one first.
#[cycle(hosts)]
fn run_hosts<R: Threads + Wait + Sync, G: Gate>(
    rt: &R,
    device: &Device,
    mut parts: Vec<HostPart>,
    mut passes: Passes,
    gate: &G,
) -> Passes
    requires ready { AreReady device.now 0 parts.items passes }
    ensures { AreFurther 0 device.now (plain_parts parts.items) passes result }
{
    let Some(part) = parts.pop() else {
        return passes;
    };
    let pass = passes.lend(part.host);
    let host = move || -> Pass
        requires { IsSync G.row × IsHostReady device.now part pass }
        ensures { IsFurther 0 device.entry.now pass result (plain_items part.items) }
    { host_loop(rt, device, part, pass, gate) };
    let others = move || -> Passes
        requires { IsSync R.row × IsSync G.row × AreReady device.now 0 parts.items passes }
        ensures { AreFurther 0 device.entry.now (plain_parts parts.items) passes result }
    { run_hosts(rt, device, parts, passes, gate) };
    let (pass, mut passes) = join(rt, host, others);
    passes.give(pass);
    passes
}

// Runs the hosts of a phase, and then party 1 rests.
fn run_and_rest<R: Threads + Wait + Sync, G: Gate>(
    rt: &R,
    device: &Device,
    parts: Vec<HostPart>,
    passes: Passes,
    gate: &G,
) -> Passes
    requires ready { AreReady device.now MAX_HOSTS parts.items passes }
    ensures { AreFurther 1 device.now (plain_parts parts.items) passes result }
{
    let mut passes = run_hosts(rt, device, parts, passes, gate);
    let first = passes.lend(1);
    passes.give(device.rest(rt, first));
    passes
}

// Runs the workers up to this one, each in a thread of its own, beside the hosts and their rest. Where no thread can
// be made, a worker begins when all others have ended: so it finds the device at rest.
#[cycle(workers)]
fn run_workers<R: Threads + Wait + Sync, G: Gate>(
    rt: &R,
    device: &Device,
    worker: u32,
    parts: Vec<HostPart>,
    mut passes: Passes,
    gate: &G,
) -> Passes
    requires workers { MAX_HOSTS ≤ worker }
    requires ready { AreReady device.now worker parts.items passes }
    ensures { AreFurther 1 device.now (plain_parts parts.items) passes result }
{
    if worker == MAX_HOSTS {
        return run_and_rest(rt, device, parts, passes, gate);
    }
    let pass = passes.lend(worker);
    let work = move || -> Pass
        requires { IsSync G.row × IsOfDevice device.now pass × IsIdle pass }
        ensures { IsFurther 0 device.entry.now pass result [] }
    { work_loop(rt, device, pass, gate) };
    let others = move || -> Passes
        requires { IsSync R.row × IsSync G.row × (MAX_HOSTS + 1 ≤ worker)
            × AreReady device.now (worker - 1) parts.items passes }
        ensures { AreFurther 1 device.entry.now (plain_parts parts.items) passes result }
    { run_workers(rt, device, worker - 1, parts, passes, gate) };
    let (pass, mut passes) = join(rt, work, others);
    passes.give(pass);
    passes
}

/// Runs a phase: each host does its part in a thread of its own, while the workers carry out commands; when all hosts
/// have done their parts, party 1 rests, and when all workers have seen that, the passes meet. Where no thread can be
/// made, the caller does that part itself. It returns only where others let it. Where there is no memory for a
/// command, the command is answered so.
///
/// Each pass is at home and idle, and none of the phase's hosts has an outstanding command. It is the same
/// afterwards, and each party has submitted and taken exactly what its part says, in order. Beside that there are
/// claims, finishes, dos, and at most one rest, by party 1.
pub fn run_phase<R: Threads + Wait + Sync, G: Gate>(
    rt: &R,
    alloc: Global,
    device: &Device,
    phase: Phase,
    passes: &mut Passes,
    gate: &G,
)
    requires hosts { MAX_HOSTS ≤ seats_in passes.old }
    requires all { AreAllOfDevice device.now passes.old }
    requires idle { AreIdle passes.old }
    requires rules { KeepsRules device.now.config.depth phase }
    requires none { HaveNoneOutstanding (hosts_of phase.hosts) passes.old }
    ensures seats { seats_in passes.new ≡ seats_in passes.old }
    ensures all { AreAllOfDevice device.now passes.new }
    ensures idle { AreIdle passes.new }
    ensures met { HaveMet passes.new }
    ensures further { (n : ℕ) (p q : _)
        → at_home passes.old n ≡ Some p → at_home passes.new n ≡ Some q
        → IsFurther (rests_of 1 n) device.now p q (items_in_phase n (plain_phase phase)) }
    ensures none { HaveNoneOutstanding (hosts_of phase.hosts) passes.new }
    ensures others { (n : ℕ) (p q : _) → (Contains (hosts_of phase.hosts) n → ⊥)
        → at_home passes.old n ≡ Some p → at_home passes.new n ≡ Some q
        → outstanding_by q ≡ outstanding_by p }
    ensures done { (phases : Phases) (n : ℕ) (q : _)
        → HaveDoneSoFar phases passes.old → at_home passes.new n ≡ Some q
        → HaveDone (phases ++ plain_phase phase ∷ []) (seen_by q) }
{
    let all = passes.take_all(alloc);
    let last = all.seats();
    let mut all = run_workers(rt, device, last, phase.hosts.into_vec(), all, gate);
    device.meet(rt, &mut all);
    *passes = all;
}
