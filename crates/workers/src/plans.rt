// A plan, phase by phase, on a device that threads share.
ghost use Rattle.std.specs.Prelude.{◌≡◌, ◌≤◌, ℕ, All, IfOk, Some};
ghost use Rattle.cp_base.specs.declared.limits.TheConstants.{MAX_COMMANDS, MAX_HOSTS};
ghost use Rattle.history_model.specs.Plain.{plain_phases};
ghost use Rattle.history_model.specs.Rules.{KeepsRules};
ghost use Rattle.seat_lock.specs.Passes.{at_home, seats_in, seen_by};
ghost use Rattle.trail_model.specs.Lawful.{IsLawful};
ghost use Rattle.schedule_model.specs.Deeds.{HostsDid};
ghost use Rattle.schedule_model.specs.Told.{TellsPlan};
ghost use Rattle.device_core.specs.Gives.{world_in};
ghost use Rattle.device_lock.specs.Passes.{AreAllOfDevice, AreIdle};
ghost use Rattle.workers.specs.Phases.{HaveDoneSoFar};
ghost use Rattle.workers.specs.Plans.{HaveDoneNothing};

use crate::gates::Gate;
use crate::phases::run_phase;
use cp_base::{Config, NoMemory};
use device_core::Core;
use device_lock::{Device, Passes};
use script_cmds::Phase;
use script_plan::Plan;
use std::alloc::Global;
use std::sync::Wait;
use std::thread::Threads;

// Runs the phases of a plan on a device on which nothing has happened: no host begins a phase before all have ended the
// one before.
fn run_phases<R: Threads + Wait + Sync, G: Gate>(
    rt: &R,
    alloc: Global,
    device: &Device,
    phases: Vec<Phase>,
    passes: &mut Passes,
    gate: &G,
)
    requires hosts { MAX_HOSTS ≤ seats_in passes.old }
    requires all { AreAllOfDevice device.now passes.old }
    requires idle { AreIdle passes.old }
    requires rules { All (KeepsRules device.now.config.depth) phases.items }
    requires nothing { HaveDoneNothing passes.old }
    ensures seats { seats_in passes.new ≡ seats_in passes.old }
    ensures all { AreAllOfDevice device.now passes.new }
    ensures did { (n : ℕ) (p : _) → at_home passes.new n ≡ Some p → HostsDid (plain_phases phases.items) (seen_by p) }
    ensures done { HaveDoneSoFar (plain_phases phases.items) passes.new }
{
    for phase in phases {
        run_phase(rt, alloc, device, phase, passes, gate);
    }
}

/// Carries out a plan on a new device by threads: in each phase one for each of its hosts and one for each worker, as
/// `run_phase` does. It returns only where the threads let each other. Where no thread can be made, the caller does
/// that part itself; where there is no memory for a command, the command is answered so.
///
/// What the device has then recorded is one of the lawful orders of what the hosts do and what the workers carry out:
/// its completions are a legal history of the plan, and no command is outstanding.
///
/// # Errors
///
/// `NoMemory` where there is no memory for the device. Then no thread was started.
pub fn run_plan<R: Threads + Wait + Sync, G: Gate>(
    rt: &R,
    alloc: Global,
    config: &Config,
    plan: Plan,
    workers: u32,
    gate: &G,
) -> Result<Core, NoMemory>
    requires some { 1 ≤ workers }
    requires few { workers ≤ MAX_HOSTS }
    requires limited { plan.commands ≤ MAX_COMMANDS }
    requires rules { All (KeepsRules config.now.depth) plan.phases }
    ensures device { IfOk result (λ core. (core.config ≡ config.now) × (core.commands ≡ plan.commands)) }
    ensures lawful { IfOk result (λ core. IsLawful config.now plan.commands core.trail) }
    ensures did { IfOk result (λ core. HostsDid (plain_phases plan.phases) core.trail) }
    ensures told { IfOk result (λ core. TellsPlan config.now plan.phases (world_in core)) }
{
    let core = Core::new(alloc, config, plan.commands)?;
    let (device, mut passes) = Device::new(alloc, core, workers)?;
    let phases = plan.phases.into_vec();
    run_phases(rt, alloc, &device, phases, &mut passes, gate);
    Ok(device.close(passes))
}
