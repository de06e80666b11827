// The plan, phase by phase.
ghost use Rattle.std.specs.Prelude.{◌≡◌, ◌≤◌, ◌∷◌, ℕ, All, IfOk, List, OnOk, length};
ghost use Rattle.cp_base.specs.declared.limits.TheConstants.{MAX_COMMANDS, MAX_HOSTS};
ghost use Rattle.script_cmds.specs.declared.item.Phase.{Phase};
ghost use Rattle.history_model.specs.Plain.{plain_phase, plain_phases};
ghost use Rattle.history_model.specs.Rules.{KeepsRules};
ghost use Rattle.history_model.specs.Sent.{sends_of};
ghost use Rattle.schedule_model.specs.Deeds.{Phases};
ghost use Rattle.schedule_model.specs.Schedule.{IsScheduled, all_done};
ghost use Rattle.schedule_model.specs.Told.{TellsPlan};
ghost use Rattle.device_core.specs.Gives.{world_in};
ghost use Rattle.step_driver.specs.Plans.{Follows};

use crate::part::Part;
use crate::running::Running;
use crate::turns::step;
use cp_base::{Config, NoMemory};
use device_core::Core;
use script_cmds::Phase;
use script_plan::Plan;
use std::alloc::Global;

// What the hosts of a phase have left when it begins: all.
fn parts_of(alloc: Global, phase: Phase) -> Result<Vec<Part>, NoMemory>
    ensures { IfOk result (λ parts. parts.items ≡ plain_phase phase) }
{
    let parts = phase.hosts.into_vec().into_iter();
    Ok(parts.map(Part::new).collect(alloc)?)
}

// Whether all hosts have done all.
fn all_done(parts: &[Part]) -> bool
    ensures { result ≡ all_done parts.now }
{
    for part in parts {
        if !part.is_done() {
            return false;
        }
    }
    true
}

// Turns until the hosts of a phase have done all, and then the device rests.
fn run_phase(
    alloc: Global,
    running: &mut Running,
    phase: Phase,
    workers: u32,
    choices: &mut u64,
) -> Result<(), NoMemory>
    requires some { 1 ≤ workers }
    requires few { workers ≤ MAX_HOSTS }
    requires follows { (plan : List Phase) × (first : ℕ) × (later : Phases)
        × Follows plan workers first running.old (plain_phase phase ∷ later) choices.old }
    ensures followed { OnOk result
        ((plan : List Phase) (first : ℕ) (later : Phases) → Follows plan workers first running.old (plain_phase phase ∷ later) choices.old
        → Follows plan workers first running.new later choices.new) }
    ensures config { running.new.config ≡ running.old.config }
{
    let mut parts = parts_of(alloc, phase)?;
    'turns: while !all_done(&parts) {
        step(running, &mut parts, workers, choices)?;
    }
    running.rest();
    Ok(())
}

/// Carries out a plan on a new device with so many workers, turn by turn, phase by phase. In each turn one of the actions that
/// may be done is chosen: each host of the phase, in ascending order, may send, or take a reply that is posted; each open
/// claim, in order of its claim, may end; and the least idle worker may turn to each command that may be picked, in order of
/// submission. Of `n` actions it does number `choices mod n`, from 0, and goes on with `choices div n`. A phase ends when its
/// hosts have done all; then the device rests.
///
/// # Errors
///
/// `NoMemory` where there is no memory for the device, or for the lists of what is left and of open work.
pub fn run_steps(
    alloc: Global,
    config: &Config,
    plan: Plan,
    workers: u32,
    choices: u64,
) -> Result<Core, NoMemory>
    requires some { 1 ≤ workers }
    requires few { workers ≤ MAX_HOSTS }
    requires commands { plan.commands ≡ length (sends_of plan.phases) }
    requires limited { plan.commands ≤ MAX_COMMANDS }
    requires rules { All (KeepsRules config.now.depth) plan.phases }
    ensures device { IfOk result (λ core. (core.config ≡ config.now) × (core.commands ≡ plan.commands)) }
    ensures scheduled { IfOk result
        (λ core. IsScheduled config.now (plain_phases plan.phases) workers choices core.trail) }
    ensures told { IfOk result (λ core. TellsPlan config.now plan.phases (world_in core)) }
{
    let core = Core::new(alloc, config, plan.commands)?;
    let mut running = Running::new(alloc, core, workers)?;
    let mut choices = choices;
    let phases = plan.phases.into_vec();
    for phase in phases {
        run_phase(alloc, &mut running, phase, workers, &mut choices)?;
    }
    Ok(running.into_core())
}
