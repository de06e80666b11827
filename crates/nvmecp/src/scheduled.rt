// A plan that is carried out by its schedule.
ghost use Rattle.std.specs.Prelude.{◌≡◌, ◌≤◌, All, IfOk, length};
ghost use Rattle.cp_base.specs.declared.limits.TheConstants.{MAX_COMMANDS, MAX_HOSTS};
ghost use Rattle.history_model.specs.Plain.{plain_phases};
ghost use Rattle.history_model.specs.Rules.{KeepsRules};
ghost use Rattle.history_model.specs.Sent.{sends_of};
ghost use Rattle.schedule_model.specs.Schedule.{IsScheduled};
ghost use Rattle.nvmecp.specs.Finished.{IsFinished};

use crate::finished::{Finished, line_buffer, show_buffer};
use cp_base::{Config, NoMemory};
use script_plan::Plan;
use std::alloc::Global;
use step_driver::run_steps;

/// Carries out a plan by the schedule of so many workers that the choices select. All memory is taken here, that of
/// the buffers too.
pub fn finish(
    alloc: Global,
    config: &Config,
    plan: Plan,
    workers: u32,
    choices: u64,
) -> Result<Finished, NoMemory>
    requires workers { (1 ≤ workers) × (workers ≤ MAX_HOSTS) }
    requires commands { plan.commands ≡ length (sends_of plan.phases) }
    requires limited { plan.commands ≤ MAX_COMMANDS }
    requires rules { All (KeepsRules config.now.depth) plan.phases }
    ensures finished { IfOk result (IsFinished config.now plan.phases) }
    ensures scheduled { IfOk result
        (λ finished. IsScheduled config.now (plain_phases plan.phases) workers choices finished.core.trail) }
{
    let line = line_buffer(alloc)?;
    let shown = show_buffer(alloc)?;
    let core = run_steps(alloc, config, plan, workers, choices)?;
    Ok(Finished { core, line, shown })
}
