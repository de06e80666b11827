// Turns: which actions may be done, and the chosen one.
ghost use Rattle.std.specs.Prelude.{◌≡◌, ◌<◌, ◌≤◌, ◌%◌, ◌/◌, ℕ, IfErr, IfOk, IsSomeAnd, OnErr, OnOk, length, slice_get, take};
ghost use Rattle.std.specs.List.{AllByRecursion};
ghost use Rattle.cp_base.specs.declared.limits.TheConstants.{MAX_HOSTS};
ghost use Rattle.history_model.specs.Plain.{PlainPart};
ghost use Rattle.trail_model.specs.World.{pickable_among};
ghost use Rattle.device_core.specs.Gives.{world_in};
ghost use Rattle.schedule_model.specs.Deeds.{IsHost};
ghost use Rattle.schedule_model.specs.Schedule.{Action, action_of_host, actions_of_hosts, idle_worker, turning};
ghost use Rattle.step_driver.specs.Turns.{IsActionDone, IsActionServed, IsDoneBy, IsReadyAt, MayAct, actions_of_workers, listed};

use crate::part::Part;
use crate::running::Running;
use cp_base::NoMemory;
use device_core::Core;

// How many hosts may do their next item.
fn ready(core: &Core, parts: &[Part]) -> usize
    requires { AllByRecursion (λ (part : PlainPart). IsHost part.host) parts.now }
    ensures count { result ≡ length (actions_of_hosts (world_in core.now) parts.now) }
    ensures few { result ≤ length parts.now }
{
    let mut count = 0;
    for part in parts {
        if part.is_ready(core) {
            count += 1;
        }
    }
    count
}

// The index of the part of host number `number`, from 0, of those that may do their next item. Else how many may.
fn ready_at(core: &Core, parts: &[Part], number: u64) -> Result<usize, u64>
    requires { AllByRecursion (λ (part : PlainPart). IsHost part.host) parts.now }
    ensures found { IfOk result (λ index. IsReadyAt (world_in core.now) parts.now number index) }
    ensures fewer { IfErr result
        (λ count. (count ≡ length (actions_of_hosts (world_in core.now) parts.now)) × (count ≤ number)) }
{
    let mut count = 0;
    for (index, part) in parts.iter().enumerate() {
        if part.is_ready(core) {
            if count == number {
                return Ok(index);
            }
            count += 1;
        }
    }
    Err(count)
}

// How many commands the least idle worker may turn to.
fn turns(running: &Running, workers: u32) -> u32
    requires { workers ≤ MAX_HOSTS }
    ensures { result
        ≡ length
        (turning (idle_worker (world_in running.now) workers) (pickable_among running.now.config (world_in running.now))) }
{
    match running.idle(workers) {
        Some(_) => running.core().pickable(),
        None => 0,
    }
}

// How many actions may be done.
fn count(running: &Running, parts: &[Part], workers: u32) -> u64
    requires workers { workers ≤ MAX_HOSTS }
    requires hosts { AllByRecursion (λ (part : PlainPart). IsHost part.host) parts.now }
    ensures { result ≡ length (listed workers running.now parts.now) }
{
    let ready = ready(running.core(), parts) as u64;
    ready + running.open() as u64 + u64::from(turns(running, workers))
}

// The number of the chosen action, and what is left of the number that chooses. Where that is 0 nothing is counted, since the
// first action is chosen from then on.
fn choose(running: &Running, parts: &[Part], workers: u32, choices: u64) -> (u64, u64)
    requires workers { workers ≤ MAX_HOSTS }
    requires hosts { AllByRecursion (λ (part : PlainPart). IsHost part.host) parts.now }
    requires some { 0 < length (listed workers running.now parts.now) }
    ensures chosen { result.0 ≡ choices % length (listed workers running.now parts.now) }
    ensures rest { result.1 ≡ choices / length (listed workers running.now parts.now) }
{
    if choices == 0 {
        return (0, 0);
    }
    let count = count(running, parts, workers);
    (choices % count, choices / count)
}

// The host of the part at an index does its next item.
fn act_at(running: &mut Running, parts: &mut Vec<Part>, index: usize)
    requires may { MayAct running.old parts.old.items }
    requires ready { IsSomeAnd (slice_get parts.old.items index)
        (λ (part : PlainPart). 0 < length (action_of_host (world_in running.old) part.host part.items)) }
    ensures { IsSomeAnd (slice_get (actions_of_hosts (world_in running.old) parts.old.items) (length (actions_of_hosts (world_in running.old) (take index parts.old.items))))
        (λ (action : Action). IsActionDone running.old running.new parts.old.items parts.new.items action) }
{
    parts[index].act(running);
}

// What is no host's action: an open claim ends, or the least idle worker turns to a command.
fn serve(running: &mut Running, workers: u32, number: u64) -> Result<(), NoMemory>
    requires workers { workers ≤ MAX_HOSTS }
    requires number { number < length (actions_of_workers workers running.old) }
    ensures unchanged { OnErr result (running.new ≡ running.old) }
    ensures served { OnOk result
        (IsSomeAnd (slice_get (actions_of_workers workers running.old) number) (λ (action : Action). IsActionServed running.old running.new action)) }
{
    let open = running.open() as u64;
    if number < open {
        running.finish(number as usize);
        return Ok(());
    }
    let Some(worker) = running.idle(workers) else {
        unreachable!("a worker is idle");
    };
    running.turn(worker, number - open)
}

// Does the action of a number.
fn perform(
    running: &mut Running,
    parts: &mut Vec<Part>,
    workers: u32,
    number: u64,
) -> Result<(), NoMemory>
    requires workers { workers ≤ MAX_HOSTS }
    requires may { MayAct running.old parts.old.items }
    requires number { number < length (listed workers running.old parts.old.items) }
    ensures unchanged { OnErr result (running.new ≡ running.old) }
    ensures done { OnOk result (IsDoneBy number workers running.old running.new parts.old.items parts.new.items) }
{
    match ready_at(running.core(), parts, number) {
        Ok(index) => {
            act_at(running, parts, index);
            Ok(())
        }
        Err(count) => serve(running, workers, number - count),
    }
}

/// One turn: does the action that is chosen of those that may be done, of which there is one.
///
/// # Errors
///
/// `NoMemory` where there is no memory to hold the work of a claim. Then nothing happens on the device.
pub(crate) fn step(
    running: &mut Running,
    parts: &mut Vec<Part>,
    workers: u32,
    choices: &mut u64,
) -> Result<(), NoMemory>
    requires workers { workers ≤ MAX_HOSTS }
    requires may { MayAct running.old parts.old.items }
    requires some { 0 < length (listed workers running.old parts.old.items) }
    ensures unchanged { OnErr result (running.new ≡ running.old) }
    ensures done { OnOk result
        (IsDoneBy (choices.old % length (listed workers running.old parts.old.items)) workers running.old running.new parts.old.items parts.new.items) }
    ensures rest { choices.new ≡ choices.old / length (listed workers running.old parts.old.items) }
{
    let (number, rest) = choose(running, parts, workers, *choices);
    *choices = rest;
    perform(running, parts, workers, number)
}
