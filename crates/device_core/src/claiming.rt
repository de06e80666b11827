// Claims of commands that move bytes, and the turn of a party to a command.
ghost use Rattle.std.specs.Prelude.{◌≡◌, ◌+◌, ◌<◌, ◌≤◌, ◌++◌, ◌∷◌, [], ℕ, Some, ◌&&◌, IsSome, IfSome, IsTrue, IfNone, OnSome, is_none, length, option_copied, option_map, slice_get, vec_capacity, vec_len};
ghost use Rattle.std.specs.Arc.{arc_value};
ghost use Rattle.cp_base.specs.declared.limits.TheConstants.{MAX_HOSTS};
ghost use Rattle.device_model.specs.Checks.{refusal_of};
ghost use Rattle.device_model.specs.Memory.{moves_bytes};
ghost use Rattle.queue_pairs.specs.Outstanding.{CidsDiffer, under};
ghost use Rattle.queue_pairs.specs.Places.{PlacesDiffer, restaged};
ghost use Rattle.trail_model.specs.Lawful.{IsParty, is_idle, world_of};
ghost use Rattle.core_model.specs.Asked.{asked_at};
ghost use Rattle.core_model.specs.Parts.{tables_of};
ghost use Rattle.core_model.specs.Picking.{may_pick_asked};
ghost use Rattle.device_core.specs.Claiming.{Begins, HasClaimed, HasStore};
ghost use Rattle.device_core.specs.Keep.{AreQueues, Holds, KeepsRoom, OnlyQueue, parts_of, queue_of};
ghost use Rattle.device_core.specs.Portions.{AreTaken};
ghost use Rattle.device_core.specs.Recorded.{trail_of};
ghost use Rattle.device_core.specs.Turns.{Turns};

use crate::Event;
use crate::asked::asked_in;
use crate::checks::check_moving;
use crate::doing::{do_now, leave_out};
use crate::keep::Keep;
use crate::picking::nth_pickable;
use crate::preparing::{prepare, set_of};
use core_model::{ClaimPlaces, WaitingSubmit};
use cp_base::{Command, Config, Footprint};
use footprints::footprint;
use job_run::Work;
use program_slots::Slots;
use queue_pairs::{Queue, Stage};
use range_sets::Sets;
use std::alloc::Global;
use std::sync::Arc;

/// What the turn of a party comes to.
#[derive(Debug, Drop)]
pub(crate) enum Turned {
    /// The party claims the command by this event, and has its work.
    Claimed(Event, Work),
    /// The command is done at once by this event.
    Did(Event),
    /// No further command may be picked.
    Nothing,
    /// All commands are picked, and the hosts send nothing more.
    Rested,
}

// The command of the submit at a place of the trail.
fn command_at(trail: &[Event], sent: u32) -> Option<&Arc<Command>>
    ensures { option_map (λ command. arc_value command.now) result
        ≡ option_map (λ asked. asked.command) (asked_at (trail_of trail.now) sent) }
{
    match trail.get(sent as usize)? {
        Event::Submit { command, .. } => Some(command),
        Event::Claim { .. }
        | Event::Finish { .. }
        | Event::Do { .. }
        | Event::Take { .. }
        | Event::Rest { .. } => None,
    }
}

// Whether a command moves bytes and passes its checks.
fn is_claimable(
    alloc: Global,
    config: &Config,
    slots: &Slots,
    sets: &Sets,
    command: &Command,
) -> bool
    ensures { result
        ≡ (moves_bytes command.now && is_none (refusal_of config.now (tables_of slots.now sets.now) command.now)) }
{
    command.nature().is_moving() && check_moving(alloc, config, slots, sets, command).is_ok()
}

// Picks a command of a host that waits.
fn pick_in(queues: &mut Vec<Queue>, host: u32, cid: u32, sent: u32)
    requires host { (1 ≤ host) × (host ≤ length queues.old.items) }
    requires waits { under (queue_of queues.old.items host) cid
        ≡ Some (record { cid = cid; sent = sent; stage = Stage.Queued }) }
    ensures picked { PlacesDiffer (queue_of queues.old.items host)
        → OnlyQueue queues.old.items queues.new.items host
        (restaged (queue_of queues.old.items host) sent Stage.Picked) }
    ensures queues { (depth : ℕ) → AreQueues depth queues.old.items → AreQueues depth queues.new.items }
{
    let queue = &mut queues[host as usize - 1];
    pick_one(queue, cid, sent);
}

// Picks a command that waits.
fn pick_one(queue: &mut Queue, cid: u32, sent: u32)
    requires { under queue.old.commands cid ≡ Some (record { cid = cid; sent = sent; stage = Stage.Queued }) }
    ensures depth { queue.new.depth ≡ queue.old.depth }
    ensures picked { PlacesDiffer queue.old.commands
        → queue.new.commands ≡ restaged queue.old.commands sent Stage.Picked }
    ensures cids_differ { CidsDiffer queue.new.commands }
{
    queue.pick(cid);
}

// Begins a claim of a command that waits and touches this.
fn begin(keep: &mut Keep, places: ClaimPlaces, cid: u32, touched: Footprint)
    requires host { (1 ≤ places.host) × (places.host ≤ length keep.old.queues.items) }
    requires waits { under (queue_of keep.old.queues.items places.host) cid
        ≡ Some (record { cid = cid; sent = places.sent; stage = Stage.Queued }) }
    requires kept { length keep.old.kept.kept < keep.old.kept.most }
    requires claims { vec_len keep.old.claims < vec_capacity keep.old.claims }
    ensures begins { PlacesDiffer (queue_of keep.old.queues.items places.host)
        → Begins keep.old keep.new places touched }
    ensures room { KeepsRoom keep.old keep.new }
{
    leave_out(&mut keep.waiting, places.sent);
    pick_in(&mut keep.queues, places.host, cid, places.sent);
    keep.kept.add(places.claim, touched);
    keep.claims.push_reserved(places);
}

// Claims a command that waits and may be picked, where it moves bytes and passes its checks, and there is memory for
// its work. Else nothing changes.
fn claim_now(
    keep: &mut Keep,
    alloc: Global,
    config: &Config,
    commands: u32,
    trail: &[Event],
    by: u32,
    x: WaitingSubmit,
) -> Option<(Event, Work)>
    requires held { (spots : ℕ) × Holds config.now commands trail.now spots keep.old }
    requires party { IsParty by }
    requires idle { IsTrue (is_idle (world_of config.now (trail_of trail.now)) by) }
    requires waits { (i : ℕ) × (slice_get keep.old.waiting.items i ≡ Some x) }
    requires may { IsTrue (may_pick_asked config.now (parts_of (length trail.now) keep.old) (asked_at (trail_of trail.now) x.sent)) }
    ensures claims { IfSome result
        (λ claimed. HasClaimed config.now commands trail.now by x.sent keep.new claimed.0 claimed.1) }
    ensures room { OnSome result (KeepsRoom keep.old keep.new) }
    ensures unchanged { IfNone result (HasStore keep.old keep.new) }
{
    let asked = asked_in(trail, x.sent).unwrap();
    if !is_claimable(alloc, config, &keep.slots, &keep.sets, asked.command) {
        return None;
    }
    let touched = footprint(
        alloc,
        config,
        asked.command,
        set_of(&keep.sets, asked.command),
    );
    let command = command_at(trail, x.sent).unwrap();
    let prepared = prepare(
        alloc,
        config,
        &mut keep.store,
        &keep.slots,
        &keep.sets,
        command,
        &touched,
    );
    let work = prepared.ok()?;
    let places = ClaimPlaces {
        claim: trail.len() as u32,
        party: by,
        host: asked.host,
        sent: x.sent,
    };
    begin(keep, places, asked.cid, touched);
    let event = Event::Claim {
        by,
        host: asked.host,
        ordinal: asked.ordinal,
        sent: x.sent,
    };
    Some((event, work))
}

/// The turn of a party without an open claim to the command number `skip`, from 0 in order of submission, of those that
/// may be picked: one that moves bytes and passes its checks is claimed, where there is the memory for it; each other
/// one is done at once.
pub(crate) fn turn(
    keep: &mut Keep,
    alloc: Global,
    config: &Config,
    commands: u32,
    trail: &[Event],
    by: u32,
    skip: u32,
) -> Turned
    requires held { (spots : ℕ) × Holds config.now commands trail.now spots keep.old }
    requires party { IsParty by }
    requires idle { IsTrue (is_idle (world_of config.now (trail_of trail.now)) by) }
    ensures turns { Turns config.now commands trail.now by skip result keep.old keep.new }
    ensures room { KeepsRoom keep.old keep.new }
{
    if keep.at_rest && keep.waiting.is_empty() {
        return Turned::Rested;
    }
    let Some(x) = nth_pickable(alloc, config, keep, trail, skip) else {
        return Turned::Nothing;
    };
    match claim_now(keep, alloc, config, commands, trail, by, x) {
        Some((event, work)) => Turned::Claimed(event, work),
        None => Turned::Did(do_now(keep, alloc, config, commands, trail, by, x)),
    }
}
