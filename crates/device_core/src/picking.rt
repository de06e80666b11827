// Which commands may be picked.
ghost use Rattle.std.specs.Prelude.{◌≡◌, ◌≤◌, ◌||◌, ℕ, IfSome, IsTrue, is_none, is_some, length, map, not, slice_get};
ghost use Rattle.std.specs.List.{AllByRecursion};
ghost use Rattle.cp_base.specs.Checks.{first_failing};
ghost use Rattle.cp_base.specs.Sets.{ranges_under};
ghost use Rattle.device_model.specs.Checks.{deactivate_checks, refusal_of};
ghost use Rattle.device_model.specs.Memory.{moves_bytes};
ghost use Rattle.trail_model.specs.Fits.{SetFits};
ghost use Rattle.trail_model.specs.Footprints.{execution_of, footprint_of};
ghost use Rattle.core_model.specs.Asked.{asked_at};
ghost use Rattle.core_model.specs.Parts.{tables_of};
ghost use Rattle.core_model.specs.Picking.{is_clear_of, is_set_kept, is_slot_kept, may_pick, may_pick_asked, pickable_waiting};
ghost use Rattle.device_core.specs.Keep.{as_kept_footprint, parts_of};
ghost use Rattle.device_core.specs.Recorded.{trail_of};

use crate::Event;
use crate::asked::asked_in;
use crate::checks::check_moving;
use crate::keep::Keep;
use crate::preparing::set_of;
use core_model::WaitingSubmit;
use cp_base::{Command, Config, Footprint, Nature};
use footprints::footprint;
use program_slots::Slots;
use range_claims::Claims;
use range_sets::Sets;
use std::alloc::Global;

// Whether an open claim holds a set.
fn is_set_held(kept: &Claims, set: u32) -> bool
    ensures { result ≡ is_set_kept (map as_kept_footprint kept.now.kept) set }
{
    kept.holds_set(set)
}

// Whether an open claim holds a slot.
fn is_slot_held(kept: &Claims, slot: u32) -> bool
    ensures { result ≡ is_slot_kept (map as_kept_footprint kept.now.kept) slot }
{
    kept.holds_slot(slot)
}

// Whether what a command touches meets no open claim.
fn meets_none(kept: &Claims, touched: &Footprint) -> bool
    ensures { result ≡ is_clear_of (map as_kept_footprint kept.now.kept) touched.now }
{
    kept.free(touched)
}

// Whether a set may be deleted now: it is not there, or no open claim holds it.
fn may_delete(kept: &Claims, sets: &Sets, set: u32) -> bool
    ensures { result
        ≡ (is_none (ranges_under sets.now set) || not (is_set_kept (map as_kept_footprint kept.now.kept) set)) }
{
    sets.get(set).is_none() || !is_set_held(kept, set)
}

// Whether a slot may be deactivated now: a check fails, or no open claim holds it.
fn may_deactivate(kept: &Claims, slots: &Slots, slot: u32) -> bool
    ensures { result ≡ (is_some (first_failing (deactivate_checks (slice_get slots.now slot)))
        || not (is_slot_kept (map as_kept_footprint kept.now.kept) slot)) }
{
    slots.code(slot).is_err() || !is_slot_held(kept, slot)
}

// Whether a command that passes its checks meets no open claim.
fn is_clear(
    alloc: Global,
    config: &Config,
    kept: &Claims,
    slots: &Slots,
    sets: &Sets,
    command: &Command,
) -> bool
    requires fit { AllByRecursion (SetFits config.now) sets.now }
    requires passes { refusal_of config.now (tables_of slots.now sets.now) command.now ≡ None }
    ensures { result ≡ is_clear_of (map as_kept_footprint kept.now.kept)
        (footprint_of config.now (execution_of (tables_of slots.now sets.now) command.now).ranges command.now) }
{
    let touched = footprint(alloc, config, command, set_of(sets, command));
    meets_none(kept, &touched)
}

// Whether a command that moves bytes may be picked: a check fails, or it meets no open claim.
fn may_move(
    alloc: Global,
    config: &Config,
    kept: &Claims,
    slots: &Slots,
    sets: &Sets,
    command: &Command,
) -> bool
    requires fit { AllByRecursion (SetFits config.now) sets.now }
    requires moves { IsTrue (moves_bytes command.now) }
    ensures { result ≡ (is_some (refusal_of config.now (tables_of slots.now sets.now) command.now)
        || is_clear_of (map as_kept_footprint kept.now.kept)
        (footprint_of config.now (execution_of (tables_of slots.now sets.now) command.now).ranges command.now)) }
{
    match check_moving(alloc, config, slots, sets, command) {
        Ok(()) => is_clear(alloc, config, kept, slots, sets, command),
        Err(_) => true,
    }
}

// Whether a queued command may be picked: a check fails, or it meets no open claim and changes nothing that one holds.
#[tactic(auto, using(crate::proofs::Pickable::or_true))]
fn may_pick(alloc: Global, config: &Config, keep: &Keep, command: &Command) -> bool
    requires { AllByRecursion (SetFits config.now) keep.now.sets }
    ensures { (count : ℕ) → result ≡ may_pick config.now (parts_of count keep.now) command.now }
{
    match command.nature() {
        Nature::Deletes { set } => may_delete(&keep.kept, &keep.sets, set),
        Nature::Stops { slot } => may_deactivate(&keep.kept, &keep.slots, slot),
        Nature::Builds | Nature::Arranges | Nature::Withdraws { .. } => true,
        Nature::Reads | Nature::Writes | Nature::Copies | Nature::Executes { .. } => {
            may_move(alloc, config, &keep.kept, &keep.slots, &keep.sets, command)
        }
    }
}

// Whether the command of a submit may be picked.
fn may_pick_submit(alloc: Global, config: &Config, keep: &Keep, trail: &[Event], sent: u32) -> bool
    requires { AllByRecursion (SetFits config.now) keep.now.sets }
    ensures { result
        ≡ may_pick_asked config.now (parts_of (length trail.now) keep.now) (asked_at (trail_of trail.now) sent) }
{
    match asked_in(trail, sent) {
        Some(asked) => may_pick(alloc, config, keep, asked.command),
        None => false,
    }
}

/// How many of the commands that wait may be picked.
pub(crate) fn count_pickable(alloc: Global, config: &Config, keep: &Keep, trail: &[Event]) -> usize
    requires { AllByRecursion (SetFits config.now) keep.now.sets }
    ensures count { result
        ≡ length (pickable_waiting config.now (parts_of (length trail.now) keep.now) (trail_of trail.now)) }
    ensures bounded { result ≤ length keep.now.waiting.items }
{
    let mut count = 0;
    for x in &keep.waiting {
        if may_pick_submit(alloc, config, keep, trail, x.sent) {
            count += 1;
        }
    }
    count
}

/// Number `skip`, from 0, of the commands that wait and may be picked, in order of submission. `None` where there are
/// not so many.
pub(crate) fn nth_pickable(
    alloc: Global,
    config: &Config,
    keep: &Keep,
    trail: &[Event],
    skip: u32,
) -> Option<WaitingSubmit>
    requires { AllByRecursion (SetFits config.now) keep.now.sets }
    ensures { result
        ≡ slice_get (pickable_waiting config.now (parts_of (length trail.now) keep.now) (trail_of trail.now)) skip }
{
    let mut before = skip;
    for x in &keep.waiting {
        if !may_pick_submit(alloc, config, keep, trail, x.sent) {
            continue;
        }
        if before == 0 {
            return Some(*x);
        }
        before -= 1;
    }
    None
}
