// Commands done at once.
ghost use Rattle.std.specs.Prelude.{◌≡◌, ◌+◌, ◌<◌, ◌≤◌, ◌++◌, ◌∷◌, [], ℕ, Option, Some, is_some, if◌then◌else◌, IfSome, IsSomeAnd, IsTrue, length, slice_get, vec_capacity, vec_len};
ghost use Rattle.cp_base.specs.Answer.{Answer, answer_of};
ghost use Rattle.device_model.specs.Execution.{tells};
ghost use Rattle.device_model.specs.Memory.{moves_bytes};
ghost use Rattle.trail_model.specs.World.{is_no_memory};
ghost use Rattle.trail_model.specs.declared.events.Event.TheVariants as event;
ghost use Rattle.device_core.specs.AtOnce.{IsDoneAtOnce, changes_tables};
ghost use Rattle.cp_base.specs.declared.limits.TheConstants.{MAX_HOSTS};
ghost use Rattle.queue_pairs.specs.Outstanding.{under};
ghost use Rattle.queue_pairs.specs.Places.{PlacesDiffer};
ghost use Rattle.trail_model.specs.Lawful.{IsParty, is_idle, world_of};
ghost use Rattle.core_model.specs.Asked.{asked_at};
ghost use Rattle.core_model.specs.Moves.{PostMoves, WithdrawMoves, without_waiting};
ghost use Rattle.core_model.specs.Parts.{tables_of};
ghost use Rattle.core_model.specs.Picking.{is_waiting, may_pick_asked, withdrawn_waiting};
ghost use Rattle.core_model.specs.Ties.{StandFor};
ghost use Rattle.device_core.specs.Recorded.{told_event, trail_of};
ghost use Rattle.device_core.specs.Keep.{CanPost, Holds, KeepsRoom, parts_of, queue_of};

use crate::Event;
use crate::asked::asked_in;
use crate::checks::check_moving;
use crate::keep::Keep;
use crate::queues::post_in;
use crate::tables::{change_tables, only, told};
use core_model::{EntryPlaces, WaitingSubmit};
use cp_base::{Command, Config, Nature, Reply, Status};
use program_slots::Slots;
use queue_pairs::Stage;
use range_sets::Sets;
use std::alloc::Global;

// Whether a submit waits.
fn is_waiting(waiting: &[WaitingSubmit], sent: u32) -> bool
    ensures { result ≡ is_waiting waiting.now sent }
{
    waiting.iter().any(|x| x.sent == sent)
}

// The place that a command withdraws which names this: the named one, where it still waits.
fn withdrawn(waiting: &[WaitingSubmit], names: Option<u32>) -> Option<u32>
    ensures { result ≡ withdrawn_waiting waiting.now names }
{
    let place = names?;
    if is_waiting(waiting, place) {
        return Some(place);
    }
    None
}

/// Those that wait, without the one of a submit.
pub(crate) fn leave_out(waiting: &mut Vec<WaitingSubmit>, sent: u32)
    ensures left { waiting.new.items ≡ without_waiting waiting.old.items sent }
    ensures capacity { vec_capacity waiting.new ≡ vec_capacity waiting.old }
{
    waiting.retain(|x| x.sent != sent);
}

// What an Abort is told that withdraws this.
fn tell_abort(alloc: Global, aborts: Option<u32>) -> Reply
    ensures { answer_of result ≡ tells Status.Ok (if is_some aborts then 0 else 1) }
{
    let number = if aborts.is_some() { 0 } else { 1 };
    told(alloc, Status::Ok, number)
}

// Refuses a command that moves bytes, or tells it that there is no memory.
fn tell_moving(
    alloc: Global,
    config: &Config,
    slots: &Slots,
    sets: &Sets,
    command: &Command,
) -> Reply
    requires { IsTrue (moves_bytes command.now) }
    ensures { let s = tables_of slots.now sets.now in (aborts : Option ℕ)
        → IsDoneAtOnce (is_no_memory result.status) config.now s command.now aborts (answer_of result) s }
{
    match check_moving(alloc, config, slots, sets, command) {
        Ok(()) => only(alloc, Status::NoMemory),
        Err(status) => only(alloc, status),
    }
}

// Carries out or refuses a command that changes tables.
fn tell_tables(
    alloc: Global,
    config: &Config,
    slots: &mut Slots,
    sets: &mut Sets,
    command: &Command,
) -> Reply
    requires { IsTrue (changes_tables command.now) }
    ensures { (aborts : Option ℕ) → IsDoneAtOnce (is_no_memory result.status) config.now
        (tables_of slots.old sets.old) command.now aborts (answer_of result) (tables_of slots.new sets.new) }
{
    change_tables(alloc, config, slots, sets, command)
}

// Does a command at once, of which an Abort withdraws this. A command that moves bytes and is not refused is told
// that there is no memory.
fn tell(
    alloc: Global,
    config: &Config,
    slots: &mut Slots,
    sets: &mut Sets,
    command: &Command,
    aborts: Option<u32>,
) -> Reply
    ensures { IsDoneAtOnce (is_no_memory result.status) config.now (tables_of slots.old sets.old) command.now aborts
        (answer_of result) (tables_of slots.new sets.new) }
{
    match command.nature() {
        Nature::Withdraws { .. } => tell_abort(alloc, aborts),
        Nature::Builds | Nature::Arranges | Nature::Deletes { .. } | Nature::Stops { .. } => {
            tell_tables(alloc, config, slots, sets, command)
        }
        Nature::Reads | Nature::Writes | Nature::Copies | Nature::Executes { .. } => {
            tell_moving(alloc, config, slots, sets, command)
        }
    }
}

impl Keep {
    /// Posts the reply to a command that waits, at a place of the trail.
    fn post(&mut self, host: u32, cid: u32, sent: u32, posted: u32)
        requires host { (1 ≤ host) × (host ≤ length self.old.queues.items) }
        requires waits { under (queue_of self.old.queues.items host) cid
            ≡ Some (record { cid = cid; sent = sent; stage = Stage.Queued }) }
        requires room { vec_len self.old.entries < vec_capacity self.old.entries }
        ensures moves { (count : ℕ) → PlacesDiffer (queue_of self.old.queues.items host)
            → PostMoves (parts_of count self.old) (parts_of (posted + 1) self.new) host sent posted
            (tables_of self.old.slots self.old.sets) }
        ensures room { KeepsRoom self.old self.new }
    {
        leave_out(&mut self.waiting, sent);
        post_in(&mut self.queues, host, cid, sent, posted);
        self.entries.push_reserved(EntryPlaces { sent, posted });
    }
}

// Posts the reply to the command that an Abort withdraws, where it withdraws one: at the Abort's own place.
fn post_withdrawn(keep: &mut Keep, trail: &[Event], aborts: Option<u32>, posted: u32)
    requires { IfSome aborts
        (λ place. IsSomeAnd (asked_at (trail_of trail.now) place) (λ asked. CanPost keep.old asked place)) }
    ensures moves { WithdrawMoves (trail_of trail.now) (parts_of (posted + 1) keep.old)
        (parts_of (posted + 1) keep.new) posted aborts }
    ensures room { KeepsRoom keep.old keep.new }
{
    if let Some(place) = aborts {
        let asked = asked_in(trail, place).unwrap();
        keep.post(asked.host, asked.cid, place, posted);
    }
}

/// Does a command that waits and may be picked at once: it is carried out or refused, or told that there is no
/// memory. The answer is its event.
pub(crate) fn do_now(
    keep: &mut Keep,
    alloc: Global,
    config: &Config,
    commands: u32,
    trail: &[Event],
    by: u32,
    x: WaitingSubmit,
) -> Event
    requires held { (spots : ℕ) × Holds config.now commands trail.now spots keep.old }
    requires party { IsParty by }
    requires idle { IsTrue (is_idle (world_of config.now (trail_of trail.now)) by) }
    requires waits { (i : ℕ) × (slice_get keep.old.waiting.items i ≡ Some x) }
    requires may { IsTrue (may_pick_asked config.now (parts_of (length trail.now) keep.old) (asked_at (trail_of trail.now) x.sent)) }
    ensures stands { StandFor config.now commands (parts_of (length trail.now + 1) keep.new)
        (trail_of trail.now ++ told_event result ∷ []) }
    ensures does { IsSomeAnd (asked_at (trail_of trail.now) x.sent) (λ asked. (answer : Answer) × (told_event result
        ≡ event.Do by asked.host asked.ordinal x.sent answer (withdrawn_waiting keep.old.waiting.items x.names))) }
    ensures room { KeepsRoom keep.old keep.new }
{
    let asked = asked_in(trail, x.sent).unwrap();
    let aborts = withdrawn(&keep.waiting, x.names);
    let posted = trail.len() as u32;
    let reply = tell(
        alloc,
        config,
        &mut keep.slots,
        &mut keep.sets,
        asked.command,
        aborts,
    );
    keep.post(asked.host, asked.cid, x.sent, posted);
    post_withdrawn(keep, trail, aborts, posted);
    Event::Do {
        by,
        host: asked.host,
        ordinal: asked.ordinal,
        sent: x.sent,
        reply,
        aborts,
    }
}
