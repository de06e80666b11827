// The parts of a device, by which the world of its trail is found.
ghost use Rattle.std.specs.Prelude.{◌≡◌, ◌+◌, ◌<◌, ◌≤◌, ℕ, None, Some, length, replicate, vec_capacity, vec_len, IfOk, OnOk, OnErr, MatchResult};
ghost use Rattle.cp_base.specs.declared.limits.TheConstants.{MAX_COMMANDS, MAX_HOSTS};
ghost use Rattle.queue_pairs.specs.Outstanding.{send_cause, taken, under};
ghost use Rattle.queue_pairs.specs.Places.{PlacesDiffer};
ghost use Rattle.queue_pairs.specs.declared.command.Outstanding.{Outstanding};
ghost use Rattle.core_model.specs.Moves.{RestMoves, SubmitMoves, TakeMoves, names_in_queue};
ghost use Rattle.core_model.specs.Ties.{AreFirst};
ghost use Rattle.device_core.specs.Keep.{AreQueues, HasRoom, KeepsRoom, next_of, pair_of, parts_of, queue_of};

use crate::queues::{empty_queues, send_to, sent_under, take_from};
use core_model::{ClaimPlaces, EntryPlaces, WaitingSubmit};
use cp_base::{Command, Config, MAX_HOSTS, Nature, NoMemory};
use extents::Extents;
use program_slots::Slots;
use queue_pairs::{Queue, SendCause, TakeCause};
use range_claims::Claims;
use range_sets::Sets;
use std::alloc::Global;

/// How many commands were submitted, and whether the device is at rest. The commands of all hosts that wait, in
/// order of submission. The queues and the ordinals of the next commands, those of host `h` at index `h - 1`. What
/// open claims touch, and the open claims. The bytes at home, the slots and the sets. The entries of the history.
#[derive(Debug, Drop)]
pub(crate) struct Keep {
    pub(crate) submitted: u32,
    pub(crate) at_rest: bool,
    pub(crate) waiting: Vec<WaitingSubmit>,
    pub(crate) queues: Vec<Queue>,
    pub(crate) ordinals: Vec<u32>,
    pub(crate) kept: Claims,
    pub(crate) claims: Vec<ClaimPlaces>,
    pub(crate) store: Extents,
    pub(crate) slots: Slots,
    pub(crate) sets: Sets,
    pub(crate) entries: Vec<EntryPlaces>,
}

// The ordinal of the first command of each host.
fn first_ordinals(alloc: Global) -> Result<Vec<u32>, NoMemory>
    ensures { IfOk result (λ ordinals. ordinals.items ≡ replicate MAX_HOSTS 1) }
{
    let mut ordinals = Vec::new(alloc);
    ordinals.resize(MAX_HOSTS as usize, 1)?;
    Ok(ordinals)
}

// The place of the submit that a host's new command names: of an Abort that of the outstanding command of its
// identifier.
fn named_by(queues: &[Queue], by: u32, command: &Command) -> Option<u32>
    requires { (1 ≤ by) × (by ≤ length queues.now) }
    ensures { result ≡ names_in_queue (queue_of queues.now by) command.now }
{
    match command.nature() {
        Nature::Withdraws { cid } => sent_under(queues, by, cid),
        Nature::Reads
        | Nature::Writes
        | Nature::Copies
        | Nature::Executes { .. }
        | Nature::Builds
        | Nature::Arranges
        | Nature::Deletes { .. }
        | Nature::Stops { .. } => None,
    }
}

impl Keep {
    /// The parts of a new device, with the room for so many commands.
    pub(crate) fn new(alloc: Global, config: &Config, commands: u32) -> Result<Keep, NoMemory>
        ensures first { IfOk result (λ keep. AreFirst config.now (parts_of 0 keep)) }
        ensures room { IfOk result (λ keep. HasRoom config.now.depth commands keep) }
    {
        let waiting = Vec::with_capacity(alloc, commands as usize)?;
        let entries = Vec::with_capacity(alloc, commands as usize)?;
        let queues = empty_queues(alloc, config.depth())?;
        let ordinals = first_ordinals(alloc)?;
        let kept = Claims::new(alloc, 2 * MAX_HOSTS)?;
        let claims = Vec::with_capacity(alloc, 2 * MAX_HOSTS as usize)?;
        let store = Extents::new(alloc, config)?;
        let slots = Slots::new(alloc)?;
        let sets = Sets::new(alloc)?;
        Ok(Keep {
            submitted: 0,
            at_rest: false,
            waiting,
            queues,
            ordinals,
            kept,
            claims,
            store,
            slots,
            sets,
            entries,
        })
    }

    /// The hosts send nothing more for now.
    pub(crate) fn put_to_rest(&mut self)
        ensures moves { (count : ℕ) → RestMoves (parts_of count self.old) (parts_of (count + 1) self.new) }
        ensures room { KeepsRoom self.old self.new }
    {
        self.at_rest = true;
    }

    /// A host submits a command, whose ordinal is the answer. `sent` is the place of the submit.
    pub(crate) fn submit(
        &mut self,
        by: u32,
        cid: u32,
        sent: u32,
        command: &Command,
    ) -> Result<u32, SendCause>
        requires hosts { (1 ≤ by) × (by ≤ length self.old.queues.items) }
        requires ordinals { length self.old.ordinals.items ≡ length self.old.queues.items }
        requires room { vec_len self.old.waiting < vec_capacity self.old.waiting }
        requires few { self.old.submitted < MAX_COMMANDS }
        requires next { next_of self.old.ordinals.items by ≤ MAX_COMMANDS }
        ensures checked { (depth : ℕ) → AreQueues depth self.old.queues.items → MatchResult result
            (λ _. send_cause (pair_of depth (queue_of self.old.queues.items by)) cid ≡ None)
            (λ cause. send_cause (pair_of depth (queue_of self.old.queues.items by)) cid ≡ Some cause) }
        ensures ordinal { IfOk result (λ ordinal. ordinal ≡ next_of self.old.ordinals.items by) }
        ensures moves { OnOk result
            (SubmitMoves (parts_of sent self.old) (parts_of (sent + 1) self.new) by cid command.now) }
        ensures unchanged { OnErr result ((count : ℕ) → parts_of count self.new ≡ parts_of count self.old) }
        ensures room { KeepsRoom self.old self.new }
    {
        let names = named_by(&self.queues, by, command);
        send_to(&mut self.queues, by, cid, sent)?;
        self.waiting.push_reserved(WaitingSubmit { sent, names });
        self.submitted += 1;
        self.at_rest = false;
        let index = by as usize - 1;
        let ordinal = self.ordinals[index];
        self.ordinals[index] = ordinal + 1;
        Ok(ordinal)
    }

    /// A host takes the reply to its command of an identifier: the place where it is posted.
    pub(crate) fn take(&mut self, by: u32, cid: u32) -> Result<u32, TakeCause>
        requires { (1 ≤ by) × (by ≤ length self.old.queues.items) }
        ensures answer { result ≡ taken (under (queue_of self.old.queues.items by) cid) }
        ensures moves { OnOk result ((count : ℕ) (x : Outstanding)
            → under (queue_of self.old.queues.items by) cid ≡ Some x
            → PlacesDiffer (queue_of self.old.queues.items by)
            → TakeMoves (parts_of count self.old) (parts_of (count + 1) self.new) by x.sent) }
        ensures unchanged { OnErr result ((count : ℕ) → parts_of count self.new ≡ parts_of count self.old) }
        ensures room { KeepsRoom self.old self.new }
    {
        take_from(&mut self.queues, by, cid)
    }
}
