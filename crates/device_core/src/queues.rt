// The queues of all hosts, of which that of host `h` stands at index `h - 1`.
ghost use Rattle.std.specs.Prelude.{◌≡◌, ◌≤◌, ℕ, [], None, Some, length, option_map, replicate, IfOk, OnOk, OnErr, MatchResult};
ghost use Rattle.cp_base.specs.declared.limits.TheConstants.{MAX_HOSTS};
ghost use Rattle.queue_pairs.specs.Outstanding.{CidsDiffer, send_cause, taken, under, with_sent};
ghost use Rattle.queue_pairs.specs.Places.{PlacesDiffer, restaged, without_sent};
ghost use Rattle.queue_pairs.specs.declared.command.Outstanding.{Outstanding};
ghost use Rattle.device_core.specs.Keep.{AreQueues, OnlyQueue, pair_of, queue_of};

use cp_base::{MAX_HOSTS, NoMemory};
use queue_pairs::{Queue, SendCause, Stage, TakeCause};
use std::alloc::Global;

/// An empty queue of a depth for each host.
pub(crate) fn empty_queues(alloc: Global, depth: u32) -> Result<Vec<Queue>, NoMemory>
    ensures { IfOk result (λ queues. queues.items ≡ replicate MAX_HOSTS (pair_of depth [])) }
{
    let mut queues = Vec::with_capacity(alloc, MAX_HOSTS as usize)?;
    for _ in 0..MAX_HOSTS {
        queues.push(Queue::new(alloc, depth)?)?;
    }
    Ok(queues)
}

/// Queues a command of a host.
pub(crate) fn send_to(
    queues: &mut Vec<Queue>,
    host: u32,
    cid: u32,
    sent: u32,
) -> Result<(), SendCause>
    requires { (1 ≤ host) × (host ≤ length queues.old.items) }
    ensures checked { (depth : ℕ) → AreQueues depth queues.old.items → MatchResult result
        (λ _. send_cause (pair_of depth (queue_of queues.old.items host)) cid ≡ None)
        (λ cause. send_cause (pair_of depth (queue_of queues.old.items host)) cid ≡ Some cause) }
    ensures sent { OnOk result (OnlyQueue queues.old.items queues.new.items host
        (with_sent (queue_of queues.old.items host) cid sent)) }
    ensures unchanged { OnErr result (queues.new.items ≡ queues.old.items) }
    ensures queues { (depth : ℕ) → AreQueues depth queues.old.items → AreQueues depth queues.new.items }
{
    let queue = &mut queues[host as usize - 1];
    queue.send(cid, sent)
}

/// Takes the reply to a command of a host: the place where it is posted.
pub(crate) fn take_from(queues: &mut Vec<Queue>, host: u32, cid: u32) -> Result<u32, TakeCause>
    requires { (1 ≤ host) × (host ≤ length queues.old.items) }
    ensures answer { result ≡ taken (under (queue_of queues.old.items host) cid) }
    ensures gone { OnOk result ((x : Outstanding) → under (queue_of queues.old.items host) cid ≡ Some x
        → PlacesDiffer (queue_of queues.old.items host)
        → OnlyQueue queues.old.items queues.new.items host (without_sent (queue_of queues.old.items host) x.sent)) }
    ensures unchanged { OnErr result (queues.new.items ≡ queues.old.items) }
    ensures queues { (depth : ℕ) → AreQueues depth queues.old.items → AreQueues depth queues.new.items }
{
    let queue = &mut queues[host as usize - 1];
    queue.take(cid)
}

/// The place of the submit of a host's outstanding command under an identifier.
pub(crate) fn sent_under(queues: &[Queue], host: u32, cid: u32) -> Option<u32>
    requires { (1 ≤ host) × (host ≤ length queues.now) }
    ensures { result ≡ option_map (λ command. command.sent) (under (queue_of queues.now host) cid) }
{
    let command = queues[host as usize - 1].get(cid)?;
    Some(command.sent)
}

/// The place where the reply to a host's command of an identifier is posted, to be taken.
pub(crate) fn posted_under(queues: &[Queue], host: u32, cid: u32) -> Result<u32, TakeCause>
    requires { (1 ≤ host) × (host ≤ length queues.now) }
    ensures { result ≡ taken (under (queue_of queues.now host) cid) }
{
    let Some(command) = queues[host as usize - 1].get(cid) else {
        return Err(TakeCause::NotOutstanding);
    };
    match command.stage {
        Stage::Posted(place) => Ok(place),
        Stage::Queued | Stage::Picked => Err(TakeCause::NotYet),
    }
}

/// Posts the reply to a host's command that waits, at a place of the trail.
pub(crate) fn post_in(queues: &mut Vec<Queue>, host: u32, cid: u32, sent: u32, posted: u32)
    requires host { (1 ≤ host) × (host ≤ length queues.old.items) }
    requires waits { under (queue_of queues.old.items host) cid
        ≡ Some (record { cid = cid; sent = sent; stage = Stage.Queued }) }
    ensures posted { PlacesDiffer (queue_of queues.old.items host)
        → OnlyQueue queues.old.items queues.new.items host
        (restaged (queue_of queues.old.items host) sent (Stage.Posted posted)) }
    ensures queues { (depth : ℕ) → AreQueues depth queues.old.items → AreQueues depth queues.new.items }
{
    let queue = &mut queues[host as usize - 1];
    post_to(queue, cid, sent, posted);
}

// Posts the reply to a command that waits, which is picked and done at once.
#[tactic(auto, using(crate::proofs::Restaged::under_restaged))]
fn post_to(queue: &mut Queue, cid: u32, sent: u32, posted: u32)
    requires { under queue.old.commands cid ≡ Some (record { cid = cid; sent = sent; stage = Stage.Queued }) }
    ensures depth { queue.new.depth ≡ queue.old.depth }
    ensures posted { PlacesDiffer queue.old.commands
        → queue.new.commands ≡ restaged queue.old.commands sent (Stage.Posted posted) }
    ensures cids_differ { CidsDiffer queue.new.commands }
{
    queue.pick(cid);
    queue.post(cid, posted);
}

/// Posts the reply to a host's command that was claimed, at a place of the trail.
pub(crate) fn post_claimed(queues: &mut Vec<Queue>, host: u32, cid: u32, sent: u32, posted: u32)
    requires host { (1 ≤ host) × (host ≤ length queues.old.items) }
    requires claimed { under (queue_of queues.old.items host) cid
        ≡ Some (record { cid = cid; sent = sent; stage = Stage.Picked }) }
    ensures posted { PlacesDiffer (queue_of queues.old.items host)
        → OnlyQueue queues.old.items queues.new.items host
        (restaged (queue_of queues.old.items host) sent (Stage.Posted posted)) }
    ensures queues { (depth : ℕ) → AreQueues depth queues.old.items → AreQueues depth queues.new.items }
{
    let queue = &mut queues[host as usize - 1];
    post_picked(queue, cid, sent, posted);
}

// Posts the reply to a command that was picked.
fn post_picked(queue: &mut Queue, cid: u32, sent: u32, posted: u32)
    requires { under queue.old.commands cid ≡ Some (record { cid = cid; sent = sent; stage = Stage.Picked }) }
    ensures depth { queue.new.depth ≡ queue.old.depth }
    ensures posted { PlacesDiffer queue.old.commands
        → queue.new.commands ≡ restaged queue.old.commands sent (Stage.Posted posted) }
    ensures cids_differ { CidsDiffer queue.new.commands }
{
    queue.post(cid, posted);
}
