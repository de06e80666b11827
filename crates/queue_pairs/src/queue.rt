// The queue itself.
ghost use Rattle.std.specs.Prelude.{◌≡◌, ◌==◌, ◌<◌, ◌≤◌, ℕ, [], length, vec_len, vec_capacity, map, filter, remove, slice_get, slice_set, slice_index_or, find, position, option_map, Some, None, Ok, IsSome, IsSomeAnd, IfOk, IfSome, OnOk, OnErr, MatchResult};
ghost use Rattle.queue_pairs.specs.Outstanding.{CidsDiffer, is_busy, is_first, queued, send_cause, taken, taken_at, under, with_sent, with_stage, without_cid};
ghost use Rattle.queue_pairs.specs.Places.{IsGoneUnder, IsRestagedUnder};

use crate::{Outstanding, Queued, SendCause, Stage, TakeCause};
use cp_base::NoMemory;
use std::alloc::Global;
use std::marker::Model;

/// The outstanding commands of one host, in the order in which it sent them, and how many may be
/// outstanding, its depth. Each command goes from queued to picked to posted, and is let go of when the
/// host takes its answer.
///
/// Memory is taken by `new` alone. Each call goes over the queue at most once.
#[derive(Debug, Drop)]
pub struct Queue {
    depth: u32,
    commands: Vec<Outstanding>,
}

impl Model for Queue {
    ghost use Rattle.std.specs.Prelude.{◌≤◌, vec_len, vec_capacity};
    ghost use Rattle.queue_pairs.specs.Outstanding.{QueuePair, CidsDiffer};

    ghost Value = { QueuePair };

    ghost view = { λ q. record { depth = q.depth; commands = q.commands.items } };

    ghost invariant = { λ q. (q.depth ≤ vec_capacity q.commands) × (vec_len q.commands ≤ q.depth)
        × CidsDiffer q.commands.items };
}

// The index of the command under an identifier.
fn index_of(commands: &[Outstanding], cid: u32) -> Option<usize>
    ensures { result ≡ position (λ command. command.cid == cid) commands.now }
{
    commands.iter().position(|command| command.cid == cid)
}

// Whether a command is outstanding under an identifier.
fn is_busy(commands: &[Outstanding], cid: u32) -> bool
    ensures { result ≡ is_busy commands.now cid }
{
    commands.iter().any(|command| command.cid == cid)
}

// What a host gets that asks for the answer to a command at a stage.
fn taken_at(stage: Stage) -> Result<u32, TakeCause>
    ensures { result ≡ taken_at stage }
{
    match stage {
        Stage::Posted(place) => Ok(place),
        Stage::Queued | Stage::Picked => Err(TakeCause::NotYet),
    }
}

// Whether a command waits to be picked.
fn is_queued(command: &Outstanding) -> bool
    ensures { result ≡ is_first command.now.stage }
{
    matches!(command.stage, Stage::Queued)
}

// Number i of the commands that wait to be picked.
fn queued_at(commands: &[Outstanding], i: u32) -> Option<Queued>
    ensures { result ≡ slice_get (queued commands.now) i }
{
    let mut before = i;
    for command in commands {
        if !is_queued(command) {
            continue;
        }
        if before == 0 {
            return Some(Queued {
                cid: command.cid,
                sent: command.sent,
            });
        }
        before -= 1;
    }
    None
}

// Gives the command under an identifier another stage.
fn restage(commands: &mut Vec<Outstanding>, cid: u32, stage: Stage)
    requires outstanding { IsSome (under commands.old.items cid) }
    requires differ { CidsDiffer commands.old.items }
    ensures staged { commands.new.items ≡ with_stage commands.old.items cid stage }
    ensures capacity { vec_capacity commands.new ≡ vec_capacity commands.old }
    ensures len { vec_len commands.new ≡ vec_len commands.old }
    ensures differ { CidsDiffer commands.new.items }
    ensures by_place { IsRestagedUnder commands.old.items commands.new.items cid stage }
{
    let index = index_of(commands, cid).unwrap();
    commands[index].stage = stage;
}

// Takes the answer to the command under an identifier, which is then let go of.
fn take_from(commands: &mut Vec<Outstanding>, cid: u32) -> Result<u32, TakeCause>
    requires { CidsDiffer commands.old.items }
    ensures answer { result ≡ taken (under commands.old.items cid) }
    ensures taken { OnOk result (commands.new.items ≡ without_cid commands.old.items cid) }
    ensures unchanged { OnErr result (commands.new.items ≡ commands.old.items) }
    ensures capacity { vec_capacity commands.new ≡ vec_capacity commands.old }
    ensures len { vec_len commands.new ≤ vec_len commands.old }
    ensures differ { CidsDiffer commands.new.items }
    ensures by_place { OnOk result (IsGoneUnder commands.old.items commands.new.items cid) }
{
    let Some(index) = index_of(commands, cid) else {
        return Err(TakeCause::NotOutstanding);
    };
    let Ok(place) = taken_at(commands[index].stage) else {
        return Err(TakeCause::NotYet);
    };
    commands.remove(index);
    Ok(place)
}

impl Queue {
    /// An empty queue of a depth, with the room for all its commands.
    pub fn new(alloc: Global, depth: u32) -> Result<Queue, NoMemory>
        ensures { IfOk result (λ queue. queue ≡ record { depth = depth; commands = [] }) }
    {
        let commands = Vec::with_capacity(alloc, depth as usize)?;
        Ok(Queue { depth, commands })
    }

    /// Queues a command under an identifier. `sent` is the place of its submit in the device's trail.
    ///
    /// # Errors
    ///
    /// `QueueFull` where as many commands as the depth are outstanding, else `CidBusy` where one is outstanding
    /// under the identifier. Then nothing changes.
    pub fn send(&mut self, cid: u32, sent: u32) -> Result<(), SendCause>
        ensures checked { MatchResult result
            (λ _. send_cause self.old cid ≡ None)
            (λ cause. send_cause self.old cid ≡ Some cause) }
        ensures queued { OnOk result (self.new ≡ record self.old { commands = with_sent self.old.commands cid sent }) }
        ensures unchanged { OnErr result (self.new ≡ self.old) }

        ensures cids_differ { CidsDiffer self.new.commands }
    {
        if self.commands.len() >= self.depth as usize {
            return Err(SendCause::QueueFull);
        }
        if is_busy(&self.commands, cid) {
            return Err(SendCause::CidBusy);
        }
        self.commands.push_reserved(Outstanding {
            cid,
            sent,
            stage: Stage::Queued,
        });
        Ok(())
    }

    /// Number `i`, from 0, of the commands that wait to be picked, in the order in which they were sent.
    /// `None` where not so many wait. It goes over the queue from its front to the command, so asking for
    /// all of them one by one costs the square of their number.
    pub fn next(&self, i: u32) -> Option<Queued>
        ensures value { result ≡ slice_get (queued self.now.commands) i }
        ensures cids_differ { CidsDiffer self.now.commands }
    {
        queued_at(&self.commands, i)
    }

    /// The command that is outstanding under an identifier: the place of its submit, and how far it has
    /// come. `None` where none is.
    pub fn get(&self, cid: u32) -> Option<Outstanding>
        ensures value { result ≡ under self.now.commands cid }
        ensures cids_differ { CidsDiffer self.now.commands }
    {
        let index = index_of(&self.commands, cid)?;
        Some(self.commands[index])
    }

    /// Picks the command of an identifier, which waits for that.
    pub fn pick(&mut self, cid: u32)
        requires { IsSomeAnd (under self.old.commands cid) (λ command. command.stage ≡ Stage.Queued) }
        ensures picked { self.new ≡ record self.old { commands = with_stage self.old.commands cid Stage.Picked } }

        ensures by_place { IsRestagedUnder self.old.commands self.new.commands cid Stage.Picked }
        ensures cids_differ { CidsDiffer self.new.commands }
    {
        restage(&mut self.commands, cid, Stage::Picked);
    }

    /// Posts the answer to the command of an identifier, which was picked, at a place of the device's trail.
    pub fn post(&mut self, cid: u32, place: u32)
        requires { IsSomeAnd (under self.old.commands cid) (λ command. command.stage ≡ Stage.Picked) }
        ensures posted { self.new
            ≡ record self.old { commands = with_stage self.old.commands cid (Stage.Posted place) } }

        ensures by_place { IsRestagedUnder self.old.commands self.new.commands cid (Stage.Posted place) }
        ensures cids_differ { CidsDiffer self.new.commands }
    {
        restage(&mut self.commands, cid, Stage::Posted(place));
    }

    /// Takes the answer to the command of an identifier: the place where it is posted. The command is then
    /// outstanding no more.
    ///
    /// # Errors
    ///
    /// `NotOutstanding` where no command is outstanding under the identifier, `NotYet` where its answer is not
    /// posted. Then nothing changes.
    pub fn take(&mut self, cid: u32) -> Result<u32, TakeCause>
        ensures answer { result ≡ taken (under self.old.commands cid) }
        ensures taken { OnOk result (self.new ≡ record self.old { commands = without_cid self.old.commands cid }) }
        ensures unchanged { OnErr result (self.new ≡ self.old) }

        ensures by_place { OnOk result (IsGoneUnder self.old.commands self.new.commands cid) }
        ensures cids_differ { CidsDiffer self.new.commands }
    {
        take_from(&mut self.commands, cid)
    }
}
