// A device with the works of its open claims.
ghost use Rattle.std.specs.Prelude.{◌≡◌, ◌<◌, ◌≤◌, ◌+◌, ◌*◌, [], None, IfOk, IsSomeAnd, IsTrue, OnErr, OnOk, length, slice_get, if◌then◌else◌};
ghost use Rattle.std.specs.Arc.{arc_value};
ghost use Rattle.cp_base.specs.declared.limits.TheConstants.{MAX_COMMANDS, MAX_HOSTS};
ghost use Rattle.core_model.specs.Causes.{submit_cause};
ghost use Rattle.trail_model.specs.Lawful.{IsParty, is_idle};
ghost use Rattle.trail_model.specs.World.{OpenClaim, Submission, outstanding_under, pickable_among};
ghost use Rattle.trail_model.specs.declared.events.Event.TheVariants as event;
ghost use Rattle.device_core.specs.Gives.{world_in};
ghost use Rattle.device_core.specs.Recorded.{with_event};
ghost use Rattle.schedule_model.specs.Deeds.{IsHost};
ghost use Rattle.schedule_model.specs.Schedule.{Action, Ending, Sending, Turning, idle_worker, taking_under};
ghost use Rattle.step_driver.specs.Held.{none_by};
ghost use Rattle.step_driver.specs.Turns.{DoesAction};

#[cfg(test)]
mod tests;

use cp_base::{Command, MAX_HOSTS, NoMemory};
use device_core::{Core, Picked};
use job_run::Work;
use std::alloc::Global;
use std::marker::Model;
use std::sync::Arc;

/// The work of an open claim, with the party that claimed it and the place of the claim in the trail.
#[derive(Drop)]
pub struct Held {
    /// The party that claimed it.
    pub by: u32,
    /// The place of its claim in the trail.
    pub claim: u32,
    /// What is left to do.
    pub work: Work,
}

/// A device, and the works of its open claims in the order of the claims. Contracts see the device by its trail.
#[derive(Drop)]
pub(crate) struct Running {
    core: Core,
    held: Vec<Held>,
}

impl Model for Running {
    ghost use Rattle.device_core.specs.Recorded.{Recorded};
    ghost use Rattle.step_driver.specs.Held.{HoldsWorks};

    ghost Value = { Recorded };

    ghost view = { λ r. r.core };

    ghost invariant = { λ r. HoldsWorks r.core r.held.items };
}

// Whether none of the works is that of a party.
fn none_by(held: &[Held], party: u32) -> bool
    ensures { result ≡ none_by held.now party }
{
    for work in held {
        if work.by == party {
            return false;
        }
    }
    true
}

impl Running {
    /// A device on which nothing has happened, with room for the works of so many workers.
    pub(crate) fn new(alloc: Global, core: Core, workers: u32) -> Result<Running, NoMemory>
        requires few { core.commands ≤ MAX_COMMANDS }
        requires empty { core.trail ≡ [] }
        ensures { IfOk result (λ running. running ≡ core) }
    {
        let held = Vec::with_capacity(alloc, workers as usize)?;
        Ok(Running { core, held })
    }

    /// The device.
    pub(crate) fn core(&self) -> &Core
        ensures { result.now ≡ self.now }
    {
        &self.core
    }

    /// The device alone, when all is done.
    pub(crate) fn into_core(self) -> Core
        ensures { result ≡ self }
    {
        self.core
    }

    /// How many claims are open, at most one for each event.
    pub(crate) fn open(&self) -> usize
        ensures open { result ≡ length (world_in self.now).claims }
        ensures few { result ≤ 5 * MAX_COMMANDS + 1 }
    {
        self.held.len()
    }

    /// The least idle worker of so many.
    pub(crate) fn idle(&self, workers: u32) -> Option<u32>
        requires { workers ≤ MAX_HOSTS }
        ensures { result ≡ idle_worker (world_in self.now) workers }
    {
        let first = MAX_HOSTS + 1;
        for party in first..first + workers {
            if none_by(&self.held, party) {
                return Some(party);
            }
        }
        None
    }

    /// A host sends a command, for which its queue has a place.
    pub(crate) fn send(&mut self, host: u32, cid: u32, command: Arc<Command>)
        requires host { IsHost host }
        requires place { submit_cause self.old.config self.old.commands (world_in self.old) host cid ≡ None }
        ensures { DoesAction self.old self.new (Sending host cid (arc_value command)) }
    {
        let Ok(_) = self.core.submit(host, cid, command) else {
            unreachable!("the queue has a place");
        };
    }

    /// A host takes a reply, which is posted.
    pub(crate) fn take(&mut self, host: u32, cid: u32)
        requires host { IsHost host }
        requires posted { 0 < length (taking_under host cid (outstanding_under (world_in self.old).submits host cid)) }
        ensures { IsSomeAnd (slice_get (taking_under host cid (outstanding_under (world_in self.old).submits host cid)) 0)
            (λ (action : Action). DoesAction self.old self.new action) }
    {
        let Ok(_) = self.core.take(host, cid) else {
            unreachable!("the reply is posted");
        };
    }

    /// Carries out the work of an open claim, which ends so.
    pub(crate) fn finish(&mut self, index: usize)
        requires { index < length (world_in self.old).claims }
        ensures { IsSomeAnd (slice_get (world_in self.old).claims index)
            (λ (claim : OpenClaim). DoesAction self.old self.new (Ending claim)) }
    {
        let held = self.held.remove(index);
        let worked = held.work.run();
        self.core.finish(held.by, held.claim, worked);
    }

    /// An idle party turns to the command number `skip` of those that may be picked.
    ///
    /// # Errors
    ///
    /// `NoMemory` where there is no memory to hold the work. Then nothing changes.
    pub(crate) fn turn(&mut self, by: u32, skip: u64) -> Result<(), NoMemory>
        requires party { IsParty by }
        requires idle { IsTrue (is_idle (world_in self.old) by) }
        requires some { skip < length (pickable_among self.old.config (world_in self.old)) }
        ensures turned { OnOk result (IsSomeAnd (slice_get (pickable_among self.old.config (world_in self.old)) skip)
            (λ (s : Submission). DoesAction self.old self.new (Turning by s))) }
        ensures unchanged { OnErr result (self.new ≡ self.old) }
    {
        self.held.reserve(1)?;
        let number = skip as u32;
        match self.core.claim(by, number) {
            Picked::Claimed { work, claim } => {
                self.held.push_reserved(Held { by, claim, work });
                Ok(())
            }
            Picked::Did => Ok(()),
            Picked::Nothing => unreachable!("so many commands may be picked"),
            Picked::Rested => unreachable!("some command is queued"),
        }
    }

    /// The hosts send nothing more for now, says host 1.
    pub(crate) fn rest(&mut self)
        ensures { self.new ≡ (if (world_in self.old).at_rest then self.old else with_event self.old (event.Rest 1)) }
    {
        self.core.rest(1);
    }
}
