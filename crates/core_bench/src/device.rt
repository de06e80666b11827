//! A device with the works of its open claims.
ghost use Rattle.std.specs.Prelude.{◌≡◌, ◌≤◌, ◌+◌, [], ◌∷◌, ◌++◌, IfSome, IsTrue, if◌then◌else◌};
ghost use Rattle.std.specs.Arc.{arc_value};
ghost use Rattle.cp_base.specs.declared.limits.TheConstants.{MAX_COMMANDS};
ghost use Rattle.schedule_model.specs.Deeds.{IsHost};
ghost use Rattle.trail_model.specs.Lawful.{IsLawful, IsParty, is_idle};
ghost use Rattle.device_core.specs.Gives.{world_in};
ghost use Rattle.step_driver.specs.Held.{none_by};
ghost use Rattle.core_bench.specs.Progress.{IsLater, open_on, over_on, sent_as, sent_on};

use cp_base::{Command, Config, MAX_HOSTS};
use device_core::{Core, Picked};
use std::alloc::Global;
use std::marker::Model;
use std::sync::Arc;
use step_driver::Held;

/// A device, and the works of its open claims in the order of the claims. Contracts see the device by its trail.
#[derive(Drop)]
pub struct Device {
    core: Core,
    held: Vec<Held>,
}

impl Model for Device {
    ghost use Rattle.device_core.specs.Recorded.{Recorded};
    ghost use Rattle.step_driver.specs.Held.{HoldsWorks};

    ghost Value = { Recorded };

    ghost view = { λ d. d.core };

    ghost invariant = { λ d. HoldsWorks d.core d.held.items };
}

// Whether none of the works is that of a party.
fn none_by(held: &[Held], party: u32) -> bool
    ensures { result ≡ none_by held.now party }
{
    for work in held {
        if work.by == party {
            return false;
        }
    }
    true
}

impl Device {
    // A device on which nothing has happened, with room for the works of all hosts.
    fn of(alloc: Global, core: Core) -> Option<Device>
        requires few { core.commands ≤ MAX_COMMANDS }
        requires empty { core.trail ≡ [] }
        ensures { IfSome result (λ device. device ≡ core) }
    {
        let held = Vec::with_capacity(alloc, MAX_HOSTS as usize).ok()?;
        Some(Device { core, held })
    }

    /// A device on which nothing has happened, for so many commands in all. `None` where there is no memory.
    pub fn new(alloc: Global, config: &Config, commands: u32) -> Option<Device>
        requires { commands ≤ MAX_COMMANDS }
        ensures { IfSome result (λ device. device ≡ record { config = config.now; commands = commands; trail = [] }) }
    {
        let core = Core::new(alloc, config, commands).ok()?;
        Device::of(alloc, core)
    }

    /// How many commands are over.
    pub fn over(&self) -> u32
        ensures over { result ≡ over_on self.now }
        ensures lawful { IsLawful self.now.config self.now.commands self.now.trail }
    {
        self.core.ended()
    }

    /// A host submits a command. Whether its queue had a place for it.
    pub fn submit(&mut self, host: u32, cid: u32, command: Arc<Command>) -> bool
        requires { IsHost host }
        ensures later { IsLater self.old self.new }
        ensures sent { sent_on self.new
            ≡ (if result then sent_on self.old ++ sent_as host cid (arc_value command) ∷ [] else sent_on self.old) }
        ensures open { open_on self.new ≡ open_on self.old }
        ensures over { over_on self.new ≡ over_on self.old }
    {
        self.core.submit(host, cid, command).is_ok()
    }

    // An idle party claims the first command that may be picked. Whether it did.
    fn claim_idle(&mut self, by: u32) -> bool
        requires party { IsParty by }
        requires idle { IsTrue (is_idle (world_in self.old) by) }
        ensures later { IsLater self.old self.new }
        ensures sent { sent_on self.new ≡ sent_on self.old }
        ensures open { IsTrue result → open_on self.new ≡ open_on self.old + 1 }
        ensures over { IsTrue result → over_on self.new ≡ over_on self.old }
    {
        let Ok(()) = self.held.reserve(1) else {
            return false;
        };
        match self.core.claim(by, 0) {
            Picked::Claimed { work, claim } => {
                self.held.push_reserved(Held { by, claim, work });
                true
            }
            Picked::Did => false,
            Picked::Nothing => false,
            Picked::Rested => false,
        }
    }

    /// A party claims the first command that may be picked. Whether it did: not where it has an open claim already, where no
    /// command may be picked, where that one is done at once, and where there is no memory.
    pub fn claim(&mut self, by: u32) -> bool
        requires { IsParty by }
        ensures later { IsLater self.old self.new }
        ensures sent { sent_on self.new ≡ sent_on self.old }
        ensures open { IsTrue result → open_on self.new ≡ open_on self.old + 1 }
        ensures over { IsTrue result → over_on self.new ≡ over_on self.old }
    {
        none_by(&self.held, by) && self.claim_idle(by)
    }

    /// Carries out the work of the first open claim, which ends so. Whether there was one.
    pub fn finish(&mut self) -> bool
        ensures later { IsLater self.old self.new }
        ensures sent { sent_on self.new ≡ sent_on self.old }
        ensures open { IsTrue result → open_on self.new + 1 ≡ open_on self.old }
        ensures over { over_on self.new ≡ over_on self.old + (if result then 1 else 0) }
    {
        if self.held.is_empty() {
            return false;
        }
        let held = self.held.remove(0);
        let worked = held.work.run();
        self.core.finish(held.by, held.claim, worked);
        true
    }

    /// A host takes a reply. Whether it was posted.
    pub fn take(&mut self, host: u32, cid: u32) -> bool
        requires { IsHost host }
        ensures later { IsLater self.old self.new }
        ensures sent { sent_on self.new ≡ sent_on self.old }
        ensures open { open_on self.new ≡ open_on self.old }
        ensures over { over_on self.new ≡ over_on self.old }
    {
        self.core.take(host, cid).is_ok()
    }
}
