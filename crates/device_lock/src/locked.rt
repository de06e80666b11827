// The device, and how it begins and ends.
ghost use Rattle.std.specs.Prelude.{◌≡◌, ◌≤◌, ◌+◌, [], ℕ, All, IfErr, IfOk, Some};
ghost use Rattle.cp_base.specs.declared.limits.TheConstants.{MAX_COMMANDS, MAX_HOSTS};
ghost use Rattle.seat_lock.specs.Passes.{HaveMet, at_home, lost_by, made_by, seats_in, seen_by};
ghost use Rattle.seat_lock.specs.Trails.{BeginsWith, FitsTrail};
ghost use Rattle.trail_model.specs.Lawful.{IsLawful, party_of_event};
ghost use Rattle.device_lock.specs.Passes.{AreAllOfDevice, AreIdle, IsBackBusy, IsOfDevice};
ghost use Rattle.device_lock.specs.Turns.{IsTurnOf};

use crate::kept::{Fixed, Kept};
use crate::parties::{Pass, Passes};
use cp_base::{MAX_HOSTS, NoMemory};
use crossbeam_utils::CachePadded;
use device_core::Core;
use seat_lock::{Held, SeatLock, Turn};
use std::alloc::Global;
use std::marker::Model;
use std::snapshot::Snapshot;
use std::sync::Wait;
use trail_model::Event;

/// A device that parties share, each with its pass. Contracts see which device it is.
#[derive(Drop)]
pub struct Device {
    first: Snapshot<Core>,
    lock: CachePadded<SeatLock<Kept>>,
}

impl Model for Device {
    ghost use Rattle.std.specs.Prelude.{◌≡◌};
    ghost use Rattle.device_lock.specs.Names.{DeviceName, device_named, held_lock, lock_of_device};

    ghost Value = { DeviceName };

    ghost view = { λ d. device_named d.first.value d.lock };

    ghost invariant = { λ d. held_lock d.lock ≡ lock_of_device (device_named d.first.value d.lock) };
}

impl Device {
    /// The device of a core on which nothing has happened, for so many workers, and a pass for each of its parties: the hosts 1 to
    /// 16, and the workers from 17 on.
    ///
    /// # Errors
    ///
    /// `NoMemory` where there is no memory for the lock and the passes. No other call but `claim` and `try_claim` takes any.
    pub fn new(alloc: Global, core: Core, workers: u32) -> Result<(Device, Passes), NoMemory>
        requires empty { core.trail ≡ [] }
        requires commands { core.commands ≤ MAX_COMMANDS }
        requires workers { (1 ≤ workers) × (workers ≤ MAX_HOSTS) }
        ensures device { IfOk result (λ r. (r.0.config ≡ core.config) × (r.0.commands ≡ core.commands)) }
        ensures seats { IfOk result (λ r. seats_in r.1 ≡ MAX_HOSTS + workers) }
        ensures all { IfOk result (λ r. AreAllOfDevice r.0 r.1) }
        ensures idle { IfOk result (λ r. AreIdle r.1) }
        ensures new { IfOk result
            (λ r. (n : ℕ) (p : _) → at_home r.1 n ≡ Some p → (seen_by p ≡ []) × (made_by p ≡ []) × (lost_by p ≡ [])) }
    {
        let first = Snapshot::of(&core);
        let (lock, passes) = SeatLock::new(alloc, Kept::new(core), MAX_HOSTS + workers)?;
        let lock = CachePadded::new(lock);
        Ok((Device { first, lock }, passes))
    }

    /// All passes meet, which are at home: then all have seen the same trail. It adds no event, and takes no memory.
    pub fn meet<R: Wait>(&self, rt: &R, passes: &mut Passes)
        requires { AreAllOfDevice self.now passes.old }
        ensures all { AreAllOfDevice self.entry.now passes.new }
        ensures met { HaveMet passes.new }
        ensures seen { (n : ℕ) (p q : _) → at_home passes.old n ≡ Some p → at_home passes.new n ≡ Some q
            → BeginsWith (seen_by q) (seen_by p) }
        ensures made { (n : ℕ) (p q : _) → at_home passes.old n ≡ Some p → at_home passes.new n ≡ Some q
            → made_by q ≡ made_by p }
        ensures lost { (n : ℕ) (p q : _) → at_home passes.old n ≡ Some p → at_home passes.new n ≡ Some q
            → BeginsWith (lost_by q) (lost_by p) }
    {
        self.lock.meet(rt, passes);
    }

    /// The core, with all that happened. It takes no memory and waits for nobody.
    pub fn close(self, passes: Passes) -> Core
        requires { AreAllOfDevice self passes }
        ensures device { (result.config ≡ self.config) × (result.commands ≡ self.commands) }
        ensures lawful { IsLawful self.config self.commands result.trail }
        ensures fits { (n : ℕ) (p : _) → at_home passes n ≡ Some p
            → FitsTrail party_of_event n (seen_by p) (made_by p) result.trail }
        ensures makers { All (λ e. (1 ≤ party_of_event e) × (party_of_event e ≤ seats_in passes)) result.trail }
    {
        let Device { first: _, lock } = self;
        lock.into_inner().close(passes).into_core()
    }

    /// Tries until the pass has the turn.
    pub(crate) fn enter<R: Wait>(&self, rt: &R, pass: Pass) -> Turn<'_, Kept>
        requires { IsOfDevice self.now pass }
        ensures { IsTurnOf self.entry.now pass result }
    {
        self.lock.enter(rt, pass)
    }

    /// One try for the turn.
    pub(crate) fn try_enter(&self, pass: Pass) -> Result<Turn<'_, Kept>, Held<Event, Fixed>>
        requires { IsOfDevice self.now pass }
        ensures turn { IfOk result (λ t. IsTurnOf self.entry.now pass t) }
        ensures held { IfErr result (λ h. IsBackBusy self.entry.now pass h.pass h.word) }
    {
        self.lock.try_enter(pass)
    }
}
