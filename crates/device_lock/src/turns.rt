// The calls of a device. Each is one turn, which adds one event or none.
ghost use Rattle.std.specs.Prelude.{◌≡◌, ◌≤◌};
ghost use Rattle.std.specs.Arc.{arc_value};
ghost use Rattle.cp_base.specs.declared.limits.TheConstants.{MAX_HOSTS};
ghost use Rattle.seat_lock.specs.Passes.{party_in, party_of};
ghost use Rattle.device_lock.specs.Answers.{IsAtRest, IsCompleted, IsOffered, IsOfferedInTry, IsSent, IsTaken, IsTakenInTry};
ghost use Rattle.device_lock.specs.Jobs.{IsDoneOf};
ghost use Rattle.device_lock.specs.Names.{DeviceName};
ghost use Rattle.device_lock.specs.Passes.{DevicePass, IsIdle, IsOfDevice};
ghost use Rattle.device_lock.specs.Turns.{IsTurnOf};

use crate::answers::{Offer, Sent, Taken, TryOffer, TryTaken};
use crate::jobs::{Done, Job};
use crate::kept::{Given, Kept};
use crate::locked::Device;
use crate::parties::Pass;
use cp_base::Command;
use device_core::SubmitRefused;
use seat_lock::{Held, Turn};
use std::sync::{Arc, Wait};

impl Device {
    /// A host submits a command under an identifier. The answer is the place of the submit in the trail; or why there is none,
    /// with the command: `Spent` where as many commands were submitted as may be in all; else `QueueFull` where as many of
    /// the host's commands are outstanding as may be; else `CidBusy` where one of them is outstanding under the identifier.
    pub fn submit<R: Wait>(&self, rt: &R, pass: Pass, cid: u32, command: Arc<Command>) -> Sent
        requires pass { IsOfDevice self.now pass }
        requires host { party_of pass ≤ MAX_HOSTS }
        ensures { IsSent self.entry.now pass cid (arc_value command) result }
    {
        let by = pass.party();
        let mut turn = self.enter(rt, pass);
        let sent = turn.value().submit(by, cid, command);
        let pass = turn.leave();
        match sent {
            Ok(place) => Sent::Placed { pass, place },
            Err(SubmitRefused { cause, command }) => Sent::Refused {
                pass,
                cause,
                command,
            },
        }
    }

    /// A host takes the reply to its command of an identifier. The answer is the place of the trail where the reply stands; or
    /// why there is none: `NotOutstanding` where none of the host's commands is outstanding under the identifier, `NotYet`
    /// where the reply is not posted.
    pub fn take<R: Wait>(&self, rt: &R, pass: Pass, cid: u32) -> Taken
        requires pass { IsOfDevice self.now pass }
        requires host { party_of pass ≤ MAX_HOSTS }
        ensures { IsTaken self.entry.now pass cid result }
    {
        let by = pass.party();
        take_in(self.enter(rt, pass), by, cid)
    }

    /// The same by one try for the turn: `Busy` where another party had it.
    pub fn try_take(&self, pass: Pass, cid: u32) -> TryTaken
        requires pass { IsOfDevice self.now pass }
        requires host { party_of pass ≤ MAX_HOSTS }
        ensures { IsTakenInTry self.entry.now pass cid result }
    {
        let by = pass.party();
        match self.try_enter(pass) {
            Ok(turn) => match take_in(turn, by, cid) {
                Taken::Reply { pass, place } => TryTaken::Reply { pass, place },
                Taken::Refused { pass, cause } => TryTaken::Refused { pass, cause },
            },
            Err(Held { word, pass }) => TryTaken::Busy { pass, word },
        }
    }

    /// An idle party asks for the first command that may be picked, in order of submission. One that moves bytes and passes its
    /// checks is claimed, where there is the memory for it; each other one is done at once.
    pub fn claim<R: Wait>(&self, rt: &R, pass: Pass) -> Offer
        requires pass { IsOfDevice self.now pass }
        requires idle { IsIdle pass }
        ensures { IsOffered self.entry.now pass result }
    {
        let by = pass.party();
        claim_in(self.enter(rt, pass), by)
    }

    /// The same by one try for the turn: `Busy` where another party had it.
    pub fn try_claim(&self, pass: Pass) -> TryOffer
        requires pass { IsOfDevice self.now pass }
        requires idle { IsIdle pass }
        ensures { IsOfferedInTry self.entry.now pass result }
    {
        let by = pass.party();
        match self.try_enter(pass) {
            Ok(turn) => match claim_in(turn, by) {
                Offer::Claimed(job) => TryOffer::Claimed(job),
                Offer::Did(pass) => TryOffer::Did(pass),
                Offer::Nothing(pass) => TryOffer::Nothing(pass),
                Offer::Rested(pass) => TryOffer::Rested(pass),
            },
            Err(Held { word, pass }) => TryOffer::Busy { pass, word },
        }
    }

    /// Ends the claim of a job that was run: the bytes come home, and the reply is posted. Only the claim's own party can end it,
    /// so there is no other answer.
    pub fn complete<R: Wait>(&self, rt: &R, done: Done) -> Pass
        requires { IsDoneOf self.now done }
        ensures { IsCompleted self.entry.now done result }
    {
        let Done {
            pass,
            claim,
            worked,
        } = done;
        let by = pass.party();
        let mut turn = self.enter(rt, pass);
        turn.value().finish(by, claim, worked);
        turn.leave()
    }

    /// A party says that the hosts send nothing more for now, where the device is not at rest already.
    pub fn rest<R: Wait>(&self, rt: &R, pass: Pass) -> Pass
        requires { IsOfDevice self.now pass }
        ensures { IsAtRest self.entry.now pass result }
    {
        let by = pass.party();
        let mut turn = self.enter(rt, pass);
        turn.value().rest(by);
        turn.leave()
    }
}

// The turn of a host that takes a reply.
fn take_in(turn: Turn<'_, Kept>, by: u32, cid: u32) -> Taken
    requires turn { (d : DeviceName) × (p : DevicePass) × IsTurnOf d p turn }
    requires host { (by ≡ party_in turn) × (1 ≤ by) × (by ≤ MAX_HOSTS) }
    ensures { (d : DeviceName) (p : DevicePass) → IsTurnOf d p turn.entry → IsTaken d p cid result }
{
    let mut turn = turn;
    let taken = turn.value().take(by, cid);
    let pass = turn.leave();
    match taken {
        Ok(place) => Taken::Reply { pass, place },
        Err(cause) => Taken::Refused { pass, cause },
    }
}

// The turn of an idle party that asks for a command.
fn claim_in(turn: Turn<'_, Kept>, by: u32) -> Offer
    requires turn { (d : DeviceName) × (p : DevicePass) × IsTurnOf d p turn × IsIdle p }
    requires party { by ≡ party_in turn }
    ensures { (d : DeviceName) (p : DevicePass) → IsTurnOf d p turn.entry → IsIdle p → IsOffered d p result }
{
    let mut turn = turn;
    let given = turn.value().claim(by);
    let pass = turn.leave();
    match given {
        Given::Claimed {
            work,
            claim,
            host,
            ordinal,
        } => Offer::Claimed(Job {
            pass,
            claim,
            host,
            ordinal,
            work,
        }),
        Given::Did => Offer::Did(pass),
        Given::Nothing => Offer::Nothing(pass),
        Given::Rested => Offer::Rested(pass),
    }
}
