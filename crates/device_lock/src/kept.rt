// What lies behind the lock.
ghost use Rattle.std.specs.Prelude.{◌≡◌, ◌≤◌, [], IfErr, IfOk, ℕ, IsSomeAnd, IsTrue, MatchResult, None, OnErr, OnOk, Some, if◌then◌else◌, length, slice_get};
ghost use Rattle.std.specs.Arc.{arc_value};
ghost use Rattle.cp_base.specs.Answer.{answer_of};
ghost use Rattle.cp_base.specs.declared.limits.TheConstants.{MAX_COMMANDS, MAX_HOSTS};
ghost use Rattle.trail_model.specs.Lawful.{IsLawful, IsParty, is_idle, party_of_event};
ghost use Rattle.trail_model.specs.World.{claim_at, ordinal_after};
ghost use Rattle.trail_model.specs.declared.events.Event.TheVariants as event;
ghost use Rattle.core_model.specs.Causes.{submit_cause, take_answer};
ghost use Rattle.core_model.proofs.Only.{lawful-only};
ghost use Rattle.device_core.specs.Gives.{HasWorked, world_in};
ghost use Rattle.device_core.specs.Recorded.{Appends, with_event};

use cp_base::{Command, Config};
use device_core::{Core, Event as KeptEvent, Picked, SubmitRefused};
use job_run::{Work, Worked};
use queue_pairs::TakeCause;
use seat_lock::Trailed;
use std::sync::Arc;
use trail_model::Event;

/// What no turn of a device changes: its configuration, and how many commands may be submitted in all. Contracts alone speak of
/// it; no value of it is made.
#[derive(Drop)]
pub struct Fixed {
    pub config: Config,
    pub commands: u32,
}

/// The core, whose trail is lawful, and how many events that has.
#[derive(Drop)]
pub(crate) struct Kept {
    core: Core,
    events: u32,
    ghost lawful: { IsLawful core.config core.commands core.trail } by { lawful-only core.config core.commands core.trail },
    ghost few: { core.commands ≤ MAX_COMMANDS },
    ghost counted: { events ≡ length core.trail },
}

/// What a party is given that turns to the first command that may be picked.
pub(crate) enum Given {
    Claimed {
        work: Work,
        claim: u32,
        host: u32,
        ordinal: u32,
    },
    Did,
    Nothing,
    Rested,
}

impl Trailed for Kept {
    type Entry = Event;

    type Fixed = Fixed;

    ghost entries = { λ k. k.core.trail };

    ghost fixed = { λ k. record { config = k.core.config; commands = k.core.commands } };

    ghost party = { λ e. party_of_event e };

    fn length(&self) -> u32 {
        self.events
    }
}

impl Kept {
    ghost use Rattle.device_lock.specs.Given.{GivesFirst};

    /// A core on which nothing has happened.
    pub(crate) fn new(core: Core) -> Kept
        requires empty { core.trail ≡ [] }
        requires few { core.commands ≤ MAX_COMMANDS }
        ensures { result.core ≡ core }
    {
        Kept { core, events: 0 }
    }

    /// The core.
    pub(crate) fn into_core(self) -> Core
        ensures { result ≡ self.core }
    {
        let Kept { core, events: _ } = self;
        core
    }

    /// A host submits a command, as `Core::submit` does.
    pub(crate) fn submit(
        &mut self,
        by: u32,
        cid: u32,
        command: Arc<Command>,
    ) -> Result<u32, SubmitRefused>
        requires { (1 ≤ by) × (by ≤ MAX_HOSTS) }
        ensures checked { MatchResult result
            (λ _. submit_cause self.old.core.config self.old.core.commands (world_in self.old.core) by cid ≡ None)
            (λ refused. submit_cause self.old.core.config self.old.core.commands (world_in self.old.core) by cid ≡ Some refused.cause) }
        ensures place { IfOk result (λ place. place ≡ length self.old.core.trail) }
        ensures submitted { OnOk result (Appends self.old.core self.new.core
            (event.Submit by cid (ordinal_after (world_in self.old.core).submits by) (arc_value command))) }
        ensures unchanged { OnErr result (self.new.core ≡ self.old.core) }
        ensures returned { IfErr result (λ refused. arc_value refused.command ≡ arc_value command) }
    {
        let place = self.core.submit(by, cid, command)?;
        self.events = place + 1;
        Ok(place)
    }

    /// A host takes a reply, as `Core::take` does.
    pub(crate) fn take(&mut self, by: u32, cid: u32) -> Result<u32, TakeCause>
        requires { (1 ≤ by) × (by ≤ MAX_HOSTS) }
        ensures answer { result ≡ take_answer (world_in self.old.core) by cid }
        ensures taken { IfOk result (λ posted. Appends self.old.core self.new.core (event.Take by cid posted)) }
        ensures unchanged { OnErr result (self.new.core ≡ self.old.core) }
    {
        let place = self.core.take(by, cid)?;
        self.events += 1;
        Ok(place)
    }

    /// An idle party turns to the first command that may be picked, as `Core::claim` does.
    pub(crate) fn claim(&mut self, by: u32) -> Given
        requires party { IsParty by }
        requires idle { IsTrue (is_idle (world_in self.old.core) by) }
        ensures { GivesFirst self.old.core by result self.new.core }
    {
        match self.core.claim(by, 0) {
            Picked::Claimed { work, claim } => {
                self.events = claim + 1;
                let (host, ordinal) = command_claimed(&self.core, claim);
                Given::Claimed {
                    work,
                    claim,
                    host,
                    ordinal,
                }
            }
            Picked::Did => {
                self.events += 1;
                Given::Did
            }
            Picked::Nothing => Given::Nothing,
            Picked::Rested => Given::Rested,
        }
    }

    /// A party ends its claim, as `Core::finish` does.
    pub(crate) fn finish(&mut self, by: u32, claim: u32, worked: Worked)
        requires { IsSomeAnd (claim_at (world_in self.old.core).claims claim)
            (λ opened. HasWorked self.old.core by worked opened) }
        ensures { Appends self.old.core self.new.core (event.Finish by claim (answer_of worked.reply)) }
    {
        self.core.finish(by, claim, worked);
        self.events += 1;
    }

    /// A party says that the hosts send nothing more for now, as `Core::rest` does.
    pub(crate) fn rest(&mut self, by: u32)
        requires { IsParty by }
        ensures { self.new.core
            ≡ (if (world_in self.old.core).at_rest then self.old.core else with_event self.old.core (event.Rest by)) }
    {
        self.core.rest(by);
        if self.core.event(self.events).is_some() {
            self.events += 1;
        }
    }
}

// The host and the ordinal of the command that was claimed at a place of the trail.
fn command_claimed(core: &Core, claim: u32) -> (u32, u32)
    requires { (by host ordinal sent : ℕ) × (slice_get core.now.trail claim ≡ Some (event.Claim by host ordinal sent)) }
    ensures { (by host ordinal sent : ℕ) → slice_get core.now.trail claim ≡ Some (event.Claim by host ordinal sent)
        → (result.0 ≡ host) × (result.1 ≡ ordinal) }
{
    match core.event(claim) {
        Some(KeptEvent::Claim { host, ordinal, .. }) => (*host, *ordinal),
        _ => unreachable!("the event is a claim"),
    }
}
