// The core itself.
ghost use Rattle.std.specs.Prelude.{◌≡◌, ◌≤◌, [], ℕ, None, Ok, Some, IsSome, IsSomeAnd, IsTrue, length, if◌then◌else◌, IfErr, IfOk, OnErr, OnOk, MatchResult, option_copied, option_map, slice_get};
ghost use Rattle.std.specs.Arc.{arc_value};
ghost use Rattle.cp_base.specs.Answer.{answer_of};
ghost use Rattle.cp_base.specs.Growth.{Appended};
ghost use Rattle.cp_base.specs.Contents.{bytes_in};
ghost use Rattle.cp_base.specs.Sharing.{IsIn};
ghost use Rattle.cp_base.specs.declared.region.SpaceId.{SpaceId};
ghost use Rattle.cp_base.specs.declared.limits.TheConstants.{MAX_COMMANDS, MAX_HOSTS};
ghost use Rattle.trail_model.specs.Lawful.{IsLawful, IsParty, history_of, is_idle, world_of};
ghost use Rattle.trail_model.specs.World.{claim_at, home, ordinal_after, pickable_among};
ghost use Rattle.trail_model.specs.declared.events.Event.TheVariants as event;
ghost use Rattle.core_model.specs.Causes.{submit_cause, take_answer};
ghost use Rattle.device_core.specs.Gives.{Gives, HasWorked, ended_as_shown, ended_by, world_in};
ghost use Rattle.device_core.specs.Recorded.{Appends, told_event, with_event};

use crate::Event;
use crate::answers::{EntryRef, Picked};
use crate::claiming::{Turned, turn};
use crate::entries::{Withdrawn, entry_at, entry_in};
use crate::finishing::bring_home;
use crate::keep::Keep;
use crate::picking::count_pickable;
use crate::queues::posted_under;
use cp_base::{ByteRange, Bytes, Command, Config, NoMemory, SpaceId};
use job_run::Worked;
use queue_pairs::{SendCause, TakeCause};
use std::alloc::Global;
use std::marker::Model;
use std::sync::Arc;

/// A submit that was refused: why, and the command, which is handed back.
#[derive(Debug, Drop)]
pub struct SubmitRefused {
    pub cause: SendCause,
    pub command: Arc<Command>,
}

/// The core of a device. Contracts see its configuration, how many commands may be submitted in all, and the
/// trail of all events.
#[derive(Debug, Drop)]
pub struct Core {
    alloc: Global,
    config: Config,
    commands: u32,
    trail: Vec<Event>,
    keep: Keep,
    withdrawn: Withdrawn,
}

impl Model for Core {
    ghost use Rattle.std.specs.Vec.{vec_capacity};
    ghost use Rattle.device_core.specs.Recorded.{Recorded, trail_of};
    ghost use Rattle.device_core.specs.Keep.{Holds};

    ghost Value = { Recorded };

    ghost view = { λ core. record { config = core.config; commands = core.commands; trail = trail_of core.trail.items } };

    ghost invariant = { λ core. Holds core.config core.commands core.trail.items (vec_capacity core.trail) core.keep };
}

impl Core {
    /// A new device, for so many commands in all. It takes the memory for its trail and its queues here, so that only
    /// `claim` takes more.
    pub fn new(alloc: Global, config: &Config, commands: u32) -> Result<Core, NoMemory>
        requires { commands ≤ MAX_COMMANDS }
        ensures { IfOk result (λ core. core ≡ record { config = config.now; commands = commands; trail = [] }) }
    {
        let keep = Keep::new(alloc, config, commands)?;
        let trail = Vec::with_capacity(alloc, 5 * commands as usize + 1)?;
        Ok(Core {
            alloc,
            config: *config,
            commands,
            trail,
            keep,
            withdrawn: Withdrawn::new(alloc),
        })
    }

    /// A host submits a command under an identifier. The answer is the place of the submit in the trail.
    ///
    /// # Errors
    ///
    /// `Spent` where as many commands were submitted as may be in all; else `QueueFull` where as many of the
    /// host's commands are outstanding as may be; else `CidBusy` where one of them is outstanding under the
    /// identifier. Then nothing changes, and the command is handed back.
    pub fn submit(&mut self, by: u32, cid: u32, command: Arc<Command>) -> Result<u32, SubmitRefused>
        requires { (1 ≤ by) × (by ≤ MAX_HOSTS) }
        ensures checked { MatchResult result
            (λ _. submit_cause self.old.config self.old.commands (world_of self.old.config self.old.trail) by cid ≡ None)
            (λ refused. submit_cause self.old.config self.old.commands (world_of self.old.config self.old.trail) by cid
            ≡ Some refused.cause) }
        ensures place { IfOk result (λ place. place ≡ length self.old.trail) }
        ensures submitted { OnOk result (Appends self.old self.new (event.Submit by cid
            (ordinal_after (world_of self.old.config self.old.trail).submits by) (arc_value command))) }
        ensures unchanged { OnErr result (self.new ≡ self.old) }
        ensures returned { IfErr result (λ refused. arc_value refused.command ≡ arc_value command) }
        ensures lawful { IsLawful self.new.config self.new.commands self.new.trail }
    {
        if self.keep.submitted >= self.commands {
            return Err(SubmitRefused {
                cause: SendCause::Spent,
                command,
            });
        }
        let sent = self.trail.len() as u32;
        match self.keep.submit(by, cid, sent, &command) {
            Ok(ordinal) => {
                self.trail.push_reserved(Event::Submit {
                    by,
                    cid,
                    ordinal,
                    command,
                });
                Ok(sent)
            }
            Err(cause) => Err(SubmitRefused { cause, command }),
        }
    }

    /// A host takes the reply to its command of an identifier. The answer is the place in the trail where the
    /// reply stands.
    ///
    /// # Errors
    ///
    /// `NotOutstanding` where none of the host's commands is outstanding under the identifier, `NotYet` where the
    /// reply is not posted. Then nothing changes.
    pub fn take(&mut self, by: u32, cid: u32) -> Result<u32, TakeCause>
        requires { (1 ≤ by) × (by ≤ MAX_HOSTS) }
        ensures answer { result ≡ take_answer (world_of self.old.config self.old.trail) by cid }
        ensures taken { IfOk result (λ posted. Appends self.old self.new (event.Take by cid posted)) }
        ensures unchanged { OnErr result (self.new ≡ self.old) }
        ensures lawful { IsLawful self.new.config self.new.commands self.new.trail }
    {
        let posted = self.keep.take(by, cid)?;
        self.trail.push_reserved(Event::Take { by, cid, posted });
        Ok(posted)
    }

    /// A party says that the hosts send nothing more for now, where the device is not at rest already.
    pub fn rest(&mut self, by: u32)
        requires { IsParty by }
        ensures rested { self.new ≡ (if (world_of self.old.config self.old.trail).at_rest then self.old
            else with_event self.old (event.Rest by)) }
        ensures lawful { IsLawful self.new.config self.new.commands self.new.trail }
    {
        if self.keep.at_rest {
            return;
        }
        self.keep.put_to_rest();
        self.trail.push_reserved(Event::Rest { by });
    }

    /// The byte at a place of a namespace. `None` where it is out for an open claim, and where the place is outside.
    pub fn byte(&self, space: SpaceId, at: u64) -> Option<u8>
        ensures { result ≡ home self.now.config (world_of self.now.config self.now.trail) space at }
    {
        self.keep.store.byte(space, at)
    }

    /// How many commands are over: so many entries the history has.
    pub fn ended(&self) -> u32
        ensures { result ≡ length (history_of self.now.config self.now.trail) }
    {
        self.keep.entries.len() as u32
    }

    /// The event at a place of the trail. `None` where the trail does not go so far.
    pub fn event(&self, place: u32) -> Option<&Event>
        ensures { option_map told_event (option_copied result) ≡ slice_get self.now.trail place }
    {
        self.trail.get(place as usize)
    }

    /// The place in the trail where the reply to a host's command of an identifier stands, which stays there to be taken.
    ///
    /// # Errors
    ///
    /// As for `take`.
    pub fn posted(&self, by: u32, cid: u32) -> Result<u32, TakeCause>
        requires { (1 ≤ by) × (by ≤ MAX_HOSTS) }
        ensures { result ≡ take_answer (world_of self.now.config self.now.trail) by cid }
    {
        posted_under(&self.keep.queues, by, cid)
    }

    /// How many queued commands may be picked.
    pub fn pickable(&self) -> u32
        ensures { result ≡ length (pickable_among self.now.config (world_in self.now)) }
    {
        count_pickable(self.alloc, &self.config, &self.keep, &self.trail) as u32
    }

    /// A party without an open claim turns to the command number `skip`, from 0 in order of submission, of those that may
    /// be picked. One that moves bytes and passes its checks is claimed, where there is the memory for it; each other one is
    /// done at once.
    pub fn claim(&mut self, by: u32, skip: u32) -> Picked
        requires party { IsParty by }
        requires idle { IsTrue (is_idle (world_in self.old) by) }
        ensures gives { Gives self.old by skip result self.new }
        ensures lawful { IsLawful self.new.config self.new.commands self.new.trail }
    {
        let claim = self.trail.len() as u32;
        match turn(
            &mut self.keep,
            self.alloc,
            &self.config,
            self.commands,
            &self.trail,
            by,
            skip,
        ) {
            Turned::Claimed(event, work) => {
                self.trail.push_reserved(event);
                Picked::Claimed { work, claim }
            }
            Turned::Did(event) => {
                self.trail.push_reserved(event);
                Picked::Did
            }
            Turned::Nothing => Picked::Nothing,
            Turned::Rested => Picked::Rested,
        }
    }

    /// A party finishes the open claim that it made at a place of the trail: the bytes come home, and the reply is posted.
    pub fn finish(&mut self, by: u32, claim: u32, worked: Worked)
        requires { IsSomeAnd (claim_at (world_in self.old).claims claim)
            (λ opened. HasWorked self.old by worked opened) }
        ensures finished { Appends self.old self.new (event.Finish by claim (answer_of worked.reply)) }
        ensures lawful { IsLawful self.new.config self.new.commands self.new.trail }
    {
        let Worked { pieces, reply } = worked;
        bring_home(&mut self.keep, &self.trail, claim, pieces);
        self.trail.push_reserved(Event::Finish { by, claim, reply });
    }

    /// The entry of a number of the history, from 0. `None` where the history does not go so far.
    pub fn entry(&self, k: u32) -> Option<EntryRef<'_>>
        ensures { option_map ended_as_shown result
            ≡ option_map ended_by (slice_get (history_of self.now.config self.now.trail) k) }
    {
        let entry = entry_at(&self.keep.entries, k)?;
        entry_in(&self.trail, self.withdrawn.reply(), entry)
    }

    /// Appends the bytes of a range, all of which are at home, to a buffer that has room for them. It takes no
    /// memory.
    pub fn append(&self, range: &ByteRange, out: &mut Bytes)
        requires home { (space : SpaceId) (offset : ℕ) → IsIn range.now space offset
            → IsSome (home self.now.config (world_in self.now) space offset) }
        requires room { range.now.len ≤ out.old.spare }
        ensures { Appended out.old out.new (bytes_in (world_in self.now).state.contents range.now) }
    {
        self.keep.store.append(range, out);
    }
}
