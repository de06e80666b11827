// What is left of a host's part of a phase.
ghost use Rattle.std.specs.Prelude.{◌≡◌, ◌<◌, IsSomeAnd, if◌then◌else◌, length, slice_get};
ghost use Rattle.std.specs.List.{AllByRecursion};
ghost use Rattle.history_model.specs.Plain.{plain_part};
ghost use Rattle.device_core.specs.Gives.{world_in};
ghost use Rattle.schedule_model.specs.Deeds.{IsHost};
ghost use Rattle.schedule_model.specs.Schedule.{Action, action_of_host, behind_first, has_none};
ghost use Rattle.step_driver.specs.Turns.{DoesAction, FindsPlace};

use crate::running::Running;
use device_core::Core;
use script_cmds::{HostPart, Item};
use std::collections::VecDeque;
use std::marker::Model;

/// A host, and what it has left to do in a phase. Contracts see the commands themselves.
#[derive(Drop)]
pub(crate) struct Part {
    host: u32,
    items: VecDeque<Item>,
}

impl Model for Part {
    ghost use Rattle.history_model.specs.Plain.{PlainPart, plain_items};

    ghost Value = { PlainPart };

    ghost view = { λ p. record { host = p.host; items = plain_items p.items.items } };
}

impl Part {
    /// All that a host does in a phase.
    pub(crate) fn new(part: HostPart) -> Part
        ensures { result ≡ plain_part part }
    {
        Part {
            host: part.host,
            items: VecDeque::from_vec(part.items.into_vec()),
        }
    }

    /// Whether the host has done all.
    pub(crate) fn is_done(&self) -> bool
        ensures { result ≡ has_none self.now.items }
    {
        self.items.is_empty()
    }

    /// Whether the host may do its next item: a send always, a take where the reply is posted.
    pub(crate) fn is_ready(&self, core: &Core) -> bool
        requires { IsHost self.now.host }
        ensures { length (action_of_host (world_in core.now) self.now.host self.now.items) ≡ (if result then 1 else 0) }
    {
        match self.items.front() {
            None => false,
            Some(Item::Send { .. }) => true,
            Some(Item::Take { cid }) => core.posted(self.host, *cid).is_ok(),
        }
    }

    /// The host does its next item.
    pub(crate) fn act(&mut self, running: &mut Running)
        requires host { IsHost self.old.host }
        requires ready { 0 < length (action_of_host (world_in running.old) self.old.host self.old.items) }
        requires place { AllByRecursion (FindsPlace running.old)
            (action_of_host (world_in running.old) self.old.host self.old.items) }
        ensures acted { IsSomeAnd (slice_get (action_of_host (world_in running.old) self.old.host self.old.items) 0)
            (λ (action : Action). DoesAction running.old running.new action) }
        ensures left { self.new ≡ record self.old { items = behind_first self.old.items } }
    {
        match self.items.pop_front() {
            Some(Item::Send { cid, command }) => running.send(self.host, cid, command),
            Some(Item::Take { cid }) => running.take(self.host, cid),
            None => unreachable!("the host has something left"),
        }
    }
}
