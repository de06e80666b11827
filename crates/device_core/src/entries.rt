// The entries of the history.
ghost use Rattle.std.specs.Prelude.{◌≡◌, Some, option_copied, option_map, slice_get};
ghost use Rattle.cp_base.specs.Answer.{answer_of, only_status};
ghost use Rattle.trail_model.specs.World.{Completion};
ghost use Rattle.core_model.specs.Telling.{TellsEntry, reply_at};
ghost use Rattle.device_core.specs.Gives.{ended_as_shown, ended_by};
ghost use Rattle.device_core.specs.Recorded.{trail_of};

use crate::Event;
use crate::answers::EntryRef;
use crate::asked::asked_in;
use crate::tables::only;
use core_model::EntryPlaces;
use cp_base::{Reply, Status};
use std::alloc::Global;
use std::marker::Model;

/// The one reply to each command that an Abort withdraws.
#[derive(Debug, Drop)]
pub(crate) struct Withdrawn {
    reply: Reply,
}

impl Model for Withdrawn {
    ghost use Rattle.std.specs.Prelude.{◌≡◌};
    ghost use Rattle.cp_base.specs.Answer.{Answer, answer_of, only_status};
    ghost use Rattle.cp_base.specs.declared.replies.Status.TheVariants as status;

    ghost Value = { Answer };

    ghost view = { λ withdrawn. answer_of withdrawn.reply };

    ghost invariant = { λ withdrawn. answer_of withdrawn.reply ≡ only_status status.Aborted };
}

impl Withdrawn {
    /// The reply that says so.
    pub(crate) fn new(alloc: Global) -> Withdrawn {
        Withdrawn {
            reply: only(alloc, Status::Aborted),
        }
    }

    /// The reply itself.
    pub(crate) fn reply(&self) -> &Reply
        ensures { answer_of result.now ≡ only_status Status.Aborted }
    {
        &self.reply
    }
}

// The reply to the command of an entry.
fn reply_to<'a>(trail: &'a [Event], withdrawn: &'a Reply, entry: EntryPlaces) -> Option<&'a Reply>
    requires { answer_of withdrawn.now ≡ only_status Status.Aborted }
    ensures { option_map answer_of (option_copied result) ≡ reply_at (trail_of trail.now) entry }
{
    match trail.get(entry.posted as usize)? {
        Event::Finish { reply, .. } => Some(reply),
        Event::Do { sent, reply, .. } => Some(if *sent == entry.sent {
            reply
        } else {
            withdrawn
        }),
        Event::Submit { .. } | Event::Claim { .. } | Event::Take { .. } | Event::Rest { .. } =>
            None,
    }
}

/// The places of the entry of a number.
pub(crate) fn entry_at(entries: &[EntryPlaces], k: u32) -> Option<EntryPlaces>
    ensures { result ≡ slice_get entries.now k }
{
    entries.get(k as usize).copied()
}

/// The command of an entry with its reply, which is this where an Abort withdrew it.
pub(crate) fn entry_in<'a>(
    trail: &'a [Event],
    withdrawn: &'a Reply,
    entry: EntryPlaces,
) -> Option<EntryRef<'a>>
    requires { answer_of withdrawn.now ≡ only_status Status.Aborted }
    ensures { (done : Completion) → TellsEntry (trail_of trail.now) entry done
        → option_map ended_as_shown result ≡ Some (ended_by done) }
{
    let asked = asked_in(trail, entry.sent)?;
    let reply = reply_to(trail, withdrawn, entry)?;
    Some(EntryRef {
        host: asked.host,
        ordinal: asked.ordinal,
        cid: asked.cid,
        command: asked.command,
        reply,
    })
}
