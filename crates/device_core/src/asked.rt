// What a submit asks for.
ghost use Rattle.std.specs.Prelude.{◌≡◌, option_map};
ghost use Rattle.core_model.specs.Asked.{asked_at};
ghost use Rattle.device_core.specs.Reading.{as_asked};
ghost use Rattle.device_core.specs.Recorded.{trail_of};

use crate::Event;
use cp_base::Command;

/// What a submit says: its host, the command's identifier and ordinal, and the command.
#[derive(Clone, Copy)]
pub(crate) struct Wanted<'a> {
    pub(crate) host: u32,
    pub(crate) cid: u32,
    pub(crate) ordinal: u32,
    pub(crate) command: &'a Command,
}

/// What the submit at a place of the trail asks for. `None` where no submit is there.
pub(crate) fn asked_in(trail: &[Event], sent: u32) -> Option<Wanted<'_>>
    ensures { option_map as_asked result ≡ asked_at (trail_of trail.now) sent }
{
    match trail.get(sent as usize)? {
        Event::Submit {
            by,
            cid,
            ordinal,
            command,
        } => Some(Wanted {
            host: *by,
            cid: *cid,
            ordinal: *ordinal,
            command,
        }),
        Event::Claim { .. }
        | Event::Finish { .. }
        | Event::Do { .. }
        | Event::Take { .. }
        | Event::Rest { .. } => None,
    }
}
