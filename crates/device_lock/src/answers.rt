// What the calls of a device answer. Each answer hands the pass back; that of a claim has it in the job.
use crate::jobs::Job;
use crate::parties::Pass;
use cp_base::Command;
use queue_pairs::{SendCause, TakeCause};
use std::sync::Arc;

/// What becomes of a command that a host submits.
#[derive(Drop)]
pub enum Sent {
    /// It is submitted, at place `place` of the trail.
    Placed {
        pass: Pass,
        place: u32,
    },
    /// It is not, and is handed back.
    Refused {
        pass: Pass,
        cause: SendCause,
        command: Arc<Command>,
    },
}

/// What a host takes.
#[derive(Drop)]
pub enum Taken {
    /// The reply that stands at place `place` of the trail.
    Reply { pass: Pass, place: u32 },
    /// No reply.
    Refused { pass: Pass, cause: TakeCause },
}

/// What a host takes by one try for the turn.
#[derive(Drop)]
pub enum TryTaken {
    /// The reply that stands at place `place` of the trail.
    Reply { pass: Pass, place: u32 },
    /// No reply.
    Refused { pass: Pass, cause: TakeCause },
    /// The try was lost: the party of number `word` had the turn.
    Busy { pass: Pass, word: u64 },
}

/// What a party is offered that asks for a command.
pub enum Offer {
    /// The job of a command, which the party has claimed.
    Claimed(Job),
    /// Nothing more: the command is done already, and its reply is posted.
    Did(Pass),
    /// No command may be picked now.
    Nothing(Pass),
    /// All commands are picked, and the hosts send nothing more for now.
    Rested(Pass),
}

/// What a party is offered that asks for a command by one try for the turn.
pub enum TryOffer {
    /// The job of a command, which the party has claimed.
    Claimed(Job),
    /// Nothing more: the command is done already, and its reply is posted.
    Did(Pass),
    /// No command may be picked now.
    Nothing(Pass),
    /// All commands are picked, and the hosts send nothing more for now.
    Rested(Pass),
    /// The try was lost: the party of number `word` had the turn.
    Busy { pass: Pass, word: u64 },
}
