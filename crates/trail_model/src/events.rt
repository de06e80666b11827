//! The events of a device: what each party does in its turn.
use cp_base::{Command, Reply};
use std::marker::Model;

/// A reply, of which contracts see what it tells and not how its bytes are kept.
#[derive(Debug, Drop)]
pub struct ToldReply {
    reply: Reply,
}

impl Model for ToldReply {
    ghost use Rattle.cp_base.specs.Answer.{Answer, answer_of};

    ghost Value = { Answer };

    ghost view = { λ t. answer_of t.reply };
}

/// What a party does in one turn. The parties 1 to 16 are the hosts, the others are workers. A place is
/// an index in the trail, the list of all events, which counts from 0. Contracts speak of events through
/// this type; no value of it is made.
#[derive(Debug, Drop)]
pub enum Event {
    /// A host asks for a command, its `ordinal`-th from 1, under an identifier.
    Submit {
        by: u32,
        cid: u32,
        ordinal: u32,
        command: Command,
    },
    /// A party begins to carry out the command of the submit at place `sent`.
    Claim {
        by: u32,
        host: u32,
        ordinal: u32,
        sent: u32,
    },
    /// A party has carried out what it claimed at place `claim`.
    Finish {
        by: u32,
        claim: u32,
        answer: ToldReply,
    },
    /// A party does the command of the submit at place `sent` at once. An Abort that withdraws a command
    /// has the place of its submit in `aborts`.
    Do {
        by: u32,
        host: u32,
        ordinal: u32,
        sent: u32,
        answer: ToldReply,
        aborts: Option<u32>,
    },
    /// A host takes the reply to its command of this identifier, which was posted at place `posted`.
    Take {
        by: u32,
        cid: u32,
        posted: u32,
    },
    /// A party says that the hosts send nothing more for now.
    Rest {
        by: u32,
    },
}
