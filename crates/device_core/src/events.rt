// What the parties do, as the core keeps it.
use cp_base::{Command, Reply};
use std::sync::Arc;

/// What a party does in one turn. The parties 1 to 16 are the hosts, the others are workers. A place is an
/// index in the trail, the list of all events, which counts from 0.
#[derive(Debug, Drop)]
pub enum Event {
    /// A host asks for a command, its `ordinal`-th from 1, under an identifier.
    Submit {
        by: u32,
        cid: u32,
        ordinal: u32,
        command: Arc<Command>,
    },
    /// A party begins to carry out the command of the submit at place `sent`.
    Claim {
        by: u32,
        host: u32,
        ordinal: u32,
        sent: u32,
    },
    /// A party has carried out what it claimed at place `claim`.
    Finish {
        by: u32,
        claim: u32,
        reply: Reply,
    },
    /// A party does the command of the submit at place `sent` at once. An Abort that withdraws a command
    /// has the place of its submit in `aborts`.
    Do {
        by: u32,
        host: u32,
        ordinal: u32,
        sent: u32,
        reply: Reply,
        aborts: Option<u32>,
    },
    /// A host takes the reply to its command of this identifier, which was posted at place `posted`.
    Take {
        by: u32,
        cid: u32,
        posted: u32,
    },
    /// A party says that the hosts send nothing more for now.
    Rest {
        by: u32,
    },
}
