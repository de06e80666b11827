// What the calls of the core answer.
use cp_base::{Command, Reply};
use job_run::Work;

/// What a party that turns to a command is given.
#[derive(Debug, Drop)]
pub enum Picked {
    /// The work of the command, which the party has claimed at place `claim` of the trail.
    Claimed { work: Work, claim: u32 },
    /// The command is done already, and its reply is posted.
    Did,
    /// No further command may be picked now.
    Nothing,
    /// All commands are picked, and the hosts send nothing more.
    Rested,
}

/// A command that is over, with its host, its ordinal among the host's commands, from 1, its identifier, and its reply.
#[derive(Clone, Copy)]
pub struct EntryRef<'a> {
    pub host: u32,
    pub ordinal: u32,
    pub cid: u32,
    pub command: &'a Command,
    pub reply: &'a Reply,
}
