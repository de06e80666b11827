// The parts of a script: what each host does in each phase, and what is shown at the end.
use cp_base::{ByteRange, Command, Sequence};
use std::sync::Arc;

/// One thing that a host does.
#[derive(Debug, Drop)]
pub enum Item {
    /// Send a command under a command identifier.
    Send { cid: u32, command: Arc<Command> },
    /// Wait for the reply to the command of that identifier and take it.
    Take { cid: u32 },
}

/// What one host does in one phase.
#[derive(Debug, Drop)]
pub struct HostPart {
    /// The host's number, 1 to 16.
    pub host: u32,
    pub items: Sequence<Item>,
}

/// A phase: its hosts act side by side, and the next phase begins when all of them have ended.
#[derive(Debug, Drop)]
pub struct Phase {
    /// The parts in ascending order of hosts.
    pub hosts: Sequence<HostPart>,
}

/// Bytes that are shown when all is done: 1 to 8,192 bytes inside a namespace, by place also for NVM.
#[derive(Clone, Copy, Debug)]
pub struct Show {
    pub range: ByteRange,
}
