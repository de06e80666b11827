// The form of a script.
use script_line::Version;

/// How a script is written: its version, and how many queues each host has, which is 1 in version 1.
#[derive(Clone, Copy, Debug, PartialEq, Eq)]
pub struct Form {
    pub version: Version,
    pub queues: u32,
}
