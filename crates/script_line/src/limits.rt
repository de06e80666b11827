//! The limits of a script's lines, each under one name. This project's own.

/// The largest number of 32 bits: of a namespace, a slot or a set in a command.
pub const MAX_32: u64 = 4_294_967_295;

/// The largest number of 64 bits: of what only the device limits.
pub const MAX_64: u64 = 18_446_744_073_709_551_615;

/// The largest command identifier.
pub const MAX_CID: u64 = 65_535;

/// How many command identifiers a queue has, which are numbered from 0.
pub const QUEUE_CIDS: u64 = 65_536;

/// The largest value that a fill puts.
pub const MAX_VALUE: u64 = 255;

/// The limits of the scripts of one version.
#[derive(Clone, Copy, Debug, PartialEq, Eq)]
pub struct ScriptLimits {
    /// The most bytes of the text.
    pub bytes: u64,
    /// The most send lines.
    pub sends: u32,
    /// The most phase lines.
    pub phases: u32,
    /// The most show lines.
    pub shows: u32,
    /// The most queues of a host.
    pub queues: u64,
    /// The largest depth of a queue.
    pub depth: u64,
    /// The most commands of a host that all its queues hold.
    pub outstanding: u64,
    /// The largest budget of an execution, in instructions.
    pub budget: u64,
}

/// The limits of version 1.
pub const VERSION_1: ScriptLimits = ScriptLimits {
    bytes: 33_554_432,
    sends: 16_384,
    phases: 1_024,
    shows: 1_024,
    queues: 1,
    depth: 256,
    outstanding: 256,
    budget: 10_000_000,
};

/// The limits of version 2.
pub const VERSION_2: ScriptLimits = ScriptLimits {
    bytes: 33_554_432,
    sends: 65_536,
    phases: 4_096,
    shows: 4_096,
    queues: 16,
    depth: 1_024,
    outstanding: 4_096,
    budget: 100_000_000,
};
