//! The limits of the device, each under one name. This project's own.

/// How many namespaces of each kind there can be. They are numbered from 1.
pub const NAMESPACES: usize = 8;

/// The most bytes that a namespace has.
pub const MAX_NAMESPACE: u64 = 16_777_216;

/// The most bytes of all namespaces together.
pub const MAX_TOTAL: u64 = 67_108_864;

/// The most commands of one host that may be outstanding.
pub const MAX_DEPTH: u32 = 4_096;

/// The largest budget of an execution, in instructions.
pub const MAX_BUDGET: u64 = 100_000_000;

/// The most bytes that a host moves by one command: a read, a write, or a piece of a program.
pub const MAX_TRANSFER: u64 = 8_192;

/// The most bytes of a fill, of zeros, and of a copy's sources together.
pub const MAX_SPAN: u64 = 1_048_576;

/// The most sources of a copy, and the most ranges of a set.
pub const MAX_ITEMS: usize = 16;

/// The most ranges of which the runs are formed: the sources of a copy and its destination, and some more.
pub const MAX_RUNS: usize = 20;

/// The most sets of memory ranges. They are numbered from 1.
pub const MAX_SETS: u32 = 255;

/// How many slots hold programs that hosts load. They are numbered from 0.
pub const SLOTS: u32 = 64;

/// The most bytes of a program.
pub const MAX_PROGRAM: u64 = 65_536;

/// The bytes of one unit of a program's code (RFC 9669, section 3.1).
pub const UNIT: u64 = 8;

/// The most hosts, and the most workers. They are numbered from 1.
pub const MAX_HOSTS: u32 = 16;

/// The most commands that a device is made for.
pub const MAX_COMMANDS: u32 = 65_536;
