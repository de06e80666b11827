//! Plain values of the device: bytes, places in namespaces, the configuration, commands and replies, with their limits.
#![tactic(auto)]

mod buffer;
mod commands;
mod configuration;
mod laws;
mod limits;
mod lists;
mod no_memory;
mod region;
mod replies;
mod sequence;
mod spans;

pub use buffer::Bytes;
pub use commands::{Command, CommandWord, Nature};
pub use configuration::Config;
pub use laws::{runs_examples, runs_laws, sharing_examples, sharing_laws};
pub use limits::{
    MAX_BUDGET, MAX_COMMANDS, MAX_DEPTH, MAX_HOSTS, MAX_ITEMS, MAX_NAMESPACE, MAX_PROGRAM,
    MAX_RUNS, MAX_SETS, MAX_SPAN, MAX_TOTAL, MAX_TRANSFER, NAMESPACES, SLOTS, UNIT,
};
pub use lists::{Access, CopySource, MemRange, RangeList, SetRanges, SourceList};
pub use no_memory::NoMemory;
pub use region::{ByteRange, SpaceId};
pub use replies::{Piece, Refusal, Reply, Status};
pub use sequence::Sequence;
pub use spans::{Footprint, Spans};
