//! Where bytes come from and where they go: sources and sinks, in memory and over the standard streams.
#![tactic(auto)]

mod failing;
mod memory_sink;
mod memory_source;
mod sink;
mod source;
mod standard;
mod worked;

pub use memory_sink::MemSink;
pub use memory_source::MemSource;
pub use sink::{Sink, Took, WriteFault, write_all};
pub use source::{Got, ReadEnd, Source, read_all};
pub use standard::{StdSink, StdSource};
pub use worked::{worked_reads, worked_writes};
