//! The lines of a script: the one table of their kinds and fields, and a line read from its text and
//! printed as its text.
#![tactic(auto)]

mod commands;
mod content;
mod fault;
mod field;
mod kind;
mod laws;
mod limits;
mod lists;
mod reading;
mod sending;
#[cfg(test)]
mod tests;
mod version;

pub use commands::command_of;
pub use content::{FieldContent, push_line};
pub use fault::{LineEnd, TextCause};
pub use field::{FieldValue, RangeText, SourceText, Triple, identifier_at, number_at, queue_at};
pub use kind::{LineKind, SpaceKind};
pub use laws::{limits_by_example, line_laws, range_examples};
pub use limits::{
    MAX_32, MAX_64, MAX_CID, MAX_VALUE, QUEUE_CIDS, ScriptLimits, VERSION_1, VERSION_2,
};
pub use reading::{ReadLine, fits, read_line};
pub use sending::{push_send, push_take};
pub use version::Version;
