//! The text of a history: a line for each entry, a line for each show, and the summary.
#![tactic(auto)]

mod entry;
mod laws;
mod names;
mod pieces;
mod show;
mod summary;
#[cfg(test)]
mod tests;

pub use entry::{EntryLine, append_entry, push_entry};
pub use laws::{LONGEST_LINE, line_lengths};
pub use names::status_name;
pub use show::{append_show, push_show};
pub use summary::{Summary, append_summary, push_summary};
