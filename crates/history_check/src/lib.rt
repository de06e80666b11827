//! The history checker: whether a text is that of a history that is legal for a plan, or the first line of it with which none goes on.
#![tactic(auto)]

mod awaiting;
mod checker;
mod checking;
mod examples;
mod laws;
mod names;
mod table;

pub use checking::{Verdict, check};
pub use examples::lines_by_example;
pub use laws::{
    bad_line_is_that_of_no_next_entry, bad_line_stands_behind_good_ones, consistent_entries_go_on,
    entries_come_one_by_one, first_bad_line_is_one, lines_are_entries, scripts_can_be_checked,
    shown_lines_are_lines,
};
