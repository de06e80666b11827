//! The core as definitions: the parts of a device that keep the world of its trail, how they move at each event, and
//! the laws by which code over these parts stands for a lawful trail.
#![tactic(auto)]

mod bytes;
mod causes;
mod examples;
mod facts;
mod moves;
mod picking;
mod places;
mod queues;

pub use bytes::{
    moving_bytes_takes_memory, pieces_come_home, regions_are_apart, runs_have_the_same_bytes,
};
pub use causes::{picks_by_parts, rests_by_parts, submits_by_parts, takes_by_parts};
pub use examples::{parts_by_example, trails_have_parts, withdrawn_parts_by_example};
pub use facts::{
    claims_find_their_bytes, entries_tell_the_history, lawful_in_one_way, parties_are_few,
    parts_are_bounded, submits_are_read_from_the_trail,
};
pub use moves::{
    parts_begin, parts_move_at_claims, parts_move_at_dos, parts_move_at_finishes,
    parts_move_at_rests, parts_move_at_submits, parts_move_at_takes,
};
pub use picking::{claims_by_parts, picking_by_parts};
pub use places::{ClaimPlaces, EntryPlaces, WaitingSubmit};
pub use queues::{queues_by_parts, stages_follow, withdrawn_commands_wait};
