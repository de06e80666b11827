//! Interleavings as definitions: what a command touches and does by itself, the events of the parties, the world that
//! they lead to, and the laws of all lawful trails.
#![tactic(auto)]

mod effects;
mod events;
mod examples;
mod trails;

pub use effects::{effects_are_local, effects_are_what_is_written};
pub use events::{Event, ToldReply};
pub use examples::{
    aborts_by_example, held_set_by_example, meeting_by_example, readers_by_example,
};
pub use trails::{
    aborts_withdraw_what_is_queued, answers_are_sized, beginnings_are_lawful, claims_stay_open,
    histories_replay, open_claims_hold, own_events_tell_the_account, submits_and_claims_are_linked,
    trails_are_bounded, trails_are_never_stuck, trails_hold_their_events,
};
