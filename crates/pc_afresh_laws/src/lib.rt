//! Laws over the sheets of runs: dumped and loaded afresh, a sheet is the same with the same display; and readers of one journal
//! see one display.
#![tactic(auto)]

mod law;
mod readers;

pub use law::{
    dumps_start_again, listings_are_one, loaded_afresh_shows_the_same, runs_load_afresh,
    states_stay_open, transcripts_stay_open,
};
pub use readers::{answers_say_the_same, readers_see_one_display, transcripts_say_the_same};
