//! What a run of the program is worth, in the words of sheets alone.
//!
//! `specs/Theorem.antt` is the page to read. What `run` says of itself (`pc_replay`) speaks of events, limits, refusals and what
//! is spent; here it is shown to give the page.
#![tactic(auto)]

mod law;
mod starting;
mod top;
mod wrong;

pub use law::{
    answers_leave_one_state, broken_words, demonstrations_of_enough_are_done, runs_keep_their_word,
    saved_sheets_show_the_same, saved_sheets_take_certificates, worked_words,
};
pub use pc_replay::{Spendings, Status};
pub use starting::start;
pub use top::run;
pub use wrong::{
    broken_certificates, broken_checks, broken_demonstrations, broken_devices, broken_journals,
    broken_pages, broken_replies, broken_sessions, broken_usage,
};
