//! Laws over runs: what events come to, what a run's status says of its words, of what happened and of what was noted, and that
//! where the budget is enough each line is answered as it is judged.
#![tactic(auto)]

mod asking;
mod complete;
mod counts;
mod course;
mod inputs;
mod law;
mod statuses;

pub use asking::{entries_say_what_is_enough, read_sizes_exist};
pub use complete::{
    budgets_are_worked, calls_spend_too_little, faultless_runs_are_answered,
    lines_are_answered_in_full, runs_are_in_full, runs_of_enough_are_answered,
    texts_are_refused_in_full, transcripts_are_in_full,
};
pub use counts::{tallies_are_counted, told_counts_are_bounded};
pub use course::{
    edits_are_said_by_status, events_add_up, faults_are_counted, limits_end_runs,
    nothing_follows_a_fault, replays_are_said_by_status, runs_are_worked, wrong_runs_are_refused,
};
pub use inputs::{
    faultless_posts_are_answered, inputs_have_one_sheet_part, posts_of_enough_are_answered,
    replays_of_enough_are_answered,
};
pub use law::{
    certificates_are_refused_in_checks, memory_is_told_where_wanted, usage_is_told_of_words,
};
pub use statuses::{
    all_lines_are_answered, checks_are_said_by_status, checks_end_as_judged,
    demonstrations_are_said_by_status, failed_reads_are_told, failed_writes_are_told,
    faults_end_runs, limits_are_passed, refused_sheets_are_told, showing_takes_no_memory,
};
