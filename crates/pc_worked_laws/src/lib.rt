//! Worked examples of definitions, each the contract of a function that does nothing.
#![tactic(auto)]

mod worked;

pub use worked::{
    axioms_are_worked, budgets_are_worked, certificates_are_worked, connectives_are_worked,
    counting_is_worked, displays_are_worked, formulas_are_worked, journal_texts_are_worked,
    largest_sets_are_worked, left_out_axioms_are_worked, listings_are_worked, logs_are_worked,
    merges_are_worked, newest_decides, part_sheets_are_worked, read_sizes_are_worked,
    rows_are_worked, searches_are_worked, several_entries_are_worked, spare_entries_are_worked,
    spendings_are_worked, trails_are_worked, transcripts_are_worked, watched_trails_are_worked,
    watches_are_worked, whole_spendings_are_worked, worlds_are_worked,
};
