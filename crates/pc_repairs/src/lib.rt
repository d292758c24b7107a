//! What could be kept together: as text, as the maximal sets of a whole book, and as certificates of these.
//!
//! The maximal sets of a book are the unions of one set of each part, which a session knows. That they are all, and what
//! they don't imply, is found by searches over the whole book as one problem. The clause of a set, its block, is that some
//! entry stands that the set hasn't. No assignment that fits makes the blocks of all maximal sets true, since what it has of
//! the entries lies within one of them: so a solver derives the empty clause from the book's clauses and the blocks.
#![tactic(auto)]

mod asking;
mod blocks;
mod joining;
mod listing;
mod ordering;
mod part_sets;
mod proving;
mod refuting;
mod task;
mod unimplied;

// Listing part by part

pub use listing::{ListFault, Listing, list};

// Sets of parts, joined to those of the whole book

pub use joining::{MOST_SETS, had_by, lay, whole};
pub use part_sets::{PartSets, sets_by_part};

// Certificates: that there are no more sets, and of what these don't imply

pub use proving::prove;
pub use refuting::refute;
pub use unimplied::lacking;
