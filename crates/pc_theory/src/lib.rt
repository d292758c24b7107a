//! Searches of a book's parts with all that is known of its rules.
//!
//! A theory is what is known of the rules alone: their clauses, their parts, and an assignment that fits. It stays while
//! entries change, so that an edit of an entry searches the part of its cell alone. For a book that is new a solver of each
//! part first tells whether the part's rules are consistent, and goes on to find the reasons of the part's targets.
#![tactic(auto)]

mod book;
mod edits;
mod entries;
mod reading;
mod searching;
pub mod spending;
mod starting;
mod stop;
mod targets;
mod task;
mod theory;
mod totals;
mod trails;

pub use book::{Disproof, Fault, FoundBook, search_book};
pub use edits::PartTargets;
pub use reading::read_values;
pub use spending::{PartSpending, Spending};
pub use targets::targets_on;
pub use theory::Theory;
pub use totals::alone;
