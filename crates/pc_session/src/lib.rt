//! Sessions: a book under edits, with a reason for each implied target.
//!
//! Each edit of a cell's entries is made in the standing book, and the part that has the cell is searched again: its worlds,
//! and the reasons that the edit can change. What is found is then put in place; where the search ends early the old entries
//! are put back. What depends on the rules alone stays. An edit of a rule makes everything anew, as a load does.
#![tactic(auto)]

mod change;
mod choices;
mod chosen;
mod compaction;
mod edit;
mod edits;
mod entering;
mod loading;
mod questions;
pub mod refused;
mod removing;
mod rules;
mod searching;
mod session;
mod spendings;
mod stale;
mod state;
mod taken;
mod tallies;

pub use pc_reason::{Reason, Reasons, Refutation};
pub use pc_theory::{PartSpending, Spending};
pub use pc_world_list::Choices;
pub use refused::{EditRefused, LoadRefused};
pub use session::Session;
pub use spendings::Spendings;
