//! What a book's entries say of a closed formula: whether they imply it, and its least support.
//!
//! The asked book is the book with one rule more, its last, that the formula is false. Entries entail the formula exactly where
//! no assignment fits the asked book and has them: so a solver over the asked book's clauses tells it, with the entries
//! assumed. Which entries are asked about together is known from the maximal sets of the parts that the formula reads.
#![tactic(auto)]

mod answer;
mod asking;
mod candidates;
mod finding;
mod narrowing;
mod part;
mod proving;
mod refuting;
mod ways;

pub use answer::{Answer, AskStop};
pub use asking::{Question, ask};
pub use proving::prove;
