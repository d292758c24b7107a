//! The words behind the program's own name: what they ask for.
#![tactic(auto)]

mod asked;
mod asking;
mod law;
mod parse;
mod parting;
mod reading;
mod word;

pub use asked::{Mode, Request, WordsFault};
pub use law::{words_are_worked, words_fit_one_request};
pub use reading::read;
