//! The book of a sheet's text, or why the text gives none.
//!
//! A text is refused for its first fault of text, and then for the first fault of its names and sorts. Each run that begins
//! with a sheet's text begins here.
#![tactic(auto)]

mod law;
mod load;
mod refusal;

pub use law::texts_have_one_outcome;
pub use load::load_book;
pub use pc_refusals::LoadFault;
pub use refusal::refusal_of;
