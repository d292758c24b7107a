//! The text of a sheet of any number of blocks, each of four cells and two entries, for demonstrations and measurements; and
//! laws: this text is the canonical text of a sheet, reads as that sheet, and what that sheet weighs.
#![tactic(auto)]

mod law;
mod text;

pub use law::{
    generated_sheets_are_well_formed, generated_sheets_weigh, generated_texts_are_canonical,
    generated_texts_read_back, lines_are_worked,
};
pub use text::generated;
