//! Laws on reasons. What a search derives is accepted: the lines that a line of a solver's log rests on, trimmed and called by
//! the sheet's names, are the lines of a certificate that the sheet accepts. And when entries are edited, which reasons stay right.
//!
//! Nothing is computed here: each function is a law, whose contract holds for every value, and it does nothing.
#![tactic(auto)]

mod edits;
mod laws;

pub use edits::{
    adding_edits, clearing_edits, edited_reasons_are_right, entering_edits, none_stays,
    other_parts_stay, reasons_stay, removing_edits,
};
pub use laws::{
    named_lines_derive, names_are_of_their_sheet, own_lines_are_named, own_lines_are_named_beside,
    trimmed_lines_are_against, trimmed_lines_derive_beside, trimmed_lines_justify,
    trimmed_lines_refute,
};
