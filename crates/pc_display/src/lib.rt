//! The displays of a sheet, for whatever has reasons of its targets, or their least supports alone.
//!
//! A display is a function of the sheet: it shows each implied value, and each conflict, with its least support, of which
//! there is one. Line by line and as a table it is written piece by piece from what is lent, without taking memory; as JSON
//! it is made in memory.
#![tactic(auto)]

mod cell_entries;
mod columns;
mod display;
mod law;
mod lines;
mod objects;
mod supports;
mod table;
mod text;
mod texts;

pub use display::show;
pub use law::{
    displays_are_these, grids_are_these, json_texts_are_these, marks_show_conflicts,
    sheet_has_one_display,
};
pub use objects::json;
pub use supports::Supports;
pub use table::grid;
pub use text::Text;
