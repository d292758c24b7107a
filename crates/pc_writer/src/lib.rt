//! The texts of numbers, values, cells, entries and whole sheets, written to any sink without taking memory.
#![tactic(auto)]

mod cell;
mod counted;
mod declared;
mod entry;
mod formula;
mod later;
mod law;
mod lines;
mod number;
mod pieces;
mod scope;
mod sheet;
mod term;
mod value;

pub use cell::{sort_of, write_cell, write_separated_cell};
pub use entry::{write_entries, write_entry};
pub use law::{texts_are_worked, versions_tell};
pub use number::write_integer;
pub use pieces::write_text;
pub use sheet::write_sheet;
pub use value::write_value;
