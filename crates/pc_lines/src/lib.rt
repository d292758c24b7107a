//! Lines: of a text, and one at a time from any source, in room that is taken once, before anything is read; and the other way,
//! bytes that come in many pieces, gathered in such room, so that they go on in one write; and a
//! sheet's text, whole, from a file of a shelf.
//!
//! From a source a line goes up to and with its line feed; the last one may lack it. The source is read only where no
//! whole line is held, so each line can be answered before the next read, and nothing that was read is lost between calls.
#![tactic(auto)]

mod file;
mod gathering;
mod law;
mod reader;
mod split;

pub use file::{SheetStop, take_file};
pub use gathering::Gathering;
pub use law::lines_are_those_of_the_text;
pub use reader::{LineReader, Taken};
pub use split::next_line;

/// The most bytes of a sheet, its `begin` line with that line's end included.
pub const SHEET_LIMIT: usize = 4_194_304;
