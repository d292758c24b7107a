// Entries and lists of them.
ghost use Rattle.std.specs.Prelude.{All};
ghost use Rattle.pc_sheet.specs.WellFormed.{IsEntryOf};
ghost use Rattle.pc_writer.specs.Spelling.{entries_text, entry_text};
ghost use Rattle.pc_writer.specs.Writes.{Writes};

use crate::cell::{sort_of, write_cell};
use crate::pieces::{write_separator, write_text};
use crate::value::write_value;
use pc_books::Book;
use pc_port::{Failed, Sink};
use pc_sheet::Entry;

/// Writes an entry, as `cell = value`.
pub fn write_entry<O: Sink>(book: &Book, entry: Entry, out: &mut O) -> Result<(), Failed>
    requires { IsEntryOf book.now.universe entry }
    ensures { Writes O.given O.faults out.old out.new result (entry_text book.now.universe entry) }
{
    write_cell(book, entry.cell, out)?;
    write_text(b" = ", out)?;
    write_value(book, sort_of(book, entry.cell), entry.value, out)
}

/// Writes entries with a comma and a space between each two.
pub fn write_entries<O: Sink>(book: &Book, entries: &[Entry], out: &mut O) -> Result<(), Failed>
    requires { All (IsEntryOf book.now.universe) entries.now }
    ensures { Writes O.given O.faults out.old out.new result
        (entries_text book.now.universe entries.now) }
{
    for (i, entry) in entries.iter().enumerate() {
        write_separator(i, out)?;
        write_entry(book, *entry, out)?;
    }
    Ok(())
}
