// The texts of a sheet, kept in memory.
ghost use Rattle.std.specs.Prelude.{◌≡◌, ◌<◌, IfOk, length, string_bytes};
ghost use Rattle.pc_sheet.specs.Entailment.{cell_sizes};
ghost use Rattle.pc_sheet.specs.Sizes.{size_of};
ghost use Rattle.pc_sheet.specs.WellFormed.{IsEntryOf, IsWellFormed};
ghost use Rattle.pc_writer.specs.Spelling.{cell_text, entry_text, value_text};

use crate::text::Text;
use pc_books::Book;
use pc_port::Failed;
use pc_sheet::{CellId, Entry, SortId, ValueId};
use pc_writer::{write_cell, write_entry, write_value};
use std::alloc::{AllocError, Global};

/// A cell's text.
pub(crate) fn cell_text(alloc: Global, book: &Book, cell: CellId) -> Result<String, AllocError>
    requires formed { IsWellFormed book.now }
    requires cell { cell.0 < length (cell_sizes book.now.universe) }
    ensures { IfOk result (λ text. string_bytes text ≡ cell_text book.now.universe cell) }
{
    let mut kept = Text::new(alloc);
    match write_cell(book, cell, &mut kept) {
        Ok(()) => Ok(kept.into_text()),
        Err(Failed) => Err(AllocError),
    }
}

/// The text of a value of the sort.
pub(crate) fn value_text(
    alloc: Global,
    book: &Book,
    sort: SortId,
    value: ValueId,
) -> Result<String, AllocError>
    requires formed { IsWellFormed book.now }
    requires value { value.0 < size_of book.now.universe sort }
    ensures { IfOk result (λ text. string_bytes text ≡ value_text book.now.universe sort value) }
{
    let mut kept = Text::new(alloc);
    match write_value(book, sort, value, &mut kept) {
        Ok(()) => Ok(kept.into_text()),
        Err(Failed) => Err(AllocError),
    }
}

/// An entry's text.
pub(crate) fn entry_text(alloc: Global, book: &Book, entry: Entry) -> Result<String, AllocError>
    requires formed { IsWellFormed book.now }
    requires entry { IsEntryOf book.now.universe entry }
    ensures { IfOk result (λ text. string_bytes text ≡ entry_text book.now.universe entry) }
{
    let mut kept = Text::new(alloc);
    match write_entry(book, entry, &mut kept) {
        Ok(()) => Ok(kept.into_text()),
        Err(Failed) => Err(AllocError),
    }
}
