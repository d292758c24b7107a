//! Lines that enter a value, and the entries that commands of the same words stand for.
ghost use Rattle.std.specs.Prelude.{◌≡◌, ◌↔◌, Contains, IsTrue, MatchResult, length};
ghost use Rattle.pc_sheet.specs.WellFormed.{IsEntryOf, entries_of};
ghost use Rattle.pc_syntax.specs.Tree as tree;
ghost use Rattle.pc_syntax.specs.Tree.{cell_of, value_of};
ghost use Rattle.pc_elaborate.specs.Elaboration.{IsEntryNamed};
ghost use Rattle.pc_elaborate.specs.Told.{IsFaultOf};
ghost use Rattle.pc_sortcheck.specs.DeclarationFaults.{HasRoomForEntry, IsDeclarationFault};
ghost use Rattle.pc_sortcheck.specs.Declaring.{Declares};

use crate::names::keeps_form;
use pc_books::{Book, CellId, Entry};
use pc_elaborate::{SortFault, find_cell, find_value};
use pc_sheet::{Limited, MOST_ENTRIES};
use pc_syntax::{CellTree, ValueTree};

/// Whether the entry stands among these.
fn is_among(entries: &[Entry], entry: Entry) -> bool
    ensures { IsTrue result ↔ Contains entries.now entry }
{
    entries.contains(&entry)
}

/// How many of the entries are of the cell.
fn count_entries(entries: &[Entry], cell: CellId) -> usize
    ensures { result ≡ length (entries_of cell entries.now) }
{
    let mut count = 0;
    for entry in entries {
        if entry.cell.0 == cell.0 {
            count += 1;
        }
    }
    count
}

/// Whether the entry stands, or its cell may have one more.
pub fn has_room_for_entry(book: &Book, entry: Entry) -> bool
    ensures { IsTrue result ↔ HasRoomForEntry book.now entry }
{
    let entries = book.entries();
    is_among(entries, entry) || count_entries(entries, entry.cell) < MOST_ENTRIES
}

/// The entry that a cell and a value stand for, or the first fault, of the cell and then of the value.
pub fn find_entry(book: &Book, cell: &CellTree, value: &ValueTree) -> Result<Entry, SortFault>
    ensures { MatchResult result (λ e. IsEntryNamed book.now.universe (cell_of cell.now)
        (value_of value.now) e × IsEntryOf book.now.universe e)
        (IsDeclarationFault book.now (tree.enter (cell_of cell.now) (value_of value.now))) }
{
    let cell = find_cell(book, cell)?;
    let value = find_value(book, cell, value)?;
    Ok(Entry { cell, value })
}

/// The entry that a cell and a value stand for, where it stands or its cell may have one more, or the first fault, of
/// the cell, of the value, and last that the cell has as many entries as it may.
pub fn find_further_entry(
    book: &Book,
    cell: &CellTree,
    value: &ValueTree,
) -> Result<Entry, SortFault>
    ensures { MatchResult result (λ e. IsEntryNamed book.now.universe (cell_of cell.now)
        (value_of value.now) e × IsEntryOf book.now.universe e × HasRoomForEntry book.now e)
        (IsDeclarationFault book.now (tree.also (cell_of cell.now) (value_of value.now))) }
{
    let entry = find_entry(book, cell, value)?;
    if !has_room_for_entry(book, entry) {
        return Err(SortFault::Limit(Limited::Entries));
    }
    Ok(entry)
}

pub(crate) fn declare_entry(
    book: &mut Book,
    cell: &CellTree,
    value: &ValueTree,
) -> Result<(), SortFault>
    ensures { MatchResult result
        (λ _. Declares book.old (tree.enter (cell_of cell.now) (value_of value.now)) book.new)
        (IsFaultOf
        (IsDeclarationFault book.old (tree.enter (cell_of cell.now) (value_of value.now)))) }
{
    let entry = find_entry(book, cell, value)?;
    book.set_entry(entry)?;
    keeps_form(book);
    Ok(())
}

pub(crate) fn declare_further_entry(
    book: &mut Book,
    cell: &CellTree,
    value: &ValueTree,
) -> Result<(), SortFault>
    ensures { MatchResult result
        (λ _. Declares book.old (tree.also (cell_of cell.now) (value_of value.now)) book.new)
        (IsFaultOf
        (IsDeclarationFault book.old (tree.also (cell_of cell.now) (value_of value.now)))) }
{
    keeps_form(book);
    let entry = find_further_entry(book, cell, value)?;
    book.also_entry(entry)?;
    keeps_form(book);
    Ok(())
}
