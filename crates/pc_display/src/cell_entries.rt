// The entries of one cell.
ghost use Rattle.std.specs.Prelude.{◌≡◌, ◌≤◌, ◌<◌, ◌+◌, ◌++◌, ◌∷◌, [], length};
ghost use Rattle.pc_sheet.specs.Limits.{most_entries};
ghost use Rattle.pc_sheet.specs.WellFormed.{entries_of, IsWellFormed};
ghost use Rattle.pc_display.specs.Show.{are_several};

use pc_books::Book;
use pc_sheet::{CellId, Entry, MOST_ENTRIES, ValueId};
use std::marker::Model;

/// The entries of one cell, oldest first. They lie in the value itself: a cell has no more than a few.
#[derive(Drop)]
pub(crate) struct CellEntries {
    places: [Entry; MOST_ENTRIES],
    count: usize,
}

impl Model for CellEntries {
    ghost use Rattle.std.specs.Prelude.{◌≤◌, List, take};
    ghost use Rattle.pc_sheet.specs.Limits.{most_entries};
    ghost use Rattle.pc_sheet.specs.declared.ids.Entry.{Entry};

    ghost Value = { List Entry };

    ghost view = { λ c. take c.count c.places };

    ghost invariant = { λ c. c.count ≤ most_entries };
}

impl CellEntries {
    fn none() -> CellEntries
        ensures { result ≡ [] }
    {
        let unused = Entry {
            cell: CellId(0),
            value: ValueId(0),
        };
        CellEntries {
            places: [unused; MOST_ENTRIES],
            count: 0,
        }
    }

    fn push(&mut self, entry: Entry)
        requires { length self.old < most_entries }
        ensures { self.new ≡ self.old ++ entry ∷ [] }
    {
        self.places[self.count] = entry;
        self.count += 1;
    }

    // Appends the entry where it is one of that cell.
    fn push_if_of(&mut self, cell: CellId, entry: Entry)
        requires { length self.old + length (entries_of cell (entry ∷ [])) ≤ most_entries }
        ensures { self.new ≡ self.old ++ entries_of cell (entry ∷ []) }
    {
        if entry.cell.0 == cell.0 {
            self.push(entry);
        }
    }

    /// The entries as a slice.
    pub(crate) fn as_slice(&self) -> &[Entry]
        ensures { result.now ≡ self.now }
    {
        &self.places[..self.count]
    }
}

/// The cell's entries. They are found by one walk over all entries, which takes no memory.
pub(crate) fn entries_of(book: &Book, cell: CellId) -> CellEntries
    ensures exact { result ≡ entries_of cell book.now.entries }
    ensures formed { IsWellFormed book.now }
{
    let mut found = CellEntries::none();
    for entry in book.entries() {
        found.push_if_of(cell, *entry);
    }
    found
}

/// Whether there are two or more.
pub(crate) fn are_several(entries: &[Entry]) -> bool
    ensures { result ≡ are_several entries.now }
{
    match entries {
        [] => false,
        [_] => false,
        [_, _, ..] => true,
    }
}
