//! The entries of a book by cell and value, so that one look tells whether an entry is there.

ghost use Rattle.std.specs.Prelude.{◌≡◌, ◌↔◌, All, Contains, IfOk, IsTrue, List, false, length, replicate};
ghost use Rattle.pc_sheet.specs.declared.ids.Entry.{Entry as TheEntry};
ghost use Rattle.pc_checker.specs.Entered.{AreEnteredPairs, ArePairsMarked, HasPlace, pair_place};

use pc_books::{Book, well_formed};
use pc_sheet::{Entry, MOST_VALUES};
use std::alloc::{AllocError, Global};

/// Whether each pair of a cell and a value is entered.
pub(crate) fn entered_pairs(alloc: Global, book: &Book) -> Result<Vec<bool>, AllocError>
    ensures { IfOk result (λ marks. AreEnteredPairs book.now marks.items) }
{
    well_formed(book);
    let mut marks = vec![in alloc; false; book.cells() * MOST_VALUES]?;
    mark_pairs(book.entries(), &mut marks);
    Ok(marks)
}

// Marks the pairs that are entered.
fn mark_pairs(entries: &[Entry], marks: &mut [bool])
    requires within { All (HasPlace marks.old) entries.now }
    requires blank { marks.old ≡ replicate (length marks.old) false }
    ensures { ArePairsMarked entries.now marks.new }
{
    for entry in entries {
        marks[place_of(*entry)] = true;
    }
}

/// The place of a pair.
pub(crate) fn place_of(entry: Entry) -> usize
    ensures { result ≡ pair_place entry }
{
    usize::from(entry.cell.0) * MOST_VALUES + usize::from(entry.value.0)
}

/// Whether the entry is one of those that were marked.
pub(crate) fn is_entered(marks: &[bool], entry: Entry) -> bool
    requires { HasPlace marks.now entry }
    ensures { (entries : List TheEntry) → ArePairsMarked entries marks.now →
        (IsTrue result ↔ Contains entries entry) }
{
    marks[place_of(entry)]
}
