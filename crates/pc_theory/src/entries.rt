//! The entries of one part.
ghost use Rattle.std.specs.Prelude.{◌≡◌, ◌<◌, All, IfOk, filter, length};
ghost use Rattle.pc_parts.specs.Components.{parts_of};
ghost use Rattle.pc_parts.specs.Parts.{IsDivision};
ghost use Rattle.pc_theory.specs.inside.PartTasks.{AreEntriesOf, has_number};
ghost use Rattle.pc_theory.specs.inside.Tasks.{AreSearchedParts};
ghost use Rattle.pc_theory.specs.Theories.{rules_alone};

use pc_books::{Book, few_entries};
use pc_components::Components;
use pc_sheet::Entry;
use std::alloc::{AllocError, Global};

// Whether the part of the entry's cell has that number.
fn has_number(components: &Components, number: usize, entry: Entry) -> bool
    requires { entry.cell.0 < length components.now.numbers }
    ensures { result ≡ has_number components.now.numbers number entry }
{
    components.of(entry.cell) == number
}

// Those of the entries whose cells' part has that number, in their order.
fn numbered(
    alloc: Global,
    entries: &[Entry],
    components: &Components,
    number: usize,
) -> Result<Vec<Entry>, AllocError>
    requires { All (λ e. e.cell.0 < length components.now.numbers) entries.now }
    ensures { IfOk result (λ es.
        es.items ≡ filter (has_number components.now.numbers number) entries.now) }
{
    let mut found = Vec::new(alloc);
    for entry in entries {
        if has_number(components, number, *entry) {
            found.push(*entry)?;
        }
    }
    Ok(found)
}

/// The book's entries on the cells of the part of that number, oldest first. The part of each entry's cell is looked up.
pub(crate) fn entries_of(
    alloc: Global,
    book: &Book,
    components: &Components,
    number: usize,
) -> Result<Vec<Entry>, AllocError>
    requires parts { AreSearchedParts (rules_alone book.now) components.now }
    requires division { IsDivision book.now (parts_of book.now) }
    ensures { IfOk result (λ es. AreEntriesOf book.now components.now number es.items) }
{
    few_entries(book);
    numbered(alloc, book.entries(), components, number)
}
