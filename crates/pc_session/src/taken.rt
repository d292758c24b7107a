//! What an edit takes away of a cell's entries.
ghost use Rattle.std.specs.Prelude.{◌≡◌, ◌↔◌, [], Contains, IfNone, IfSome, IsTrue, true};
ghost use Rattle.std.specs.List.{list_any};
ghost use Rattle.pc_justify_laws.specs.Edits.{edited, HasNone};
ghost use Rattle.pc_parts.specs.Parts.{Part};
ghost use Rattle.pc_search.specs.Parts.{AreWorldsOf};
ghost use Rattle.pc_session.specs.inside.Taken.{takes};

use pc_books::Book;
use pc_sheet::{CellId, Entry};
use pc_world_list::Worlds;

/// What an edit takes away of a cell's entries.
#[derive(Clone, Copy)]
pub(crate) enum Taken {
    /// Nothing.
    Nothing,
    /// The others of the entry's cell.
    Rivals(Entry),
    /// That entry.
    One(Entry),
    /// All of the cell's.
    Cell(CellId),
}

impl Taken {
    // Whether the entry is taken away.
    fn takes(self, entry: Entry) -> bool
        ensures { result ≡ takes self entry }
    {
        match self {
            Taken::Nothing => false,
            Taken::Rivals(other) => {
                entry.cell.0 == other.cell.0 && !(entry.value.0 == other.value.0)
            }
            Taken::One(one) => entry.cell.0 == one.cell.0 && entry.value.0 == one.value.0,
            Taken::Cell(cell) => entry.cell.0 == cell.0,
        }
    }
}

/// Whether the entry is one of these.
pub(crate) fn stands(entries: &[Entry], entry: Entry) -> bool
    ensures { IsTrue result ↔ Contains entries.now entry }
{
    entries.contains(&entry)
}

/// Whether some of the entries are taken away.
pub(crate) fn takes_some(taken: Taken, entries: &[Entry]) -> bool
    ensures { result ≡ list_any (takes taken) entries.now }
{
    entries.iter().any(|entry| taken.takes(*entry))
}

// The first that is taken away, if some are.
fn first_taken(taken: Taken, entries: &[Entry]) -> Option<Entry>
    ensures found { IfSome result (λ e. Contains entries.now e) }
    ensures taken { IfSome result (λ e. takes taken e ≡ true) }
    ensures none { IfNone result (HasNone (takes taken) entries.now) }
{
    for entry in entries {
        if taken.takes(*entry) {
            return Some(*entry);
        }
    }
    None
}

/// Takes entries of a book away, and out of the worlds of a part, where these are such. It takes no memory.
pub(crate) fn take_away(taken: Taken, book: &mut Book, worlds: &mut Worlds)
    ensures book { book.new ≡ edited book.old (takes taken) [] }
    ensures worlds { (p : Part) → AreWorldsOf book.old p worlds.old →
        AreWorldsOf book.new p worlds.new }
{
    while let Some(entry) = first_taken(taken, book.entries()) {
        book.remove_entry(entry);
        worlds.remove(entry);
    }
}
