//! Edits of a cell's entries.
ghost use Rattle.std.specs.Prelude.{◌≡◌, OnErr, OnOk, None};
ghost use Rattle.pc_parts.specs.Parts.{Part};
ghost use Rattle.pc_search.specs.Parts.{AreWorldsOf};
ghost use Rattle.pc_session.specs.inside.Changes.{adds_one, made_of, IsChangeOf};
ghost use Rattle.pc_theory.specs.Theories.{rules_alone};

use crate::taken::{Taken, take_away};
use pc_books::Book;
use pc_sheet::{CellId, Entry};
use pc_world_list::Worlds;
use std::alloc::AllocError;

/// An edit of a cell's entries: which of them go, and which one is added as the newest.
#[derive(Clone, Copy)]
pub(crate) struct Change {
    pub(crate) cell: CellId,
    pub(crate) taken: Taken,
    pub(crate) added: Option<Entry>,
}

impl Change {
    /// Whether an entry is added.
    pub(crate) fn adds(self) -> bool
        ensures { result ≡ adds_one self.added }
    {
        match self.added {
            Some(_) => true,
            None => false,
        }
    }
}

/// Makes the edit in a book, and takes what goes out of the worlds of a part. Without memory the universe and the rules stay.
pub(crate) fn make(change: Change, book: &mut Book, worlds: &mut Worlds) -> Result<(), AllocError>
    requires { IsChangeOf book.old change }
    ensures book { OnOk result (book.new ≡ made_of book.old change) }
    ensures worlds { change.added ≡ None → (p : Part) → AreWorldsOf book.old p worlds.old →
        AreWorldsOf book.new p worlds.new }
    ensures rules { rules_alone book.new ≡ rules_alone book.old }
{
    take_away(change.taken, book, worlds);
    match change.added {
        Some(entry) => book.also_entry(entry),
        None => Ok(()),
    }
}
