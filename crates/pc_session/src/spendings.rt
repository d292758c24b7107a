//! What a run has shown to be spent.
ghost use Rattle.std.specs.Prelude.{◌≡◌, ◌∷◌, ◌++◌, [], None, OnOk, OnErr};
ghost use Rattle.pc_theory.specs.Spendings.{IsLawful};
ghost use Rattle.pc_theory.specs.WholeSpendings.{IsSpentWhole};
ghost use Rattle.pc_session.specs.Views.{counts_of};

use pc_books::Book;
use pc_lits::Tally;
use pc_log::Log;
use pc_sheet::CellId;
use pc_theory::Spending;
use std::alloc::{AllocError, Global};
use std::marker::Model;

// A book whose load, edit or whole search spent too much, the cell of an edit of an entry, and the tally.
#[derive(Drop)]
struct Note {
    book: Book,
    cell: Option<CellId>,
    tally: Tally,
}

/// Notes of lawful spendings, oldest first.
#[derive(Drop)]
pub struct Spendings {
    alloc: Global,
    notes: Vec<Note>,
}

impl Model for Spendings {
    ghost use Rattle.std.specs.Prelude.{List};
    ghost use Rattle.pc_session.specs.NoteViews.{NoteView, coded_notes};

    ghost Value = { List NoteView };

    ghost coded = { coded_notes };

    ghost use Rattle.std.specs.Prelude.{map};
    ghost use Rattle.pc_session.specs.Notes.{note_of};

    ghost view = { λ s. map note_of s.notes.items };
}

impl Spendings {
    /// No notes. It takes no memory.
    pub fn new(alloc: Global) -> Spendings
        ensures { result ≡ [] }
    {
        Spendings {
            alloc,
            notes: Vec::new(alloc),
        }
    }

    /// Adds the note of a lawful spending as the last one. Nothing but this and `note_whole` adds to the list, and without
    /// memory it stays as it is.
    pub fn note(
        &mut self,
        book: Book,
        cell: Option<CellId>,
        spending: &Spending,
    ) -> Result<(), AllocError>
        requires { IsLawful book cell spending.now.tally.limit spending.now }
        ensures ok { OnOk result (self.new ≡ self.old ++
            (record { sheet = book; cell = cell; tally = counts_of spending.now.tally }) ∷ []) }
        ensures err { OnErr result (self.new ≡ self.old) }
    {
        self.add(book, cell, spending.tally)
    }

    /// Adds the note of a spending on the whole book as the last one: with these logs all that the limit allows was placed.
    /// Without memory the list stays as it is.
    pub fn note_whole(&mut self, book: &Book, logs: &[Log], tally: Tally) -> Result<(), AllocError>
        requires { IsSpentWhole book.now logs.now tally }
        ensures ok { OnOk result (self.new ≡ self.old ++
            (record { sheet = book.now; cell = None; tally = counts_of tally }) ∷ []) }
        ensures err { OnErr result (self.new ≡ self.old) }
    {
        let _logs = logs;
        let book = book.copy(self.alloc)?;
        self.add(book, None, tally)
    }

    // Adds a note as the last one.
    fn add(&mut self, book: Book, cell: Option<CellId>, tally: Tally) -> Result<(), AllocError>
        ensures ok { OnOk result (self.new ≡ self.old ++
            (record { sheet = book; cell = cell; tally = counts_of tally }) ∷ []) }
        ensures err { OnErr result (self.new ≡ self.old) }
    {
        self.notes.push(Note { book, cell, tally })?;
        Ok(())
    }
}
