//! Why loads and edits are refused.
ghost use Rattle.std.specs.Prelude.{◌≡◌};
ghost use Rattle.pc_session.specs.inside.Refusals.{IsSameRefusal, IsStopTold};

use pc_books::Book;
use pc_reason::Refutation;
use pc_solver::Stop;
use pc_theory::Spending;
use std::alloc::{AllocError, Global};

/// Why a book isn't loaded.
#[derive(Drop)]
pub enum LoadRefused {
    /// It weighs more than 4,000,000.
    TooLarge,
    /// No assignment makes every rule true.
    Inconsistent(Refutation),
    /// The budget ran out: the book, and what its search has spent.
    Spent(Book, Spending),
    /// Memory was wanting.
    Memory,
}

/// Why an edit isn't made.
#[derive(Drop)]
pub enum EditRefused {
    /// The cell has no entry, or not that one.
    NoEntry,
    /// A rule of that name stands.
    DuplicateRule,
    /// No rule of that name stands.
    NoRule,
    /// The new book weighs more than 4,000,000.
    TooLarge,
    /// No assignment makes every rule of the new book true.
    Inconsistent(Refutation),
    /// The budget ran out: the book that the edit would have made, and what its search has spent.
    Spent(Book, Spending),
    /// Memory was wanting.
    Memory,
}

impl From<AllocError> for LoadRefused {
    ghost use Rattle.pc_session.specs.declared.refused.LoadRefused.TheVariants.{Memory};

    ghost from_gives = { λ _ refused. refused ≡ Memory };

    fn from(_: AllocError) -> LoadRefused {
        LoadRefused::Memory
    }
}

impl From<AllocError> for EditRefused {
    ghost use Rattle.pc_session.specs.declared.refused.EditRefused.TheVariants.{Memory};

    ghost from_gives = { λ _ refused. refused ≡ Memory };

    fn from(_: AllocError) -> EditRefused {
        EditRefused::Memory
    }
}

/// The refusal of a load as that of an edit.
pub(crate) fn refused_edit(refused: LoadRefused) -> EditRefused
    ensures { IsSameRefusal refused result }
{
    match refused {
        LoadRefused::TooLarge => EditRefused::TooLarge,
        LoadRefused::Inconsistent(refutation) => EditRefused::Inconsistent(refutation),
        LoadRefused::Spent(book, spending) => EditRefused::Spent(book, spending),
        LoadRefused::Memory => EditRefused::Memory,
    }
}

/// The refusal of an edit that would have made the book, and whose search ended early. The book is copied for the note of a
/// spending.
pub(crate) fn refused_by(alloc: Global, stop: Stop, made: &Book, spending: Spending) -> EditRefused
    ensures { IsStopTold stop made.now spending result }
{
    match stop {
        Stop::Spent => match made.copy(alloc) {
            Ok(book) => EditRefused::Spent(book, spending),
            Err(_) => EditRefused::Memory,
        },
        Stop::Memory => EditRefused::Memory,
    }
}
