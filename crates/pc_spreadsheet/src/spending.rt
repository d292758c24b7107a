//! What searches spend: how it is told and noted.
ghost use Rattle.std.specs.Prelude.{◌≡◌};
ghost use Rattle.pc_theory.specs.Spendings.{IsLawful};
ghost use Rattle.pc_theory.specs.WholeSpendings.{IsSpentWhole};
ghost use Rattle.pc_spreadsheet.specs.Allowed.{told_counts_of};
ghost use Rattle.pc_spreadsheet.specs.Commands.{IsSpentLawfully, NotesSpent, TellsRefused};
ghost use Rattle.pc_spreadsheet.specs.inside.Repairs.{NotesWhole};

use crate::page::Page;
use pc_books::Book;
use pc_lits::Tally;
use pc_log::Log;
use pc_reason::Refutation;
use pc_refusals::{Counts, Refusal};
use pc_session::{EditRefused, Spending, Spendings};
use pc_sheet::CellId;
use pc_transcript::Reply;
use std::alloc::AllocError;

/// What is told of a command line.
pub(crate) type Told = Reply<Page, Refutation>;

/// The numbers that are told of what was spent.
pub(crate) fn counts_of(tally: Tally) -> Counts
    ensures { result ≡ told_counts_of tally }
{
    Counts {
        placed: tally.placed,
        learned: tally.learned,
        calls: tally.calls,
    }
}

/// Notes what searches of the whole book have spent, and tells it.
pub(crate) fn note_whole(book: &Book, logs: &[Log], tally: Tally, notes: &mut Spendings) -> Told
    requires { IsSpentWhole book.now logs.now tally }
    ensures { NotesWhole book.now tally notes.old notes.new result }
{
    match notes.note_whole(book, logs, tally) {
        Ok(()) => Reply::Refused(Refusal::Spent(counts_of(tally)), None),
        Err(AllocError) => Reply::Memory,
    }
}

// Notes what the search of an edit has spent that would have made the book, and tells it.
fn note_spent(made: Book, cell: Option<CellId>, spending: &Spending, notes: &mut Spendings) -> Told
    requires { IsLawful made cell spending.now.tally.limit spending.now }
    ensures { NotesSpent made cell spending.now notes.old notes.new result }
{
    match notes.note(made, cell, spending) {
        Ok(()) => Reply::Refused(Refusal::Spent(counts_of(spending.tally)), None),
        Err(AllocError) => Reply::Memory,
    }
}

/// Tells why an edit of that cell, or of a rule, is refused; what its search has spent is noted too.
pub(crate) fn tell_refused(
    refused: EditRefused,
    cell: Option<CellId>,
    notes: &mut Spendings,
) -> Told
    requires { IsSpentLawfully refused cell }
    ensures { TellsRefused refused cell notes.old notes.new result }
{
    match refused {
        EditRefused::NoEntry => Reply::Refused(Refusal::NoEntry, None),
        EditRefused::DuplicateRule => Reply::Refused(Refusal::DuplicateRule, None),
        EditRefused::NoRule => Reply::Refused(Refusal::NoRule, None),
        EditRefused::TooLarge => Reply::Refused(Refusal::TooLarge, None),
        EditRefused::Inconsistent(refutation) => {
            Reply::Refused(Refusal::Inconsistent, Some(refutation))
        }
        EditRefused::Spent(made, spending) => note_spent(made, cell, &spending, notes),
        EditRefused::Memory => Reply::Memory,
    }
}
