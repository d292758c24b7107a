//! The spreadsheet that a sheet's text gives.
ghost use Rattle.std.specs.Prelude.{◌≡◌, ◌≤◌, None, length, MatchResult};
ghost use Rattle.pc_theory.specs.Spendings.{IsLawful};
ghost use Rattle.pc_spreadsheet.specs.Judgement.{of_whole};
ghost use Rattle.pc_spreadsheet.specs.Tasks.{Starts};
ghost use Rattle.pc_spreadsheet.specs.inside.Loading.{IsNotLoaded, NotesLoad, OpensAs};
ghost use Rattle.pc_transcript.specs.declared.machine.LoadStop.TheVariants.{Refused};

use crate::spending::counts_of;
use crate::spreadsheet::Spreadsheet;
use pc_books::Book;
use pc_lines::SHEET_LIMIT;
use pc_load::load_book;
use pc_reason::Refutation;
use pc_refusals::{LoadFault, Refusal, SheetRefusal};
use pc_session::{LoadRefused, Session, Spending, Spendings};
use pc_transcript::{LoadStop, MOST_BUDGET};
use std::alloc::{AllocError, Global};

// The refusal of a sheet as a whole, with what shows that it is right.
fn refuse_whole(refusal: Refusal, proof: Option<Refutation>) -> LoadStop<Refutation>
    ensures { result ≡ Refused (of_whole refusal) proof }
{
    LoadStop::Refused(
        SheetRefusal {
            refusal,
            line: None,
        },
        proof,
    )
}

// Notes what the search of a book has spent, and tells it.
fn note_load(book: Book, spending: &Spending, notes: &mut Spendings) -> LoadStop<Refutation>
    requires { IsLawful book None spending.now.tally.limit spending.now }
    ensures { NotesLoad book spending.now notes.old notes.new result }
{
    match notes.note(book, None, spending) {
        Ok(()) => refuse_whole(Refusal::Spent(counts_of(spending.tally)), None),
        Err(AllocError) => LoadStop::Memory,
    }
}

// The spreadsheet of a book, if its weight and its rules allow it.
fn open(
    alloc: Global,
    book: Book,
    budget: u64,
    notes: &mut Spendings,
) -> Result<Spreadsheet, LoadStop<Refutation>>
    requires at_least { 1 ≤ budget }
    requires at_most { budget ≤ MOST_BUDGET }
    ensures { OpensAs budget book notes.old notes.new result }
{
    match Session::load(alloc, book, budget) {
        Ok(session) => Ok(Spreadsheet { session }),
        Err(LoadRefused::TooLarge) => Err(refuse_whole(Refusal::TooLarge, None)),
        Err(LoadRefused::Inconsistent(refutation)) => {
            Err(refuse_whole(Refusal::Inconsistent, Some(refutation)))
        }
        Err(LoadRefused::Spent(made, spending)) => Err(note_load(made, &spending, notes)),
        Err(LoadRefused::Memory) => Err(LoadStop::Memory),
    }
}

/// The spreadsheet of a sheet's text. A text is refused for its first fault, of text or of names and sorts; a sheet for its
/// weight, or for its rules, with a certificate of their inconsistency; and where the search of it spends the budget, which
/// is noted.
pub(crate) fn load(
    alloc: Global,
    text: &[u8],
    budget: u64,
    notes: &mut Spendings,
) -> Result<Spreadsheet, LoadStop<Refutation>>
    requires small { length text.now ≤ SHEET_LIMIT }
    requires at_least { 1 ≤ budget }
    requires at_most { budget ≤ MOST_BUDGET }
    ensures { MatchResult result (λ state. Starts budget text.now state × (notes.new ≡ notes.old))
        (IsNotLoaded budget text.now notes.old notes.new) }
{
    match load_book(alloc, text) {
        Ok(book) => open(alloc, book, budget, notes),
        Err(LoadFault::Refused(why)) => Err(LoadStop::Refused(why, None)),
        Err(LoadFault::Memory) => Err(LoadStop::Memory),
    }
}
