//! The book that a text gives.
ghost use Rattle.std.specs.Prelude.{◌≤◌, length, MatchResult};
ghost use Rattle.pc_sheet.specs.Sheet.{Sheet};
ghost use Rattle.pc_refusals.specs.Refusals.{RefusesBy};
ghost use Rattle.pc_load.specs.Outcome.{HasFault};
ghost use Rattle.pc_sortcheck.specs.Declaring.{ReadsAs};

use crate::law::texts_have_one_outcome;
use crate::refusal::{refuse_sort, refuse_text};
use pc_books::Book;
use pc_lines::SHEET_LIMIT;
use pc_refusals::LoadFault;
use pc_sortcheck::check_sheet;
use pc_syntax::parse_sheet;
use std::alloc::Global;

// The book of the text, or its first fault.
fn read_book(alloc: Global, text: &[u8]) -> Result<Book, LoadFault>
    requires { length text.now ≤ SHEET_LIMIT }
    ensures { MatchResult result (ReadsAs text.now) (RefusesBy (HasFault text.now)) }
{
    let tree = match parse_sheet(alloc, text) {
        Ok(tree) => tree,
        Err(fault) => return Err(refuse_text(fault)),
    };
    match check_sheet(alloc, &tree) {
        Ok(book) => Ok(book),
        Err(why) => Err(refuse_sort(why)),
    }
}

/// The book of a sheet's text. A text that is no sheet is refused for its first fault: of text, and where it has none, of
/// names and sorts.
pub fn load_book(alloc: Global, text: &[u8]) -> Result<Book, LoadFault>
    requires { length text.now ≤ SHEET_LIMIT }
    ensures { MatchResult result (ReadsAs text.now) (RefusesBy (λ why. HasFault text.now why ×
        ((sheet : Sheet) → ¬ ReadsAs text.now sheet))) }
{
    texts_have_one_outcome();
    read_book(alloc, text)
}
