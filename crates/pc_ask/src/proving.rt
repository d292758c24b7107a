//! What a search derives against the last rule of the asked book, as what a certificate of it is made of.
ghost use Rattle.std.specs.Prelude.{◌≡◌, ◌-◌, [], IfOk, length};
ghost use Rattle.pc_sheet.specs.Sheet.{Sheet, Statement};
ghost use Rattle.pc_accept.specs.Asked.{asked};
ghost use Rattle.pc_world_list.specs.RuleCertificates.{GoesAgainst};
ghost use Rattle.pc_ground.specs.Naming.{names_of};
ghost use Rattle.pc_solver.specs.Solver.{IsLawfulLog};
ghost use Rattle.pc_repairs.specs.Searches.{whole_problem};
ghost use Rattle.pc_ask.specs.Asking.{IsAnswer};

use crate::answer::Answer;
use pc_books::{Book, well_formed};
use pc_justify_laws::{names_are_of_their_sheet, own_lines_are_named, trimmed_lines_are_against};
use pc_log::{Log, Span, trim};
use std::alloc::{AllocError, Global};

/// The lines that the answer's last line rests on: with the answer's names they make a certificate against the last rule of the
/// asked book, which uses the support and shows the assignment.
pub fn prove(
    alloc: Global,
    book: &Book,
    answer: &Answer,
    log: &Log,
) -> Result<(Log, Span), AllocError>
    requires lawful { IsLawfulLog (whole_problem book.now) [] log.now }
    requires answer { (sheet : Sheet) × (f : Statement) × (book.now ≡ asked sheet f) ×
        IsAnswer sheet f log.now answer.now }
    ensures { IfOk result (λ kept. GoesAgainst book.now (names_of book.now) (length book.now.rules -
        1) answer.now.support.items answer.now.shown kept.0 kept.1) }
{
    names_are_of_their_sheet();
    own_lines_are_named();
    trimmed_lines_are_against();
    well_formed(book);
    log.few_lines();
    let mut kept = Log::new(alloc);
    let span = trim(alloc, log, answer.last, &mut kept)?;
    Ok((kept, span))
}
