//! The least entries that can't stand together in a book, with an assignment that has them and the line that derives it.
ghost use Rattle.std.specs.Prelude.{◌+◌, ◌*◌, List, IfErr, IfOk, length};
ghost use Rattle.pc_log.specs.Lines.{LogLine};
ghost use Rattle.pc_problem.specs.Room.{HasRoom};
ghost use Rattle.pc_solver.specs.Spending.{GoesOnFor, StopSays};
ghost use Rattle.pc_ask.specs.inside.Choices.{IsChoosing, IsNarrowedTo, tried_of};
ghost use Rattle.pc_ask.specs.inside.Finding.{FindSays, IsFoundOf};
ghost use Rattle.pc_ask.specs.inside.Parts.{IsAsked};

use crate::candidates::those_in;
use crate::narrowing::{Choosing, Narrowed, narrow};
use crate::ways::way_at;
use pc_books::Assignment;
use pc_lits::Tally;
use pc_log::{Log, StepId};
use pc_sheet::Entry;
use pc_solver::{Solver, Stop};
use std::alloc::AllocError;

/// Entries, an assignment that has them, and the line that derives that one of them doesn't stand.
#[derive(Drop)]
pub(crate) struct Found {
    pub(crate) support: Vec<Entry>,
    pub(crate) shown: Assignment,
    pub(crate) last: StepId,
}

// What is kept in the order of the book's entries, with the witness's assignment and line.
fn found_of(choosing: Choosing<'_, '_>, narrowed: &Narrowed) -> Result<Found, AllocError>
    requires choosing { IsChoosing choosing }
    requires narrowed { (log : List LogLine) × IsNarrowedTo choosing 0 log narrowed.now }
    ensures { IfOk result (IsFoundOf choosing.entry narrowed.now) }
{
    let alloc = choosing.task.alloc;
    let way = narrowed.witness.way;
    let support = those_in(alloc, choosing.task.book.entries(), &narrowed.kept)?;
    let shown = way_at(alloc, choosing.fitting, choosing.parts, way)?;
    Ok(Found {
        support,
        shown,
        last: narrowed.witness.line,
    })
}

/// The least entries that can't stand together and that the assignment of some way has; `None` where no way's entries can't
/// stand together.
pub(crate) fn find(
    choosing: Choosing<'_, '_>,
    solver: &mut Solver<'_>,
    log: &mut Log,
    tally: &mut Tally,
) -> Result<Option<Found>, Stop>
    requires choosing { IsChoosing choosing }
    requires asked { IsAsked choosing.task.book.now choosing.task.variables.now solver.old log.old }
    requires counts { HasRoom 120 tally.old }
    ensures goes_on { GoesOnFor (tried_of choosing.entry * (length choosing.entry.entries.now + 1))
        solver.old solver.new tally.old tally.new log.old log.new }
    ensures says { IfOk result (FindSays choosing.entry log.new) }
    ensures stop { IfErr result (StopSays tally.new) }
{
    match narrow(choosing, solver, log, tally)? {
        None => Ok(None),
        Some(narrowed) => Ok(Some(found_of(choosing, &narrowed)?)),
    }
}
