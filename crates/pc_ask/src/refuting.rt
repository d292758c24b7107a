//! Whether entries can stand together in a book.
ghost use Rattle.std.specs.Prelude.{◌≡◌, All, IfErr, IfOk, map};
ghost use Rattle.pc_components.specs.Pairs.{entry_literal};
ghost use Rattle.pc_problem.specs.Room.{HasRoom};
ghost use Rattle.pc_sheet.specs.Entailment.{cell_sizes};
ghost use Rattle.pc_solver.specs.Spending.{GoesOnFor, StopSays};
ghost use Rattle.pc_ask.specs.inside.Narrowing.{RefuteSays};
ghost use Rattle.pc_ask.specs.inside.Parts.{IsAskable, IsAsked, IsTask};

use crate::part::AskTask;
use pc_components::axioms_are_for_their_sheet;
use pc_lits::{Lit, Tally};
use pc_log::{Log, StepId};
use pc_problem::laws::parts_are_searched;
use pc_sheet::Entry;
use pc_solver::{Outcome, Solver, Stop};
use std::alloc::AllocError;

// That the entries stand, in their order.
fn assumptions(task: AskTask<'_>, set: &[Entry]) -> Result<Vec<Lit>, AllocError>
    requires task { IsTask task.book.now task.ground.now }
    requires set { All (IsAskable task.book.now) set.now }
    ensures { IfOk result (λ lits.
        lits.items ≡ map (entry_literal (cell_sizes task.entry.book.now.universe)) set.now) }
{
    let mut lits = Vec::new(task.alloc);
    for entry in set {
        lits.push(Lit::positive(task.ground.pair(entry.cell, entry.value)))?;
    }
    Ok(lits)
}

/// The line that derives that some entry of the set doesn't stand, or `None` where some assignment fits the book and has the
/// set: one of the part that has what is asked, laid over one that fits the rest. It takes one call of the solver.
pub(crate) fn refute_set(
    task: AskTask<'_>,
    set: &[Entry],
    solver: &mut Solver<'_>,
    log: &mut Log,
    tally: &mut Tally,
) -> Result<Option<StepId>, Stop>
    requires task { IsTask task.book.now task.ground.now }
    requires set { All (IsAskable task.book.now) set.now }
    requires asked { IsAsked task.book.now task.variables.now solver.old log.old }
    requires counts { HasRoom 126 tally.old }
    ensures goes_on { GoesOnFor 1 solver.old solver.new tally.old tally.new log.old log.new }
    ensures says { IfOk result (RefuteSays task.entry.book.now set.now log.new) }
    ensures stop { IfErr result (StopSays tally.new) }
{
    parts_are_searched();
    axioms_are_for_their_sheet();
    let assumed = assumptions(task, set)?;
    match solver.solve(&assumed, log, tally) {
        Outcome::Sat => Ok(None),
        Outcome::Unsat(line) => Ok(Some(line)),
        Outcome::Spent => Err(Stop::Spent),
        Outcome::Memory => Err(Stop::Memory),
    }
}
