//! Whether a set of entries can stand where a target doesn't hold.

ghost use Rattle.std.specs.Prelude.{◌≡◌, ◌∷◌, ◌++◌, [], All, IfErr, IfOk, length, map, true};
ghost use Rattle.pc_lits.specs.Literals.{negated};
ghost use Rattle.pc_sheet.specs.Entailment.{IsAssignment};
ghost use Rattle.pc_components.specs.Pairs.{entry_literal, target_literal, IsValueOfCell};
ghost use Rattle.pc_ground.specs.Variables.{variable_count};
ghost use Rattle.pc_solver.specs.Spending.{SpendsIn, StopSays};
ghost use Rattle.pc_repairs.specs.inside.Asking.{AskSays, IsAsked};
ghost use Rattle.pc_repairs.specs.inside.Tasks.{IsTask};
ghost use Rattle.pc_problem.specs.Room.{HasRoom};

use crate::blocks::literal_of;
use crate::task::WholeTask;
use pc_books::Assignment;
use pc_ground::Ground;
use pc_lits::{Lit, Tally};
use pc_log::Log;
use pc_problem::laws::whole_is_searched;
use pc_sheet::{Entry, Target};
use pc_solver::{Outcome, Solver, Stop};
use pc_theory::read_values;
use std::alloc::AllocError;

// That the target's cell hasn't its value.
fn goal_of(ground: &Ground, target: Target) -> Lit
    requires target { IsValueOfCell ground.now.sizes target.cell target.value }
    requires holds { target.holds ≡ true }
    ensures { result ≡ negated (target_literal ground.now.sizes target) }
{
    Lit::negative(ground.pair(target.cell, target.value))
}

/// That the set's entries stand, oldest first, and that the target's cell hasn't its value.
fn assumptions(task: WholeTask<'_>, set: &[Entry], target: Target) -> Result<Vec<Lit>, AllocError>
    requires set { All (λ e. IsValueOfCell task.ground.now.sizes e.cell e.value) set.now }
    requires target { IsValueOfCell task.ground.now.sizes target.cell target.value }
    requires holds { target.holds ≡ true }
    ensures { IfOk result (λ lits. lits.items ≡ map (entry_literal task.entry.ground.now.sizes)
        set.now ++ negated (target_literal task.entry.ground.now.sizes target) ∷ []) }
{
    let mut lits = Vec::new(task.alloc);
    for entry in set {
        lits.push(literal_of(task.ground, *entry))?;
    }
    lits.push(goal_of(task.ground, target))?;
    Ok(lits)
}

/// Whether some fitting assignment has the set and lacks the target. If so it is read; else the one before stays. The solver
/// has no blocks.
pub(crate) fn ask(
    task: WholeTask<'_>,
    set: &[Entry],
    target: Target,
    solver: &mut Solver<'_>,
    shown: &mut Assignment,
    log: &mut Log,
    tally: &mut Tally,
) -> Result<bool, Stop>
    requires task { IsTask task.book.now task.ground.now task.numbers.now }
    requires set { All (λ e. IsValueOfCell task.ground.now.sizes e.cell e.value) set.now }
    requires target { IsValueOfCell task.ground.now.sizes target.cell target.value }
    requires holds { target.holds ≡ true }
    requires asked { IsAsked task.book.now [] solver.old log.old }
    requires shown { IsAssignment task.book.now.universe shown.old }
    requires counts { HasRoom 126 tally.old }
    ensures asked { IsAsked task.entry.book.now [] solver.new log.new }
    ensures shown { IsAssignment task.entry.book.now.universe shown.new }
    ensures spends { SpendsIn (variable_count task.entry.book.now) 1 tally.old tally.new log.old
        log.new }
    ensures says { IfOk result (AskSays task.entry.book.now set.now target shown.new) }
    ensures stop { IfErr result (StopSays tally.new) }
{
    whole_is_searched();
    let assumed = assumptions(task, set, target)?;
    match solver.solve(&assumed, log, tally) {
        Outcome::Sat => {
            read_values(task.book, task.ground, &task.numbers.cells, solver, shown);
            Ok(true)
        }
        Outcome::Unsat(_) => Ok(false),
        Outcome::Spent => Err(Stop::Spent),
        Outcome::Memory => Err(Stop::Memory),
    }
}
