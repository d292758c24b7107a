//! That a book's maximal sets are all that there are.

ghost use Rattle.std.specs.Prelude.{◌≡◌, ◌<◌, ◌^◌, [], IfErr, IfOk};
ghost use Rattle.pc_ground.specs.Grounded.{grounded};
ghost use Rattle.pc_solver.specs.Spending.{StopSays};
ghost use Rattle.pc_world_list.specs.Worlds.{AreExact};
ghost use Rattle.pc_repairs.specs.Blocks.{blocks_for};
ghost use Rattle.pc_repairs.specs.Searches.{IsRefutedAt, IsWholeSearch};
ghost use Rattle.pc_repairs.specs.inside.Asking.{IsAsked};
ghost use Rattle.pc_repairs.specs.inside.Tasks.{IsTask};
ghost use Rattle.pc_problem.specs.Room.{HasRoom};

use crate::blocks::add_blocks;
use crate::task::{Numbers, WholeTask};
use pc_books::{Book, well_formed};
use pc_ground::Ground;
use pc_laws::consistent_is_in_maximal;
use pc_lits::Tally;
use pc_log::{Log, StepId};
use pc_problem::laws::whole_is_searched;
use pc_solver::{Outcome, Solver, Stop};
use pc_world_list::Worlds;
use std::alloc::Global;

// Adds the blocks of the sets, and makes the one call.
fn refute_blocked(
    task: WholeTask<'_>,
    sets: &Worlds,
    solver: &mut Solver<'_>,
    log: &mut Log,
    tally: &mut Tally,
) -> Result<StepId, Stop>
    requires task { IsTask task.book.now task.ground.now task.numbers.now }
    requires exact { AreExact task.book.now sets.now }
    requires asked { IsAsked task.book.now [] solver.old [] }
    requires new_log { log.old ≡ [] }
    requires counts { HasRoom 126 tally.old }
    ensures refuted { IfOk result (IsRefutedAt task.entry.book.now log.new) }
    ensures stop { IfErr result (StopSays tally.new) }
    ensures search { IsWholeSearch task.entry.book.now (blocks_for task.entry.book.now sets.now) 1
        tally.old tally.new log.new }
{
    whole_is_searched();
    consistent_is_in_maximal();
    well_formed(task.book);
    add_blocks(task, sets, solver)?;
    match solver.solve(&[], log, tally) {
        Outcome::Unsat(last) => Ok(last),
        // Under a fitting assignment some block is false.
        Outcome::Sat => unreachable!(),
        Outcome::Spent => Err(Stop::Spent),
        Outcome::Memory => Err(Stop::Memory),
    }
}

// The same with a solver of its own.
fn refute_task(
    task: WholeTask<'_>,
    sets: &Worlds,
    log: &mut Log,
    tally: &mut Tally,
) -> Result<StepId, Stop>
    requires task { IsTask task.book.now task.ground.now task.numbers.now }
    requires exact { AreExact task.book.now sets.now }
    requires new_log { log.old ≡ [] }
    requires counts { HasRoom 126 tally.old }
    ensures refuted { IfOk result (IsRefutedAt task.entry.book.now log.new) }
    ensures stop { IfErr result (StopSays tally.new) }
    ensures search { IsWholeSearch task.entry.book.now (blocks_for task.entry.book.now sets.now) 1
        tally.old tally.new log.new }
{
    let mut solver = task.solver()?;
    refute_blocked(task, sets, &mut solver, log, tally)
}

/// Derives the empty clause from the book's clauses and the blocks of its maximal sets, in one call of a solver. The block of
/// the set at each place has that place as its number. Ok is the line of the empty clause. The log is empty before. Whatever
/// is answered, tally and log have what was done.
pub fn refute(
    alloc: Global,
    book: &Book,
    ground: &Ground,
    sets: &Worlds,
    log: &mut Log,
    tally: &mut Tally,
) -> Result<StepId, Stop>
    requires ground { ground.now ≡ grounded book.now }
    requires exact { AreExact book.now sets.now }
    requires new_log { log.old ≡ [] }
    requires few_learned { tally.old.learned < 2 ^ 126 }
    requires few_calls { tally.old.calls < 2 ^ 126 }
    ensures refuted { IfOk result (IsRefutedAt book.now log.new) }
    ensures stop { IfErr result (StopSays tally.new) }
    ensures search { IsWholeSearch book.now (blocks_for book.now sets.now) 1 tally.old tally.new
        log.new }
{
    let numbers = Numbers::of(alloc, book, ground)?;
    let task = WholeTask {
        alloc,
        book,
        ground,
        numbers: &numbers,
    };
    refute_task(task, sets, log, tally)
}
