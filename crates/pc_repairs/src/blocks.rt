//! The clauses of sets.

ghost use Rattle.std.specs.Prelude.{◌≡◌, ◌<◌, [], IfOk, IsTrue, OnOk, drop, length};
ghost use Rattle.pc_sheet.specs.Entailment.{IsSublist};
ghost use Rattle.pc_components.specs.Pairs.{entry_literal, IsValueOfCell};
ghost use Rattle.pc_world_list.specs.Worlds.{AreExact};
ghost use Rattle.pc_repairs.specs.Blocks.{block_for, blocks_for};
ghost use Rattle.pc_repairs.specs.inside.Asking.{IsAsked};
ghost use Rattle.pc_repairs.specs.inside.Tasks.{IsTask};
ghost use Rattle.pc_repairs.specs.inside.Walks.{starts_with};

use crate::task::WholeTask;
use pc_ground::Ground;
use pc_lits::Lit;
use pc_problem::laws::whole_is_searched;
use pc_sheet::Entry;
use pc_solver::Solver;
use pc_world_list::Worlds;
use std::alloc::AllocError;

/// That the entry's cell has its value.
pub(crate) fn literal_of(ground: &Ground, entry: Entry) -> Lit
    requires { IsValueOfCell ground.now.sizes entry.cell entry.value }
    ensures { result ≡ entry_literal ground.now.sizes entry }
{
    Lit::positive(ground.pair(entry.cell, entry.value))
}

// Whether the set's entry at this place is that one.
fn is_next(set: &[Entry], next: usize, entry: Entry) -> bool
    ensures next { result ≡ starts_with (drop next set.now) entry }
    ensures there { IsTrue result → next < length set.now }
{
    match set.get(next) {
        Some(other) => other.cell.0 == entry.cell.0 && other.value.0 == entry.value.0,
        None => false,
    }
}

// The clause of the entries that aren't in the set, whose entries stand in the order of the book's.
fn block_of(task: WholeTask<'_>, set: &[Entry]) -> Result<Vec<Lit>, AllocError>
    requires task { IsTask task.book.now task.ground.now task.numbers.now }
    requires among { IsSublist task.book.now.entries set.now }
    ensures { IfOk result (λ block. block.items ≡ block_for task.entry.book.now set.now) }
{
    let entries = task.book.entries();
    let mut block = Vec::new(task.alloc);
    let mut next = 0;
    for entry in entries {
        if is_next(set, next, *entry) {
            next += 1;
        } else {
            block.push(literal_of(task.ground, *entry))?;
        }
    }
    Ok(block)
}

/// Adds the block of each of the maximal sets, in the order of the sets.
pub(crate) fn add_blocks(
    task: WholeTask<'_>,
    sets: &Worlds,
    solver: &mut Solver<'_>,
) -> Result<(), AllocError>
    requires task { IsTask task.book.now task.ground.now task.numbers.now }
    requires exact { AreExact task.book.now sets.now }
    requires asked { IsAsked task.book.now [] solver.old [] }
    ensures { OnOk result (IsAsked task.entry.book.now (blocks_for task.entry.book.now sets.now)
        solver.new []) }
{
    whole_is_searched();
    for place in 0..sets.len() {
        let block = block_of(task, sets.entries(place))?;
        solver.add_block(&block)?;
    }
    Ok(())
}
