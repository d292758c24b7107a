//! The search of all parts of a book.
ghost use Rattle.std.specs.Prelude.{◌≡◌, ◌+◌, ◌<◌, ◌≤◌, [], ◌∷◌, ◌++◌, All, IfErr, IfOk, OnOk, length, sum_by, vec_capacity, vec_len};
ghost use Rattle.pc_sheet.specs.Entailment.{cell_sizes};
ghost use Rattle.pc_cache.specs.Patches.{patch_bytes};
ghost use Rattle.pc_search.specs.Parts.{AreWorldsOf};
ghost use Rattle.pc_reason.specs.Fitting.{IsFitting};
ghost use Rattle.pc_parts.specs.Parts.{Part};
ghost use Rattle.pc_theory.specs.inside.PartTasks.{AreEntriesOf};
ghost use Rattle.pc_theory.specs.inside.Tasks.{IsReady};
ghost use Rattle.pc_theory.specs.inside.Searching.{AreSearched, FindsIn, IsMoved, StopMoves, StopPlaces};
ghost use Rattle.pc_theory.specs.inside.Starting.{AreStarted, IsStarted};
ghost use Rattle.pc_theory.specs.KeptBytes.{part_bytes};
ghost use Rattle.pc_theory.specs.Targets.{targets_on};
ghost use Rattle.pc_theory.specs.Theories.{rules_alone, IsPartNumbered};

use crate::entries::entries_of;
use crate::spending::PartSpending;
use crate::targets::targets_on;
use crate::task::{BookTask, Fitted};
use pc_books::few_cells;
use pc_cache::Patch;
use pc_kept::laws::kept_parts_are_searched;
use pc_log::Log;
use pc_search::PartTask;
use pc_sheet::{CellId, Entry, Target};
use pc_solver::{SpareTrails, Stop, Suspended};
use pc_world_list::Worlds;
use std::alloc::AllocError;
use std::collections::VecDeque;

// The entries and targets on a part's cells.
#[derive(Drop)]
struct Asked {
    entries: Vec<Entry>,
    targets: Vec<Target>,
}

// What stands on the cells of the part of that number, and what is asked of them.
fn asked_on(task: BookTask<'_>, number: usize, cells: &[CellId]) -> Result<Asked, AllocError>
    requires ready { IsReady task.book.now task.ground.now task.components.now }
    requires cells { All (λ c. c.0 < length (cell_sizes task.book.now.universe)) cells.now }
    ensures entries { IfOk result (λ a. AreEntriesOf task.entry.book.now task.entry.components.now
        number a.entries.items) }
    ensures targets { IfOk result (λ a. a.targets.items ≡
        targets_on (cell_sizes task.entry.book.now.universe) cells.now) }
{
    Ok(Asked {
        entries: entries_of(task.alloc, task.book, task.components, number)?,
        targets: targets_on(task.alloc, task.book, cells)?,
    })
}

// Takes the only log, and makes room for two more.
fn take_log(logs: &mut Vec<Log>) -> Result<Log, AllocError>
    requires { 0 < length logs.old.items }
    ensures taken { IfOk result (λ log. logs.old.items ≡ logs.new.items ++ log ∷ []) }
    ensures room { OnOk result (vec_len logs.new + 2 ≤ vec_capacity logs.new) }
{
    let Some(log) = logs.pop() else {
        // It is there.
        unreachable!();
    };
    logs.reserve(2)?;
    Ok(log)
}

// Lists the worlds of a part whose solver has made its first call, and finds the reasons of all targets on its cells.
fn search_one(
    fitted: Fitted<'_>,
    spent: &mut u64,
    place: &mut PartSpending,
    solver: Suspended<'_>,
    trails: &mut SpareTrails,
    patch: &mut Patch,
) -> Result<Worlds, Stop>
    requires ready { IsReady fitted.task.book.now fitted.task.ground.now
        fitted.task.components.now }
    requires trails { trails.old ≡ fitted.task.ground.now.variables }
    requires number { place.old.part < length fitted.task.components.now.cells }
    requires base { IsFitting fitted.task.book.now fitted.base.now }
    requires started { IsStarted fitted.task.book.now fitted.task.components.now place.old solver }
    requires part_of { place.old.tally.placed ≤ spent.old }
    requires within { spent.old ≤ fitted.task.budget }
    ensures worlds { (p : Part) → IsPartNumbered (rules_alone fitted.entry.task.book.now)
        place.old.part p → IfOk result (AreWorldsOf fitted.entry.task.book.now p) }
    ensures found { OnOk result (FindsIn fitted.entry.task.book.now fitted.entry.task.components.now
        place.new patch.old.rows patch.new.rows) }
    ensures bytes { OnOk result (patch_bytes patch.new ≤ patch_bytes patch.old +
        part_bytes fitted.entry.task.components.now place.new) }
    ensures place { OnOk result (IsMoved fitted.entry.task.book.now fitted.entry.task.components.now
        spent.old place.old spent.new place.new) }
    ensures within { spent.new ≤ fitted.entry.task.budget }
    ensures stop { IfErr result
        (StopMoves fitted.entry.task.book.now fitted.entry.task.components.now
        fitted.entry.task.budget spent.old place.old spent.new place.new) }
    ensures trails { trails.new ≡ trails.old }
{
    kept_parts_are_searched();
    let task = fitted.task;
    few_cells(task.book);
    let number = place.part as usize;
    let part = task.components.part(number);
    let asked = asked_on(task, number, part.cells)?;
    let mut log = take_log(&mut place.logs)?;
    let before = place.tally.placed;
    place.tally.limit = before + (task.budget - *spent);
    let part_task = PartTask {
        alloc: task.alloc,
        book: task.book,
        ground: task.ground,
        part,
        base: fitted.base,
        entries: &asked.entries,
        targets: &asked.targets,
    };
    let outcome = part_task.search_started(
        solver,
        &mut log,
        trails,
        &mut place.logs,
        &mut place.tally,
        patch,
    );
    *spent += place.tally.placed - before;
    place.logs.push(log)?;
    outcome
}

/// Searches all parts, one after the other, each with the solver of its first call.
pub(crate) fn search_parts(
    fitted: Fitted<'_>,
    spent: &mut u64,
    parts: &mut Vec<PartSpending>,
    solvers: VecDeque<Suspended<'_>>,
    trails: &mut SpareTrails,
    patch: &mut Patch,
) -> Result<Vec<Worlds>, Stop>
    requires ready { IsReady fitted.task.book.now fitted.task.ground.now
        fitted.task.components.now }
    requires trails { trails.old ≡ fitted.task.ground.now.variables }
    requires started { AreStarted fitted.task.book.now fitted.task.components.now spent.old
        fitted.base.now parts.old.items solvers.items }
    requires many { length parts.old.items ≡ length fitted.task.components.now.cells }
    requires base { IsFitting fitted.task.book.now fitted.base.now }
    requires blank { patch.old.rows ≡ [] }
    requires within { spent.old ≤ fitted.task.budget }
    ensures searched { IfOk result (λ worlds. AreSearched fitted.entry.task.book.now
        fitted.entry.task.components.now (length fitted.entry.task.components.now.cells)
        worlds.items patch.new.rows spent.new parts.new.items) }
    ensures bytes { IfOk result (λ _. patch_bytes patch.new ≤ patch_bytes patch.old +
        sum_by (part_bytes fitted.entry.task.components.now) parts.new.items) }
    ensures within { spent.new ≤ fitted.entry.task.budget }
    ensures stop { IfErr result
        (StopPlaces fitted.entry.task.book.now fitted.entry.task.components.now
        fitted.entry.task.budget spent.new parts.new.items) }
{
    let mut solvers = solvers;
    let mut worlds = Vec::new(fitted.task.alloc);
    for number in 0..fitted.task.components.len() {
        let Some(solver) = solvers.pop_front() else {
            // There is one for each part.
            unreachable!();
        };
        let found = search_one(fitted, spent, &mut parts[number], solver, trails, patch)?;
        worlds.push(found)?;
    }
    Ok(worlds)
}
