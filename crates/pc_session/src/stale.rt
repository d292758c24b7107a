//! Which targets an edit searches again.
ghost use Rattle.std.specs.Prelude.{◌≡◌, ◌<◌, ◌≤◌, All, Contains, IfOk, IsTrue, false, filter, length, true};
ghost use Rattle.pc_cache.specs.Rows.{row_of};
ghost use Rattle.pc_sheet.specs.Limits.{most_values};
ghost use Rattle.pc_sheet.specs.Entailment.{cell_sizes};
ghost use Rattle.pc_sheet.specs.declared.ids.Target.{Target};
ghost use Rattle.pc_session.specs.inside.Stale.{is_stale, stale_on};
ghost use Rattle.pc_session.specs.inside.Taken.{takes};
ghost use Rattle.pc_theory.specs.Targets.{target_of_value, targets_on_cell, targets_on};

use crate::state::State;
use crate::taken::{Taken, takes_some};
use pc_axiom_names::Names;
use pc_cache::Cache;
use pc_sheet::{CellId, Target, ValueId};
use pc_theory::targets_on;
use std::alloc::{AllocError, Global};

// Whether the target is to be searched again where entries are taken away, and where one is added.
fn is_stale(cache: &Cache, names: &Names, target: Target, taken: Taken, added: bool) -> bool
    ensures { result ≡ is_stale (takes taken) added (row_of cache.now.rows target) }
{
    match cache.reason(names, target) {
        None => added,
        Some(reason) => takes_some(taken, reason.support),
    }
}

// Those of the targets that are to be searched again.
fn stale_among(
    alloc: Global,
    all: &[Target],
    cache: &Cache,
    names: &Names,
    taken: Taken,
    added: bool,
) -> Result<Vec<Target>, AllocError>
    ensures { IfOk result (λ ts.
        ts.items ≡ filter (λ t. is_stale (takes taken) added (row_of cache.now.rows t)) all.now) }
{
    let mut stale = Vec::new(alloc);
    for target in all {
        if is_stale(cache, names, *target, taken, added) {
            stale.push(*target)?;
        }
    }
    Ok(stale)
}

/// The targets on these cells that are to be searched again where entries are taken away, and where one is added: each once.
pub(crate) fn stale_targets(
    alloc: Global,
    state: &State,
    cells: &[CellId],
    taken: Taken,
    added: bool,
) -> Result<Vec<Target>, AllocError>
    requires { All (λ c. c.0 < length (cell_sizes state.now.book.universe)) cells.now }
    ensures { IfOk result (λ ts. ts.items ≡ stale_on state.now.cache.rows (takes taken) added
        (cell_sizes state.now.book.universe) cells.now) }
{
    let all = targets_on(alloc, &state.book, cells)?;
    let names = state.theory.ground().names();
    stale_among(alloc, &all, &state.cache, names, taken, added)
}

// That the cell has a value, or that it hasn't.
fn target(cell: CellId, value: usize, holds: bool) -> Target
    requires { value < most_values }
    ensures { result ≡ target_of_value cell value holds }
{
    Target {
        cell,
        value: ValueId(value as u16),
        holds,
    }
}

// Whether the reason of some target on the cell rests on an entry that is taken away.
fn is_used_on(cache: &Cache, names: &Names, cell: CellId, count: usize, taken: Taken) -> bool
    requires { count ≤ most_values }
    ensures some { IsTrue result → (t : Target) × Contains (targets_on_cell cell count) t ×
        (is_stale (takes taken) false (row_of cache.now.rows t) ≡ true) }
    ensures none { (t : Target) → Contains (targets_on_cell cell count) t →
        is_stale (takes taken) false (row_of cache.now.rows t) ≡ true → IsTrue result }
{
    for value in 0..count {
        if is_stale(cache, names, target(cell, value, true), taken, false) {
            return true;
        }
        if is_stale(cache, names, target(cell, value, false), taken, false) {
            return true;
        }
    }
    false
}

/// Whether the reason of some target on these cells rests on an entry that is taken away. It takes no memory.
pub(crate) fn is_used(state: &State, cells: &[CellId], taken: Taken) -> bool
    requires { All (λ c. c.0 < length (cell_sizes state.now.book.universe)) cells.now }
    ensures some { IsTrue result → (t : Target) ×
        Contains (targets_on (cell_sizes state.now.book.universe) cells.now) t ×
        (is_stale (takes taken) false (row_of state.now.cache.rows t) ≡ true) }
    ensures none { (t : Target) →
        Contains (targets_on (cell_sizes state.now.book.universe) cells.now) t →
        is_stale (takes taken) false (row_of state.now.cache.rows t) ≡ true → IsTrue result }
{
    let names = state.theory.ground().names();
    for cell in cells {
        if is_used_on(
            &state.cache,
            names,
            *cell,
            state.book.values_of(*cell),
            taken,
        ) {
            return true;
        }
    }
    false
}
