//! What an edit of a cell's entries can change, and its search.
ghost use Rattle.std.specs.Prelude.{◌≡◌, ◌+◌, ◌≤◌, Contains, false, IfErr, IfOk, None, OnOk};
ghost use Rattle.pc_cache.specs.Patches.{patch_bytes};
ghost use Rattle.pc_parts.specs.Parts.{Part};
ghost use Rattle.pc_search.specs.Found.{Finds};
ghost use Rattle.pc_search.specs.Parts.{AreWorldsOf};
ghost use Rattle.pc_sheet.specs.Entailment.{cell_sizes};
ghost use Rattle.pc_sheet.specs.Limits.{most_cells};
ghost use Rattle.pc_sheet.specs.WellFormed.{IsWellFormed};
ghost use Rattle.pc_session.specs.Causes.{IsEntryCause};
ghost use Rattle.pc_session.specs.inside.Changes.{IsAskedFor, IsChangeOf, IsFoundOf};
ghost use Rattle.pc_session.specs.inside.States.{IsState};
ghost use Rattle.pc_solver.specs.Spending.{StopSays};
ghost use Rattle.pc_theory.specs.Edits.{IsBlankOn, IsSpentAlone};
ghost use Rattle.pc_theory.specs.KeptBytes.{part_bytes, spent_bytes};
ghost use Rattle.pc_theory.specs.Targets.{AreAsked};
ghost use Rattle.pc_theory.specs.Theories.{rules_alone, IsPartNumbered, IsTheory};

use crate::change::Change;
use crate::edit::Edit;
use crate::refused::{EditRefused, refused_by};
use crate::stale::stale_targets;
use crate::state::State;
use crate::tallies::blank_place;
use pc_cache::Patch;
use pc_sheet::{Entry, Target};
use pc_solver::{SpareTrails, Stop};
use pc_theory::{PartSpending, PartTargets, alone};
use pc_world_list::Worlds;
use std::alloc::{AllocError, Global};

/// What an edit asks: the number of the part that has the cell, a copy of its worlds where no entry is added, and the targets
/// that are searched.
#[derive(Drop)]
pub(crate) struct Asked {
    pub(crate) part: usize,
    pub(crate) worlds: Worlds,
    pub(crate) targets: Vec<Target>,
}

// A copy of a part's worlds for an edit that adds nothing. Where an entry is added a search lists them anew.
fn copied_worlds(alloc: Global, worlds: &Worlds, adds: bool) -> Result<Worlds, AllocError>
    ensures { IfOk result (λ copied. adds ≡ false → copied ≡ worlds.now) }
{
    if adds {
        return Ok(Worlds::new(alloc));
    }
    worlds.copy()
}

/// What the edit asks, before it is made. Each target that it can change is asked for once.
pub(crate) fn ask(alloc: Global, state: &State, change: Change) -> Result<Asked, AllocError>
    requires state { IsState state.now }
    requires formed { IsWellFormed state.now.book }
    requires change { IsChangeOf state.now.book change }
    ensures { IfOk result (IsAskedFor state.now change) }
{
    let part = state.theory.part_of(&state.book, change.cell);
    let cells = state.theory.cells(&state.book, part);
    let adds = change.adds();
    let targets = stale_targets(alloc, state, cells, change.taken, adds)?;
    let worlds = copied_worlds(alloc, &state.worlds[part], adds)?;
    Ok(Asked {
        part,
        worlds,
        targets,
    })
}

// Finds the reasons of the targets. The worlds of the part are those that are left, or where an entry is added those that a
// search lists.
fn search(
    asked: PartTargets<'_>,
    added: Option<Entry>,
    left: Worlds,
    trails: &mut SpareTrails,
    place: &mut PartSpending,
    patch: &mut Patch,
) -> Result<Worlds, Stop>
    requires theory { IsTheory (rules_alone asked.book.now) asked.theory.now }
    requires asked { AreAsked (cell_sizes asked.book.now.universe) asked.theory.now.components
        asked.part asked.targets.now }
    requires blank { IsBlankOn asked.part place.old }
    requires left { added ≡ None → (p : Part) →
        IsPartNumbered (rules_alone asked.book.now) asked.part p →
        AreWorldsOf asked.book.now p left }
    ensures worlds { (p : Part) → IsPartNumbered (rules_alone asked.entry.book.now) asked.entry.part
        p → IfOk result (AreWorldsOf asked.entry.book.now p) }
    ensures found { OnOk result
        (Finds asked.entry.book.now (place.new.tally.learned + place.new.tally.calls)
        asked.entry.targets.now patch.old.rows patch.new.rows) }
    ensures bytes { OnOk result (patch_bytes patch.new ≤ patch_bytes patch.old +
        part_bytes asked.entry.theory.now.components place.new) }
    ensures spends { IsSpentAlone asked.entry.book.now asked.entry.theory.now.components
        asked.entry.part place.new }
    ensures limit { place.new.tally.limit ≡ place.old.tally.limit }
    ensures stop { IfErr result (StopSays place.new.tally) }
    ensures trails { trails.new ≡ trails.old }
{
    match added {
        Some(_) => asked.search_part(trails, place, patch),
        None => {
            asked.find_reasons(&left, trails, place, patch)?;
            Ok(left)
        }
    }
}

/// Searches the targets that an edit asks within the budget, in the part with the edit's cell. The book has the edit, and the
/// worlds that are left of the part have it.
pub(crate) fn find(
    asked: PartTargets<'_>,
    change: Change,
    left: Worlds,
    trails: &mut SpareTrails,
    budget: u64,
) -> Result<Edit, EditRefused>
    requires theory { IsTheory (rules_alone asked.book.now) asked.theory.now }
    requires asked { AreAsked (cell_sizes asked.book.now.universe) asked.theory.now.components
        asked.part asked.targets.now }
    requires few { asked.part ≤ most_cells }
    requires part { (p : Part) × IsPartNumbered (rules_alone asked.book.now) asked.part p ×
        Contains p.cells change.cell.0 }
    requires left { change.added ≡ None → (p : Part) →
        IsPartNumbered (rules_alone asked.book.now) asked.part p →
        AreWorldsOf asked.book.now p left }
    ensures edit { IfOk result (IsFoundOf asked.entry.book.now change.cell asked.entry.part
        asked.entry.targets.now budget) }
    ensures bytes { IfOk result (λ edit. patch_bytes edit.patch ≤
        spent_bytes asked.entry.theory.now.components edit.spending) }
    ensures refused { IfErr result (IsEntryCause asked.entry.book.now change.cell budget) }
    ensures trails { trails.new ≡ trails.old }
{
    let alloc = asked.alloc;
    let part = asked.part;
    let mut place = blank_place(alloc, part, budget);
    let mut patch = Patch::new(alloc);
    let outcome = search(asked, change.added, left, trails, &mut place, &mut patch);
    let spending = alone(alloc, place)?;
    match outcome {
        Ok(worlds) => Ok(Edit {
            part,
            worlds,
            patch,
            spending,
        }),
        Err(stop) => Err(refused_by(alloc, stop, asked.book, spending)),
    }
}
