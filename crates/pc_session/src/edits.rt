//! Edits of a cell's entries, made in the standing book.
//!
//! An edit is made in the book itself, and what it can change is searched there. Where that ends early the old entries, which
//! were copied first, are put back, which takes no memory. So an edit costs what its part costs, however large the book is; the
//! book is copied for the note of a spending alone.
ghost use Rattle.std.specs.Prelude.{◌≡◌, ◌+◌, ◌≤◌, IfErr, OnErr, OnOk, Some};
ghost use Rattle.pc_cache.specs.Rows.{bytes_of_rows};
ghost use Rattle.pc_sheet.specs.WellFormed.{IsWellFormed};
ghost use Rattle.pc_session.specs.Arena.{compacted, IsWithinSpent};
ghost use Rattle.pc_session.specs.Causes.{IsEntryCause};
ghost use Rattle.pc_session.specs.inside.Changes.{made_of, as_list, IsAskedFor, IsChangeOf};
ghost use Rattle.pc_session.specs.inside.Chosen.{AreChosen};
ghost use Rattle.pc_session.specs.inside.States.{IsEdited, IsSame, IsSameBeside, IsSpentBy, IsState};
ghost use Rattle.pc_session.specs.inside.Taken.{takes};
ghost use Rattle.pc_session.specs.Views.{counts_of};

use crate::change::{Change, make};
use crate::compaction::compact_if_due;
use crate::edit::put_in_place;
use crate::refused::EditRefused;
use crate::searching::{Asked, ask, find};
use crate::state::State;
use pc_theory::PartTargets;
use std::alloc::Global;

// Makes the edit in the book, searches what it has asked, and puts that in place. Where it is refused nothing but the entries
// has changed.
fn make_searched(
    alloc: Global,
    state: &mut State,
    budget: u64,
    change: Change,
    asked: Asked,
) -> Result<(), EditRefused>
    requires state { IsState state.old }
    requires formed { IsWellFormed state.old.book }
    requires chosen { AreChosen state.old.book state.old.chosen }
    requires change { IsChangeOf state.old.book change }
    requires asked { IsAskedFor state.old change asked }
    ensures done { OnOk result (IsEdited state.old change.cell (takes change.taken)
        (as_list change.added) budget state.new) }
    ensures theory { state.new.theory ≡ state.old.theory }
    ensures chosen { OnOk result (AreChosen state.new.book state.new.chosen) }
    ensures bytes { OnOk result (state.new.cache.bytes ≤ state.old.cache.bytes +
        bytes_of_rows state.new.cache.rows) }
    ensures spent { OnOk result (IsWithinSpent state.new.book (Some change.cell)
        state.new.theory.components (counts_of state.new.tally) state.old.cache.bytes
        state.new.cache.bytes) }
    ensures refused { IfErr result (IsEntryCause (made_of state.old.book change) change.cell
        budget) }
    ensures kept { OnErr result (IsSameBeside state.old state.new) }
{
    let Asked {
        part,
        worlds,
        targets,
    } = asked;
    let mut worlds = worlds;
    make(change, &mut state.book, &mut worlds)?;
    let task = PartTargets {
        alloc,
        book: &state.book,
        theory: &state.theory,
        part,
        targets: &targets,
    };
    let edit = find(task, change, worlds, &mut state.trails, budget)?;
    put_in_place(state, edit)?;
    Ok(())
}

/// Makes an edit of a cell's entries. Each target that it can change is searched once.
pub(crate) fn edit(
    alloc: Global,
    state: &mut State,
    budget: u64,
    change: Change,
) -> Result<(), EditRefused>
    requires state { IsState state.old }
    requires formed { IsWellFormed state.old.book }
    requires chosen { AreChosen state.old.book state.old.chosen }
    requires change { IsChangeOf state.old.book change }
    ensures done { OnOk result (IsEdited state.old change.cell (takes change.taken)
        (as_list change.added) budget state.new) }
    ensures theory { state.new.theory ≡ state.old.theory }
    ensures chosen { OnOk result (AreChosen state.new.book state.new.chosen) }
    ensures bytes { OnOk result (state.new.cache.bytes ≤ compacted state.old.cache.rows
        state.old.cache.bytes + bytes_of_rows state.new.cache.rows) }
    ensures spent { OnOk result (IsSpentBy change.cell state.old state.new) }
    ensures refused { IfErr result (IsEntryCause (made_of state.old.book change) change.cell
        budget) }
    ensures kept { OnErr result (IsSame state.old state.new) }
{
    compact_if_due(&mut state.cache)?;
    let asked = ask(alloc, state, change)?;
    let before = Vec::from_slice(alloc, state.book.entries())?;
    match make_searched(alloc, state, budget, change, asked) {
        Ok(()) => Ok(()),
        Err(refused) => {
            state.book.put_entries(before);
            Err(refused)
        }
    }
}
