//! What the search of an edit has found, and how it is put in place.
ghost use Rattle.std.specs.Prelude.{◌≡◌, ◌+◌, ◌≤◌, ℕ, Bool, List, OnErr, OnOk};
ghost use Rattle.pc_cache.specs.Patches.{patch_bytes};
ghost use Rattle.pc_cache.specs.Rows.{bytes_of_rows};
ghost use Rattle.pc_sheet.specs.Sheet.{Sheet};
ghost use Rattle.pc_sheet.specs.declared.ids.CellId.{CellId};
ghost use Rattle.pc_sheet.specs.declared.ids.Entry.{Entry};
ghost use Rattle.pc_session.specs.inside.Chosen.{AreChosen};
ghost use Rattle.pc_session.specs.inside.Edits.{IsMade};
ghost use Rattle.pc_session.specs.inside.States.{HasEdit, IsEdited};

use crate::chosen::choose;
use crate::state::State;
use pc_books::well_formed;
use pc_cache::Patch;
use pc_justify_laws::edited_reasons_are_right;
use pc_theory::Spending;
use pc_world_list::Worlds;
use std::alloc::AllocError;

/// What was found of an edit of a cell's entries: the number of the part that has the cell, the worlds of the part, what
/// changes among the reasons, and what was spent.
#[derive(Drop)]
pub(crate) struct Edit {
    pub(crate) part: usize,
    pub(crate) worlds: Worlds,
    pub(crate) patch: Patch,
    pub(crate) spending: Spending,
}

/// Puts in place what was found, where the book has the edit. Without memory all stays as it is.
pub(crate) fn put_in_place(state: &mut State, edit: Edit) -> Result<(), AllocError>
    requires { (sheet : Sheet) × (c : CellId) × (gone : Entry → Bool) × (added : List Entry) ×
        (limit : ℕ) × HasEdit sheet c gone added state.old ×
        IsMade sheet state.old.cache.rows c gone added limit edit }
    ensures done { OnOk result ((sheet : Sheet) (c : CellId) (gone : Entry →
        Bool) (added : List Entry) (limit : ℕ) → HasEdit sheet c gone added state.old →
        IsMade sheet state.old.cache.rows c gone added limit edit →
        IsEdited (record state.old { book = sheet }) c gone added limit state.new) }
    ensures theory { state.new.theory ≡ state.old.theory }
    ensures chosen { OnOk result (AreChosen state.new.book state.new.chosen) }
    ensures bytes { OnOk result (state.new.cache.bytes ≤ state.old.cache.bytes +
        bytes_of_rows state.new.cache.rows) }
    ensures exact { OnOk result (state.new.cache.bytes ≡ state.old.cache.bytes +
        patch_bytes edit.patch) }
    ensures tally { OnOk result (state.new.tally ≡ edit.spending.tally) }
    ensures kept { OnErr result (state.new ≡ state.old) }
{
    edited_reasons_are_right();
    well_formed(&state.book);
    let Edit {
        part,
        worlds,
        patch,
        spending,
    } = edit;
    state.cache.apply(patch)?;
    state.worlds[part] = worlds;
    choose(&mut state.chosen, &state.theory, &state.book, part);
    state.tally = spending.tally;
    Ok(())
}
