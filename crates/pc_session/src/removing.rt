//! Taking entries of a cell away.
ghost use Rattle.std.specs.Prelude.{◌≡◌, ◌↔◌, [], ◌<◌, Err, IfErr, IsTrue, Ok, OnErr, OnOk, Some, length};
ghost use Rattle.pc_justify_laws.specs.Edits.{edited, HasNone, IsTakenOf};
ghost use Rattle.pc_sheet.specs.Entailment.{cell_sizes};
ghost use Rattle.pc_sheet.specs.WellFormed.{IsWellFormed};
ghost use Rattle.pc_session.specs.Answers.{AreUnused};
ghost use Rattle.pc_session.specs.Causes.{IsRemovalCause};
ghost use Rattle.pc_session.specs.Views.{counts_of, IsTallyOf};
ghost use Rattle.pc_session.specs.declared.refused.EditRefused.TheVariants.{NoEntry};
ghost use Rattle.pc_session.specs.inside.Chosen.{AreChosen};
ghost use Rattle.pc_session.specs.inside.States.{IsLeftBy, IsSame, IsSameBut, IsState};
ghost use Rattle.pc_session.specs.inside.Taken.{takes};

use crate::change::Change;
use crate::chosen::choose;
use crate::edits::edit;
use crate::refused::EditRefused;
use crate::stale::is_used;
use crate::state::State;
use crate::taken::{Taken, take_away, takes_some};
use crate::tallies::blank_tally;
use pc_justify_laws::{edited_reasons_are_right, other_parts_stay};
use pc_sheet::CellId;
use std::alloc::Global;

// Whether some reason rests on an entry that is taken away. It takes no memory: only the targets of the part that has the cell
// are looked at, since no other reason can rest on the cell's entries.
fn rests_on(state: &State, cell: CellId, taken: Taken) -> bool
    requires state { IsState state.now }
    requires formed { IsWellFormed state.now.book }
    requires cell { cell.0 < length (cell_sizes state.now.book.universe) }
    requires taken { IsTakenOf cell (takes taken) }
    ensures { IsTrue result ↔ ¬ AreUnused (takes taken) state.now.cache.rows }
{
    other_parts_stay();
    let book = &state.book;
    let theory = &state.theory;
    let part = theory.part_of(book, cell);
    let cells = theory.cells(book, part);
    is_used(state, cells, taken)
}

// Takes entries of the cell away on which no reason rests, in place. All reasons stay. It takes no memory.
fn remove_in_place(state: &mut State, cell: CellId, taken: Taken)
    requires state { IsState state.old }
    requires formed { IsWellFormed state.old.book }
    requires chosen { AreChosen state.old.book state.old.chosen }
    requires cell { cell.0 < length (cell_sizes state.old.book.universe) }
    requires taken { IsTakenOf cell (takes taken) }
    requires unused { AreUnused (takes taken) state.old.cache.rows }
    ensures book { state.new.book ≡ edited state.old.book (takes taken) [] }
    ensures state { IsState state.new }
    ensures theory { state.new.theory ≡ state.old.theory }
    ensures chosen { AreChosen state.new.book state.new.chosen }
    ensures cache { state.new.cache ≡ state.old.cache }
{
    edited_reasons_are_right();
    let part = state.theory.part_of(&state.book, cell);
    take_away(taken, &mut state.book, &mut state.worlds[part]);
    choose(&mut state.chosen, &state.theory, &state.book, part);
}

/// Takes entries of the cell away, if it has such. Where no reason rests on one of them it takes no memory, searches nothing and
/// is always Ok.
pub(crate) fn remove(
    alloc: Global,
    state: &mut State,
    budget: u64,
    cell: CellId,
    taken: Taken,
) -> Result<(), EditRefused>
    requires state { IsState state.old }
    requires chosen { AreChosen state.old.book state.old.chosen }
    requires taken { IsTakenOf cell (takes taken) }
    ensures none { HasNone (takes taken) state.old.book.entries → result ≡ Err NoEntry }
    ensures book { OnOk result (state.new.book ≡ edited state.old.book (takes taken) []) }
    ensures theory { state.new.theory ≡ state.old.theory }
    ensures chosen { OnOk result (AreChosen state.new.book state.new.chosen) }
    ensures left { OnOk result (IsLeftBy cell (takes taken) state.old state.new) }
    ensures refused { IfErr result (IsRemovalCause (takes taken) state.old.book.entries
        (edited state.old.book (takes taken) []) cell budget) }
    ensures kept { OnErr result (IsSame state.old state.new) }
    ensures unused { ¬ HasNone (takes taken) state.old.book.entries →
        AreUnused (takes taken) state.old.cache.rows → (result ≡ Ok tt) ×
        IsSameBut (edited state.old.book (takes taken) []) budget state.old state.new }
    ensures spends { OnOk result (¬ AreUnused (takes taken) state.old.cache.rows →
        IsTallyOf state.new.book (Some cell) budget (counts_of state.new.tally)) }
{
    if !takes_some(taken, state.book.entries()) {
        return Err(EditRefused::NoEntry);
    }
    if rests_on(state, cell, taken) {
        let added = None;
        return edit(alloc, state, budget, Change { cell, taken, added });
    }
    remove_in_place(state, cell, taken);
    state.tally = blank_tally(budget);
    Ok(())
}
