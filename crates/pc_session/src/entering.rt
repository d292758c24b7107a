//! Entering a value, in the place of the cell's others or beside them.
ghost use Rattle.std.specs.Prelude.{◌≡◌, Contains, IfErr, Ok, OnErr, OnOk, Some};
ghost use Rattle.pc_justify_laws.specs.Edits.{takes_none};
ghost use Rattle.pc_books.specs.Edits.{also_entered, entered, is_rival};
ghost use Rattle.pc_sheet.specs.WellFormed.{IsEntryOf};
ghost use Rattle.pc_session.specs.Answers.{HasPlaceFor, StandsAlone};
ghost use Rattle.pc_session.specs.Causes.{IsEntryCause};
ghost use Rattle.pc_session.specs.Views.{counts_of, IsTallyOf};
ghost use Rattle.pc_session.specs.inside.Chosen.{AreChosen};
ghost use Rattle.pc_session.specs.inside.States.{IsLeftBy, IsSame, IsSameBut, IsState};

use crate::change::Change;
use crate::edits::edit;
use crate::refused::EditRefused;
use crate::state::State;
use crate::taken::{Taken, stands, takes_some};
use crate::tallies::blank_tally;
use pc_justify_laws::{adding_edits, entering_edits};
use pc_sheet::Entry;
use std::alloc::Global;

/// Enters a value: the cell's others go. Where it stands nothing is added, and where it stands alone nothing changes.
pub(crate) fn enter(
    alloc: Global,
    state: &mut State,
    budget: u64,
    entry: Entry,
) -> Result<(), EditRefused>
    requires state { IsState state.old }
    requires chosen { AreChosen state.old.book state.old.chosen }
    requires entry { IsEntryOf state.old.book.universe entry }
    ensures book { OnOk result (state.new.book ≡ entered state.old.book entry) }
    ensures theory { state.new.theory ≡ state.old.theory }
    ensures chosen { OnOk result (AreChosen state.new.book state.new.chosen) }
    ensures left { OnOk result (IsLeftBy entry.cell (is_rival entry) state.old state.new) }
    ensures refused { IfErr result (IsEntryCause (entered state.old.book entry) entry.cell budget) }
    ensures kept { OnErr result (IsSame state.old state.new) }
    ensures standing { StandsAlone state.old.book.entries entry → (result ≡ Ok tt) ×
        IsSameBut state.old.book budget state.old state.new }
    ensures spends { OnOk result (¬ StandsAlone state.old.book.entries entry →
        IsTallyOf state.new.book (Some entry.cell) budget (counts_of state.new.tally)) }
{
    entering_edits();
    let cell = entry.cell;
    let taken = Taken::Rivals(entry);
    if !stands(state.book.entries(), entry) {
        let added = Some(entry);
        return edit(alloc, state, budget, Change { cell, taken, added });
    }
    if takes_some(taken, state.book.entries()) {
        let added = None;
        return edit(alloc, state, budget, Change { cell, taken, added });
    }
    state.tally = blank_tally(budget);
    Ok(())
}

/// Enters a value beside the cell's others. Where it stands nothing changes.
pub(crate) fn also(
    alloc: Global,
    state: &mut State,
    budget: u64,
    entry: Entry,
) -> Result<(), EditRefused>
    requires state { IsState state.old }
    requires chosen { AreChosen state.old.book state.old.chosen }
    requires entry { IsEntryOf state.old.book.universe entry }
    requires place { HasPlaceFor state.old.book.entries entry }
    ensures book { OnOk result (state.new.book ≡ also_entered state.old.book entry) }
    ensures theory { state.new.theory ≡ state.old.theory }
    ensures chosen { OnOk result (AreChosen state.new.book state.new.chosen) }
    ensures left { OnOk result (IsLeftBy entry.cell takes_none state.old state.new) }
    ensures refused { IfErr result (IsEntryCause (also_entered state.old.book entry) entry.cell
        budget) }
    ensures kept { OnErr result (IsSame state.old state.new) }
    ensures standing { Contains state.old.book.entries entry → (result ≡ Ok tt) ×
        IsSameBut state.old.book budget state.old state.new }
    ensures spends { OnOk result (¬ Contains state.old.book.entries entry →
        IsTallyOf state.new.book (Some entry.cell) budget (counts_of state.new.tally)) }
{
    adding_edits();
    if stands(state.book.entries(), entry) {
        state.tally = blank_tally(budget);
        return Ok(());
    }
    let change = Change {
        cell: entry.cell,
        taken: Taken::Nothing,
        added: Some(entry),
    };
    edit(alloc, state, budget, change)
}
