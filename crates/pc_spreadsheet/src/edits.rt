//! The edits of a sheet by command lines.
ghost use Rattle.std.specs.Prelude.{◌≤◌, IfSome, IfNone, map};
ghost use Rattle.pc_formula.specs.Nesting as written;
ghost use Rattle.pc_formula.specs.Sized.{IsSized};
ghost use Rattle.pc_formula.specs.Word.{most_nesting};
ghost use Rattle.pc_sheet.specs.Views.{rule_of};
ghost use Rattle.pc_syntax.specs.Tree.{asks_also, asks_clear, asks_clear_one, asks_drop, asks_enter, asks_rule, cell_of, formula_of, value_of};
ghost use Rattle.pc_books.specs.RuleNames.{IsNewName, IsRuleAt};
ghost use Rattle.pc_spreadsheet.specs.Commands.{Obeys, state_of};

use crate::refusal::refuse;
use crate::spending::{Told, tell_refused};
use pc_books::{Name, Rule};
use pc_reason::Reasons;
use pc_session::{Session, Spendings};
use pc_sortcheck::{check_rule, find_cell, find_entry, find_further_entry};
use pc_syntax::{CellTree, RuleTree, ValueTree};
use pc_transcript::Reply;
use std::alloc::Global;

/// Enters the value into the cell: its others go.
pub(crate) fn enter(
    session: &mut Session,
    cell: &CellTree,
    value: &ValueTree,
    notes: &mut Spendings,
) -> Told
    ensures { Obeys (state_of session.old, notes.old)
        (asks_enter (cell_of cell.now) (value_of value.now)) result
        (state_of session.new, notes.new) }
{
    let entry = match find_entry(session.book(), cell, value) {
        Ok(entry) => entry,
        Err(fault) => return refuse(fault),
    };
    match session.enter(entry.cell, entry.value) {
        Ok(()) => Reply::Accepted,
        Err(refused) => tell_refused(refused, Some(entry.cell), notes),
    }
}

/// Enters the value into the cell, beside its others.
pub(crate) fn enter_beside(
    session: &mut Session,
    cell: &CellTree,
    value: &ValueTree,
    notes: &mut Spendings,
) -> Told
    ensures { Obeys (state_of session.old, notes.old)
        (asks_also (cell_of cell.now) (value_of value.now)) result
        (state_of session.new, notes.new) }
{
    let entry = match find_further_entry(session.book(), cell, value) {
        Ok(entry) => entry,
        Err(fault) => return refuse(fault),
    };
    match session.also(entry.cell, entry.value) {
        Ok(()) => Reply::Accepted,
        Err(refused) => tell_refused(refused, Some(entry.cell), notes),
    }
}

/// Clears the cell: all its entries go.
pub(crate) fn clear(session: &mut Session, cell: &CellTree, notes: &mut Spendings) -> Told
    ensures { Obeys (state_of session.old, notes.old) (asks_clear (cell_of cell.now)) result
        (state_of session.new, notes.new) }
{
    let cell = match find_cell(session.book(), cell) {
        Ok(cell) => cell,
        Err(fault) => return refuse(fault),
    };
    match session.clear(cell) {
        Ok(()) => Reply::Accepted,
        Err(refused) => tell_refused(refused, Some(cell), notes),
    }
}

/// Removes the value from the cell: its other entries stay.
pub(crate) fn remove(
    session: &mut Session,
    cell: &CellTree,
    value: &ValueTree,
    notes: &mut Spendings,
) -> Told
    ensures { Obeys (state_of session.old, notes.old)
        (asks_clear_one (cell_of cell.now) (value_of value.now)) result
        (state_of session.new, notes.new) }
{
    let entry = match find_entry(session.book(), cell, value) {
        Ok(entry) => entry,
        Err(fault) => return refuse(fault),
    };
    match session.clear_one(entry.cell, entry.value) {
        Ok(()) => Reply::Accepted,
        Err(refused) => tell_refused(refused, Some(entry.cell), notes),
    }
}

/// Adds the rule as the last one.
pub(crate) fn add_rule(
    alloc: Global,
    session: &mut Session,
    tree: &RuleTree,
    notes: &mut Spendings,
) -> Told
    requires sized { IsSized (formula_of tree.now.formula) }
    requires nested { written.nesting_of (formula_of tree.now.formula) ≤ most_nesting }
    ensures { Obeys (state_of session.old, notes.old)
        (asks_rule tree.now.name (formula_of tree.now.formula)) result
        (state_of session.new, notes.new) }
{
    tree.name.as_str();
    let rule = match check_rule(alloc, session.book(), tree) {
        Ok(rule) => rule,
        Err(fault) => return refuse(fault),
    };
    match session.add_rule(rule) {
        Ok(()) => Reply::Accepted,
        Err(refused) => tell_refused(refused, None, notes),
    }
}

/// Drops the rule of that name.
pub(crate) fn drop_rule(session: &mut Session, name: &Name, notes: &mut Spendings) -> Told
    ensures { Obeys (state_of session.old, notes.old) (asks_drop name.now) result
        (state_of session.new, notes.new) }
{
    match session.drop_rule(name.as_str()) {
        Ok(()) => Reply::Accepted,
        Err(refused) => tell_refused(refused, None, notes),
    }
}
