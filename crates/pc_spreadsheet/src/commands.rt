//! What each command does.
ghost use Rattle.pc_syntax.specs.Command.{asks};
ghost use Rattle.pc_syntax.specs.Sized.{IsNestedReading, IsSizedReading};
ghost use Rattle.pc_syntax.specs.Tree.{asked_of, asks_budget, asks_why, cell_of, value_of};
ghost use Rattle.pc_spreadsheet.specs.Allowed.{Notes};
ghost use Rattle.pc_spreadsheet.specs.Commands.{Explains, Obeys, ShowsJson, state_of};

use crate::asking::answer;
use crate::edits::{add_rule, clear, drop_rule, enter, enter_beside, remove};
use crate::page::Page;
use crate::pages::has_displays;
use crate::refusal::refuse;
use crate::repairs::{list_repairs, prove_repairs, why_not};
use crate::spending::Told;
use pc_books::Book;
use pc_display::json;
use pc_reason::Reasons;
use pc_refusals::Refusal;
use pc_session::{Session, Spendings};
use pc_sheet::{Limited, Target};
use pc_sortcheck::find_entry;
use pc_syntax::{CellTree, Command, ValueTree};
use pc_transcript::{MOST_BUDGET, Reply};
use std::alloc::{AllocError, Global};

// Asks why the cell has the value, or why it hasn't.
fn answer_why(book: &Book, cell: &CellTree, value: &ValueTree, holds: bool) -> Told
    ensures { Explains book.now (asks_why (cell_of cell.now) (value_of value.now) holds) result }
{
    match find_entry(book, cell, value) {
        Ok(entry) => Reply::Shown(Page::Why(Target {
            cell: entry.cell,
            value: entry.value,
            holds,
        })),
        Err(fault) => refuse(fault),
    }
}

// Shows the display as JSON, whose text is made here.
fn show_json(alloc: Global, session: &Session) -> Told
    ensures { ShowsJson session.now.sheet result }
{
    has_displays(session.book());
    match json(alloc, session) {
        Ok(text) => Reply::Shown(Page::Json(text)),
        Err(AllocError) => Reply::Memory,
    }
}

// Sets the budget.
fn set_budget(session: &mut Session, number: u64) -> Told
    ensures { (notes : Notes) → Obeys (state_of session.old, notes) (asks_budget number) result
        (state_of session.new, notes) }
{
    if number < 1 || number > MOST_BUDGET {
        return Reply::Refused(Refusal::Limit(Limited::Budget), None);
    }
    session.set_budget(number);
    Reply::Accepted
}

/// Does what the command asks for.
pub(crate) fn obey(
    alloc: Global,
    session: &mut Session,
    command: &Command,
    notes: &mut Spendings,
) -> Told
    requires sized { IsSizedReading (asks (asked_of command.now)) }
    requires nested { IsNestedReading (asks (asked_of command.now)) }
    ensures { Obeys (state_of session.old, notes.old) (asked_of command.now) result
        (state_of session.new, notes.new) }
{
    match command {
        Command::Show => Reply::Shown(Page::Display),
        Command::Dump => Reply::Shown(Page::SheetText),
        Command::Enter(cell, value) => enter(session, cell, value, notes),
        Command::Also(cell, value) => enter_beside(session, cell, value, notes),
        Command::Clear(cell) => clear(session, cell, notes),
        Command::ClearOne(cell, value) => remove(session, cell, value, notes),
        Command::AddRule(rule) => add_rule(alloc, session, rule, notes),
        Command::DropRule(name) => drop_rule(session, name, notes),
        Command::Why { cell, value, holds } => answer_why(session.book(), cell, value, *holds),
        Command::Budget(number) => set_budget(session, *number),
        Command::Grid => Reply::Shown(Page::Grid),
        Command::Json => show_json(alloc, session),
        Command::Repairs => list_repairs(alloc, session),
        Command::ProveRepairs => prove_repairs(alloc, session, notes),
        Command::WhyNot(cell, value) => why_not(alloc, session, cell, value, notes),
        Command::Ask(formula) => answer(alloc, session, formula, notes),
    }
}
