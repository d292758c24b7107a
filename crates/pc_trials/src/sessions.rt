// Sessions that load sheets, and are edited.
ghost use Rattle.std.specs.Prelude.{◌≤◌, IsTrue};
ghost use Rattle.pc_sheet.specs.WellFormed.{IsEntryOf};

use crate::books::{book_of, parts_text};
use crate::reasons::tried_text;
use crate::rows::{Machine, judge_rows, not_tried, note, number, parted};
use crate::targets::{cell_in, entry_in};
use crate::texts::{number_text, tally_text};
use pc_books::Book;
use pc_lits::Tally;
use pc_session::{EditRefused, LoadRefused, Reasons, Session};
use pc_sheet::Entry;
use pc_sortcheck::has_room_for_entry;
use std::alloc::{AllocError, Global};

// How an edit is refused.
fn refusal_text(alloc: Global, refused: &EditRefused) -> Result<String, AllocError> {
    match refused {
        EditRefused::NoEntry => String::from_str(alloc, "no entry"),
        EditRefused::DuplicateRule => String::from_str(alloc, "duplicate rule"),
        EditRefused::NoRule => String::from_str(alloc, "no rule"),
        EditRefused::TooLarge => String::from_str(alloc, "too large"),
        EditRefused::Inconsistent(_) => String::from_str(alloc, "inconsistent"),
        EditRefused::Spent(..) => String::from_str(alloc, "spent"),
        EditRefused::Memory => Err(AllocError),
    }
}

// How a load is refused.
fn load_text(alloc: Global, refused: &LoadRefused) -> Result<String, AllocError> {
    match refused {
        LoadRefused::TooLarge => String::from_str(alloc, "too large"),
        LoadRefused::Inconsistent(_) => String::from_str(alloc, "inconsistent"),
        LoadRefused::Spent(..) => String::from_str(alloc, "spent"),
        LoadRefused::Memory => Err(AllocError),
    }
}

// Whether the entry's cell and value are the book's.
fn is_entry(book: &Book, entry: Entry) -> bool
    ensures { IsTrue result → IsEntryOf book.now.universe entry }
{
    usize::from(entry.cell.0) < book.cells()
        && usize::from(entry.value.0) < book.values_of(entry.cell)
}

// Each edit answers why it isn't made. One that isn't about the book counts as want of memory.
fn enter(session: &mut Session, entry: Entry) -> Option<EditRefused> {
    if !is_entry(session.book(), entry) {
        return Some(EditRefused::Memory);
    }
    session.enter(entry.cell, entry.value).err()
}

fn also(session: &mut Session, entry: Entry) -> Option<EditRefused> {
    let book = session.book();
    if !is_entry(book, entry) {
        return Some(EditRefused::Memory);
    }
    if !has_room_for_entry(book, entry) {
        return Some(EditRefused::Memory);
    }
    session.also(entry.cell, entry.value).err()
}

fn clear_one(session: &mut Session, entry: Entry) -> Option<EditRefused> {
    session.clear_one(entry.cell, entry.value).err()
}

// Makes an edit.
fn edit(session: &mut Session, command: &str) -> Option<EditRefused> {
    let (word, rest) = parted(command);
    match word {
        "enter" => enter(session, entry_in(rest)),
        "also" => also(session, entry_in(rest)),
        "clear" => session.clear(cell_in(rest)).err(),
        "clear_one" => clear_one(session, entry_in(rest)),
        "drop" => session.drop_rule(rest).err(),
        _ => Some(EditRefused::Memory),
    }
}

// Whether nothing was placed, learned or called.
fn is_still(tally: Tally) -> bool {
    tally.placed == 0 && tally.learned == 0 && tally.calls == 0
}

// Makes an edit, and tells how that ends: `still` where nothing was searched.
fn told(alloc: Global, session: &mut Session, command: &str) -> Result<String, AllocError> {
    match edit(session, command) {
        Some(refused) => refusal_text(alloc, &refused),
        None if is_still(session.tally()) => String::from_str(alloc, "still"),
        None => String::from_str(alloc, "searched"),
    }
}

// Makes an edit, however that ends, and tells whether the session finds what trying finds.
fn walked(alloc: Global, session: &mut Session, command: &str) -> Result<String, AllocError> {
    edit(session, command);
    tried_text(alloc, session)
}

// Sets the budget of the edits from now on.
fn set_budget(alloc: Global, session: &mut Session, budget: u64) -> Result<String, AllocError> {
    if budget < 1 || budget > 1_000_000_000_000 {
        return String::from_str(alloc, "no budget");
    }
    session.set_budget(budget);
    String::from_str(alloc, "ok")
}

// Whether an entry is made.
fn is_entered(session: &mut Session, entry: Entry) -> bool {
    enter(session, entry).is_none()
}

// Makes two entries in turn, and says how often both were made.
fn turns(session: &mut Session, count: u64, one: Entry, other: Entry) -> u64 {
    for turn in 0..count {
        if !is_entered(session, one) || !is_entered(session, other) {
            return turn;
        }
    }
    count
}

// So many turns of two entries.
fn turned(alloc: Global, session: &mut Session, words: &str) -> Result<String, AllocError> {
    let (count, entries) = parted(words);
    let (one, other) = parted(entries);
    let made = turns(session, number(count), entry_in(one), entry_in(other));
    number_text(alloc, made)
}

// Whether a count is at most so much.
fn within_text(alloc: Global, count: u128, most: &str) -> Result<String, AllocError> {
    let told = if count <= u128::from(number(most)) {
        "no more"
    } else {
        "more"
    };
    String::from_str(alloc, told)
}

impl Machine for Session {
    fn obey(&mut self, alloc: Global, command: &str) -> Result<String, AllocError> {
        let (word, rest) = parted(command);
        match word {
            "tried" => tried_text(alloc, self),
            "walk" => walked(alloc, self, rest),
            "budget" => set_budget(alloc, self, number(rest)),
            "turns" => turned(alloc, self, rest),
            "parts" => parts_text(alloc, self.components()),
            "calls" => within_text(alloc, self.tally().calls, rest),
            "learned" => within_text(alloc, self.tally().learned, rest),
            "arena" => within_text(alloc, self.arena_bytes(), rest),
            "spent" => tally_text(alloc, &self.tally()),
            _ => told(alloc, self, command),
        }
    }
}

// Notes a row that tells of the load, if it ends otherwise.
fn judge_first(row: &str, told: &str, wrong: &mut String) -> Result<(), AllocError> {
    let (_, want) = row.split_once(" => ").unwrap_or((row, ""));
    if told == want {
        Ok(())
    } else {
        note(wrong, row, told)
    }
}

// Judges the rows of a session over a book that was loaded. How many there are.
fn judge_loaded(
    alloc: Global,
    session: &mut Session,
    rows: &str,
    wrong: &mut String,
) -> Result<u64, AllocError> {
    let (first, rest) = rows.split_once('\n').unwrap_or((rows, ""));
    judge_first(first, "ok", wrong)?;
    let count = judge_rows(alloc, session, rest, wrong)?;
    Ok(count.saturating_add(1))
}

// The same of one that isn't loaded: the only row says why.
fn judge_refused(
    alloc: Global,
    refused: &LoadRefused,
    rows: &str,
    wrong: &mut String,
) -> Result<u64, AllocError> {
    let told = load_text(alloc, refused)?;
    judge_first(rows.trim_end(), told.as_str(), wrong)?;
    Ok(1)
}

// The same of one that loads a book.
fn judge_load(
    alloc: Global,
    book: Book,
    budget: u64,
    rows: &str,
    wrong: &mut String,
) -> Result<u64, AllocError>
    requires at_least { 1 ≤ budget }
    requires at_most { budget ≤ 1000000000000 }
{
    match Session::load(alloc, book, budget) {
        Ok(mut session) => judge_loaded(alloc, &mut session, rows, wrong),
        Err(refused) => judge_refused(alloc, &refused, rows, wrong),
    }
}

/// Judges the rows of a session that loads a sheet under a budget. The first one says how the load ends. How many there are.
pub(crate) fn judge_session(
    alloc: Global,
    budget: &str,
    text: &str,
    rows: &str,
    wrong: &mut String,
) -> Result<u64, AllocError> {
    let budget = number(budget);
    if budget < 1 || budget > 1_000_000_000_000 {
        return not_tried(wrong, "there is no budget");
    }
    match book_of(alloc, text) {
        Some(book) => judge_load(alloc, book, budget, rows, wrong),
        None => not_tried(wrong, "there is no sheet"),
    }
}
