// Books: what they weigh, how many clauses they have, their parts, and what trying finds.

use crate::rows::{Machine, judge_rows, no_command, not_tried, parted};
use crate::targets::{entries_text, entry_in, target_in};
use crate::texts::{add_number, number_text, truth_text};
use pc_books::Book;
use pc_components::{Components, find_components};
use pc_ground::{Ground, GroundFault, ground_book};
use pc_load::load_book;
use pc_logic::weight;
use pc_sheet::{CellId, Entry};
use pc_trying::{
    conflict_by_trying, least_by_trying, maximal_sets_by_trying, rules_are_consistent, trying_size,
};
use std::alloc::{AllocError, Global};

/// The book of a text, or none. In the text `@` stands for 300,000 times ` + 1`.
pub(crate) fn book_of(alloc: Global, text: &str) -> Option<Book> {
    let ones = " + 1".repeat(alloc, 300_000).ok()?;
    let text = text.replace(alloc, '@', ones.as_str()).ok()?;
    if text.len() > 4_194_304 {
        return None;
    }
    load_book(alloc, text.as_bytes()).ok()
}

// How many literals the clauses have.
fn literals(ground: &Ground) -> usize {
    let mut count: usize = 0;
    for number in 0..ground.store().len() {
        count = count.wrapping_add(ground.store().get(number).len());
    }
    count
}

// How many literals the clauses have, and how many variables there are.
fn ground_text(alloc: Global, book: &Book) -> Result<String, AllocError> {
    match ground_book(alloc, book) {
        Ok(ground) => format!(in alloc; "{} {}", literals(&ground), ground.variables()),
        Err(GroundFault::TooLarge) => String::from_str(alloc, "too large"),
        Err(GroundFault::Memory) => Err(AllocError),
    }
}

// Adds the numbers of the cells.
fn add_cells(alloc: Global, text: &mut String, cells: &[CellId]) -> Result<(), AllocError> {
    for cell in cells {
        add_number(alloc, text, " ", u64::from(cell.0))?;
    }
    Ok(())
}

/// The numbers of the cells of the parts, part by part.
pub(crate) fn parts_text(alloc: Global, parts: &Components) -> Result<String, AllocError> {
    let mut text = String::new(alloc);
    for number in 0..parts.len() {
        text.push_str(" |")?;
        add_cells(alloc, &mut text, parts.part(number).cells)?;
    }
    Ok(text)
}

// The same of a book.
fn parts_of(alloc: Global, book: &Book) -> Result<String, AllocError> {
    match ground_book(alloc, book) {
        Ok(ground) => parts_text(alloc, &find_components(alloc, book, &ground)?),
        Err(_) => Err(AllocError),
    }
}

// Entries that were found, if there are any.
fn found_text(alloc: Global, found: Option<Vec<Entry>>) -> Result<String, AllocError> {
    match found {
        Some(entries) => entries_text(alloc, &entries),
        None => String::from_str(alloc, "none"),
    }
}

// The maximal sets.
fn sets_text(alloc: Global, book: &Book) -> Result<String, AllocError> {
    let mut text = String::new(alloc);
    for set in &maximal_sets_by_trying(alloc, book)? {
        text.push_str(" |")?;
        text.push_str(entries_text(alloc, set)?.as_str())?;
    }
    Ok(text)
}

impl Machine for Book {
    fn obey(&mut self, alloc: Global, command: &str) -> Result<String, AllocError> {
        let (word, rest) = parted(command);
        match word {
            "weight" => number_text(alloc, weight(self)),
            "ground" => ground_text(alloc, self),
            "parts" => parts_of(alloc, self),
            "tries" => number_text(alloc, trying_size(self) as u64),
            "consistent" => truth_text(alloc, rules_are_consistent(alloc, self)?),
            "least" => found_text(alloc, least_by_trying(alloc, self, target_in(rest))?),
            "against" => found_text(alloc, conflict_by_trying(alloc, self, entry_in(rest))?),
            "sets" => sets_text(alloc, self),
            _ => no_command(alloc),
        }
    }
}

/// Judges the rows of a sheet's book. How many there are.
pub(crate) fn judge_book(
    alloc: Global,
    text: &str,
    rows: &str,
    wrong: &mut String,
) -> Result<u64, AllocError> {
    match book_of(alloc, text) {
        Some(mut book) => judge_rows(alloc, &mut book, rows, wrong),
        None => not_tried(wrong, "there is no sheet"),
    }
}
