// Solvers over clauses, and over those of sheets.

use crate::books::book_of;
use crate::literals::{store_of, variables};
use crate::rows::{judge_rows, not_tried};
use crate::trial::Trial;
use pc_books::Book;
use pc_ground::ground_book;
use pc_lits::{ClauseStore, Var};
use std::alloc::{AllocError, Global};

// The numbers below this one.
fn numbers(alloc: Global, count: u32) -> Result<Vec<u32>, AllocError> {
    let mut numbers = Vec::new(alloc);
    for number in 0..count {
        numbers.push(number)?;
    }
    Ok(numbers)
}

// Judges the rows of a solver over the clauses that the numbers name. How many there are.
fn judge_part(
    alloc: Global,
    store: &ClauseStore,
    used: &[u32],
    own: &[Var],
    count: u32,
    rows: &str,
    wrong: &mut String,
) -> Result<u64, AllocError> {
    match Trial::new(alloc, store, used, own, count)? {
        Some(mut trial) => judge_rows(alloc, &mut trial, rows, wrong),
        None => not_tried(wrong, "no solver takes the clauses"),
    }
}

// The same of a solver over all clauses, whose variables have numbers below this one.
fn judge_store(
    alloc: Global,
    store: &ClauseStore,
    count: u32,
    rows: &str,
    wrong: &mut String,
) -> Result<u64, AllocError> {
    let used = numbers(alloc, store.len().min(1_000_000) as u32)?;
    let own = variables(alloc, count)?;
    judge_part(alloc, store, &used, &own, count, rows, wrong)
}

/// The same of clauses from a text. The first line says how many variables there are.
pub(crate) fn judge_clauses(
    alloc: Global,
    text: &str,
    rows: &str,
    wrong: &mut String,
) -> Result<u64, AllocError> {
    let (count, lines) = text.split_once('\n').unwrap_or((text, ""));
    let store = store_of(alloc, lines)?;
    judge_store(
        alloc,
        &store,
        count.parse::<u32>().unwrap_or(0),
        rows,
        wrong,
    )
}

// The same of the clauses of a book.
fn judge_clauses_of(
    alloc: Global,
    book: &Book,
    rows: &str,
    wrong: &mut String,
) -> Result<u64, AllocError> {
    match ground_book(alloc, book) {
        Ok(ground) => judge_store(alloc, ground.store(), ground.variables(), rows, wrong),
        Err(_) => not_tried(wrong, "the sheet isn't grounded"),
    }
}

/// The same of the clauses of a sheet.
pub(crate) fn judge_ground(
    alloc: Global,
    text: &str,
    rows: &str,
    wrong: &mut String,
) -> Result<u64, AllocError> {
    match book_of(alloc, text) {
        Some(book) => judge_clauses_of(alloc, &book, rows, wrong),
        None => not_tried(wrong, "there is no sheet"),
    }
}
