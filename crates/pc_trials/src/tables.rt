// Tables of trials. A table is a text: what it is about, and behind each `=== ` a block. A block has its title, then behind `--- `
// what is tried, and behind `--- rows` the commands, each with what comes of it. Tried are: a solver over `clauses`, a line each;
// `preferences` among some variables; a solver over the clauses of a sheet (`solver`); a `book`; and a `session` that loads a
// sheet under a budget, whose first row says how the load ends. Variables are counted from 1, and `-` stands for a negation. Cells
// and values are counted from 0: `3.1` is the fourth cell's second value.

use crate::books::judge_book;
use crate::preferring::judge_preferences;
use crate::rows::{not_tried, parted};
use crate::sessions::judge_session;
use crate::solving::{judge_clauses, judge_ground};
use std::alloc::{AllocError, Global};
use std::str;

// Judges the rows of what is tried. How many there are.
fn judge_tried(
    alloc: Global,
    tried: &str,
    rows: &str,
    wrong: &mut String,
) -> Result<u64, AllocError> {
    let (words, text) = tried.split_once('\n').unwrap_or((tried, ""));
    let (kind, with) = parted(words);
    match kind {
        "clauses" => judge_clauses(alloc, text, rows, wrong),
        "preferences" => judge_preferences(alloc, text, rows, wrong),
        "solver" => judge_ground(alloc, text, rows, wrong),
        "book" => judge_book(alloc, text, rows, wrong),
        "session" => judge_session(alloc, with, text, rows, wrong),
        _ => not_tried(wrong, words),
    }
}

// The same of a block, whose title is noted where a row of it was.
fn judge_block(alloc: Global, block: &str, wrong: &mut String) -> Result<u64, AllocError> {
    let (head, rows) = block.split_once("--- rows\n").unwrap_or((block, ""));
    let (title, tried) = head.split_once("\n--- ").unwrap_or((head, ""));
    let noted = wrong.len();
    let count = judge_tried(alloc, tried, rows, wrong)?;
    if wrong.len() > noted {
        wrong.push_str("\nin: ")?;
        wrong.push_str(title)?;
    }
    Ok(count)
}

/// The same of a table: how many rows it has, and which of them don't come out so.
pub(crate) fn judge(alloc: Global, bytes: &[u8]) -> Result<String, AllocError> {
    let text = str::from_utf8(bytes).unwrap_or("");
    let (_, blocks) = text.split_once("=== ").unwrap_or((text, ""));
    let mut wrong = String::new(alloc);
    let mut count = 0u64;
    for block in blocks.split("=== ") {
        let rows = judge_block(alloc, block, &mut wrong)?;
        count = count.saturating_add(rows);
    }
    format!(in alloc; "rows {count}{wrong}")
}
