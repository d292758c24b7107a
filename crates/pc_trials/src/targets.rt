// Entries and targets of books, from texts and as texts.

use crate::texts::add_number;
use pc_sheet::{CellId, Entry, Target, ValueId};
use std::alloc::{AllocError, Global};

fn number_in(text: &str) -> u16 {
    text.parse::<u16>().unwrap_or(u16::MAX)
}

/// The cell of this number.
pub(crate) fn cell_in(word: &str) -> CellId {
    CellId(number_in(word))
}

/// That a cell has a value; behind `!` that it hasn't.
pub(crate) fn target_in(word: &str) -> Target {
    let (cell, value) = word
        .trim_start_matches('!')
        .split_once('.')
        .unwrap_or(("", ""));
    Target {
        cell: cell_in(cell),
        value: ValueId(number_in(value)),
        holds: !word.starts_with('!'),
    }
}

/// The entry of a value in a cell.
pub(crate) fn entry_in(word: &str) -> Entry {
    let target = target_in(word);
    Entry {
        cell: target.cell,
        value: target.value,
    }
}

/// The entries, each behind a space.
pub(crate) fn entries_text(alloc: Global, entries: &[Entry]) -> Result<String, AllocError> {
    let mut text = String::new(alloc);
    for entry in entries {
        add_number(alloc, &mut text, " ", u64::from(entry.cell.0))?;
        add_number(alloc, &mut text, ".", u64::from(entry.value.0))?;
    }
    Ok(text)
}
