// Rows: a command, and behind ` => ` what comes of it.

use std::alloc::{AllocError, Global};

/// What obeys the commands of a block's rows.
pub(crate) trait Machine {
    /// Obeys a command, and says what came of it.
    fn obey(&mut self, alloc: Global, command: &str) -> Result<String, AllocError>;
}

/// Notes a row of which something else came.
pub(crate) fn note(wrong: &mut String, row: &str, told: &str) -> Result<(), AllocError> {
    wrong.push_str("\nnot so: ")?;
    wrong.push_str(row)?;
    wrong.push_str(", but ")?;
    wrong.push_str(told)
}

/// Notes why no row of a block is tried.
pub(crate) fn not_tried(wrong: &mut String, why: &str) -> Result<u64, AllocError> {
    wrong.push_str("\nnot tried: ")?;
    wrong.push_str(why)?;
    Ok(0)
}

// What is told, as a row says it: without spaces around it, and `nothing` where nothing is left.
fn shown(told: &str) -> &str {
    let told = told.trim();
    if told.is_empty() { "nothing" } else { told }
}

// Has a row's command obeyed, and notes the row if something else comes of it.
fn judge_row<M: Machine>(
    alloc: Global,
    machine: &mut M,
    row: &str,
    wrong: &mut String,
) -> Result<(), AllocError> {
    let (command, want) = row.split_once(" => ").unwrap_or((row, ""));
    let told = machine.obey(alloc, command)?;
    let told = shown(told.as_str());
    if told == want {
        Ok(())
    } else {
        note(wrong, row, told)
    }
}

/// The same of all rows, one after the other. How many there are.
pub(crate) fn judge_rows<M: Machine>(
    alloc: Global,
    machine: &mut M,
    rows: &str,
    wrong: &mut String,
) -> Result<u64, AllocError> {
    let mut count = 0u64;
    for row in rows.lines() {
        judge_row(alloc, machine, row, wrong)?;
        count = count.saturating_add(1);
    }
    Ok(count)
}

/// The words of a row that has no such command.
pub(crate) fn no_command(alloc: Global) -> Result<String, AllocError> {
    String::from_str(alloc, "no such command")
}

/// A word, and what stands behind it.
pub(crate) fn parted(text: &str) -> (&str, &str) {
    text.split_once(' ').unwrap_or((text, ""))
}

/// The number that a text is, or 0.
pub(crate) fn number(text: &str) -> u64 {
    text.parse::<u64>().unwrap_or(0)
}
