// Texts of numbers.

use pc_lits::Tally;
use std::alloc::{AllocError, Global};

/// Adds a number behind these signs.
pub(crate) fn add_number(
    alloc: Global,
    text: &mut String,
    before: &str,
    number: u64,
) -> Result<(), AllocError> {
    let number = format!(in alloc; "{before}{number}")?;
    text.push_str(number.as_str())
}

/// A number alone.
pub(crate) fn number_text(alloc: Global, number: u64) -> Result<String, AllocError> {
    format!(in alloc; "{number}")
}

/// Whether something is so.
pub(crate) fn truth_text(alloc: Global, is_so: bool) -> Result<String, AllocError> {
    String::from_str(alloc, if is_so { "true" } else { "false" })
}

/// What a search took: literals placed, clauses learned, calls of a solver.
pub(crate) fn tally_text(alloc: Global, tally: &Tally) -> Result<String, AllocError> {
    let placed = tally.placed;
    let learned = tally.learned;
    let calls = tally.calls;
    format!(in alloc; "{placed} {learned} {calls}")
}
