//! The numbers that sum a spreadsheet up.
ghost use Rattle.std.specs.Prelude.{◌≤◌, ◌<◌, ◌∷◌, [], List, MatchBool, length};
ghost use Rattle.pc_sheet.specs.Limits.{most_values};
ghost use Rattle.pc_sheet.specs.Entailment.{cell_sizes, IsImplied, IsLeastSupport};
ghost use Rattle.pc_sheet.specs.Sizes.{size_of};
ghost use Rattle.pc_sheet.specs.WellFormed.{IsEntryOf};
ghost use Rattle.pc_writer.specs.Spelling.{sort_of};
ghost use Rattle.pc_reason.specs.Targets.{IsTargetIn};
ghost use Rattle.pc_spreadsheet.specs.Summary.{HasConflict, IsCount, IsSummary, pairs_of, that_has, values_of};

use pc_reason::Reasons;
use pc_session::Session;
use pc_sheet::{CellId, Entry, Target, ValueId};

/// The numbers that sum a spreadsheet up.
#[derive(Clone, Copy, PartialEq, Eq)]
pub struct Summary {
    /// How many cells there are.
    pub cells: usize,
    /// How many entries there are.
    pub entries: usize,
    /// How many entries have a conflict.
    pub conflicts: usize,
    /// How many pairs of a cell and a value are implied.
    pub implied: usize,
}

// Whether the target has a least support.
fn is_implied(session: &Session, target: Target) -> bool
    requires { IsTargetIn session.now.sheet.universe target }
    ensures { MatchBool result ((s : List Entry) × IsLeastSupport session.now.sheet s target)
        (¬ IsImplied session.now.sheet target) }
{
    match session.reason(target) {
        None => false,
        Some(_) => true,
    }
}

// One for an entry that has a conflict.
fn conflict(session: &Session, entry: Entry) -> usize
    requires { IsEntryOf session.now.sheet.universe entry }
    ensures exact { IsCount (HasConflict session.now.sheet) (entry ∷ []) result }
    ensures few { result ≤ 1 }
{
    let opposite = Target {
        cell: entry.cell,
        value: entry.value,
        holds: false,
    };
    if is_implied(session, opposite) { 1 } else { 0 }
}

// How many entries have a conflict.
fn conflicts(session: &Session) -> usize
    ensures { IsCount (HasConflict session.now.sheet) session.now.sheet.entries result }
{
    let entries = session.book().entries();
    let mut count = 0;
    for entry in entries {
        count += conflict(session, *entry);
    }
    count
}

// One for a value of the cell that is implied.
fn implied(session: &Session, cell: CellId, value: ValueId) -> usize
    requires cell { cell.0 < length (cell_sizes session.now.sheet.universe) }
    requires value { value.0 < size_of session.now.sheet.universe
        (sort_of session.now.sheet.universe cell) }
    ensures exact { IsCount (IsImplied session.now.sheet) (that_has cell value ∷ []) result }
    ensures few { result ≤ 1 }
{
    let target = Target {
        cell,
        value,
        holds: true,
    };
    if is_implied(session, target) { 1 } else { 0 }
}

// How many values of the cell are implied.
fn implied_values(session: &Session, cell: CellId) -> usize
    requires { cell.0 < length (cell_sizes session.now.sheet.universe) }
    ensures exact { IsCount (IsImplied session.now.sheet)
        (values_of session.now.sheet.universe cell) result }
    ensures few { result ≤ most_values }
{
    let mut count = 0;
    for value in 0..session.book().values_of(cell) {
        count += implied(session, cell, ValueId(value as u16));
    }
    count
}

// How many pairs of a cell and a value are implied.
fn implied_pairs(session: &Session) -> usize
    ensures { IsCount (IsImplied session.now.sheet) (pairs_of session.now.sheet.universe) result }
{
    let mut count = 0;
    for cell in 0..session.book().cells() {
        count += implied_values(session, CellId(cell as u16));
    }
    count
}

/// The numbers that sum a session up. It takes no memory.
pub(crate) fn sum_up(session: &Session) -> Summary
    ensures { IsSummary session.now.sheet result }
{
    let book = session.book();
    Summary {
        cells: book.cells(),
        entries: book.entries().len(),
        conflicts: conflicts(session),
        implied: implied_pairs(session),
    }
}
