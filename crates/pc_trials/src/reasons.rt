// What a session finds, beside what trying finds.
ghost use Rattle.std.specs.Prelude.{IsTrue};
ghost use Rattle.pc_reason.specs.Targets.{IsTargetIn};

use crate::ways::ways;
use pc_books::Book;
use pc_session::{Reasons, Session};
use pc_sheet::{CellId, Entry, Target, ValueId};
use pc_trying::{least_by_trying, maximal_sets_by_trying};
use std::alloc::{AllocError, Global};

// Whether the target's cell and value are the book's.
fn is_target(book: &Book, target: Target) -> bool
    ensures { IsTrue result → IsTargetIn book.now.universe target }
{
    usize::from(target.cell.0) < book.cells()
        && usize::from(target.value.0) < book.values_of(target.cell)
}

// Adds that a cell has a value, and that it hasn't.
fn add_targets(targets: &mut Vec<Target>, cell: CellId, value: ValueId) -> Result<(), AllocError> {
    for holds in [true, false] {
        targets.push(Target { cell, value, holds })?;
    }
    Ok(())
}

// All targets of a book.
fn targets_of(alloc: Global, book: &Book) -> Result<Vec<Target>, AllocError> {
    let mut targets = Vec::new(alloc);
    for number in 0..book.cells() {
        let cell = CellId(number as u16);
        for place in 0..book.values_of(cell) {
            add_targets(&mut targets, cell, ValueId(place as u16))?;
        }
    }
    Ok(targets)
}

// The least support of a target, if it is implied.
fn support_of(session: &Session, target: Target) -> Option<&[Entry]> {
    if !is_target(session.book(), target) {
        return None;
    }
    match session.reason(target) {
        Some(reason) => Some(reason.support),
        None => None,
    }
}

// Whether two supports are the same, or neither is there.
fn is_same(found: Option<&[Entry]>, other: Option<&[Entry]>) -> bool {
    match (found, other) {
        (None, None) => true,
        (Some(found), Some(other)) => found == other,
        _ => false,
    }
}

// Whether the supports are those that trying finds.
fn are_supports_as_tried(alloc: Global, session: &Session) -> Result<bool, AllocError> {
    for target in &targets_of(alloc, session.book())? {
        let tried = least_by_trying(alloc, session.book(), *target)?;
        if !is_same(support_of(session, *target), tried.as_deref()) {
            return Ok(false);
        }
    }
    Ok(true)
}

/// Whether the supports are those that trying finds, and there are as many ways to choose a maximal set of each part as trying
/// finds maximal sets.
pub(crate) fn tried_text(alloc: Global, session: &Session) -> Result<String, AllocError> {
    let sets = maximal_sets_by_trying(alloc, session.book())?;
    if are_supports_as_tried(alloc, session)? && ways(session) == sets.len() {
        String::from_str(alloc, "as tried")
    } else {
        String::from_str(alloc, "not as tried")
    }
}
