//! Which of a book's cells and pieces each axiom is of.
//!
//! The groups of a book are its cells, in their order, and then its pieces, in the order of their nodes. A cell's axioms are
//! of the cell, those at or under a piece of the piece, and the clause of a joint node's child of all pieces under the
//! child; so each axiom is of groups that come one after another.
ghost use Rattle.std.specs.Prelude.{◌≡◌, ◌+◌, ◌*◌, ◌^◌, ◌<◌, ◌++◌, ◌∷◌, OnOk, map};
ghost use Rattle.pc_sheet.specs.Views.{statement_of, statements_of};
ghost use Rattle.pc_sheet.specs.Cells.{values_below};
ghost use Rattle.pc_ground.specs.ByNumber.{AreSorted};
ghost use Rattle.pc_ground.specs.Owners.{times, ones, cells_times, piece_count_of_parts, spans_of_children, span_at};

use crate::cells::Cells;
use crate::count::count_pieces;
use pc_books::Book;
use pc_sheet::Formula;
use std::alloc::AllocError;

/// So many groups, from the one of that number on.
#[derive(Clone, Copy, PartialEq, Eq)]
pub struct Span {
    pub first: u32,
    pub count: u32,
}

/// Appends that many times the same groups.
pub(crate) fn own(owners: &mut Vec<Span>, count: usize, span: Span) -> Result<(), AllocError>
    ensures { OnOk result (owners.new.items ≡ owners.old.items ++ times count span) }
{
    'times: for _ in 0..count {
        owners.push(span)?;
    }
    Ok(())
}

/// Appends the groups under each part, the first of which is `first`.
pub(crate) fn own_children(
    owners: &mut Vec<Span>,
    book: &Book,
    parts: &[Formula],
    first: u32,
) -> Result<(), AllocError>
    requires sorted { AreSorted book.now.universe (statements_of (map statement_of parts.now)) }
    requires room { first + piece_count_of_parts book.now.universe
        (statements_of (map statement_of parts.now)) < 2 ^ 32 }
    ensures { OnOk result (owners.new.items ≡ owners.old.items ++
        spans_of_children book.now.universe first (statements_of (map statement_of parts.now))) }
{
    let mut at = first;
    for part in parts {
        let count = count_pieces(book, part);
        owners.push(Span { first: at, count })?;
        at += count;
    }
    Ok(())
}

/// Appends the groups of instances of `count` pieces each, the first of which is `first`.
pub(crate) fn own_values(
    owners: &mut Vec<Span>,
    first: u32,
    count: u32,
    size: usize,
) -> Result<(), AllocError>
    requires { first + size * count < 2 ^ 32 }
    ensures { OnOk result (owners.new.items ≡ owners.old.items ++ map (span_at first count)
        (values_below size)) }
{
    let mut at = first;
    'values: for _ in 0..size {
        owners.push(Span { first: at, count })?;
        at += count;
    }
    Ok(())
}

/// Appends the cell for each axiom that it doesn't have two of its `size` values.
fn own_ones(owners: &mut Vec<Span>, size: usize, span: Span) -> Result<(), AllocError>
    ensures { OnOk result (owners.new.items ≡ owners.old.items ++ ones size span) }
{
    for v in 0..size {
        own(owners, size - 1 - v, span)?;
    }
    Ok(())
}

/// Appends the cell for each axiom of its, where it has `size` values.
fn own_cell(owners: &mut Vec<Span>, size: usize, span: Span) -> Result<(), AllocError>
    ensures { OnOk result (owners.new.items ≡ owners.old.items ++ span ∷ ones size span) }
{
    owners.push(span)?;
    own_ones(owners, size, span)?;
    Ok(())
}

/// Appends the cell of each cell's axioms.
pub(crate) fn own_cells(owners: &mut Vec<Span>, cells: &Cells) -> Result<(), AllocError>
    ensures { OnOk result (owners.new.items ≡ owners.old.items ++ cells_times 0 cells.now) }
{
    for c in 0..cells.len() {
        let span = Span {
            first: c as u32,
            count: 1,
        };
        own_cell(owners, cells.size(c), span)?;
    }
    Ok(())
}
