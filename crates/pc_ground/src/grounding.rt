//! What every step of grounding is lent.
ghost use Rattle.std.specs.Prelude.{◌≡◌};
ghost use Rattle.pc_sheet.specs.Entailment.{cell_sizes};

use crate::cells::Cells;
use pc_books::Book;
use pc_sheet::{NodePath, SortId, ValueId};
use std::alloc::Global;

/// A book with the numbers of its pairs.
#[derive(Clone, Copy)]
pub(crate) struct Grounding<'a> {
    pub(crate) alloc: Global,
    pub(crate) cells: &'a Cells,
    pub(crate) book: &'a Book,
    ghost sized: { cells.now ≡ cell_sizes book.now.universe },
}

/// Where a formula stands: the path to it, the values of the variables around it, and the variable of its node.
#[derive(Clone, Copy)]
pub(crate) struct Place<'a> {
    pub(crate) path: &'a NodePath,
    pub(crate) scope: &'a [(SortId, ValueId)],
    pub(crate) first: u32,
}

/// Where a quantifier stands, with the sort of its variable.
#[derive(Clone, Copy)]
pub(crate) struct Binder<'a> {
    pub(crate) place: Place<'a>,
    pub(crate) sort: SortId,
}

/// Where a node of two parts stands, with the variable of the second.
#[derive(Clone, Copy)]
pub(crate) struct Fork<'a> {
    pub(crate) place: Place<'a>,
    pub(crate) second: u32,
}
