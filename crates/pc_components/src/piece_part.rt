//! The one part of an asked book that has what is asked, without the rows of all the others.
//!
//! The parts of the book in which something is asked are known. The asked book has one piece more, which ties together the cells
//! that it reads, and so the known parts that have them; all others stay as they are.
ghost use Rattle.std.specs.Prelude.{◌≡◌, ◌-◌, ◌<◌, IfOk, length};
ghost use Rattle.pc_sheet.specs.Sheet.{Sheet, Statement};
ghost use Rattle.pc_sheet.specs.WellFormed.{IsWellFormed};
ghost use Rattle.pc_accept.specs.Asked.{asked};
ghost use Rattle.pc_components.specs.View.{AreComponentsOf, IsPartOfPiece};
ghost use Rattle.pc_components.specs.inside.PartNumbers.{HasNumbers};
ghost use Rattle.pc_ground.specs.Grounded.{grounded};

use crate::components::Components;
use crate::narrow::{cells_of, variables_of};
use crate::part_numbers::PartNumbers;
use crate::tied::tie_all;
use crate::variables::variables_used;
use pc_books::{Book, few_cells, well_formed};
use pc_ground::Ground;
use pc_lits::Var;
use pc_sheet::CellId;
use std::alloc::{AllocError, Global};

/// The part of a book that has some piece of its rules.
#[derive(Drop)]
pub struct PartOfPiece {
    /// Its cells, in their order.
    pub cells: Vec<CellId>,
    /// The variables that its axioms name, in order.
    pub variables: Vec<Var>,
}

/// The part with the piece of that number, by the numbers of the book's parts. An error is want of memory.
fn part_of_piece(
    alloc: Global,
    book: &Book,
    ground: &Ground,
    numbers: &PartNumbers,
    piece: usize,
) -> Result<PartOfPiece, AllocError>
    requires ground { ground.now ≡ grounded book.now }
    requires numbers { HasNumbers book.now numbers.now.parts numbers.now.cells.items
        numbers.now.pieces.items }
    requires piece { piece < length ground.now.reads }
    ensures { IfOk result (λ part. IsPartOfPiece book.now piece part.cells.items
        part.variables.items) }
{
    well_formed(book);
    few_cells(book);
    let number = numbers.pieces[piece];
    let cells = numbers.cells_of(alloc, number)?;
    let axioms = numbers.axioms_of(alloc, book, ground, number)?;
    let count = ground.variables() as usize;
    let variables = variables_used(alloc, ground.store(), &axioms, count)?;
    Ok(PartOfPiece {
        cells: cells_of(alloc, &cells)?,
        variables: variables_of(alloc, &variables)?,
    })
}

/// The part of an asked book that has the last piece of its rules, which is what is asked, by the ground and by the parts of the
/// book in which that is asked: this part is the union of those that the formula reads. It takes time linear in the ground: each
/// cell, axiom and variable is looked at, and only those of this part are kept. An error is want of memory.
pub fn find_last_part(
    alloc: Global,
    book: &Book,
    ground: &Ground,
    components: &Components,
) -> Result<PartOfPiece, AllocError>
    requires ground { ground.now ≡ grounded book.now }
    requires asked { (sheet : Sheet) × (f : Statement) × (book.now ≡ asked sheet f) ×
        IsWellFormed sheet × AreComponentsOf sheet components.now }
    ensures { IfOk result (λ part. IsPartOfPiece book.now (length ground.now.reads - 1)
        part.cells.items part.variables.items) }
{
    well_formed(book);
    let last = ground.reads().len() - 1;
    let mut labels = components.labels(alloc)?;
    tie_all(&mut labels, ground.reads().get(last));
    let numbers = PartNumbers::by_labels(alloc, book, ground, &labels)?;
    part_of_piece(alloc, book, ground, &numbers, last)
}
