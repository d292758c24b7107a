//! The parts of a book: cells that pieces of the rules tie together, with the axioms and variables of each.
ghost use Rattle.std.specs.Prelude.{◌≡◌, ◌<◌, ◌^◌, All, IfOk, length, map, slice_get, Some};
ghost use Rattle.std.specs.List.{AllZip};
ghost use Rattle.pc_components.specs.PartAxioms.{AreVariablesOf};
ghost use Rattle.pc_components.specs.View.{AreComponentsOf, number_of, variable_number};
ghost use Rattle.pc_components.specs.inside.Tied.{firsts_by_number};
ghost use Rattle.pc_ground.specs.Ground.{clauses};
ghost use Rattle.pc_ground.specs.Grounded.{grounded};

use crate::narrow::{
    numbers_copied, rows_copied, rows_of_axioms, rows_of_cells, rows_of_variables,
};
use crate::numbers::rows_of_each;
use crate::part_numbers::PartNumbers;
use crate::tied::first_cells;
use crate::turned::turn;
use crate::variables::variables_of_parts;
use pc_books::{Book, few_cells, well_formed};
use pc_ground::Ground;
use pc_lits::{Rows, Values, Var};
use pc_sheet::CellId;
use std::alloc::{AllocError, Global};
use std::marker::Model;

/// A part of a book, in lent memory.
#[derive(Clone, Copy)]
pub struct Part<'a> {
    /// Its cells, in their order.
    pub cells: &'a [CellId],
    /// The numbers of its axioms in the ground's store, in order.
    pub axioms: &'a [u32],
    /// The variables that its axioms name, in order.
    pub variables: &'a [Var],
    /// No clause that is learned has a literal that these values make true.
    pub banned: &'a Values,
}

/// The parts of a book in order: by their first cell, and last the part without cells, where there is one.
#[derive(Drop)]
pub struct Components {
    cells: Rows<CellId>,
    axioms: Rows<u32>,
    variables: Rows<Var>,
    numbers: Vec<usize>,
    banned: Values,
}

impl Model for Components {
    ghost use Rattle.std.specs.Prelude.{length};
    ghost use Rattle.pc_components.specs.View.{Kept, AreAsMany};

    ghost Value = { Kept };

    ghost view = { λ c. record { cells = c.cells; axioms = c.axioms; variables = c.variables; numbers = c.numbers.items; banned = c.banned } };

    ghost invariant = { λ c. AreAsMany c.cells c.axioms × AreAsMany c.cells c.variables };
}

impl Components {
    /// How many parts there are.
    pub fn len(&self) -> usize
        ensures { result ≡ length self.now.cells }
    {
        self.cells.len()
    }

    /// The part of that number.
    pub fn part(&self, i: usize) -> Part<'_>
        requires { i < length self.now.cells }
        ensures cells { slice_get self.now.cells i ≡ Some result.cells.now }
        ensures axioms { slice_get self.now.axioms i ≡ Some result.axioms.now }
        ensures variables { slice_get self.now.variables i ≡ Some result.variables.now }
        ensures banned { result.banned.now ≡ self.now.banned }
    {
        Part {
            cells: self.cells.get(i),
            axioms: self.axioms.get(i),
            variables: self.variables.get(i),
            banned: &self.banned,
        }
    }

    /// The number of the cell's part.
    pub fn of(&self, cell: CellId) -> usize
        requires { cell.0 < length self.now.numbers }
        ensures { slice_get self.now.numbers cell.0 ≡ Some result }
    {
        self.numbers[usize::from(cell.0)]
    }

    /// The first cell of each cell's part.
    pub(crate) fn labels(&self, alloc: Global) -> Result<Vec<usize>, AllocError>
        ensures { IfOk result (λ labels. labels.items ≡
            firsts_by_number (map (map number_of) self.now.cells) self.now.numbers) }
    {
        first_cells(alloc, &self.cells, &self.numbers)
    }

    /// The same parts, each with these axioms in the place of its own, and with the variables that they name. What the values make
    /// true is banned. An error is want of memory.
    pub fn with_axioms(
        &self,
        alloc: Global,
        book: &Book,
        ground: &Ground,
        axioms: &Rows<usize>,
        banned: Values,
    ) -> Result<Components, AllocError>
        requires ground { ground.now ≡ grounded book.now }
        requires many { length axioms.now ≡ length self.now.cells }
        requires within { All (All (λ k. k < 2 ^ 32)) axioms.now }
        ensures cells { IfOk result (λ c. c.cells ≡ self.now.cells) }
        ensures numbers { IfOk result (λ c. c.numbers ≡ self.now.numbers) }
        ensures axioms { IfOk result (λ c. c.axioms ≡ axioms.now) }
        ensures banned { IfOk result (λ c. c.banned ≡ banned) }
        ensures variables { IfOk result
            (λ c.
            AllZip (λ used own. AreVariablesOf (clauses book.now) used (map variable_number own))
            c.axioms c.variables) }
    {
        let _book = book;
        let variables = variables_of_parts(
            alloc,
            ground.store(),
            axioms,
            ground.variables() as usize,
            axioms.len(),
        )?;
        Ok(Components {
            cells: rows_copied(alloc, &self.cells)?,
            axioms: rows_of_axioms(alloc, axioms)?,
            variables: rows_of_variables(alloc, &variables)?,
            numbers: numbers_copied(alloc, &self.numbers)?,
            banned,
        })
    }
}

/// The parts of a book, by its ground, in time linear in what the ground says of them: the cells that each piece reads are
/// searched for components, and each axiom's row of parts is that of the cells and pieces that it is of. An error is want of memory.
pub fn find_components(
    alloc: Global,
    book: &Book,
    ground: &Ground,
) -> Result<Components, AllocError>
    requires { ground.now ≡ grounded book.now }
    ensures { IfOk result (AreComponentsOf book.now) }
{
    well_formed(book);
    few_cells(book);
    ground.few_axioms();
    let numbers = PartNumbers::new(alloc, book, ground)?;
    let owners = numbers.owners(alloc, book, ground)?;
    let axioms = turn(alloc, &owners, numbers.parts)?;
    let variables = variables_of_parts(
        alloc,
        ground.store(),
        &axioms,
        ground.variables() as usize,
        numbers.parts,
    )?;
    let cells = turn(alloc, &rows_of_each(alloc, &numbers.cells)?, numbers.parts)?;
    let PartNumbers { cells: numbers, .. } = numbers;
    let banned = Values::new(alloc, 0)?;
    Ok(Components {
        cells: rows_of_cells(alloc, &cells)?,
        axioms: rows_of_axioms(alloc, &axioms)?,
        variables: rows_of_variables(alloc, &variables)?,
        numbers,
        banned,
    })
}
