//! A book as what a solver searches whole.

ghost use Rattle.std.specs.Prelude.{◌≡◌, ◌<◌, ◌^◌, [], IfOk, length, map};
ghost use Rattle.std.specs.List.{range_with_len};
ghost use Rattle.pc_ground.specs.Grounded.{grounded};
ghost use Rattle.pc_components.specs.View.{number_of};
ghost use Rattle.pc_solver.specs.Solver.{HasLog};
ghost use Rattle.pc_theory.specs.WholeSpendings.{variable_of};
ghost use Rattle.pc_repairs.specs.Searches.{whole_problem};
ghost use Rattle.pc_repairs.specs.inside.Asking.{IsAsked};
ghost use Rattle.pc_repairs.specs.inside.Tasks.{AreAllOf, IsTask};

use pc_books::{Book, few_cells, well_formed};
use pc_ground::Ground;
use pc_lits::Var;
use pc_problem::count_pairs;
use pc_problem::laws::whole_is_searched;
use pc_sheet::CellId;
use pc_solver::Solver;
use std::alloc::{AllocError, Global};

/// The numbers of all axioms, variables and cells of a book.
#[derive(Drop)]
pub struct Numbers {
    pub axioms: Vec<u32>,
    pub variables: Vec<Var>,
    pub cells: Vec<CellId>,
}

/// A book with its clauses, and the numbers of all of its axioms, variables and cells.
#[derive(Clone, Copy)]
pub struct WholeTask<'g> {
    pub alloc: Global,
    pub book: &'g Book,
    pub ground: &'g Ground,
    pub numbers: &'g Numbers,
}

fn axioms_below(alloc: Global, count: usize) -> Result<Vec<u32>, AllocError>
    requires { count < 2 ^ 32 }
    ensures { IfOk result (λ axioms. axioms.items ≡ range_with_len 0 count) }
{
    let mut axioms = Vec::new(alloc);
    for number in 0..count {
        axioms.push(number as u32)?;
    }
    Ok(axioms)
}

fn variables_below(alloc: Global, count: u32) -> Result<Vec<Var>, AllocError>
    ensures { IfOk result (λ variables. variables.items ≡
        map variable_of (range_with_len 0 count)) }
{
    let mut variables = Vec::new(alloc);
    for number in 0..count {
        variables.push(Var(number))?;
    }
    Ok(variables)
}

fn cells_below(alloc: Global, count: usize) -> Result<Vec<CellId>, AllocError>
    requires { count < 2 ^ 16 }
    ensures { IfOk result (λ cells. map number_of cells.items ≡ range_with_len 0 count) }
{
    let mut cells = Vec::new(alloc);
    for number in 0..count {
        cells.push(CellId(number as u16))?;
    }
    Ok(cells)
}

impl Numbers {
    /// All that a book has.
    pub fn of(alloc: Global, book: &Book, ground: &Ground) -> Result<Numbers, AllocError>
        requires { ground.now ≡ grounded book.now }
        ensures { IfOk result (IsTask book.now ground.now) }
    {
        well_formed(book);
        few_cells(book);
        ground.few_axioms();
        let axioms = axioms_below(alloc, ground.store().len())?;
        let variables = variables_below(alloc, ground.variables())?;
        let cells = cells_below(alloc, book.cells())?;
        Ok(Numbers {
            axioms,
            variables,
            cells,
        })
    }
}

impl<'g> WholeTask<'g> {
    /// A solver over all of the book, which has no blocks and has derived nothing yet. The pairs are decided first,
    /// and none is to be shown true.
    pub fn solver(self) -> Result<Solver<'g>, AllocError>
        requires { IsTask self.book.now self.ground.now self.numbers.now }
        ensures { IfOk result (λ s. IsAsked self.entry.book.now [] s []) }
    {
        whole_is_searched();
        let mut solver = Solver::new(
            self.alloc,
            self.ground.store(),
            &self.numbers.axioms,
            &self.numbers.variables,
            self.ground.variables(),
        )?;
        solver.prefer_first(count_pairs(self.book, &self.numbers.cells));
        solver.show_nothing();
        Ok(solver)
    }
}
