//! An assignment, read from a solver's values.
ghost use Rattle.std.specs.Prelude.{◌≡◌, ◌<◌, List, Contains, IfNone, IfSome, false, length, map, true};
ghost use Rattle.pc_sheet.specs.Entailment.{AreWithin, cell_sizes};
ghost use Rattle.pc_sheet.specs.declared.ids.CellId.{CellId};
ghost use Rattle.pc_sheet.specs.declared.ids.ValueId.{ValueId};
ghost use Rattle.pc_components.specs.Pairs.{pair_var, size_at};
ghost use Rattle.pc_components.specs.Used.{HasValues};
ghost use Rattle.pc_components.specs.View.{number_of};
ghost use Rattle.pc_parts.specs.Laws.{AgreeAt};
ghost use Rattle.pc_solver.specs.Answers.{truth_in};
ghost use Rattle.pc_theory.specs.Reading.{HasPairs};

use pc_books::{Assignment, Book};
use pc_ground::Ground;
use pc_sheet::{CellId, ValueId};
use pc_solver::Solver;
use std::alloc::{AllocError, Global};

// The first value of the cell whose pair is true.
fn first_true(book: &Book, ground: &Ground, solver: &Solver<'_>, cell: CellId) -> Option<ValueId>
    requires sizes { ground.now.sizes ≡ cell_sizes book.now.universe }
    requires cell { cell.0 < length ground.now.sizes }
    requires pairs { (x : ValueId) → x.0 < size_at ground.now.sizes cell →
        Contains solver.now.problem.own (pair_var ground.now.sizes cell x) }
    ensures some { IfSome result (λ x. x.0 < size_at ground.now.sizes cell) }
    ensures true_ { IfSome result
        (λ x. truth_in solver.now.trues (pair_var ground.now.sizes cell x) ≡ true) }
    ensures none { IfNone result ((x : ValueId) → x.0 < size_at ground.now.sizes cell →
        truth_in solver.now.trues (pair_var ground.now.sizes cell x) ≡ false) }
{
    for number in 0..book.values_of(cell) {
        let value = ValueId(number as u16);
        if solver.value(ground.pair(cell, value)) {
            return Some(value);
        }
    }
    None
}

/// Gives each of the cells the value whose pair is true.
pub fn read_values(
    book: &Book,
    ground: &Ground,
    cells: &[CellId],
    solver: &Solver<'_>,
    base: &mut Assignment,
)
    requires sizes { ground.now.sizes ≡ cell_sizes book.now.universe }
    requires pairs { HasPairs ground.now.sizes cells.now solver.now }
    requires within { AreWithin ground.now.sizes base.old }
    ensures within { AreWithin ground.now.sizes base.new }
    ensures reads { (a : List ValueId) → AreWithin ground.now.sizes a →
        HasValues ground.now.sizes (map number_of cells.now) (truth_in solver.now.trues) a →
        AgreeAt (Contains (map number_of cells.now)) a base.new }
    ensures elsewhere { AgreeAt (λ c. ¬ Contains (map number_of cells.now) c) base.old base.new }
{
    for cell in cells {
        if let Some(value) = first_true(book, ground, solver, *cell) {
            base.set_value(*cell, value);
        }
    }
}
