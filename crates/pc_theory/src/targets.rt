//! The targets on some cells.
ghost use Rattle.std.specs.Prelude.{◌≡◌, ◌<◌, ◌≤◌, ◌++◌, All, IfOk, OnOk, length};
ghost use Rattle.pc_sheet.specs.Limits.{most_values};
ghost use Rattle.pc_sheet.specs.Entailment.{cell_sizes};
ghost use Rattle.pc_theory.specs.Targets.{target_of_value, targets_on_cell, targets_on};

use pc_books::Book;
use pc_sheet::{CellId, Target, ValueId};
use std::alloc::{AllocError, Global};

// That the cell has a value, or that it hasn't.
fn target(cell: CellId, value: usize, holds: bool) -> Target
    requires { value < most_values }
    ensures { result ≡ target_of_value cell value holds }
{
    Target {
        cell,
        value: ValueId(value as u16),
        holds,
    }
}

// Adds the targets of a cell with so many values.
fn add_targets(cell: CellId, count: usize, targets: &mut Vec<Target>) -> Result<(), AllocError>
    requires { count ≤ most_values }
    ensures { OnOk result (targets.new.items ≡ targets.old.items ++ targets_on_cell cell count) }
{
    for value in 0..count {
        targets.push(target(cell, value, true))?;
        targets.push(target(cell, value, false))?;
    }
    Ok(())
}

/// For each of the cells and each of its values that the cell has the value, and that it hasn't.
pub fn targets_on(alloc: Global, book: &Book, cells: &[CellId]) -> Result<Vec<Target>, AllocError>
    requires { All (λ c. c.0 < length (cell_sizes book.now.universe)) cells.now }
    ensures { IfOk result (λ targets. targets.items ≡ targets_on (cell_sizes book.now.universe)
        cells.now) }
{
    let mut targets = Vec::new(alloc);
    for cell in cells {
        add_targets(*cell, book.values_of(*cell), &mut targets)?;
    }
    Ok(targets)
}
