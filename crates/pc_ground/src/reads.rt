//! The cells that an atom's leaves read.
ghost use Rattle.std.specs.Prelude.{◌≡◌, ◌++◌, OnOk, map};
ghost use Rattle.std.specs.List.{flat_map};
ghost use Rattle.pc_sheet.specs.Reads.{number_of_cell};
ghost use Rattle.pc_parts.specs.Leaves.{cells_of_leaf};

use crate::leaves::Leaves;
use pc_sheet::Entry;
use std::alloc::AllocError;

/// Appends the cells of these reads.
fn add_reads(cells: &mut Vec<usize>, reads: &[Entry]) -> Result<(), AllocError>
    ensures { OnOk result (cells.new.items ≡ cells.old.items ++ map number_of_cell reads.now) }
{
    for read in reads {
        cells.push(usize::from(read.cell.0))?;
    }
    Ok(())
}

/// Appends the cells of the leaves.
pub(crate) fn add_leaves(cells: &mut Vec<usize>, leaves: &Leaves) -> Result<(), AllocError>
    ensures { OnOk result (cells.new.items ≡ cells.old.items ++ flat_map cells_of_leaf leaves.now) }
{
    for i in 0..leaves.len() {
        let (reads, _) = leaves.get(i);
        add_reads(cells, reads)?;
    }
    Ok(())
}
