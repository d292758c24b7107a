//! The clauses of an atom: one for each way of reading it.
ghost use Rattle.std.specs.Prelude.{◌≡◌, ◌++◌, ◌∷◌, [], All, OnOk, map};
ghost use Rattle.pc_ground.specs.ByNumber.{leaf_by_number};
ghost use Rattle.pc_ground.specs.CellsView.{AreReads};

use crate::cells::Cells;
use crate::clauses::literal;
use crate::leaves::Leaves;
use pc_lits::ClauseStore;
use pc_sheet::Entry;
use std::alloc::{AllocError, Global};

/// Appends the leaves' clauses.
pub(crate) fn push_leaves(
    alloc: Global,
    store: &mut ClauseStore,
    cells: &Cells,
    leaves: &Leaves,
    p: u32,
) -> Result<(), AllocError>
    requires reads { All (λ leaf. AreReads cells.now leaf.0) leaves.now }
    ensures { OnOk result (store.new ≡ store.old ++ map (leaf_by_number cells.now p) leaves.now) }
{
    for i in 0..leaves.len() {
        let (reads, is) = leaves.get(i);
        push_leaf(alloc, store, cells, reads, p, is)?;
    }
    Ok(())
}

/// Appends a leaf's clause.
fn push_leaf(
    alloc: Global,
    store: &mut ClauseStore,
    cells: &Cells,
    reads: &[Entry],
    p: u32,
    is: bool,
) -> Result<(), AllocError>
    requires reads { AreReads cells.now reads.now }
    ensures { OnOk result (store.new ≡ store.old ++ leaf_by_number cells.now p (reads.now, is) ∷
        []) }
{
    let mut clause = Vec::new(alloc);
    for read in reads {
        let pair = cells.pair(usize::from(read.cell.0), u32::from(read.value.0));
        clause.push(literal(pair, false))?;
    }
    clause.push(literal(p, is))?;
    store.push(&clause)?;
    Ok(())
}
