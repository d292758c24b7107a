//! The clauses of axioms.

ghost use Rattle.std.specs.Prelude.{◌≡◌, ◌≤◌, ◌<◌, ◌∷◌, [], IfOk, OnOk, length, map};
ghost use Rattle.pc_sheet.specs.Limits.{most_values};
ghost use Rattle.pc_accept.specs.Axioms.{child_of, each_below, negated_entry};
ghost use Rattle.pc_accept.specs.Literals.{pair, node, positive};
ghost use Rattle.pc_checker.specs.Drafts.{AreWritten};

use crate::draft::ClauseDraft;
use pc_sheet::{CellId, Entry, NodePath, ValueId};
use std::alloc::{AllocError, Global};

/// Writes that the cell has one of its values.
pub(crate) fn write_values(
    alloc: Global,
    cell: CellId,
    count: usize,
    draft: &mut ClauseDraft,
) -> Result<(), AllocError>
    requires { count ≤ most_values }
    ensures { OnOk result
        (AreWritten draft.old draft.new
        (each_below count (λ v. positive (pair cell (record { 0 = v }))))) }
{
    for value in 0..count {
        draft.push_pair(alloc, cell, ValueId(value as u16), true)?;
    }
    Ok(())
}

/// Writes that the node has this truth where some of these children, of which each has this sign, are so.
pub(crate) fn write_parts(
    alloc: Global,
    parent: &NodePath,
    own: bool,
    children: &[(u32, bool)],
    draft: &mut ClauseDraft,
) -> Result<(), AllocError>
    ensures { OnOk result
        (AreWritten draft.old draft.new
        ((record { what = node parent.now.rule parent.now.steps.items; sign = own }) ∷
        map (λ c. record { what = child_of parent.now.rule parent.now.steps.items c.0; sign = c.1 })
        children.now)) }
{
    draft.push_node(alloc, parent.rule, &parent.steps, own)?;
    for (child, sign) in children {
        draft.push_child(alloc, parent, *child, *sign)?;
    }
    Ok(())
}

/// Writes that one of the cells hasn't the value that was read.
pub(crate) fn write_reads(
    alloc: Global,
    reads: &[Entry],
    draft: &mut ClauseDraft,
) -> Result<(), AllocError>
    ensures { OnOk result (AreWritten draft.old draft.new (map negated_entry reads.now)) }
{
    for read in reads {
        draft.push_pair(alloc, read.cell, read.value, false)?;
    }
    Ok(())
}
