//! The maximal sets of each part that has entries, as they are lent.
ghost use Rattle.std.specs.Prelude.{IfOk};
ghost use Rattle.std.specs.List.{AllZip};
ghost use Rattle.pc_world_list.specs.Chosen.{chosen_parts};
ghost use Rattle.pc_repairs.specs.inside.Joining.{IsPartSets};

use pc_sheet::CellId;
use pc_world_list::{Choices, Worlds};
use std::alloc::{AllocError, Global};

/// A part's cells and its maximal sets.
#[derive(Clone, Copy, Drop)]
pub struct PartSets<'a> {
    pub cells: &'a [CellId],
    pub sets: &'a Worlds,
}

/// Each part that has an entry on its cells, in the order of parts.
pub fn sets_by_part<C: Choices>(alloc: Global, view: &C) -> Result<Vec<PartSets<'_>>, AllocError>
    ensures { IfOk result (λ parts. AllZip (IsPartSets (C.sheet view.now))
        (chosen_parts (C.sheet view.now)) parts.items) }
{
    let mut parts = Vec::with_capacity(alloc, view.parts())?;
    for part in 0..view.parts() {
        parts.push(PartSets {
            cells: view.cells(part),
            sets: view.sets(part),
        })?;
    }
    Ok(parts)
}
