//! The ways to choose one maximal set of each part, one at a time.
//!
//! The ways are numbered, the first part's sets slowest, and the assignment of a way is laid out from its number alone. So going
//! over them takes the room of one assignment, however many there are. Numbers have 64 bits; nothing comes to the end of them.
ghost use Rattle.std.specs.Prelude.{◌≡◌, ◌*◌, ◌<◌, All, IfOk, Some, length, map, min, slice_get};
ghost use Rattle.pc_repairs.specs.inside.Joining.{IsSized, joined_by, many_sets};
ghost use Rattle.pc_sheet.specs.Sizes.{product};
ghost use Rattle.pc_ask.specs.inside.Ways.{most_tried};

use pc_books::Assignment;
use pc_repairs::{PartSets, lay};
use std::alloc::{AllocError, Global};

/// The most ways that are numbered.
pub(crate) const MOST_TRIED: usize = 18_446_744_073_709_551_615;

fn times(count: usize, sets: usize) -> usize
    ensures { result ≡ min (count * sets) most_tried }
{
    count.saturating_mul(sets)
}

/// How many ways there are, or 2^64 - 1 where there are more.
pub(crate) fn count_ways(parts: &[PartSets<'_>]) -> usize
    ensures { result ≡ min (product (map many_sets parts.now)) most_tried }
{
    let mut count = 1;
    for part in parts {
        count = times(count, part.sets.len());
    }
    count
}

/// The assignment of the way of that number: the parts' cells take their values from the sets that are chosen, and the others
/// from the assignment that fits.
pub(crate) fn way_at(
    alloc: Global,
    fitting: &Assignment,
    parts: &[PartSets<'_>],
    number: usize,
) -> Result<Assignment, AllocError>
    requires sized { All (IsSized (length fitting.now)) parts.now }
    requires number { number < product (map many_sets parts.now) }
    ensures { IfOk result (λ way. slice_get (joined_by fitting.now parts.now) number ≡ Some way) }
{
    let mut values = Vec::from_slice(alloc, fitting.values())?;
    let mut rest = number;
    let mut left = parts.len();
    while left > 0 {
        left -= 1;
        let part = parts[left];
        let count = part.sets.len();
        lay(&mut values, part.cells, part.sets.shown(rest % count));
        rest /= count;
    }
    Ok(Assignment::new(values))
}
