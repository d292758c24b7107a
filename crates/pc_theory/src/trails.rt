//! Trails that serve one edit after another.
//!
//! A trail has arrays as long as a book's variables, so that making two for each edit would cost more than most edits' searches.
//! What a trail held for one solver guides the next one. So those that an edit takes first are emptied before: it is searched
//! as if they were new, and costs, answers and certificates don't depend on the edits before it.
ghost use Rattle.std.specs.Prelude.{◌≡◌};

use pc_solver::SpareTrails;
use std::alloc::{AllocError, Global};
use std::mem::replace;

/// Takes these trails, if they are over so many variables; otherwise there is none yet.
pub(crate) fn borrow(alloc: Global, spare: &mut SpareTrails, variables: u32) -> SpareTrails
    ensures taken { result ≡ variables }
    ensures same { spare.new ≡ spare.old }
{
    let own = spare.variables();
    if own != variables {
        return SpareTrails::new(alloc, variables);
    }
    replace(spare, SpareTrails::new(alloc, own))
}

/// Gives trails back, if they are over as many variables.
pub(crate) fn give_back(spare: &mut SpareTrails, trails: SpareTrails)
    ensures { spare.new ≡ spare.old }
{
    if spare.variables() == trails.variables() {
        *spare = trails;
    }
}

/// Empties the trail that is taken first.
pub(crate) fn empty_one(trails: &mut SpareTrails) -> Result<(), AllocError>
    ensures { trails.new ≡ trails.old }
{
    let mut trail = trails.take()?;
    trail.clear();
    trails.give(trail);
    Ok(())
}

/// Empties the two trails that are taken first.
pub(crate) fn empty_two(trails: &mut SpareTrails) -> Result<(), AllocError>
    ensures { trails.new ≡ trails.old }
{
    let mut trail = trails.take()?;
    trail.clear();
    empty_one(trails)?;
    trails.give(trail);
    Ok(())
}
