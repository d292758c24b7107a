//! Rows that are kept from one search to the next, in bounded memory.
//!
//! What a solver has answered may answer later questions, too. Nothing is wrong where it is forgotten: so where there is no
//! room, all that was kept is forgotten, and what is learned of the present questions is kept anew.

ghost use Rattle.std.specs.Prelude.{◌≡◌, ◌⊎◌, ◌+◌, ◌<◌, ◌≤◌, [], ◌∷◌, ◌++◌, List, Contains, OnOk, Some, length, slice_get, sum_by};
ghost use Rattle.pc_solver.specs.Recent.{AreFew};

use pc_lits::Rows;
use std::alloc::{AllocError, Global};
use std::marker::Model;

/// Rows that are kept while there is room: at most 16,384, with at most 4,194,304 items together. Where there is no room for
/// another, those that stand are forgotten.
#[derive(Drop)]
pub struct Recent<T> {
    rows: Rows<T>,
}

impl<T> Model for Recent<T> {
    ghost use Rattle.std.specs.Prelude.{List};
    ghost use Rattle.pc_solver.specs.Recent.{AreFew};

    ghost Value = { List (List T) };

    ghost view = { λ r. r.rows };

    ghost invariant = { λ r. AreFew r.rows };
}

impl<T: Copy + Drop> Recent<T> {
    /// No rows. It takes no memory.
    pub fn new(alloc: Global) -> Self
        ensures { result ≡ [] }
    {
        Recent {
            rows: Rows::new(alloc),
        }
    }

    /// How many rows are kept.
    pub fn len(&self) -> usize
        ensures len { result ≡ length self.now }
        ensures few { AreFew self.now }
    {
        self.rows.len()
    }

    /// The row at this place.
    pub fn get(&self, index: usize) -> &[T]
        requires { index < length self.now }
        ensures { slice_get self.now index ≡ Some result.now }
    {
        self.rows.get(index)
    }

    /// Keeps a row as the last one, unless it alone has more than 4,194,304 items.
    pub fn push(&mut self, row: &[T]) -> Result<(), AllocError>
        ensures stays { OnOk result (length self.old < 16384 →
            sum_by length self.old + length row.now ≤ 4194304 →
            self.new ≡ self.old ++ row.now ∷ []) }
        ensures kept { OnOk result (length row.now ≤ 4194304 → Contains self.new row.now) }
        ensures only { (kept : List T) → Contains self.new kept → Contains self.old kept ⊎
            (kept ≡ row.now) }
    {
        keep(&mut self.rows, row)
    }
}

// Forgets all rows, unless there is room for one more with so many items.
fn make_room<T: Copy + Drop>(to: &mut Rows<T>, more: usize)
    requires few { AreFew to.old }
    requires fits { more ≤ 4194304 }
    ensures many { length to.new < 16384 }
    ensures items { sum_by length to.new + more ≤ 4194304 }
    ensures stays { length to.old < 16384 → sum_by length to.old + more ≤ 4194304 →
        to.new ≡ to.old }
    ensures only { (to.new ≡ to.old) ⊎ (to.new ≡ []) }
{
    let count = to.len();
    if count == 16384 || to.items_before(count) + more > 4_194_304 {
        to.truncate(0);
    }
}

fn keep<T: Copy + Drop>(to: &mut Rows<T>, row: &[T]) -> Result<(), AllocError>
    requires { AreFew to.old }
    ensures few { AreFew to.new }
    ensures stays { OnOk result (length to.old < 16384 → sum_by length to.old + length row.now ≤
        4194304 → to.new ≡ to.old ++ row.now ∷ []) }
    ensures kept { OnOk result (length row.now ≤ 4194304 → Contains to.new row.now) }
    ensures only { (kept : List T) → Contains to.new kept → Contains to.old kept ⊎
        (kept ≡ row.now) }
{
    if row.len() > 4_194_304 {
        return Ok(());
    }
    make_room(to, row.len());
    to.push(row)
}
