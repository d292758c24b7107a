//! Blocks that move among others, and the rows with them.

ghost use Rattle.std.specs.Prelude.{◌≡◌, ◌+◌, ◌<◌, [], IfOk, IfSome, IsTrue, OnErr, OnOk, length, set};
ghost use Rattle.pc_cache.specs.inside.Kept.{block_at, AreRowsIn};
ghost use Rattle.pc_cache.specs.inside.Moved.{moved_row, moved_rows, AreTaken};

use crate::row::{Row, Slot};
use pc_log::SparseLog;
use std::alloc::{AllocError, Global};

/// Puts blocks among others, and the rows with them: a block alone where no line stands, if there is such a place among those that
/// are named as free, and others behind the last. Without memory the others stay as they are.
pub(crate) fn take_blocks(
    from: Vec<SparseLog>,
    slots: &mut [Slot],
    free: &mut Vec<usize>,
    into: &mut Vec<SparseLog>,
) -> Result<(), AllocError>
    requires { AreRowsIn from.items slots.old }
    ensures taken { OnOk result (AreTaken from.items slots.old into.old.items into.new.items
        slots.new) }
    ensures err { OnErr result (into.new.items ≡ into.old.items) }
{
    if from.len() == 1 {
        if let Some(place) = free_place(free, into) {
            return take_alone(from, place, slots, into);
        }
    }
    take_behind(from, slots, into)
}

// Puts a block alone at a place where no line stands.
fn take_alone(
    from: Vec<SparseLog>,
    place: usize,
    slots: &mut [Slot],
    into: &mut Vec<SparseLog>,
) -> Result<(), AllocError>
    requires rows { AreRowsIn from.items slots.old }
    requires one { length from.items ≡ 1 }
    requires within { place < length into.old.items }
    requires empty { block_at into.old.items place ≡ [] }
    ensures taken { OnOk result (AreTaken from.items slots.old into.old.items into.new.items
        slots.new) }
    ensures err { OnErr result (into.new.items ≡ into.old.items) }
{
    let mut blocks = from;
    move_rows(place, slots)?;
    let block = blocks.swap_remove(0);
    put_at(block, place, into);
    Ok(())
}

// Puts a block in the place of another.
fn put_at(block: SparseLog, place: usize, into: &mut Vec<SparseLog>)
    requires { place < length into.old.items }
    ensures { into.new.items ≡ set into.old.items place block }
{
    into[place] = block;
}

// Puts blocks behind the last.
fn take_behind(
    from: Vec<SparseLog>,
    slots: &mut [Slot],
    into: &mut Vec<SparseLog>,
) -> Result<(), AllocError>
    requires { AreRowsIn from.items slots.old }
    ensures taken { OnOk result (AreTaken from.items slots.old into.old.items into.new.items
        slots.new) }
    ensures err { OnErr result (into.new.items ≡ into.old.items) }
{
    let mut blocks = from;
    move_rows(into.len(), slots)?;
    into.append(&mut blocks)?;
    Ok(())
}

// The next of the places that are named as free at which there is a block without a line.
fn free_place(free: &mut Vec<usize>, blocks: &[SparseLog]) -> Option<usize>
    ensures within { IfSome result (λ place. place < length blocks.now) }
    ensures empty { IfSome result (λ place. block_at blocks.now place ≡ []) }
{
    match free.pop() {
        Some(place) if is_free(place, blocks) => Some(place),
        _ => None,
    }
}

/// Whether there is a block of this number, without a line.
pub(crate) fn is_free(place: usize, blocks: &[SparseLog]) -> bool
    ensures within { IsTrue result → place < length blocks.now }
    ensures empty { IsTrue result → block_at blocks.now place ≡ [] }
{
    place < blocks.len() && blocks[place].len() == 0
}

/// The places of the blocks without a line.
pub(crate) fn free_places(alloc: Global, blocks: &[SparseLog]) -> Result<Vec<usize>, AllocError> {
    let mut free = Vec::new(alloc);
    for place in 0..blocks.len() {
        if is_free(place, blocks) {
            free.push(place)?;
        }
    }
    Ok(free)
}

// Counts each row's block behind so many others. Past the largest number the answer is want of memory.
fn move_rows(base: usize, slots: &mut [Slot]) -> Result<(), AllocError>
    ensures { OnOk result (slots.new ≡ moved_rows base slots.old) }
{
    for slot in slots.iter_mut() {
        move_row(base, &mut slot.row)?;
    }
    Ok(())
}

fn move_row(base: usize, row: &mut Option<Row>) -> Result<(), AllocError>
    ensures { OnOk result (row.new ≡ moved_row base row.old) }
{
    if let Some(row) = row {
        row.block = sum_of(base, row.block)?;
    }
    Ok(())
}

fn sum_of(base: usize, block: usize) -> Result<usize, AllocError>
    ensures { IfOk result (λ sum. sum ≡ base + block) }
{
    match base.checked_add(block) {
        None => Err(AllocError),
        Some(sum) => Ok(sum),
    }
}
