//! The slots of a book's targets, and which targets are still to be searched.
ghost use Rattle.std.specs.Prelude.{◌≡◌, ◌<◌, ◌≤◌, ◌++◌, IfOk, OnOk, filter, map};
ghost use Rattle.std.specs.List.{list_any};
ghost use Rattle.pc_sheet.specs.Limits.{most_values};
ghost use Rattle.pc_cache.specs.inside.Kept.{slot_is_missing, slot_rests_on, slot_target};
ghost use Rattle.pc_cache.specs.Rows.{is_entry_among, is_equal_entry};
ghost use Rattle.pc_cache.specs.inside.Slots.{cell_slots, empty_slot};

use crate::row::Slot;
use pc_sheet::{CellId, Entry, Target, ValueId};
use std::alloc::{AllocError, Global};

/// Adds the empty slots of a cell with so many values.
pub(crate) fn add_slots(cell: CellId, count: usize, slots: &mut Vec<Slot>) -> Result<(), AllocError>
    requires { count ≤ most_values }
    ensures { OnOk result (slots.new.items ≡ slots.old.items ++ cell_slots cell.0 count) }
{
    for value in 0..count {
        slots.push(empty(cell, value, true))?;
        slots.push(empty(cell, value, false))?;
    }
    Ok(())
}

// The empty slot of a cell, a value and whether it holds.
fn empty(cell: CellId, value: usize, holds: bool) -> Slot
    requires { value < most_values }
    ensures { result ≡ empty_slot cell.0 value holds }
{
    Slot {
        target: Target {
            cell,
            value: ValueId(value as u16),
            holds,
        },
        row: None,
    }
}

/// The targets of all slots.
pub(crate) fn all_targets(alloc: Global, slots: &[Slot]) -> Result<Vec<Target>, AllocError>
    ensures { IfOk result (λ targets. targets.items ≡ map slot_target slots.now) }
{
    let mut targets = Vec::new(alloc);
    for slot in slots {
        targets.push(slot.target)?;
    }
    Ok(targets)
}

/// The targets without a row.
pub(crate) fn targets_without_row(alloc: Global, slots: &[Slot]) -> Result<Vec<Target>, AllocError>
    ensures { IfOk result (λ targets. targets.items ≡
        map slot_target (filter slot_is_missing slots.now)) }
{
    let mut targets = Vec::new(alloc);
    for slot in slots {
        if is_missing(slot) {
            targets.push(slot.target)?;
        }
    }
    Ok(targets)
}

/// The targets whose rows have the entry in their support.
pub(crate) fn targets_resting_on(
    alloc: Global,
    slots: &[Slot],
    entry: Entry,
) -> Result<Vec<Target>, AllocError>
    ensures { IfOk result (λ targets. targets.items ≡
        map slot_target (filter (slot_rests_on entry) slots.now)) }
{
    slots
        .iter()
        .filter(|slot| rests_on(slot, entry))
        .map(|slot| slot.target)
        .collect(alloc)
}

/// Whether the support of some row has the entry.
pub(crate) fn is_used(slots: &[Slot], entry: Entry) -> bool
    ensures { result ≡ list_any (slot_rests_on entry) slots.now }
{
    for slot in slots {
        if rests_on(slot, entry) {
            return true;
        }
    }
    false
}

fn is_missing(slot: &Slot) -> bool
    ensures { result ≡ slot_is_missing slot.now }
{
    match slot.row {
        None => true,
        Some(_) => false,
    }
}

fn rests_on(slot: &Slot, entry: Entry) -> bool
    ensures { result ≡ slot_rests_on entry slot.now }
{
    match &slot.row {
        None => false,
        Some(row) => has_entry(&row.support, entry),
    }
}

fn has_entry(entries: &[Entry], entry: Entry) -> bool
    ensures { result ≡ is_entry_among entry entries.now }
{
    for one in entries {
        if is_same(*one, entry) {
            return true;
        }
    }
    false
}

fn is_same(one: Entry, other: Entry) -> bool
    ensures { result ≡ is_equal_entry one other }
{
    one.cell.0 == other.cell.0 && one.value.0 == other.value.0
}
