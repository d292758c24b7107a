//! Slots by their targets: finding one, and putting others in their places.
ghost use Rattle.std.specs.Prelude.{◌≡◌, ◌<◌, ◌≤◌, ◌^◌, MatchOption, Some, length};
ghost use Rattle.pc_cache.specs.Rows.{is_same_target};
ghost use Rattle.pc_cache.specs.inside.Counted.{places_of, IsCounted};
ghost use Rattle.pc_cache.specs.inside.Kept.{HasSlot, HasSlots, with_slot, with_slots};
ghost use Rattle.pc_cache.specs.inside.Places.{place_of, ArePlaced, AreSmall, IsSlotOf};

use crate::row::{Row, Slot};
use pc_sheet::Target;

pub(crate) fn is_same(one: Target, other: Target) -> bool
    ensures { result ≡ is_same_target one other }
{
    one.cell.0 == other.cell.0 && (one.value.0 == other.value.0 && one.holds == other.holds)
}

// Where the target's slot stands, if it has one.
fn place_of(starts: &[usize], target: Target) -> Option<usize>
    requires { AreSmall starts.now }
    ensures { result ≡ place_of starts.now target }
{
    match starts.get(usize::from(target.cell.0)) {
        None => None,
        Some(start) => {
            let side = if target.holds { 0 } else { 1 };
            Some(*start + (2 * usize::from(target.value.0) + side))
        }
    }
}

/// The place of the target's slot, if it has one.
pub(crate) fn find(starts: &[usize], slots: &[Slot], target: Target) -> Option<usize>
    requires small { AreSmall starts.now }
    requires placed { ArePlaced starts.now 0 slots.now }
    ensures { MatchOption result (¬ HasSlot slots.now target) (IsSlotOf slots.now target) }
{
    match place_of(starts, target) {
        None => None,
        Some(place) => {
            if place < slots.len() && is_same(slots[place].target, target) {
                Some(place)
            } else {
                None
            }
        }
    }
}

// How many lines the row has, if there is one.
fn lines_of(row: &Option<Row>) -> u128
    ensures exact { result ≡ places_of row.now }
    ensures few { result < 2 ^ 64 }
{
    match row {
        None => 0,
        Some(row) => row.places.len() as u128,
    }
}

/// Puts a slot in place of the one of its target, where all rows have so many lines.
pub(crate) fn put_slot(starts: &[usize], slots: &mut [Slot], lines: &mut u128, change: Slot)
    requires small { AreSmall starts.now }
    requires placed { ArePlaced starts.now 0 slots.old }
    requires has { HasSlot slots.old change.target }
    requires few { length slots.old ≤ 2 ^ 21 }
    requires counted { IsCounted slots.old lines.old }
    ensures put { slots.new ≡ with_slot slots.old change }
    ensures counted { IsCounted slots.new lines.new }
{
    if let Some(place) = find(starts, slots, change.target) {
        let before = lines_of(&slots[place].row);
        let after = lines_of(&change.row);
        *lines = *lines - before + after;
        slots[place] = change;
    }
}

/// Puts slots in place of those of their targets, one after another.
pub(crate) fn put_slots(starts: &[usize], slots: &mut [Slot], lines: &mut u128, changes: Vec<Slot>)
    requires small { AreSmall starts.now }
    requires placed { ArePlaced starts.now 0 slots.old }
    requires have { HasSlots slots.old changes.items }
    requires few { length slots.old ≤ 2 ^ 21 }
    requires counted { IsCounted slots.old lines.old }
    ensures put { slots.new ≡ with_slots slots.old changes.items }
    ensures counted { IsCounted slots.new lines.new }
{
    for change in changes {
        put_slot(starts, slots, lines, change);
    }
}
