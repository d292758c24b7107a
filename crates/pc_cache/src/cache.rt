//! The rows of all targets of a book.
//!
//! Each target has its place in one vector: the places of a cell lie together, two for each of its values, so that a target
//! is found without a search. The lines of all rows lie in blocks: rows of one search share one, in which each line stands once.
//! A row that is replaced leaves its lines behind, until they are compacted.

ghost use Rattle.std.specs.Prelude.{◌≡◌, ◌+◌, ◌≤◌, ◌↔◌, IfOk, IfSome, IsTrue, OnErr, OnOk, filter, option_map, true};
ghost use Rattle.pc_sheet.specs.Entailment.{cell_sizes};
ghost use Rattle.pc_sheet.specs.declared.ids.Target.{Target};
ghost use Rattle.pc_reason.specs.Reasons.{justification_of};
ghost use Rattle.pc_reason.specs.Targets.{IsTargetIn};
ghost use Rattle.pc_cache.specs.Rows.{bytes_alive, bytes_of_rows, lacks_row, live_after, row_after, row_bytes, row_of, targets_of, uses_entry, AreDistinct, AreEmpty, HasRowOf, HaveTargets};
ghost use Rattle.pc_cache.specs.Targets.{targets};
ghost use Rattle.pc_cache.specs.Lent.{IsLentFor};
ghost use Rattle.pc_cache.specs.Patches.{patch_bytes};
ghost use Rattle.pc_cache.specs.inside.Kept.{kept_or_none, IsRowIn};

use crate::blocks::{blocks_bytes, rested};
use crate::listing::{add_slots, all_targets, is_used, targets_resting_on, targets_without_row};
use crate::moving::{free_places, take_blocks};
use crate::patch::Patch;
use crate::row::{Row, Slot};
use crate::slots::{find, put_slots};
use pc_axiom_names::Names;
use pc_books::{Assignment, Book};
use pc_log::{Derivation, SparseLog};
use pc_reason::Reason;
use pc_sheet::{CellId, Entry, Target};
use std::alloc::{AllocError, Global};
use std::marker::Model;

/// Of each target of a book why it is implied, or nothing. It is seen as the list of these rows, with the bytes that the lines
/// count for in which all derivations lie, those of the lines on which no row rests, and what counts as live.
#[derive(Drop)]
pub struct Cache {
    blocks: Vec<SparseLog>,
    // How many bytes their lines count for.
    bytes: u128,
    // The same after the last compaction, or after the first lines were put.
    live: u128,
    // How many lines the rows have, were none shared.
    lines: u128,
    // Places of blocks that had no line after the last compaction, where others may be put.
    free: Vec<usize>,
    // Where the slots of each cell begin.
    starts: Vec<usize>,
    // Of each cell, of each of its values, that the cell has it and that the cell lacks it.
    slots: Vec<Slot>,
}

impl Model for Cache {
    ghost use Rattle.pc_cache.specs.Rows.{Cached};

    ghost Value = { Cached };

    ghost use Rattle.std.specs.Prelude.{◌≡◌};
    ghost use Rattle.pc_cache.specs.inside.Cached.{cached_in, IsKept};
    ghost use Rattle.pc_cache.specs.inside.Counted.{IsCounted};
    ghost use Rattle.pc_cache.specs.inside.Kept.{bytes_of_blocks};

    ghost view = { λ c. cached_in c.blocks.items c.slots.items c.live };

    ghost invariant = { λ c. (c.bytes ≡ bytes_of_blocks c.blocks.items) ×
        IsKept c.blocks.items c.starts.items c.slots.items × IsCounted c.slots.items c.lines };
}

impl Cache {
    /// A place for a row of each target of the book, all empty.
    pub fn new(alloc: Global, book: &Book) -> Result<Cache, AllocError>
        ensures order { IfOk result (λ cache. targets_of cache.rows ≡
            targets (cell_sizes book.now.universe)) }
        ensures targets { IfOk result (λ cache. (t : Target) → HasRowOf cache.rows t ↔
            IsTargetIn book.now.universe t) }
        ensures once { IfOk result (λ cache. AreDistinct cache.rows) }
        ensures empty { IfOk result (λ cache. AreEmpty cache.rows) }
        ensures bytes { IfOk result (λ cache. cache.bytes ≡ 0) }
        ensures live { IfOk result (λ cache. cache.live ≡ 0) }
    {
        let mut starts = Vec::new(alloc);
        let mut slots = Vec::new(alloc);
        for cell in 0..book.cells() {
            starts.push(slots.len())?;
            let cell = CellId(cell as u16);
            add_slots(cell, book.values_of(cell), &mut slots)?;
        }
        Ok(Cache {
            blocks: Vec::new(alloc),
            bytes: 0,
            live: 0,
            lines: 0,
            free: Vec::new(alloc),
            starts,
            slots,
        })
    }

    /// The row of the target with these names, if there is one: line for line what was put last. It takes no memory.
    pub fn reason<'a>(&'a self, names: &'a Names, target: Target) -> Option<Reason<'a>>
        ensures row { option_map justification_of result ≡ row_of self.now.rows target }
        ensures lent { IfSome result (IsLentFor names.now target) }
    {
        match find(&self.starts, &self.slots, target) {
            None => None,
            Some(place) => lent(&self.blocks, names, &self.slots[place]),
        }
    }

    /// Whether the support of some row has the entry. It takes no memory.
    pub fn uses(&self, entry: Entry) -> bool
        ensures { IsTrue result ↔ ((t : Target) × (uses_entry entry self.now.rows t ≡ true)) }
    {
        is_used(&self.slots, entry)
    }

    /// The targets that are still to be searched after an entry was added or got another value: those without a row.
    pub fn after_enter(&self, _entry: Entry) -> Result<Vec<Target>, AllocError>
        ensures { IfOk result (λ found. found.items ≡ filter (lacks_row self.now.rows)
            (targets_of self.now.rows)) }
    {
        targets_without_row(*self.slots.allocator(), &self.slots)
    }

    /// The targets that are still to be searched after the entry was removed: those whose support has it.
    pub fn after_clear(&self, entry: Entry) -> Result<Vec<Target>, AllocError>
        ensures { IfOk result (λ found. found.items ≡ filter (uses_entry entry self.now.rows)
            (targets_of self.now.rows)) }
    {
        targets_resting_on(*self.slots.allocator(), &self.slots, entry)
    }

    /// The targets that are still to be searched after the rules changed: all.
    pub fn after_rules(&self) -> Result<Vec<Target>, AllocError>
        ensures { IfOk result (λ found. found.items ≡ targets_of self.now.rows) }
    {
        all_targets(*self.slots.allocator(), &self.slots)
    }

    /// Makes the changes one after another. Without memory, or where a `put` of the patch wanted some, all stays as it is.
    pub fn apply(&mut self, patch: Patch) -> Result<(), AllocError>
        requires { HaveTargets self.old.rows patch.rows }
        ensures rows { OnOk result ((t : Target) →
            row_of self.new.rows t ≡ row_after patch.rows t (row_of self.old.rows t)) }
        ensures targets { targets_of self.new.rows ≡ targets_of self.old.rows }
        ensures bytes { OnOk result (self.new.bytes ≤ self.old.bytes + bytes_of_rows patch.rows) }
        ensures exact { OnOk result (self.new.bytes ≡ self.old.bytes + patch_bytes patch) }
        ensures live { OnOk result (self.new.live ≡
            live_after self.old.bytes self.old.live self.new.bytes) }
        ensures err { OnErr result (self.new ≡ self.old) }
    {
        if !patch.whole {
            return Err(AllocError);
        }
        let bytes = total_of(self.bytes, blocks_bytes(&patch.blocks))?;
        let live = live_then(self.bytes, self.live, bytes);
        let mut changes = patch.slots;
        take_blocks(patch.blocks, &mut changes, &mut self.free, &mut self.blocks)?;
        self.bytes = bytes;
        self.live = live;
        put_slots(&self.starts, &mut self.slots, &mut self.lines, changes);
        Ok(())
    }

    /// Keeps the lines on which rows rest alone: each row stays as it is, line for line. Without memory all stays as it is.
    pub fn compact(&mut self) -> Result<(), AllocError>
        ensures rows { self.new.rows ≡ self.old.rows }
        ensures bytes { OnOk result (self.new.bytes + self.old.spare ≡ self.old.bytes) }
        ensures few { OnOk result (self.new.bytes ≤ bytes_of_rows self.old.rows) }
        ensures spare { OnOk result (self.new.spare ≡ 0) }
        ensures live { OnOk result (self.new.live ≡ self.new.bytes) }
        ensures err { OnErr result (self.new ≡ self.old) }
    {
        let alloc = *self.slots.allocator();
        let kept = rested(alloc, &self.blocks, &self.slots)?;
        let free = free_places(alloc, &kept)?;
        self.bytes = blocks_bytes(&kept);
        self.live = self.bytes;
        self.blocks = kept;
        self.free = free;
        Ok(())
    }

    /// How many bytes the kept lines count for: 16 each, and 4 for each literal and 8 for each hint. It takes no memory.
    pub fn arena_bytes(&self) -> u128
        ensures exact { result ≡ self.now.bytes }
        ensures least { (t : Target) → row_bytes (row_of self.now.rows t) ≤ result }
    {
        self.bytes
    }

    /// How many bytes the lines of the rows alone may count for: what all lines counted for after the last compaction, or 16 for
    /// each line of each row, where that is less. It takes no memory.
    pub fn live_bytes(&self) -> u128
        ensures exact { result ≡ bytes_alive self.now }
        ensures most { result ≤ bytes_of_rows self.now.rows }
    {
        self.live.min(16 * self.lines)
    }
}

// What counts as live once the lines count for so many bytes, where they counted for so many before.
fn live_then(before: u128, live: u128, bytes: u128) -> u128
    ensures { result ≡ live_after before live bytes }
{
    if before == 0 { bytes } else { live }
}

// The sum. Past the largest number the answer is want of memory.
fn total_of(bytes: u128, more: u128) -> Result<u128, AllocError>
    ensures { IfOk result (λ total. total ≡ bytes + more) }
{
    match bytes.checked_add(more) {
        None => Err(AllocError),
        Some(total) => Ok(total),
    }
}

// The row of a slot, if there is one.
fn lent<'a>(blocks: &'a [SparseLog], names: &'a Names, slot: &'a Slot) -> Option<Reason<'a>>
    requires { IsRowIn blocks.now slot.now.row }
    ensures row { option_map justification_of result ≡ kept_or_none blocks.now slot.now.row }
    ensures lent { IfSome result (IsLentFor names.now slot.now.target) }
{
    match &slot.row {
        None => None,
        Some(row) => Some(Reason {
            target: slot.target,
            support: &row.support,
            shown: row.shown.as_ref(),
            names,
            proof: Derivation {
                lines: &blocks[row.block],
                places: &row.places,
            },
        }),
    }
}
