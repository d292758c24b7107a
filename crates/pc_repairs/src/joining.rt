//! The maximal sets of a whole book, from those of its parts.
//!
//! An assignment that fits still does where a part's cells take their values from another one that makes the part's pieces true.
//! Of a maximal set's assignment the set is all that it has of the entries. So the sets of the whole are what the assignments
//! have that are joined of one for each part.
ghost use Rattle.std.specs.Prelude.{◌≡◌, ◌*◌, ◌++◌, ◌<◌, ◌≤◌, All, AllPairs, IfOk, length, map, OnOk};
ghost use Rattle.std.specs.List.Sorted.{IsPermutation};
ghost use Rattle.pc_sheet.specs.Entailment.{IsSublist};
ghost use Rattle.pc_sheet.specs.Sizes.{product};
ghost use Rattle.pc_sheet.specs.WellFormed.{AreDifferent};
ghost use Rattle.pc_world_list.specs.Worlds.{set_of};
ghost use Rattle.pc_repairs.specs.Listed.{ComesFirst};
ghost use Rattle.pc_repairs.specs.Whole.{AreWhole};
ghost use Rattle.pc_repairs.specs.inside.Ages.{AreApart};
ghost use Rattle.pc_repairs.specs.inside.Joining.{all_laid, had_by, IsCapped, IsSized, is_had, joined_by, laid_by_world, laid_over, many_sets, world_had};

use crate::ordering::in_order;
use crate::part_sets::{PartSets, sets_by_part};
use pc_books::{Assignment, Entry, well_formed};
use pc_sheet::{CellId, ValueId};
use pc_world_list::{Choices, Worlds};
use std::alloc::{AllocError, Global};

/// The most maximal sets of which certificates are made.
pub const MOST_SETS: usize = 64;

// The product, or one more than the most where it is more.
fn times(count: usize, sets: usize) -> usize
    ensures { IsCapped result (count * sets) }
{
    let product = count.saturating_mul(sets);
    if product > MOST_SETS {
        return MOST_SETS + 1;
    }
    product
}

// How many ways there are to choose one set of each part, or one more than the most where there are more.
fn count_choices(parts: &[PartSets<'_>]) -> usize
    ensures { IsCapped result (product (map many_sets parts.now)) }
{
    let mut count = 1;
    for part in parts {
        count = times(count, part.sets.len());
    }
    count
}

/// These cells take their values from another assignment.
pub fn lay(values: &mut Vec<ValueId>, cells: &[CellId], own: &Assignment)
    requires cells { All (λ c. c.0 < length own.now) cells.now }
    requires long { length values.old.items ≡ length own.now }
    ensures { values.new.items ≡ laid_over values.old.items cells.now own.now }
{
    for cell in cells {
        let place = usize::from(cell.0);
        values[place] = own.values()[place];
    }
}

// The values, where these cells take theirs from another assignment.
fn laid_over(
    alloc: Global,
    values: &Assignment,
    cells: &[CellId],
    own: &Assignment,
) -> Result<Assignment, AllocError>
    requires cells { All (λ c. c.0 < length own.now) cells.now }
    requires long { length values.now ≡ length own.now }
    ensures { IfOk result (λ laid. laid ≡ laid_over values.now cells.now own.now) }
{
    let mut laid = Vec::from_slice(alloc, values.values())?;
    lay(&mut laid, cells, own);
    Ok(Assignment::new(laid))
}

// Adds each of the assignments where these cells take their values from another one.
fn lay_set(
    alloc: Global,
    all: &[Assignment],
    cells: &[CellId],
    own: &Assignment,
    laid: &mut Vec<Assignment>,
) -> Result<(), AllocError>
    requires cells { All (λ c. c.0 < length own.now) cells.now }
    requires long { All (λ values. length values ≡ length own.now) all.now }
    ensures { OnOk result (laid.new.items ≡ laid.old.items ++ all_laid all.now cells.now own.now) }
{
    for values in all {
        laid.push(laid_over(alloc, values, cells, own)?)?;
    }
    Ok(())
}

// Each of the assignments, once for each of the part's sets, where the part's cells take their values from that of the set.
fn lay_part(
    alloc: Global,
    all: &[Assignment],
    part: PartSets<'_>,
    count: usize,
) -> Result<Vec<Assignment>, AllocError>
    requires sized { IsSized count part }
    requires long { All (λ values. length values ≡ count) all.now }
    ensures { IfOk result (λ laid. laid.items ≡ laid_by_world all.now part.entry.cells.now
        part.entry.sets.now) }
{
    let _count = count;
    let mut laid = Vec::new(alloc);
    for place in 0..part.sets.len() {
        lay_set(alloc, all, part.cells, part.sets.shown(place), &mut laid)?;
    }
    Ok(laid)
}

// An assignment for each way to choose one set of each part, the first part's slowest: the parts' cells take their values from
// those of the sets, and the others from the assignment that fits.
fn join_parts(
    alloc: Global,
    fitting: &Assignment,
    parts: &[PartSets<'_>],
) -> Result<Vec<Assignment>, AllocError>
    requires { All (IsSized (length fitting.now)) parts.now }
    ensures { IfOk result (λ all. all.items ≡ joined_by fitting.now parts.now) }
{
    let count = fitting.values().len();
    let mut all = Vec::new(alloc);
    all.push(Assignment::new(Vec::from_slice(alloc, fitting.values())?))?;
    let mut left = parts.len();
    while left > 0 {
        left -= 1;
        all = lay_part(alloc, &all, parts[left], count)?;
    }
    Ok(all)
}

// Whether the assignment has the entry.
fn is_had(values: &Assignment, entry: Entry) -> bool
    ensures { result ≡ is_had values.now entry }
{
    match values.values().get(usize::from(entry.cell.0)) {
        None => false,
        Some(value) => value.0 == entry.value.0,
    }
}

/// The entries that the assignment has, oldest first.
pub fn had_by(
    alloc: Global,
    entries: &[Entry],
    values: &Assignment,
) -> Result<Vec<Entry>, AllocError>
    ensures { IfOk result (λ had. had.items ≡ had_by entries.now values.now) }
{
    entries
        .iter()
        .copied()
        .filter(|entry| is_had(values, *entry))
        .collect(alloc)
}

// Each assignment with the entries that it has.
fn worlds_of(alloc: Global, entries: &[Entry], all: &[Assignment]) -> Result<Worlds, AllocError>
    ensures { IfOk result (λ worlds. worlds ≡ map (world_had entries.now) all.now) }
{
    let mut worlds = Worlds::new(alloc);
    for values in all {
        let had = had_by(alloc, entries, values)?;
        worlds.push(&had, values)?;
    }
    Ok(worlds)
}

// The same worlds in the order of their sets.
fn ordered(alloc: Global, entries: &[Entry], worlds: &Worlds) -> Result<Worlds, AllocError>
    requires different { AreDifferent entries.now }
    requires sublists { All (λ w. IsSublist entries.now w.entries) worlds.now }
    requires apart { AreApart worlds.now }
    ensures worlds { IfOk result (λ sorted. IsPermutation worlds.now sorted) }
    ensures order { IfOk result (λ sorted. AllPairs (ComesFirst entries.now) (map set_of sorted)) }
{
    let aged_sets = in_order(alloc, entries, worlds)?;
    let mut sorted = Worlds::new(alloc);
    for aged in aged_sets.iter() {
        sorted.push(aged.entries, aged.shown)?;
    }
    Ok(sorted)
}

/// The maximal sets of the whole book, each with an assignment that fits and has it: the unions of one set of each part. Of
/// two sets the one that has the oldest entry on which they differ comes first. `None` where there are more than 64; then
/// nothing is made. An error is want of memory.
pub fn whole<C: Choices>(alloc: Global, view: &C) -> Result<Option<Worlds>, AllocError>
    ensures { IfOk result (AreWhole (C.sheet view.now)) }
{
    let book = view.book();
    let fitting = view.fitting();
    well_formed(book);
    let parts = sets_by_part(alloc, view)?;
    if count_choices(&parts) > MOST_SETS {
        return Ok(None);
    }
    let all = join_parts(alloc, fitting, &parts)?;
    let worlds = worlds_of(alloc, book.entries(), &all)?;
    Ok(Some(ordered(alloc, book.entries(), &worlds)?))
}
