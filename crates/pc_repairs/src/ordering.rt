//! The order of sets: of two sets the one that has the oldest entry on which they differ comes first.
//!
//! Sets are compared by the ages of their entries, oldest first: at the first place where these differ the older one is the
//! oldest entry on which the sets differ.
ghost use Rattle.std.specs.Prelude.{◌≡◌, All, AllPairs, IfOk, map, OnOk};
ghost use Rattle.std.specs.List.Sorted.{IsPermutation};
ghost use Rattle.pc_sheet.specs.Entailment.{IsSublist};
ghost use Rattle.pc_sheet.specs.WellFormed.{AreDifferent};
ghost use Rattle.pc_world_list.specs.Worlds.{set_of};
ghost use Rattle.pc_repairs.specs.Listed.{ComesFirst};
ghost use Rattle.pc_repairs.specs.Listings.{aged_set};
ghost use Rattle.pc_repairs.specs.inside.Ages.{ages_from, AreAged, AreApart, AreByAge, begins_with, HasItsSet, world_of};

use pc_books::Assignment;
use pc_sheet::Entry;
use pc_world_list::Worlds;
use std::alloc::{AllocError, Global};

/// A set with an assignment that has it, and the ages of its entries: how many entries are older.
#[derive(Drop)]
pub(crate) struct Aged<'a> {
    pub(crate) ages: Vec<usize>,
    pub(crate) entries: &'a [Entry],
    pub(crate) shown: &'a Assignment,
}

// Whether the set's first entry is that one.
fn begins_with(entry: Entry, set: &[Entry]) -> bool
    ensures { result ≡ begins_with entry set.now }
{
    match set.first() {
        None => false,
        Some(first) => first.cell.0 == entry.cell.0 && first.value.0 == entry.value.0,
    }
}

// The ages of a set's entries.
fn ages_of(alloc: Global, entries: &[Entry], set: &[Entry]) -> Result<Vec<usize>, AllocError>
    ensures { IfOk result (λ ages. ages.items ≡ ages_from 0 entries.now set.now) }
{
    let mut ages = Vec::new(alloc);
    let mut rest = set;
    for (age, entry) in entries.iter().enumerate() {
        if begins_with(*entry, rest) {
            ages.push(age)?;
            rest = &rest[1..];
        }
    }
    Ok(ages)
}

// Each of the sets with its ages.
fn aged_sets<'a>(
    alloc: Global,
    entries: &[Entry],
    worlds: &'a Worlds,
) -> Result<Vec<Aged<'a>>, AllocError>
    ensures { IfOk result (λ aged. AreAged entries.now worlds.now aged.items) }
{
    let mut aged = Vec::new(alloc);
    for i in 0..worlds.len() {
        let set = worlds.entries(i);
        aged.push(Aged {
            ages: ages_of(alloc, entries, set)?,
            entries: set,
            shown: worlds.shown(i),
        })?;
    }
    Ok(aged)
}

// Sorts sets by the ages of their entries.
fn sort_by_age(aged: &mut Vec<Aged<'_>>) -> Result<(), AllocError>
    ensures permutation { IsPermutation aged.old.items aged.new.items }
    ensures sorted { OnOk result (AreByAge aged.new.items) }
{
    aged.sort_by(|a, b| a.ages.cmp(&b.ages))
}

/// The sets in their order.
pub(crate) fn in_order<'a>(
    alloc: Global,
    entries: &[Entry],
    worlds: &'a Worlds,
) -> Result<Vec<Aged<'a>>, AllocError>
    requires different { AreDifferent entries.now }
    requires sublists { All (λ w. IsSublist entries.now w.entries) worlds.now }
    requires apart { AreApart worlds.now }
    ensures worlds { IfOk result (λ aged. IsPermutation worlds.now (map world_of aged.items)) }
    ensures has { IfOk result (λ aged. All HasItsSet aged.items) }
    ensures order { IfOk result (λ aged.
        AllPairs (ComesFirst entries.now) (map aged_set aged.items)) }
{
    let mut aged = aged_sets(alloc, entries, worlds)?;
    sort_by_age(&mut aged)?;
    Ok(aged)
}
