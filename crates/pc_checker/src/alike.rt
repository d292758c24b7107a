//! Sets that are seen to be apart without being compared in pairs: of two sets that have as many entries, one lies within the other
//! only where both have the same ones, and the same ones are found by hashing.

ghost use Rattle.std.specs.Prelude.{◌≡◌, ℕ, Contains, IfOk, IsTrue, ◌∷◌, length, map};
ghost use Rattle.std.specs.List.Sorted.{IsStrictlyIncreasing};
ghost use Rattle.pc_cert.specs.Keys.{IsKey, IsNumberedAs, symbol_by};
ghost use Rattle.pc_cert.specs.Views.{AreSymbolsDistinct};
ghost use Rattle.pc_checker.specs.Entered.{pair_place};
ghost use Rattle.pc_checker.specs.Made.{AreFirstApart};
ghost use Rattle.pc_checker.specs.inside.Alike.{AreSetPlaces, IsSetKey, place_said};

use crate::entered::place_of;
use pc_cert::{Numbering, Said, SaidSet};
use pc_sheet::Entry;
use std::alloc::{AllocError, Global};

// The place of the entry, as a key has it.
fn number_of(entry: Entry) -> u32
    ensures { result ≡ pair_place entry }
{
    place_of(entry) as u32
}

// The places of the used entries.
fn places_of(alloc: Global, uses: &[Said]) -> Result<Vec<u32>, AllocError>
    ensures { IfOk result (λ places. places.items ≡ map place_said uses.now) }
{
    let mut places = Vec::new(alloc);
    for said in uses {
        places.push(number_of(said.entry))?;
    }
    Ok(places)
}

// Puts the numbers in order, and leaves each once.
fn sort_unique(numbers: &mut Vec<u32>)
    ensures rise { IsStrictlyIncreasing numbers.new.items }
    ensures keeps { (x : ℕ) → Contains numbers.old.items x → Contains numbers.new.items x }
    ensures adds_none { (x : ℕ) → Contains numbers.new.items x → Contains numbers.old.items x }
{
    numbers.sort_unstable();
    numbers.dedup();
}

// The places of the used entries in order, each once.
fn sorted_places(alloc: Global, uses: &[Said]) -> Result<Vec<u32>, AllocError>
    ensures { IfOk result (λ places. AreSetPlaces uses.now places.items) }
{
    let mut places = places_of(alloc, uses)?;
    sort_unique(&mut places);
    Ok(places)
}

// The key of a node of rule 0 with this path.
fn node_key(alloc: Global, path: &[u32]) -> Result<Vec<u32>, AllocError>
    ensures { IfOk result (λ key. key.items ≡ 1 ∷ 0 ∷ path.now) }
{
    let mut key = vec![in alloc; 1, 0]?;
    key.extend_from_slice(path)?;
    Ok(key)
}

// The key of the set of these entries.
fn key_of(alloc: Global, uses: &[Said]) -> Result<Vec<u32>, AllocError>
    ensures { IfOk result (λ key. IsSetKey uses.now key.items) }
{
    let places = sorted_places(alloc, uses)?;
    let key = node_key(alloc, &places)?;
    Ok(key)
}

// Numbers the key, if it is that long, and answers whether it has the number of that place then.
fn joins(
    alloc: Global,
    key: &[u32],
    size: usize,
    place: usize,
    names: &mut Numbering,
) -> Result<bool, AllocError>
    requires { IsKey key.now }
    ensures { IfOk result (λ joined. IsTrue joined → (length key.now ≡ size) ×
        IsNumberedAs names.old names.new (symbol_by key.now) place × AreSymbolsDistinct names.new) }
{
    if key.len() != size {
        return Ok(false);
    }
    let number = names.number(alloc, key)?;
    let _ = names.len();
    Ok(number as usize == place)
}

// How many of the first sets are apart, as long as each has a key of that length, and another one than those before.
fn apart_by_keys(alloc: Global, sets: &[SaidSet], size: usize) -> Result<usize, AllocError>
    ensures { IfOk result (AreFirstApart sets.now) }
{
    let mut names = Numbering::new(alloc);
    for (place, set) in sets.iter().enumerate() {
        let key = key_of(alloc, &set.uses)?;
        if !joins(alloc, &key, size, place, &mut names)? {
            return Ok(place);
        }
    }
    Ok(sets.len())
}

/// How many of the first sets are apart, as far as keys show it: as long as each has as many entries as the first.
pub(crate) fn first_apart(alloc: Global, sets: &[SaidSet]) -> Result<usize, AllocError>
    ensures { IfOk result (AreFirstApart sets.now) }
{
    if sets.is_empty() {
        return Ok(0);
    }
    let first = key_of(alloc, &sets[0].uses)?;
    apart_by_keys(alloc, sets, first.len())
}
