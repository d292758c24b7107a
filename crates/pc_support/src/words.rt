//! Sets of places in a list, of which 64 stand in a word.
//!
//! Sets are compared far more often than they are made: so a comparison goes over words. A set is seen as the list of its
//! truth values, by place.

ghost use Rattle.std.specs.Prelude.{◌≡◌, ◌≢◌, ◌↔◌, ◌==◌, ◌<◌, ◌≤◌, ◌*◌, ◌/◌, ◌++◌, ◌∷◌, [], ℕ, true, IsTrue, IfOk, OnOk, length, set, slice_get, slice_index_or, Some};
ghost use Rattle.std.specs.Int.{bit_at};
ghost use Rattle.pc_support.specs.Seen.{HasPlace};
ghost use Rattle.pc_support.specs.inside.Places.{HasBoth, IsWithinFrom};
ghost use Rattle.pc_support.specs.inside.Words.{bit};

use std::alloc::{AllocError, Global};
use std::marker::Model;

/// A set of places in a list, with no place past its end.
#[derive(Drop)]
pub(crate) struct Words {
    len: usize,
    words: Vec<u64>,
}

impl Model for Words {
    ghost use Rattle.std.specs.Prelude.{List, Bool};
    ghost use Rattle.pc_support.specs.inside.Words.{flags, AreWords};

    ghost Value = { List Bool };

    ghost view = { λ w. flags w.len w.words.items };

    ghost invariant = { λ w. AreWords w.len w.words.items };
}

// The word at this place, or no bits past the end.
fn word_at(words: &[u64], at: usize) -> u64
    ensures { result ≡ slice_index_or words.now at 0 }
{
    if at < words.len() { words[at] } else { 0 }
}

fn has_bit(words: &[u64], place: usize) -> bool
    ensures { result ≡ bit words.now place }
{
    (word_at(words, place / 64) >> (place % 64)) & 1 == 1
}

// The word with this bit set or cleared.
fn with_bit(word: u64, at: usize, has: bool) -> u64
    requires { at < 64 }
    ensures same { (bit_at result at == 1) ≡ has }
    ensures others { (i : ℕ) → i < 64 → i ≢ at → bit_at result i ≡ bit_at word i }
{
    let mask = 1 << at;
    if has { word | mask } else { word & !mask }
}

// Sets or clears a place's bit.
fn put_bit(words: &mut Vec<u64>, place: usize, has: bool)
    requires { place / 64 < length words.old.items }
    ensures len { length words.new.items ≡ length words.old.items }
    ensures same { bit words.new.items place ≡ has }
    ensures others { (other : ℕ) → other ≢ place →
        bit words.new.items other ≡ bit words.old.items other }
{
    let at = place / 64;
    let word = word_at(words, at);
    words[at] = with_bit(word, place % 64, has);
}

// Whether the second word has each bit of the first from this one on.
fn covers(part: u64, word: u64, first: usize) -> bool
    requires { first < 64 }
    ensures { IsTrue result ↔ ((i : ℕ) → first ≤ i → i < 64 → bit_at part i ≡ 1 →
        bit_at word i ≡ 1) }
{
    (part & !word) >> first == 0
}

// Whether the second set has each place of the first from this one on.
fn are_within(part: &[u64], words: &[u64], from: usize) -> bool
    ensures { IsTrue result ↔ ((place : ℕ) → from ≤ place → bit part.now place ≡ true →
        bit words.now place ≡ true) }
{
    let start = from / 64;
    if !covers(word_at(part, start), word_at(words, start), from % 64) {
        return false;
    }
    for at in start + 1..part.len() {
        if !covers(word_at(part, at), word_at(words, at), 0) {
            return false;
        }
    }
    true
}

// The bits that are in both.
fn meet(alloc: Global, some: &[u64], others: &[u64]) -> Result<Vec<u64>, AllocError>
    ensures len { IfOk result (λ words. length words.items ≡ length some.now) }
    ensures both { IfOk result (λ words. (place : ℕ) → (bit words.items place ≡ true) ↔
        (bit some.now place ≡ true) × (bit others.now place ≡ true)) }
{
    let mut words = Vec::with_capacity(alloc, some.len())?;
    for at in 0..some.len() {
        words.push(some[at] & word_at(others, at))?;
    }
    Ok(words)
}

// Makes room for a place's bit.
fn make_room(words: &mut Vec<u64>, place: usize) -> Result<(), AllocError>
    requires { place ≤ 64 * length words.old.items }
    ensures room { OnOk result (place / 64 < length words.new.items) }
    ensures stays { length words.old.items ≤ length words.new.items }
    ensures same { (other : ℕ) → bit words.new.items other ≡ bit words.old.items other }
{
    if place / 64 == words.len() {
        words.push(0)?;
    }
    Ok(())
}

impl Words {
    /// The empty list. It takes no memory.
    pub(crate) fn new(alloc: Global) -> Words
        ensures { result ≡ [] }
    {
        Words {
            len: 0,
            words: Vec::new(alloc),
        }
    }

    /// All places of a list of this length.
    pub(crate) fn all(alloc: Global, len: usize) -> Result<Words, AllocError>
        ensures len { IfOk result (λ words. length words ≡ len) }
        ensures each { IfOk result (λ words. (place : ℕ) → place < len → HasPlace words place) }
    {
        let mut words = Words::new(alloc);
        for _place in 0..len {
            words.push(true)?;
        }
        Ok(words)
    }

    /// Adds a truth value as the last one.
    pub(crate) fn push(&mut self, has: bool) -> Result<(), AllocError>
        ensures { OnOk result (self.new ≡ self.old ++ has ∷ []) }
    {
        let place = self.len;
        if place == usize::MAX {
            return Err(AllocError);
        }
        make_room(&mut self.words, place)?;
        put_bit(&mut self.words, place, has);
        self.len = place + 1;
        Ok(())
    }

    /// Sets the truth value at a place.
    pub(crate) fn put(&mut self, place: usize, has: bool)
        requires { place < length self.old }
        ensures { self.new ≡ set self.old place has }
    {
        put_bit(&mut self.words, place, has);
    }

    /// The same set.
    pub(crate) fn copy(&self, alloc: Global) -> Result<Words, AllocError>
        ensures { IfOk result (λ words. words ≡ self.now) }
    {
        Ok(Words {
            len: self.len,
            words: Vec::from_slice(alloc, &self.words)?,
        })
    }

    /// How many truth values there are.
    pub(crate) fn len(&self) -> usize
        ensures { result ≡ length self.now }
    {
        self.len
    }

    /// Whether the set has this place. It has none past its end.
    pub(crate) fn has(&self, place: usize) -> bool
        ensures { IsTrue result ↔ HasPlace self.now place }
    {
        has_bit(&self.words, place)
    }

    /// Whether the other set has each place of this one from `from` on.
    pub(crate) fn is_within(&self, other: &Words, from: usize) -> bool
        ensures { IsTrue result ↔ IsWithinFrom from self.now other.now }
    {
        are_within(&self.words, &other.words, from)
    }

    /// The places that are in both sets.
    pub(crate) fn both(&self, alloc: Global, other: &Words) -> Result<Words, AllocError>
        ensures { IfOk result (λ common. (place : ℕ) → HasPlace common place ↔
            HasBoth self.now other.now place) }
    {
        let words = meet(alloc, &self.words, &other.words)?;
        Ok(Words {
            len: self.len,
            words,
        })
    }
}

/// A list of sets.
#[derive(Drop)]
pub(crate) struct Sets {
    sets: Vec<Words>,
}

impl Model for Sets {
    ghost use Rattle.std.specs.Prelude.{List, Bool};

    ghost Value = { List (List Bool) };

    ghost view = { λ s. s.sets.items };
}

impl Sets {
    /// The empty list. It takes no memory.
    pub(crate) fn new(alloc: Global) -> Sets
        ensures { result ≡ [] }
    {
        Sets {
            sets: Vec::new(alloc),
        }
    }

    /// How many sets there are.
    pub(crate) fn len(&self) -> usize
        ensures { result ≡ length self.now }
    {
        self.sets.len()
    }

    /// Adds a set as the last one.
    pub(crate) fn push(&mut self, set: Words) -> Result<(), AllocError>
        ensures { OnOk result (self.new ≡ self.old ++ set ∷ []) }
    {
        self.sets.push(set)?;
        Ok(())
    }

    /// The set at this place.
    pub(crate) fn get(&self, index: usize) -> &Words
        requires { index < length self.now }
        ensures { slice_get self.now index ≡ Some result.now }
    {
        &self.sets[index]
    }
}
