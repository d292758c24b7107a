//! Rising places of a list as a set, a bit for each place of the list and 64 in a word.
//!
//! How many places stand before each word is kept too, so that the number of a place is found within one word.

ghost use Rattle.std.specs.Prelude.{◌≡◌, ◌≢◌, ◌↔◌, ◌<◌, ◌≤◌, ◌^◌, ◌*◌, ◌/◌, ◌++◌, ◌∷◌, ◌==◌, [], ℕ, true, cond, Contains, IfOk, OnOk, length, slice_index_or};
ghost use Rattle.std.specs.Int.{bit_at};
ghost use Rattle.std.specs.List.Sorted.{IsStrictlyIncreasing};
ghost use Rattle.pc_log.specs.Sparse.{index_of};
ghost use Rattle.pc_log.specs.inside.Bits.{bit, places_below, places_in, AreRanks};

use std::alloc::{AllocError, Global};
use std::marker::Model;

/// Rising places, a bit for each.
#[derive(Drop)]
pub(crate) struct BitSet {
    words: Vec<u64>,
    // How many places stand before each word, and before the end.
    ranks: Vec<u32>,
}

impl Model for BitSet {
    ghost use Rattle.std.specs.Prelude.{List, ℕ};
    ghost use Rattle.pc_log.specs.inside.Bits.{places_in, AreRanked};

    ghost Value = { List ℕ };

    ghost view = { λ p. places_in p.words.items };

    ghost invariant = { λ p. AreRanked p.words.items p.ranks.items };
}

impl BitSet {
    /// These places.
    pub(crate) fn of(alloc: Global, places: &[u32]) -> Result<BitSet, AllocError>
        requires { IsStrictlyIncreasing places.now }
        ensures { IfOk result (λ set. set ≡ places.now) }
    {
        let words = words_of(alloc, places)?;
        let ranks = ranks_of(alloc, &words)?;
        Ok(BitSet { words, ranks })
    }

    /// How many there are.
    pub(crate) fn len(&self) -> usize
        ensures { result ≡ length self.now }
    {
        self.ranks[self.words.len()] as usize
    }

    /// How many stand before this one.
    pub(crate) fn before(&self, place: usize) -> usize
        requires { Contains self.now place }
        ensures number { result ≡ index_of place self.now }
        ensures within { result < length self.now }
    {
        let at = place / 64;
        count_to(&self.words, 64 * at, self.ranks[at] as usize, place)
    }

    /// The one of this number, counted from 0. It is the first one that isn't before `from`.
    pub(crate) fn next(&self, index: usize, from: usize) -> usize
        requires within { index < length self.now }
        requires later { from ≤ slice_index_or self.now index 0 }
        requires earlier { (i : ℕ) → i < index → slice_index_or self.now i 0 < from }
        ensures value { result ≡ slice_index_or self.now index 0 }
        ensures small { result < 2 ^ 32 }
    {
        next_bit(&self.words, from)
    }

    /// All of them, one after another.
    pub(crate) fn list(&self, alloc: Global) -> Result<Vec<u32>, AllocError>
        ensures { IfOk result (λ list. list.items ≡ self.now) }
    {
        list_of(alloc, &self.words)
    }
}

fn has_bit(words: &[u64], place: usize) -> bool
    ensures { result ≡ bit words.now place }
{
    (word_at(words, place / 64) >> (place % 64)) & 1 == 1
}

// The word at this place, or no bits past the end.
fn word_at(words: &[u64], at: usize) -> u64
    ensures { result ≡ slice_index_or words.now at 0 }
{
    if at < words.len() { words[at] } else { 0 }
}

// The word with this bit set.
fn with_bit(word: u64, at: usize) -> u64
    requires { at < 64 }
    ensures same { bit_at result at ≡ 1 }
    ensures others { (i : ℕ) → i ≢ at → bit_at result i ≡ bit_at word i }
{
    word | 1 << at
}

// Sets a place's bit.
fn set_bit(words: &mut Vec<u64>, place: usize)
    requires { place / 64 < length words.old.items }
    ensures len { length words.new.items ≡ length words.old.items }
    ensures same { bit words.new.items place ≡ true }
    ensures others { (other : ℕ) → other ≢ place →
        bit words.new.items other ≡ bit words.old.items other }
{
    let at = place / 64;
    let word = word_at(words, at);
    words[at] = with_bit(word, place % 64);
}

// Sees to so many words.
fn make_room(words: &mut Vec<u64>, count: usize) -> Result<(), AllocError>
    requires few { length words.old.items ≤ 2 ^ 26 }
    requires count { count ≤ 2 ^ 26 }
    ensures room { OnOk result (count ≤ length words.new.items) }
    ensures few { OnOk result (length words.new.items ≤ 2 ^ 26) }
    ensures same { OnOk result ((place : ℕ) →
        bit words.new.items place ≡ bit words.old.items place) }
{
    if words.len() < count {
        words.resize(count, 0)?;
    }
    Ok(())
}

// Adds a place.
fn add_place(words: &mut Vec<u64>, place: u32) -> Result<(), AllocError>
    requires { length words.old.items ≤ 2 ^ 26 }
    ensures few { OnOk result (length words.new.items ≤ 2 ^ 26) }
    ensures same { OnOk result (bit words.new.items place ≡ true) }
    ensures others { OnOk result ((other : ℕ) → other ≢ place →
        bit words.new.items other ≡ bit words.old.items other) }
{
    let place = place as usize;
    make_room(words, place / 64 + 1)?;
    set_bit(words, place);
    Ok(())
}

/// How many words rising places take.
pub(crate) fn word_count(places: &[u32]) -> usize
    ensures { result ≤ 2 ^ 26 }
{
    match places.last() {
        None => 0,
        Some(last) => *last as usize / 64 + 1,
    }
}

// The words in which these places have bits, and no others.
fn words_of(alloc: Global, places: &[u32]) -> Result<Vec<u64>, AllocError>
    ensures few { IfOk result (λ words. length words.items ≤ 2 ^ 26) }
    ensures has { IfOk result (λ words. (p : ℕ) → (bit words.items p ≡ true) ↔
        Contains places.now p) }
{
    let mut words = Vec::with_capacity(alloc, word_count(places))?;
    for place in places {
        add_place(&mut words, *place)?;
    }
    Ok(words)
}

// How many places stand before `to`, where so many stand before `from`.
fn count_to(words: &[u64], from: usize, count: usize, to: usize) -> usize
    requires count { count ≡ length (places_below words.now from) }
    requires order { from ≤ to }
    requires few { to < 2 ^ 60 }
    ensures { result ≡ length (places_below words.now to) }
{
    let mut count = count;
    for place in from..to {
        count += bits_at(words, place);
    }
    count
}

fn bits_at(words: &[u64], place: usize) -> usize
    ensures value { result ≡ cond (bit words.now place) 1 0 }
    ensures small { result ≤ 1 }
{
    if has_bit(words, place) { 1 } else { 0 }
}

fn ranks_of(alloc: Global, words: &[u64]) -> Result<Vec<u32>, AllocError>
    requires { length words.now ≤ 2 ^ 26 }
    ensures { IfOk result (λ ranks. AreRanks words.now ranks.items (length words.now)) }
{
    let mut ranks = Vec::with_capacity(alloc, words.len() + 1)?;
    ranks.push(0)?;
    let mut count = 0;
    for at in 0..words.len() {
        count = count_to(words, 64 * at, count, 64 * at + 64);
        ranks.push(small_of(count)?)?;
    }
    Ok(ranks)
}

// The first place from `from` on that has a bit.
fn next_bit(words: &[u64], from: usize) -> usize
    requires few { length words.now ≤ 2 ^ 26 }
    requires some { (place : ℕ) × (from ≤ place) × (bit words.now place ≡ true) }
    ensures has { bit words.now result ≡ true }
    ensures from { from ≤ result }
    ensures first { (place : ℕ) → from ≤ place → bit words.now place ≡ true → result ≤ place }
{
    for place in from..64 * words.len() {
        if has_bit(words, place) {
            return place;
        }
    }
    from
}

fn list_of(alloc: Global, words: &[u64]) -> Result<Vec<u32>, AllocError>
    requires { length words.now ≤ 2 ^ 26 }
    ensures { IfOk result (λ list. list.items ≡ places_in words.now) }
{
    let mut list = Vec::new(alloc);
    for place in 0..64 * words.len() {
        push_if(has_bit(words, place), place, &mut list)?;
    }
    Ok(list)
}

// Adds a place as the last one, if it is in the set.
fn push_if(has: bool, place: usize, list: &mut Vec<u32>) -> Result<(), AllocError>
    ensures { OnOk result (list.new.items ≡ list.old.items ++ cond has (place ∷ []) []) }
{
    if has {
        list.push(small_of(place)?)?;
    }
    Ok(())
}

// The same number in fewer bytes. There is none from 2^32 on, and the answer is want of memory.
pub(crate) fn small_of(number: usize) -> Result<u32, AllocError>
    ensures { IfOk result (λ small. small ≡ number) }
{
    match u32::try_from(number) {
        Ok(small) => Ok(small),
        Err(_) => Err(AllocError),
    }
}
