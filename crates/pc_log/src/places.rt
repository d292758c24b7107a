//! Rising places of a list: themselves one after another, or a bit for each place of the list, whichever takes less.

ghost use Rattle.std.specs.Prelude.{◌≡◌, ◌⊎◌, ◌<◌, ◌≤◌, ◌^◌, ℕ, Contains, IfOk, length, slice_index_or};
ghost use Rattle.std.specs.List.Sorted.{IsStrictlyIncreasing};
ghost use Rattle.pc_log.specs.Sparse.{index_of};
ghost use Rattle.pc_log.specs.inside.Forms.{formed};

use crate::bit_set::{BitSet, word_count};
use std::alloc::{AllocError, Global};
use std::marker::Model;

#[derive(Drop)]
enum Form {
    Few(Vec<u32>),
    Bits(BitSet),
}

/// Rising places.
#[derive(Drop)]
pub struct Places {
    form: Form,
}

impl Model for Places {
    ghost use Rattle.std.specs.Prelude.{List, ℕ};
    ghost use Rattle.std.specs.List.Sorted.{IsStrictlyIncreasing};
    ghost use Rattle.pc_log.specs.inside.Forms.{formed};

    ghost Value = { List ℕ };

    ghost view = { λ p. formed p.form };

    ghost invariant = { λ p. IsStrictlyIncreasing (formed p.form) };
}

impl Places {
    /// These places.
    pub fn of(alloc: Global, places: &[u32]) -> Result<Places, AllocError>
        requires { IsStrictlyIncreasing places.now }
        ensures { IfOk result (λ set. set ≡ places.now) }
    {
        let form = form_of(alloc, places)?;
        Ok(Places { form })
    }

    /// How many there are.
    pub fn len(&self) -> usize
        ensures { result ≡ length self.now }
    {
        match &self.form {
            Form::Few(list) => list.len(),
            Form::Bits(set) => set.len(),
        }
    }

    /// How many stand before this one.
    pub fn before(&self, place: usize) -> usize
        requires { Contains self.now place }
        ensures number { result ≡ index_of place self.now }
        ensures within { result < length self.now }
    {
        match &self.form {
            Form::Few(list) => number_in(list, place),
            Form::Bits(set) => set.before(place),
        }
    }

    /// The one of this number, counted from 0. It is the first one that isn't before `from`.
    pub fn next(&self, index: usize, from: usize) -> usize
        requires within { index < length self.now }
        requires later { from ≤ slice_index_or self.now index 0 }
        requires earlier { (i : ℕ) → i < index → slice_index_or self.now i 0 < from }
        ensures value { result ≡ slice_index_or self.now index 0 }
        ensures small { result < 2 ^ 32 }
    {
        match &self.form {
            Form::Few(list) => place_at(list, index),
            Form::Bits(set) => set.next(index, from),
        }
    }

    /// All of them, one after another.
    pub fn list(&self, alloc: Global) -> Result<Vec<u32>, AllocError>
        ensures { IfOk result (λ list. list.items ≡ self.now) }
    {
        match &self.form {
            Form::Few(list) => Vec::from_slice(alloc, list),
            Form::Bits(set) => set.list(alloc),
        }
    }
}

// The form that takes less: four bytes for each place, or twelve for each word.
fn form_of(alloc: Global, places: &[u32]) -> Result<Form, AllocError>
    requires { IsStrictlyIncreasing places.now }
    ensures { IfOk result (λ form. formed form ≡ places.now) }
{
    if places.len() <= 3 * word_count(places) {
        Ok(Form::Few(Vec::from_slice(alloc, places)?))
    } else {
        Ok(Form::Bits(BitSet::of(alloc, places)?))
    }
}

fn place_at(list: &[u32], index: usize) -> usize
    requires { index < length list.now }
    ensures value { result ≡ slice_index_or list.now index 0 }
    ensures small { result < 2 ^ 32 }
{
    list[index] as usize
}

// How many of these stand before this one, by halving.
fn number_in(list: &[u32], place: usize) -> usize
    requires rise { IsStrictlyIncreasing list.now }
    requires among { Contains list.now place }
    ensures number { result ≡ index_of place list.now }
    ensures within { result < length list.now }
{
    let mut base = 0;
    let mut size = list.len();
    while size > 1 {
        let half = size / 2;
        base = last_from(list, place, base, base + half);
        size -= half;
    }
    base
}

// The later one of two numbers, if the place of this number isn't behind this one, and else the earlier.
fn last_from(list: &[u32], place: usize, base: usize, middle: usize) -> usize
    requires { middle < length list.now }
    ensures { ((result ≡ middle) × (slice_index_or list.now middle 0 ≤ place)) ⊎
        ((result ≡ base) × (place < slice_index_or list.now middle 0)) }
{
    if place_at(list, middle) <= place {
        middle
    } else {
        base
    }
}
