//! The literals of clauses, in one block, in an order that may change.

ghost use Rattle.std.specs.Prelude.{◌≡◌, ◌+◌, ◌<◌, ◌≤◌, [], ◌∷◌, ◌++◌, length, slice_set, slice_get, slice_index, slice_index_or, swap, OnOk, OnErr, Some};
ghost use Rattle.pc_lits.specs.Rows.{AreEnds};
ghost use Rattle.pc_propagate.specs.Bodies.{body_in};

use pc_lits::Lit;
use std::alloc::{AllocError, Global};
use std::marker::Model;

// How many literals there are at most: where a clause ends fits into half a word.
const MOST: usize = u32::MAX as usize;

/// Clauses whose literals may be exchanged.
#[derive(Drop)]
pub struct Bodies {
    literals: Vec<Lit>,
    // Where each clause ends among the literals, in half a word, since they are read at random.
    ends: Vec<u32>,
}

impl Model for Bodies {
    ghost use Rattle.std.specs.Prelude.{List, length};
    ghost use Rattle.pc_lits.specs.declared.literal.Lit.{Lit};
    ghost use Rattle.pc_lits.specs.Rows.{rows_from, AreEnds};

    ghost Value = { List (List Lit) };

    ghost view = { λ b. rows_from b.literals.items 0 b.ends.items };

    ghost invariant = { λ b. AreEnds (length b.literals.items) 0 b.ends.items };
}

impl Bodies {
    /// No clauses. It takes no memory.
    pub fn new(alloc: Global) -> Bodies
        ensures { result ≡ [] }
    {
        Bodies {
            literals: Vec::new(alloc),
            ends: Vec::new(alloc),
        }
    }

    /// How many clauses there are.
    pub fn len(&self) -> usize
        ensures { result ≡ length self.now }
    {
        self.ends.len()
    }

    /// Adds a clause as the last one. Without memory they stay as they are.
    pub fn push(&mut self, clause: &[Lit]) -> Result<(), AllocError>
        ensures ok { OnOk result (self.new ≡ self.old ++ clause.now ∷ []) }
        ensures err { OnErr result (self.new ≡ self.old) }
    {
        let more = clause.len();
        if more > MOST {
            return Err(AllocError);
        }
        if self.literals.len() > MOST - more {
            return Err(AllocError);
        }
        self.ends.reserve(1)?;
        self.literals.extend_from_slice(clause)?;
        let end = self.literals.len() as u32;
        self.ends.push(end)?;
        Ok(())
    }

    /// The clause of this number, as it stands.
    pub fn get(&self, number: usize) -> &[Lit]
        requires { number < length self.now }
        ensures { result.now ≡ body_in self.now number }
    {
        let literals = self.literals.as_slice();
        let (start, end) = span(&self.ends, number, literals.len());
        &literals[start..end]
    }

    /// The clause's literal at this place.
    pub fn at(&self, number: usize, place: usize) -> Lit
        requires number { number < length self.now }
        requires place { place < length (body_in self.now number) }
        ensures { slice_get (body_in self.now number) place ≡ Some result }
    {
        self.get(number)[place]
    }

    /// Exchanges two literals of the clause.
    pub fn exchange(&mut self, number: usize, first: usize, second: usize)
        requires number { number < length self.old }
        requires first { first < length (body_in self.old number) }
        requires second { second < length (body_in self.old number) }
        ensures { self.new ≡ slice_set self.old number
            (swap (body_in self.old number) first second) }
    {
        let (start, _) = span(&self.ends, number, self.literals.len());
        self.literals.swap(start + first, start + second);
    }

    /// Forgets all clauses. The memory stays for later ones.
    pub fn clear(&mut self)
        ensures { self.new ≡ [] }
    {
        self.literals.clear();
        self.ends.clear();
    }
}

// Where a clause begins and ends among `len` literals.
fn span(ends: &[u32], number: usize, len: usize) -> (usize, usize)
    requires ends { AreEnds len 0 ends.now }
    requires number { number < length ends.now }
    ensures rises { result.0 ≤ result.1 }
    ensures within { result.1 ≤ len }
    ensures start { result.0 ≡ slice_index (0 ∷ ends.now) number }
    ensures end { result.1 ≡ slice_index ends.now number }
{
    (end_of(ends, number), ends[number] as usize)
}

// Where the first `count` clauses end.
fn end_of(ends: &[u32], count: usize) -> usize
    requires { count ≤ length ends.now }
    ensures { result ≡ slice_index (0 ∷ ends.now) count }
{
    if count == 0 {
        0
    } else {
        ends[count - 1] as usize
    }
}
