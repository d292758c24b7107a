// Keys by their fronts, with their numbers.

ghost use Rattle.std.specs.Prelude.{◌≡◌, ◌≤◌, [], ℕ, List, map, length, IfOk, OnErr};
ghost use Rattle.pc_accept.specs.Axioms.{each_below};
ghost use Rattle.pc_cert.specs.Keys.{IsNumberedAs, AreNumberedAs};
ghost use Rattle.pc_cert.specs.Links.{AreDifferent, link_of};

use indexmap::IndexSet;
use std::alloc::{AllocError, Global};
use std::marker::Model;

/// Pairs of a front's place and the number behind it, in the order in which they were numbered, from 0, each once.
#[derive(Drop)]
pub struct Links {
    keys: IndexSet<(u32, u32)>,
}

impl Model for Links {
    ghost use Rattle.std.specs.Prelude.{List, map};
    ghost use Rattle.pc_cert.specs.Links.{Link, link_of, AreDifferent};

    ghost Value = { List Link };

    ghost view = { λ l. map link_of l.keys.keys };

    ghost invariant = { λ l. AreDifferent (map link_of l.keys.keys) };
}

impl Links {
    pub fn new(alloc: Global) -> Self
        ensures { result ≡ [] }
    {
        Links {
            keys: IndexSet::new(alloc),
        }
    }

    /// How many there are.
    pub fn len(&self) -> u32
        ensures count { result ≡ length self.now }
        ensures different { AreDifferent self.now }
    {
        self.keys.len() as u32
    }

    /// The number of the pair, which gets the next one if it has none.
    pub fn number(&mut self, front: u32, last: u32) -> Result<u32, AllocError>
        ensures ok { IfOk result (IsNumberedAs self.old self.new (record {
          front = front;
          last = last;
        })) }
        ensures err { OnErr result (self.new ≡ self.old) }
    {
        if self.keys.len() >= u32::MAX as usize {
            return Err(AllocError);
        }
        let (place, _) = self.keys.insert_full((front, last))?;
        Ok(place as u32)
    }
}

/// The numbers of a front with each number below a bound behind it, one after the other.
pub fn number_below(
    alloc: Global,
    links: &mut Links,
    front: u32,
    count: u32,
) -> Result<Vec<u32>, AllocError>
    ensures ok { IfOk result (λ v. AreNumberedAs links.old links.new
        (each_below count (λ k. record { front = front; last = k })) v.items) }
    ensures err { OnErr result ((j : ℕ) × (ns : List ℕ) × (j ≤ count) ×
        AreNumberedAs links.old links.new
        (each_below j (λ k. record { front = front; last = k })) ns) }
{
    let mut numbers = Vec::new(alloc);
    for last in 0..count {
        let number = links.number(front, last)?;
        numbers.push(number)?;
    }
    Ok(numbers)
}
