// Symbols with their numbers.

ghost use Rattle.std.specs.Prelude.{◌≡◌, ◌≤◌, ◌∷◌, ◌++◌, [], ℕ, List, IfOk, OnErr, length};
ghost use Rattle.pc_accept.specs.Axioms.{child_of, each_below};
ghost use Rattle.pc_accept.specs.Literals.{node};
ghost use Rattle.pc_cert.specs.Keys.{IsKey, IsNumberedAs, AreNumberedAs, key_of, symbol_by};
ghost use Rattle.pc_cert.specs.Views.{AreSymbolsDistinct, symbol_of};

use crate::cert::Symbol;
use crate::fronts::Fronts;
use crate::links::{Links, number_below};
use pc_sheet::NodePath;
use std::alloc::{AllocError, Global};
use std::marker::Model;

/// Symbols in the order in which they were numbered, from 0, each once. They are found by hashing: the numbers before the last one
/// of a symbol's key once for all keys that begin with them, as those of a node's children do, and then a pair of numbers.
#[derive(Drop)]
pub struct Numbering {
    fronts: Fronts,
    links: Links,
}

impl Model for Numbering {
    ghost use Rattle.std.specs.Prelude.{All, List, map};
    ghost use Rattle.pc_accept.specs.Literals.{Symbol};
    ghost use Rattle.pc_cert.specs.Links.{symbol_in, IsLinkIn};

    ghost Value = { List Symbol };

    ghost view = { λ n. map (symbol_in n.fronts) n.links };

    ghost invariant = { λ n. All (IsLinkIn n.fronts) n.links };
}

// A key's numbers before the last one, and that.
#[tactic(auto, using(crate::proofs::KeyLemmas::none_is_empty))]
fn parted(key: &[u32]) -> (&[u32], u32)
    requires { IsKey key.now }
    ensures { key.now ≡ result.0.now ++ result.1 ∷ [] }
{
    match key.split_last() {
        Some((last, front)) => (front, *last),
        None => unreachable!(),
    }
}

// The key of a node, with which those of its children begin.
fn node_key(alloc: Global, path: &NodePath) -> Result<Vec<u32>, AllocError>
    ensures { IfOk result (λ key. key.items ≡ key_of (node path.now.rule path.now.steps.items)) }
{
    let mut key = Vec::new(alloc);
    key.push(1)?;
    key.push(path.rule)?;
    key.extend_from_slice(&path.steps)?;
    Ok(key)
}

impl Numbering {
    pub fn new(alloc: Global) -> Self
        ensures { result ≡ [] }
    {
        Numbering {
            fronts: Fronts::new(alloc),
            links: Links::new(alloc),
        }
    }

    /// How many symbols there are.
    pub fn len(&self) -> u32
        ensures count { result ≡ length self.now }
        ensures distinct { AreSymbolsDistinct self.now }
    {
        self.fronts.recall_different();
        self.links.len()
    }

    /// The number of the symbol with this key, which gets the next one if it has none.
    pub fn number(&mut self, alloc: Global, key: &[u32]) -> Result<u32, AllocError>
        requires { IsKey key.now }
        ensures ok { IfOk result (IsNumberedAs self.old self.new (symbol_by key.now)) }
        ensures err { OnErr result (self.new ≡ self.old) }
    {
        let parts = parted(key);
        let place = self.fronts.place(alloc, parts.0)?;
        self.fronts.recall_different();
        let number = self.links.number(place, parts.1)?;
        Ok(number)
    }

    /// The number of the symbol, which gets the next one if it has none.
    pub fn number_symbol(&mut self, alloc: Global, symbol: &Symbol) -> Result<u32, AllocError>
        ensures { IfOk result (IsNumberedAs self.old self.new (symbol_of symbol.now)) }
    {
        match symbol {
            Symbol::Pair(cell, value) => {
                self.number(alloc, &[0, u32::from(cell.0), u32::from(value.0)])
            }
            Symbol::Node(path) => {
                let key = node_key(alloc, path)?;
                self.number(alloc, &key)
            }
        }
    }

    /// The numbers of a node's first children, one after the other: each gets the next one if it has none. Where memory runs out some
    /// of the first have numbers.
    pub fn number_children(
        &mut self,
        alloc: Global,
        parent: &NodePath,
        count: u32,
    ) -> Result<Vec<u32>, AllocError>
        ensures ok { IfOk result (λ v. AreNumberedAs self.old self.new
            (each_below count (child_of parent.now.rule parent.now.steps.items)) v.items) }
        ensures err { OnErr result ((j : ℕ) × (ns : List ℕ) × (j ≤ count) ×
            AreNumberedAs self.old self.new
            (each_below j (child_of parent.now.rule parent.now.steps.items)) ns) }
    {
        let front = node_key(alloc, parent)?;
        let place = self.fronts.place(alloc, &front)?;
        self.fronts.recall_different();
        let numbers = number_below(alloc, &mut self.links, place, count)?;
        Ok(numbers)
    }
}
