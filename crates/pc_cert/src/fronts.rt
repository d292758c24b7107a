// The fronts of keys: the numbers before the last one.

ghost use Rattle.std.specs.Prelude.{◌≡◌, [], IfOk, OnErr};
ghost use Rattle.pc_cert.specs.Keys.{IsNumberedAs};
ghost use Rattle.pc_cert.specs.Links.{AreDifferent};

use indexmap::IndexSet;
use std::alloc::{AllocError, Global};
use std::marker::Model;

/// Fronts in the order in which they came, each once, found by hashing.
#[derive(Drop)]
pub struct Fronts {
    keys: IndexSet<Vec<u32>>,
}

impl Model for Fronts {
    ghost use Rattle.std.specs.Prelude.{ℕ, List, map};
    ghost use Rattle.pc_cert.specs.Links.{front_of, AreDifferent};

    ghost Value = { List (List ℕ) };

    ghost view = { λ f. map front_of f.keys.keys };

    ghost invariant = { λ f. AreDifferent (map front_of f.keys.keys) };
}

impl Fronts {
    pub fn new(alloc: Global) -> Self
        ensures { result ≡ [] }
    {
        Fronts {
            keys: IndexSet::new(alloc),
        }
    }

    /// Recalls that the fronts are all different.
    pub fn recall_different(&self)
        ensures { AreDifferent self.now }
    {
        let _ = self.keys.len();
    }

    /// The place of the front, which comes behind all others if it is new.
    pub fn place(&mut self, alloc: Global, front: &[u32]) -> Result<u32, AllocError>
        ensures ok { IfOk result (IsNumberedAs self.old self.new front.now) }
        ensures err { OnErr result (self.new ≡ self.old) }
    {
        if self.keys.len() >= u32::MAX as usize {
            return Err(AllocError);
        }
        let front = Vec::from_slice(alloc, front)?;
        let (place, _) = self.keys.insert_full(front)?;
        Ok(place as u32)
    }
}
