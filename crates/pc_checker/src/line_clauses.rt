//! The clauses of a derivation's lines. Lines that take the same axiom or set share one clause, so that a certificate of many such
//! lines takes no more memory than the sheet and its own text call for.

ghost use Rattle.std.specs.Prelude.{◌≡◌, ◌<◌, ◌∷◌, ◌++◌, [], IfOk, OnOk, Some, length, slice_get, slice_index_or};

use pc_lits::{ClauseStore, Lit};
use std::alloc::{AllocError, Global};
use std::marker::Model;

/// A list of clauses, in which one may stand at many places and is stored once.
#[derive(Drop)]
pub(crate) struct LineClauses {
    stored: ClauseStore,
    places: Vec<usize>,
}

impl Model for LineClauses {
    ghost use Rattle.std.specs.Prelude.{List};
    ghost use Rattle.pc_lits.specs.declared.literal.Lit.{Lit};
    ghost use Rattle.pc_checker.specs.LineClauses.{AreStored, clauses_by};

    ghost Value = { List (List Lit) };

    ghost view = { λ c. clauses_by c.stored c.places.items };

    ghost invariant = { λ c. AreStored c.stored c.places.items };
}

impl LineClauses {
    pub(crate) fn new(alloc: Global) -> Self
        ensures { result ≡ [] }
    {
        LineClauses {
            stored: ClauseStore::new(alloc),
            places: Vec::new(alloc),
        }
    }

    /// Adds a clause as the last one.
    #[tactic(auto, using(crate::proofs::LineClauseLemmas::one_pushed))]
    pub(crate) fn push(&mut self, clause: &[Lit]) -> Result<(), AllocError>
        ensures { OnOk result (self.new ≡ self.old ++ clause.now ∷ []) }
    {
        self.places.reserve(1)?;
        let place = self.stored.push(clause)?;
        self.places.push(place).unwrap();
        Ok(())
    }

    /// Adds the clause at this place once more, as the last one.
    #[tactic(auto, using(crate::proofs::LineClauseLemmas::one_repeated))]
    pub(crate) fn repeat(&mut self, i: usize) -> Result<(), AllocError>
        requires { i < length self.old }
        ensures { OnOk result (self.new ≡ self.old ++ slice_index_or self.old i [] ∷ []) }
    {
        let place = self.places[i];
        self.places.push(place)?;
        Ok(())
    }

    #[tactic(auto, using(crate::proofs::LineClauseLemmas::clause_got))]
    pub(crate) fn get(&self, i: usize) -> &[Lit]
        requires { i < length self.now }
        ensures { slice_get self.now i ≡ Some result.now }
    {
        self.stored.get(self.places[i])
    }

    pub(crate) fn len(&self) -> usize
        ensures { result ≡ length self.now }
    {
        self.places.len()
    }
}
