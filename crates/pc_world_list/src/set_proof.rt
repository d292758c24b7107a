//! What a certificate of sets is made of: the maximal sets of a book, and the derivation that there is no other.
ghost use Rattle.std.specs.Prelude.{◌≡◌};

use crate::Worlds;
use pc_axiom_names::Names;
use pc_log::{Log, Span};
use pc_reason::Proof;
use pc_sheet::Target;
use std::marker::Model;

/// What is said of a book's maximal sets.
#[derive(Clone, Copy)]
pub enum SetsClaim {
    /// That the sets are the maximal ones.
    Repairs,
    /// That they are, and that the target, which says that a cell has a value, isn't implied.
    Lacking(Target),
}

/// Sets of entries, each with an assignment that has them, and a derivation of the empty clause from the rules and the
/// clauses of the sets. The clause of a set is that some entry stands that the set hasn't; a line of the derivation has
/// that clause by the set's place. The names of variables and axioms are kept elsewhere, with the rules that they belong to.
/// It is seen as its parts.
#[derive(Drop)]
pub struct SetProof {
    claim: SetsClaim,
    sets: Worlds,
    log: Log,
    span: Span,
}

impl Model for SetProof {
    ghost use Rattle.pc_world_list.specs.SetCertificates.{SetParts};

    ghost Value = { SetParts };

    ghost view = { λ p. record { claim = p.claim; worlds = p.sets; lines = p.log; span = p.span } };
}

impl SetProof {
    /// Keeps sets with the span of the log that derives the empty clause.
    pub fn new(claim: SetsClaim, sets: Worlds, log: Log, span: Span) -> SetProof
        ensures { result ≡ record { claim = claim; worlds = sets; lines = log; span = span } }
    {
        SetProof {
            claim,
            sets,
            log,
            span,
        }
    }

    /// What is said of the sets.
    pub fn claim(&self) -> SetsClaim
        ensures { result ≡ self.now.claim }
    {
        self.claim
    }

    /// The sets, in the order in which blocks count them.
    pub fn sets(&self) -> &Worlds
        ensures { result.now ≡ self.now.worlds }
    {
        &self.sets
    }

    /// The derivation, with the names that are lent for it.
    pub fn proof<'a>(&'a self, names: &'a Names) -> Proof<'a>
        ensures names { result.names.now ≡ names.now }
        ensures lines { result.log.now ≡ self.now.lines }
        ensures span { result.span ≡ self.now.span }
    {
        Proof {
            log: &self.log,
            names,
            span: self.span,
        }
    }
}
