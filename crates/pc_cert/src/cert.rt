ghost use Rattle.std.specs.Prelude.{◌≡◌};

use pc_axiom_names::AxiomName;
use pc_lits::Lit;
use pc_sheet::{CellId, Entry, NodePath, Target, ValueId};
use std::alloc::AllocError;
use thiserror::Error;

/// What a certificate claims.
#[derive(Clone, Copy, PartialEq, Eq)]
pub enum Claim {
    /// The target is implied.
    Implied(Target),
    /// No assignment makes every rule true.
    Inconsistent,
    /// The certificate's sets are the maximal sets.
    Repairs,
    /// The target isn't implied.
    Not(Target),
    /// Where the other rules are true and the used entries stand, the rule of this number is false.
    Against(u32),
}

/// An entry, with the number of the line that says it, from 1.
#[derive(Clone, Copy, PartialEq, Eq)]
pub struct Said {
    pub line: u32,
    pub entry: Entry,
}

/// A set of entries and an assignment, with the number of its first line, and one more than that of its last.
#[derive(Drop, PartialEq, Eq)]
pub struct SaidSet {
    pub line: u32,
    pub uses: Vec<Said>,
    pub values: Vec<Said>,
    pub after: u32,
}

/// What a literal is about: that a cell has a value, or a node's truth.
#[derive(Drop, PartialEq, Eq)]
pub enum Symbol {
    Pair(CellId, ValueId),
    Node(NodePath),
}

/// A part of a derivation: an axiom, a clause with its hints, or the clause of the entries that aren't in a set, by the set's
/// place. A literal's variable is a place in the certificate's
/// symbols. Hints are as written: numbers of lines of the derivation, from 1. They may name lines that there aren't.
#[derive(Drop, PartialEq, Eq)]
pub enum CertPart {
    Axiom(AxiomName),
    Step { clause: Vec<Lit>, hints: Vec<u64> },
    Block(usize),
}

/// A part of a derivation, with the number of its line in the text, from 1.
#[derive(Drop, PartialEq, Eq)]
pub struct CertLine {
    pub line: u32,
    pub part: CertPart,
}

/// A certificate that was read for a book.
#[derive(Drop, PartialEq, Eq)]
pub struct Cert {
    pub claim: Claim,
    /// The sets, where the claim is on sets. Then there are no used entries and values beside theirs.
    pub sets: Vec<SaidSet>,
    /// The entries that are used.
    pub uses: Vec<Said>,
    /// The assignment.
    pub values: Vec<Said>,
    /// One more than the number of the last line with a claim, a used entry or a value, in front of the sets.
    pub after: u32,
    /// What the literals of the clauses are about, in the order in which they first appear there.
    pub symbols: Vec<Symbol>,
    /// The derivation.
    pub lines: Vec<CertLine>,
}

/// Why a text is no certificate for a book, with the number of its first line at fault, from 1.
#[derive(Debug, Drop, Error)]
pub enum CertFault {
    #[error("line {line} has no form that may stand there")]
    Syntax { line: u32 },
    #[error("a name in line {line} stands for nothing")]
    UnknownName { line: u32 },
    #[error("out of memory")]
    Memory,
}

impl From<AllocError> for CertFault {
    ghost use Rattle.pc_cert.specs.declared.cert.CertFault.TheVariants.{Memory};

    ghost from_gives = { λ _ e. e ≡ Memory };

    fn from(_: AllocError) -> Self {
        CertFault::Memory
    }
}
