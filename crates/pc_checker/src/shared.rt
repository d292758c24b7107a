//! Which lines take an axiom, or the clause of a set, that an earlier line took.

ghost use Rattle.std.specs.Prelude.{◌≡◌, ◌<◌, IfOk, IfSome, IsTrue, length, slice_index_or};
ghost use Rattle.pc_cert.specs.Keys.{IsKey};
ghost use Rattle.pc_cert.specs.declared.cert.CertLine.{CertLine as TheLine};
ghost use Rattle.pc_axiom_names.specs.Views.{axiom_of};
ghost use Rattle.pc_checker.specs.LineClauses.{TakeSame};

use pc_axiom_names::AxiomName;
use pc_cert::{CertLine, CertPart, Numbering};
use std::alloc::{AllocError, Global};

/// The axioms and sets so far whose clauses may be long, found by hashing, with the first line of each.
#[derive(Drop)]
pub(crate) struct Shared {
    names: Numbering,
    lines: Vec<usize>,
}

impl Shared {
    pub(crate) fn new(alloc: Global) -> Self {
        Shared {
            names: Numbering::new(alloc),
            lines: Vec::new(alloc),
        }
    }

    /// The line that was told with this key before, or this one. It is a guess that the caller tests.
    fn first_with(&mut self, alloc: Global, key: &[u32], line: usize) -> Result<usize, AllocError>
        requires { IsKey key.now }
    {
        let number = self.names.number(alloc, key)? as usize;
        if number < self.lines.len() {
            return Ok(self.lines[number]);
        }
        self.lines.push(line)?;
        Ok(line)
    }

    /// The same of an axiom. Axioms whose clauses are no longer than their lines are not told apart from new ones.
    fn first_taking(
        &mut self,
        alloc: Global,
        axiom: &AxiomName,
        line: usize,
    ) -> Result<usize, AllocError> {
        match axiom {
            AxiomName::Any(cell) => self.first_with(alloc, &[0, u32::from(cell.0), 0], line),
            AxiomName::Node(path, number) => {
                let mut key = Vec::new(alloc);
                key.push(1)?;
                key.push(path.rule)?;
                key.push(*number)?;
                key.extend_from_slice(&path.steps)?;
                self.first_with(alloc, &key, line)
            }
            _ => Ok(line),
        }
    }

    /// The same of a part. Clauses of sets may be long.
    fn first_with_part(
        &mut self,
        alloc: Global,
        part: &CertPart,
        line: usize,
    ) -> Result<usize, AllocError> {
        match part {
            CertPart::Axiom(axiom) => self.first_taking(alloc, axiom, line),
            CertPart::Step { .. } => Ok(line),
            CertPart::Block(set) => match u32::try_from(*set) {
                Ok(number) => self.first_with(alloc, &[0, number, 1], line),
                Err(_) => Ok(line),
            },
        }
    }

    /// An earlier line that takes the same axiom or set as this one, if there is one whose clause is worth sharing.
    pub(crate) fn earlier(
        &mut self,
        alloc: Global,
        lines: &[CertLine],
        place: usize,
    ) -> Result<Option<usize>, AllocError>
        requires { place < length lines.now }
        ensures { IfOk result (λ found. IfSome found (λ j. (j < place) ×
            ((d : TheLine) →
            TakeSame (slice_index_or lines.now j d).part
            (slice_index_or lines.now place d).part))) }
    {
        let first = self.first_with_part(alloc, &lines[place].part, place)?;
        if first < place && take_same(&lines[first].part, &lines[place].part) {
            return Ok(Some(first));
        }
        Ok(None)
    }
}

fn take_same(one: &CertPart, other: &CertPart) -> bool
    ensures { IsTrue result → TakeSame one.now other.now }
{
    match (one, other) {
        (CertPart::Axiom(a), CertPart::Axiom(b)) => is_same(a, b),
        (CertPart::Block(i), CertPart::Block(j)) => i == j,
        _ => false,
    }
}

fn is_same(one: &AxiomName, other: &AxiomName) -> bool
    ensures { IsTrue result → axiom_of one.now ≡ axiom_of other.now }
{
    match (one, other) {
        (AxiomName::Any(c), AxiomName::Any(d)) => c == d,
        (AxiomName::Node(p, i), AxiomName::Node(q, j)) => {
            p.rule == q.rule && i == j && p.steps.as_slice() == q.steps.as_slice()
        }
        _ => false,
    }
}
