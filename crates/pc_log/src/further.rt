//! The lines of a log that are no axioms, in their order.

ghost use Rattle.std.specs.Prelude.{◌≡◌, ◌<◌, ◌≤◌, [], ◌∷◌, ◌++◌, length, OnOk, OnErr, slice_get, Some, take};
ghost use Rattle.pc_log.specs.inside.Parts.{line_with, IsFitted};
ghost use Rattle.pc_log.specs.Shown.{shown_line};

use crate::log::{Line, StepId};
use pc_lits::{Lit, Rows};
use std::alloc::{AllocError, Global};
use std::marker::Model;

/// What a line has beside its clause and its hints: a block's number, or whether a step was learned.
#[derive(Clone, Copy)]
pub(crate) enum Kind {
    Block(usize),
    Step(bool),
}

/// Blocks and steps. The clauses of all lie in one block of memory, their hints in another.
#[derive(Drop)]
pub(crate) struct Further {
    kinds: Vec<Kind>,
    clauses: Rows<Lit>,
    hints: Rows<StepId>,
}

impl Model for Further {
    ghost use Rattle.std.specs.Prelude.{List};
    ghost use Rattle.pc_log.specs.Lines.{LogLine};
    ghost use Rattle.pc_log.specs.inside.Parts.{lines_of, HasWholeLines};

    ghost Value = { List LogLine };

    ghost view = { λ s. lines_of s.kinds.items s.clauses s.hints };

    ghost invariant = { λ s. HasWholeLines s.kinds.items s.clauses s.hints };
}

impl Further {
    // No line.
    pub(crate) fn new(alloc: Global) -> Self
        ensures { result ≡ [] }
    {
        Further {
            kinds: Vec::new(alloc),
            clauses: Rows::new(alloc),
            hints: Rows::new(alloc),
        }
    }

    // The number of lines.
    pub(crate) fn len(&self) -> usize
        ensures { result ≡ length self.now }
    {
        self.kinds.len()
    }

    // Adds a line as the last one. Without memory all stays as it is.
    pub(crate) fn add(
        &mut self,
        kind: Kind,
        clause: &[Lit],
        hints: &[StepId],
    ) -> Result<(), AllocError>
        requires { IsFitted kind clause.now hints.now }
        ensures ok { OnOk result (self.new ≡ self.old ++ line_with kind clause.now hints.now ∷ []) }
        ensures err { OnErr result (self.new ≡ self.old) }
    {
        let count = self.kinds.len();
        self.kinds.reserve(1)?;
        self.clauses.push(clause)?;
        if let Err(error) = self.hints.push(hints) {
            self.clauses.truncate(count);
            return Err(error);
        }
        self.kinds.push(kind)?;
        Ok(())
    }

    // The line of this number, counted from 0.
    pub(crate) fn line(&self, number: usize) -> Line<'_>
        requires { number < length self.now }
        ensures { slice_get self.now number ≡ Some (shown_line result) }
    {
        let clause = self.clauses.get(number);
        match self.kinds[number] {
            Kind::Block(block) => Line::Block {
                number: block,
                clause,
            },
            Kind::Step(learned) => Line::Step {
                clause,
                hints: self.hints.get(number),
                learned,
            },
        }
    }

    // Keeps the first lines alone.
    pub(crate) fn truncate(&mut self, count: usize)
        requires { count ≤ length self.old }
        ensures { self.new ≡ take count self.old }
    {
        self.kinds.truncate(count);
        self.clauses.truncate(count);
        self.hints.truncate(count);
    }
}
