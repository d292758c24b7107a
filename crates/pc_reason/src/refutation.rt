//! A book whose rules are inconsistent, with the derivation that shows it: what a refused load or a refused rule answers.
ghost use Rattle.std.specs.Prelude.{◌≡◌};
ghost use Rattle.pc_reason.specs.Refutations.{RefutesRules};

use crate::proof::Proof;
use pc_axiom_names::Names;
use pc_books::Book;
use pc_log::{Log, Span};
use std::marker::Model;

/// A book with inconsistent rules, and a derivation of the empty clause from them alone. It is seen as the book's sheet.
#[derive(Drop)]
pub struct Refutation {
    book: Book,
    names: Names,
    log: Log,
    span: Span,
}

impl Model for Refutation {
    ghost use Rattle.pc_sheet.specs.Sheet.{Sheet};
    ghost use Rattle.pc_sheet.specs.Codes.{coded_sheet};
    ghost use Rattle.pc_reason.specs.Refutations.{RefutesRules};

    ghost Value = { Sheet };

    ghost coded = { coded_sheet };

    ghost view = { λ r. r.book };

    ghost invariant = { λ r. RefutesRules r.book r.names r.log r.span };
}

impl Refutation {
    /// Keeps a book with the span of the log that refutes its rules.
    pub fn new(book: Book, names: Names, log: Log, span: Span) -> Refutation
        requires { RefutesRules book names log span }
        ensures { result ≡ book }
    {
        Refutation {
            book,
            names,
            log,
            span,
        }
    }

    /// The book whose rules are inconsistent.
    pub fn book(&self) -> &Book
        ensures { result.now ≡ self.now }
    {
        &self.book
    }

    /// The derivation. It ends in the empty clause, and a certificate of inconsistency that holds it is accepted.
    pub fn proof(&self) -> Proof<'_>
        ensures { RefutesRules self.now result.names.now result.log.now result.span }
    {
        Proof {
            log: &self.log,
            names: &self.names,
            span: self.span,
        }
    }
}
