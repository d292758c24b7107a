//! A span of a log's lines, with names.

ghost use Rattle.std.specs.Prelude.{◌≡◌};
ghost use Rattle.pc_log.specs.Spans.{lines_within};
ghost use Rattle.pc_reason.specs.Proof.{LiesIn};

use crate::steps::Steps;
use pc_axiom_names::Names;
use pc_log::{Log, Span};

/// A derivation that others keep: its lines are those of the span, and the names say what its variables and its axioms
/// are.
#[derive(Clone, Copy)]
pub struct Proof<'a> {
    pub log: &'a Log,
    pub names: &'a Names,
    pub span: Span,
}

impl<'a> Proof<'a> {
    /// The lines, first to last. The hints of a line are places in the whole log. It takes no memory.
    pub fn steps(&self) -> Steps<'a>
        requires { LiesIn self.now.span self.now.log.now }
        ensures { result ≡ lines_within self.now.span self.now.log.now }
    {
        self.log.few_lines();
        Steps::between(self.log, self.span.first.0, self.span.last.0 + 1)
    }
}
