// The lines of a derivation, as they are kept.
ghost use Rattle.std.specs.Prelude.{◌≡◌, ◌+◌, ◌<◌, length};
ghost use Rattle.pc_log.specs.Shown.{shown_line};
ghost use Rattle.pc_cert_text.specs.inside.Steps.{AreKept, IsLineAt, IsNext, lines_in};

use pc_log::{Derivation, Line, Log, Span, StepId};

/// The lines of a derivation. Their hints are places.
#[derive(Clone, Copy)]
pub(crate) enum Lines<'a> {
    /// One after another in a log.
    Logged(&'a Log, Span),
    /// Among lines that derivations share.
    Shared(Derivation<'a>),
}

impl<'a> Lines<'a> {
    /// How many there are.
    pub(crate) fn len(self) -> usize
        requires { AreKept self }
        ensures { result ≡ length (lines_in self.entry) }
    {
        match self {
            Lines::Logged(_, span) => (span.last.0 - span.first.0) as usize + 1,
            Lines::Shared(derivation) => derivation.places.len(),
        }
    }

    /// The one of this number, counted from 0, and from where on the next one is looked for, as this one is from `from`.
    pub(crate) fn next(self, index: usize, from: usize) -> (Line<'a>, usize)
        requires kept { AreKept self }
        requires within { index < length (lines_in self) }
        requires next { IsNext self index from }
        ensures line { IsLineAt self.entry index (shown_line result.0) }
        ensures next { IsNext self.entry (index + 1) result.1 }
    {
        match self {
            Lines::Logged(log, span) => {
                let place = span.first.0 + index as u32;
                (log.line(StepId(place)), from)
            }
            Lines::Shared(derivation) => {
                let place = derivation.places.next(index, from);
                (derivation.line(place), place + 1)
            }
        }
    }
}
