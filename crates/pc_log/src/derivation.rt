//! The lines that one line rests on, among lines that derivations share.

ghost use Rattle.std.specs.Prelude.{◌≡◌, Contains};
ghost use Rattle.pc_log.specs.Shown.{shown_line};
ghost use Rattle.pc_log.specs.Sparse.{line_in, IsPicked};

use crate::log::Line;
use crate::places::Places;
use crate::sparse::SparseLog;

/// Lines of a list with gaps, in the order of their places. Where one is lent (`IsPicked`), every hint of its lines is one of these
/// places.
#[derive(Clone, Copy)]
pub struct Derivation<'a> {
    pub lines: &'a SparseLog,
    pub places: &'a Places,
}

impl<'a> Derivation<'a> {
    /// The line at one of the places. Its hints are places.
    pub fn line(&self, place: usize) -> Line<'a>
        requires picked { IsPicked self.now.lines.now self.now.places.now }
        requires among { Contains self.now.places.now place }
        ensures { shown_line result ≡ line_in self.now.lines.now place }
    {
        match self.lines.line(place) {
            None => Line::Axiom(0),
            Some(line) => line,
        }
    }
}
