//! Whatever knows which entries could be kept together, part by part.
ghost use Rattle.std.specs.Prelude.{◌≡◌, ◌<◌, length};
ghost use Rattle.pc_sheet.specs.Sheet.{Sheet};
ghost use Rattle.pc_world_list.specs.Choices.{AreCellsOf, AreSetsOf};
ghost use Rattle.pc_world_list.specs.Chosen.{chosen_parts};
ghost use Rattle.pc_reason.specs.Fitting.{IsFitting};

use crate::Worlds;
use pc_books::{Assignment, Book};
use pc_sheet::CellId;

/// A book with the maximal consistent sets of each part that has an entry on its cells. These parts are
/// numbered from 0 in the order of the book's parts: by their first cell. The maximal sets of the book are the unions of one
/// set of each. No call takes memory.
pub trait Choices {
    /// The sheet that the book stands for.
    ghost sheet: { Self → Sheet };

    /// The book.
    fn book(&self) -> &Book
        ensures { result.now ≡ sheet self.now };

    /// An assignment that makes every rule true. It still does where the cells of a part take their values from an assignment
    /// of that part's sets.
    fn fitting(&self) -> &Assignment
        ensures { IsFitting (sheet self.now) result.now };

    /// How many parts have an entry on their cells.
    fn parts(&self) -> usize
        ensures { result ≡ length (chosen_parts (sheet self.now)) };

    /// The cells of the part of that number, in their order.
    fn cells(&self, part: usize) -> &[CellId]
        requires { part < length (chosen_parts (sheet self.now)) }
        ensures { AreCellsOf (sheet self.now) part result.now };

    /// The maximal sets of the part of that number, each with an assignment that has it and makes every piece of the part true.
    fn sets(&self, part: usize) -> &Worlds
        requires { part < length (chosen_parts (sheet self.now)) }
        ensures { AreSetsOf (sheet self.now) part result.now };
}
