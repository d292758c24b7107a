// Which entries are later ones of their cells, told in one walk over them without taking memory.
ghost use Rattle.std.specs.Prelude.{◌≡◌, ◌<◌, set, slice_index_or, true, false};
ghost use Rattle.pc_sheet.specs.Limits.{most_cells};
ghost use Rattle.pc_sheet.specs.WellFormed.{IsWellFormed};
ghost use Rattle.pc_writer.specs.SheetText.{has_several};

use pc_books::Book;
use pc_sheet::{CellId, MOST_CELLS};

/// Notes that the cell has an entry, and tells whether that was noted before.
pub(crate) fn note(noted: &mut [bool; MOST_CELLS], cell: CellId) -> bool
    requires { cell.0 < most_cells }
    ensures before { result ≡ slice_index_or noted.old cell.0 false }
    ensures after { noted.new ≡ set noted.old cell.0 true }
{
    let place = usize::from(cell.0);
    let before = noted[place];
    noted[place] = true;
    before
}

/// Whether some cell has two entries or more.
pub(crate) fn has_several(book: &Book) -> bool
    requires { IsWellFormed book.now }
    ensures { result ≡ has_several book.now.entries }
{
    let mut noted = [false; MOST_CELLS];
    for entry in book.entries() {
        if note(&mut noted, entry.cell) {
            return true;
        }
    }
    false
}
