// Cells without blanks inside.
ghost use Rattle.std.specs.Prelude.{◌<◌, length};
ghost use Rattle.pc_sheet.specs.Entailment.{cell_sizes};
ghost use Rattle.pc_sheet.specs.WellFormed.{IsEntryOf};
ghost use Rattle.pc_writer.specs.Writes.{Writes};
ghost use Rattle.pc_cert_text.specs.CertificateText.{read_text, tight_cell_text};

use pc_books::Book;
use pc_port::{Failed, Sink};
use pc_sheet::{CellId, Entry};
use pc_writer::{sort_of, write_separated_cell, write_text, write_value};

/// Writes a cell by its family's name, with its arguments in parentheses.
pub(crate) fn write_tight_cell<O: Sink>(
    book: &Book,
    cell: CellId,
    out: &mut O,
) -> Result<(), Failed>
    requires { cell.0 < length (cell_sizes book.now.universe) }
    ensures { Writes O.given O.faults out.old out.new result
        (tight_cell_text book.now.universe cell) }
{
    write_separated_cell(book, cell, b",", out)
}

/// Writes a cell with a value.
pub(crate) fn write_read<O: Sink>(book: &Book, entry: Entry, out: &mut O) -> Result<(), Failed>
    requires { IsEntryOf book.now.universe entry }
    ensures { Writes O.given O.faults out.old out.new result (read_text book.now.universe entry) }
{
    write_tight_cell(book, entry.cell, out)?;
    write_text(b"=", out)?;
    write_value(book, sort_of(book, entry.cell), entry.value, out)
}
