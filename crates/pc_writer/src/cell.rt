// Cells, by their family and arguments.
ghost use Rattle.std.specs.Prelude.{◌≡◌, ◌<◌, length};
ghost use Rattle.pc_sheet.specs.Entailment.{cell_sizes};
ghost use Rattle.pc_sheet.specs.Sizes.{argument_sorts};
ghost use Rattle.pc_writer.specs.Spelling.{application_of, cell_text, family_of, joined, separated_arguments, separated_cell, sort_of, value_texts};
ghost use Rattle.pc_writer.specs.Writes.{Writes};

use crate::pieces::{write_between, write_text};
use crate::value::write_value;
use pc_books::Book;
use pc_port::{Failed, Sink};
use pc_sheet::{CellId, SortId};

/// The sort that a cell's values are of.
pub fn sort_of(book: &Book, cell: CellId) -> SortId
    requires { cell.0 < length (cell_sizes book.now.universe) }
    ensures { result ≡ sort_of book.now.universe cell }
{
    book.result_sort(book.cell_family(cell))
}

/// Writes the arguments one after another.
fn write_list<O: Sink>(
    book: &Book,
    cell: CellId,
    sorts: &[SortId],
    separator: &[u8],
    out: &mut O,
) -> Result<(), Failed>
    requires cell { cell.0 < length (cell_sizes book.now.universe) }
    requires sorts { sorts.now ≡ argument_sorts (family_of book.now.universe cell) }
    ensures { Writes O.given O.faults out.old out.new result
        (joined separator.now
        (value_texts book.now.universe sorts.now
        (application_of book.now.universe cell).arguments)) }
{
    for (i, sort) in sorts.iter().enumerate() {
        let value = book.cell_arg(cell, i);
        write_between(separator, i, out)?;
        write_value(book, *sort, value, out)?;
    }
    Ok(())
}

/// Writes the arguments in parentheses, if there are any.
fn write_arguments<O: Sink>(
    book: &Book,
    cell: CellId,
    sorts: &[SortId],
    separator: &[u8],
    out: &mut O,
) -> Result<(), Failed>
    requires cell { cell.0 < length (cell_sizes book.now.universe) }
    requires sorts { sorts.now ≡ argument_sorts (family_of book.now.universe cell) }
    ensures { Writes O.given O.faults out.old out.new result
        (separated_arguments separator.now book.now.universe sorts.now
        (application_of book.now.universe cell).arguments) }
{
    if sorts.is_empty() {
        return Ok(());
    }
    write_text(b"(", out)?;
    write_list(book, cell, sorts, separator, out)?;
    write_text(b")", out)
}

/// Writes a cell by its family's name, with its arguments in parentheses and the separator between each two.
pub fn write_separated_cell<O: Sink>(
    book: &Book,
    cell: CellId,
    separator: &[u8],
    out: &mut O,
) -> Result<(), Failed>
    requires { cell.0 < length (cell_sizes book.now.universe) }
    ensures { Writes O.given O.faults out.old out.new result
        (separated_cell separator.now book.now.universe cell) }
{
    let family = book.cell_family(cell);
    write_text(book.family_name(family).as_bytes(), out)?;
    write_arguments(book, cell, book.family_sorts(family), separator, out)
}

/// Writes a cell by its family's name, with its arguments in parentheses.
pub fn write_cell<O: Sink>(book: &Book, cell: CellId, out: &mut O) -> Result<(), Failed>
    requires { cell.0 < length (cell_sizes book.now.universe) }
    ensures { Writes O.given O.faults out.old out.new result (cell_text book.now.universe cell) }
{
    write_separated_cell(book, cell, b", ", out)
}
