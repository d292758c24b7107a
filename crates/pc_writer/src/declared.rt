// The names of what a book declares.
ghost use Rattle.std.specs.Prelude.{◌<◌, All, codes, length, map};
ghost use Rattle.pc_sheet.specs.WellFormed.{IsDeclaredSort};
ghost use Rattle.pc_writer.specs.FormulaText.{family_at, in_parentheses, sort_name, table_at};
ghost use Rattle.pc_writer.specs.Spelling.{joined};
ghost use Rattle.pc_writer.specs.Writes.{Writes};

use crate::pieces::{write_separator, write_text};
use pc_books::Book;
use pc_port::{Failed, Sink};
use pc_sheet::{FamilyId, SortId, TableId};

pub(crate) fn write_sort_name<O: Sink>(book: &Book, sort: SortId, out: &mut O) -> Result<(), Failed>
    requires { sort.0 < length book.now.universe.sorts }
    ensures { Writes O.given O.faults out.old out.new result (sort_name book.now.universe sort) }
{
    write_text(book.sort_name(sort).as_bytes(), out)
}

pub(crate) fn write_table_name<O: Sink>(
    book: &Book,
    table: TableId,
    out: &mut O,
) -> Result<(), Failed>
    requires { table.0 < length book.now.universe.tables }
    ensures { Writes O.given O.faults out.old out.new result
        (table_at book.now.universe table).name }
{
    write_text(book.table_name(table).as_bytes(), out)
}

pub(crate) fn write_family_name<O: Sink>(
    book: &Book,
    family: FamilyId,
    out: &mut O,
) -> Result<(), Failed>
    requires { family.0 < length book.now.universe.families }
    ensures { Writes O.given O.faults out.old out.new result
        (family_at book.now.universe family).name }
{
    write_text(book.family_name(family).as_bytes(), out)
}

/// Writes the names of sorts in parentheses, if there are any.
pub(crate) fn write_argument_sorts<O: Sink>(
    book: &Book,
    sorts: &[SortId],
    out: &mut O,
) -> Result<(), Failed>
    requires { All (IsDeclaredSort book.now.universe) sorts.now }
    ensures { Writes O.given O.faults out.old out.new result
        (in_parentheses (map (sort_name book.now.universe) sorts.now)) }
{
    if sorts.is_empty() {
        return Ok(());
    }
    write_text(b"(", out)?;
    write_sort_names(book, sorts, out)?;
    write_text(b")", out)
}

/// Writes the names of sorts with a comma and a space between each two.
fn write_sort_names<O: Sink>(book: &Book, sorts: &[SortId], out: &mut O) -> Result<(), Failed>
    requires { All (IsDeclaredSort book.now.universe) sorts.now }
    ensures { Writes O.given O.faults out.old out.new result
        (joined (codes ", ") (map (sort_name book.now.universe) sorts.now)) }
{
    for (i, sort) in sorts.iter().enumerate() {
        write_separator(i, out)?;
        write_sort_name(book, *sort, out)?;
    }
    Ok(())
}
