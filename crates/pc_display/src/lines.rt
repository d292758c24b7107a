// The lines of one cell.
ghost use Rattle.std.specs.Prelude.{◌<◌, ◌++◌, All, codes, length};
ghost use Rattle.pc_sheet.specs.Entailment.{cell_sizes};
ghost use Rattle.pc_sheet.specs.Sizes.{size_of};
ghost use Rattle.pc_sheet.specs.WellFormed.{IsEntryOf};
ghost use Rattle.pc_writer.specs.Separator.{separator_at};
ghost use Rattle.pc_writer.specs.Spelling.{joined, sort_of, value_text};
ghost use Rattle.pc_writer.specs.Writes.{Writes};
ghost use Rattle.pc_display.specs.Show.{against, because, entered_text, entered_texts, head_line, mark_of, value_told};
ghost use Rattle.pc_display.specs.inside.Entered.{HaveValuesOf};
ghost use Rattle.pc_writer.specs.SheetText.{ended};

use pc_books::Book;
use pc_port::{Failed, Sink};
use pc_sheet::{CellId, Entry, SortId, ValueId};
use pc_writer::{sort_of, write_cell, write_entries, write_text, write_value};

/// Writes what stands before the text of that number in a list: a comma, but nothing before the first one.
fn write_separator<O: Sink>(place: usize, out: &mut O) -> Result<(), Failed>
    ensures { Writes O.given O.faults out.old out.new result (separator_at (codes ", ") place) }
{
    if place == 0 {
        return Ok(());
    }
    write_text(b", ", out)
}

/// Writes the values of entries, with commas between them.
fn write_values<O: Sink>(
    book: &Book,
    sort: SortId,
    entries: &[Entry],
    out: &mut O,
) -> Result<(), Failed>
    requires { HaveValuesOf book.now.universe sort entries.now }
    ensures { Writes O.given O.faults out.old out.new result
        (joined (codes ", ") (entered_texts book.now.universe sort entries.now)) }
{
    for (i, entry) in entries.iter().enumerate() {
        write_separator(i, out)?;
        write_value(book, sort, entry.value, out)?;
    }
    Ok(())
}

/// Writes the values of the cell's entries, or a dash.
pub(crate) fn write_entered<O: Sink>(
    book: &Book,
    cell: CellId,
    entries: &[Entry],
    out: &mut O,
) -> Result<(), Failed>
    requires cell { cell.0 < length (cell_sizes book.now.universe) }
    requires values { HaveValuesOf book.now.universe (sort_of book.now.universe cell) entries.now }
    ensures { Writes O.given O.faults out.old out.new result
        (entered_text book.now.universe (sort_of book.now.universe cell) entries.now) }
{
    if entries.is_empty() {
        return write_text(b"-", out);
    }
    write_values(book, sort_of(book, cell), entries, out)
}

fn write_mark<O: Sink>(clashes: bool, out: &mut O) -> Result<(), Failed>
    ensures { Writes O.given O.faults out.old out.new result (mark_of clashes) }
{
    if clashes {
        write_text(b" !", out)
    } else {
        Ok(())
    }
}

/// Writes the first line of a cell.
pub(crate) fn write_head_line<O: Sink>(
    book: &Book,
    cell: CellId,
    entries: &[Entry],
    clashes: bool,
    out: &mut O,
) -> Result<(), Failed>
    requires cell { cell.0 < length (cell_sizes book.now.universe) }
    requires values { HaveValuesOf book.now.universe (sort_of book.now.universe cell) entries.now }
    ensures { Writes O.given O.faults out.old out.new result
        (head_line book.now.universe cell entries.now clashes) }
{
    write_cell(book, cell, out)?;
    write_text(b" : ", out)?;
    write_entered(book, cell, entries, out)?;
    write_mark(clashes, out)?;
    write_text(b"\n", out)
}

/// Writes why a value is implied.
fn write_because<O: Sink>(book: &Book, support: &[Entry], out: &mut O) -> Result<(), Failed>
    requires { All (IsEntryOf book.now.universe) support.now }
    ensures { Writes O.given O.faults out.old out.new result
        (because book.now.universe support.now) }
{
    if support.is_empty() {
        return write_text(b" always", out);
    }
    write_text(b" because ", out)?;
    write_entries(book, support, out)
}

/// Writes the line of an implied value.
pub(crate) fn write_value_line<O: Sink>(
    book: &Book,
    sort: SortId,
    value: ValueId,
    support: &[Entry],
    out: &mut O,
) -> Result<(), Failed>
    requires value { value.0 < size_of book.now.universe sort }
    requires support { All (IsEntryOf book.now.universe) support.now }
    ensures { Writes O.given O.faults out.old out.new result
        (ended
        (codes "  = " ++ (value_text book.now.universe sort value ++ because book.now.universe
        support.now))) }
{
    write_text(b"  = ", out)?;
    write_value(book, sort, value, out)?;
    write_because(book, support, out)?;
    write_text(b"\n", out)
}

/// Writes what an entry clashes with.
fn write_against<O: Sink>(book: &Book, support: &[Entry], out: &mut O) -> Result<(), Failed>
    requires { All (IsEntryOf book.now.universe) support.now }
    ensures { Writes O.given O.faults out.old out.new result
        (against book.now.universe support.now) }
{
    if support.is_empty() {
        return write_text(b"the rules", out);
    }
    write_entries(book, support, out)
}

/// Writes the entry's value before what it clashes with, where its cell has several entries.
fn write_told<O: Sink>(
    book: &Book,
    sort: SortId,
    several: bool,
    value: ValueId,
    out: &mut O,
) -> Result<(), Failed>
    requires { value.0 < size_of book.now.universe sort }
    ensures { Writes O.given O.faults out.old out.new result
        (value_told book.now.universe sort several value) }
{
    if several {
        write_value(book, sort, value, out)?;
        write_text(b" ", out)
    } else {
        Ok(())
    }
}

/// Writes the line of a conflict: of the entry of that value, where its cell has several.
pub(crate) fn write_conflict_line<O: Sink>(
    book: &Book,
    sort: SortId,
    several: bool,
    value: ValueId,
    support: &[Entry],
    out: &mut O,
) -> Result<(), Failed>
    requires value { value.0 < size_of book.now.universe sort }
    requires support { All (IsEntryOf book.now.universe) support.now }
    ensures { Writes O.given O.faults out.old out.new result
        (ended (codes "  ! " ++ (value_told book.now.universe sort several value ++
        (codes "against " ++ against book.now.universe support.now)))) }
{
    write_text(b"  ! ", out)?;
    write_told(book, sort, several, value, out)?;
    write_text(b"against ", out)?;
    write_against(book, support, out)?;
    write_text(b"\n", out)
}
