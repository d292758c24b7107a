// The display as a table.
ghost use Rattle.std.specs.Prelude.{◌≡◌, ◌<◌, ◌≤◌, ◌++◌, ◌∷◌, [], ℕ, IfOk, IfSome, List, codes, length, replicate};
ghost use Rattle.pc_sheet.specs.Entailment.{cell_sizes};
ghost use Rattle.pc_sheet.specs.Limits.{most_entries};
ghost use Rattle.pc_sheet.specs.Sizes.{size_of};
ghost use Rattle.pc_sheet.specs.WellFormed.{IsWellFormed};
ghost use Rattle.pc_writer.specs.Spelling.{cell_text, family_of, sort_of, value_text};
ghost use Rattle.pc_writer.specs.Writes.{Writes};
ghost use Rattle.pc_display.specs.Supports.{IsReasoning, Reasoning};
ghost use Rattle.pc_display.specs.Show.{entered_text, listed_texts, reason_of};
ghost use Rattle.pc_display.specs.Grid.{conflict_column, grid_line, implied_text, implied_texts, padded, IsGrid};
ghost use Rattle.pc_display.specs.inside.Columns.{comma_after, front_text, next_text, some_more};
ghost use Rattle.pc_display.specs.inside.Entered.{HaveValuesOf};
ghost use Rattle.pc_display.specs.inside.Names.{IsAsWide, IsNamedSo};

use crate::cell_entries::entries_of;
use crate::columns::{NameColumns, Widths, cell_columns, entered_columns, name_columns, widths_of};
use crate::display::have_conflict;
use crate::lines::write_entered;
use crate::supports::Supports;
use pc_books::{Book, well_formed};
use pc_port::{Failed, Sink};
use pc_sheet::{CellId, Entry, SortId, Target, ValueId};
use pc_writer::{sort_of, write_cell, write_text, write_value};

/// Writes so many spaces.
fn write_spaces<O: Sink>(count: usize, out: &mut O) -> Result<(), Failed>
    ensures { Writes O.given O.faults out.old out.new result (replicate count 32) }
{
    let spaces = [b' '; 64];
    for _ in 0..count / 64 {
        write_text(&spaces, out)?;
    }
    write_text(&spaces[..count % 64], out)
}

/// Writes a cell, whose family's name takes so many columns, with spaces behind it, up to so many columns.
fn write_padded_cell<O: Sink>(
    book: &Book,
    cell: CellId,
    name: usize,
    width: usize,
    out: &mut O,
) -> Result<(), Failed>
    requires formed { IsWellFormed book.now }
    requires cell { cell.0 < length (cell_sizes book.now.universe) }
    requires name { IsAsWide (family_of book.now.universe cell) name }
    ensures { Writes O.given O.faults out.old out.new result
        (padded width (cell_text book.now.universe cell)) }
{
    write_cell(book, cell, out)?;
    write_spaces(width.saturating_sub(cell_columns(book, cell, name)), out)
}

/// Writes the values of the cell's entries, or a dash, with spaces behind them, up to so many columns.
fn write_padded_entries<O: Sink>(
    book: &Book,
    cell: CellId,
    entries: &[Entry],
    width: usize,
    out: &mut O,
) -> Result<(), Failed>
    requires formed { IsWellFormed book.now }
    requires cell { cell.0 < length (cell_sizes book.now.universe) }
    requires few { length entries.now ≤ most_entries }
    requires values { HaveValuesOf book.now.universe (sort_of book.now.universe cell) entries.now }
    ensures { Writes O.given O.faults out.old out.new result
        (padded width (entered_text book.now.universe (sort_of book.now.universe cell)
        entries.now)) }
{
    write_entered(book, cell, entries, out)?;
    write_spaces(
        width.saturating_sub(entered_columns(book, cell, entries)),
        out,
    )
}

fn write_conflict<O: Sink>(clashes: bool, out: &mut O) -> Result<(), Failed>
    ensures { Writes O.given O.faults out.old out.new result
        (codes "  " ++ (conflict_column clashes ++ codes "  ")) }
{
    if clashes {
        write_text(b"  !  ", out)
    } else {
        write_text(b"     ", out)
    }
}

/// Writes all columns but the last.
fn write_front<O: Sink>(
    book: &Book,
    cell: CellId,
    name: usize,
    entries: &[Entry],
    clashes: bool,
    widths: Widths,
    out: &mut O,
) -> Result<(), Failed>
    requires formed { IsWellFormed book.now }
    requires cell { cell.0 < length (cell_sizes book.now.universe) }
    requires name { IsAsWide (family_of book.now.universe cell) name }
    requires few { length entries.now ≤ most_entries }
    requires values { HaveValuesOf book.now.universe (sort_of book.now.universe cell) entries.now }
    ensures { Writes O.given O.faults out.old out.new result
        (front_text book.now.universe widths.cell widths.entry cell entries.now clashes) }
{
    write_padded_cell(book, cell, name, widths.cell, out)?;
    write_text(b"  ", out)?;
    write_padded_entries(book, cell, entries, widths.entry, out)?;
    write_conflict(clashes, out)
}

fn write_comma<O: Sink>(some: bool, out: &mut O) -> Result<(), Failed>
    ensures { Writes O.given O.faults out.old out.new result (comma_after some) }
{
    if some { write_text(b", ", out) } else { Ok(()) }
}

/// Writes a value, and before it what parts it from others that are written.
fn write_next_value<O: Sink>(
    book: &Book,
    sort: SortId,
    value: ValueId,
    some: bool,
    out: &mut O,
) -> Result<(), Failed>
    requires { value.0 < size_of book.now.universe sort }
    ensures { Writes O.given O.faults out.old out.new result
        (next_text some (value_text book.now.universe sort value ∷ [])) }
{
    write_comma(some, out)?;
    write_value(book, sort, value, out)
}

/// Writes a value behind those that are written, where it is implied, and answers whether any is written then.
fn write_next_implied<V: Supports, O: Sink>(
    view: &V,
    cell: CellId,
    value: ValueId,
    some: bool,
    out: &mut O,
) -> Result<bool, Failed>
    requires cell { cell.0 < length (cell_sizes (V.sheet view.now).universe) }
    requires value { value.0 < size_of (V.sheet view.now).universe
        (sort_of (V.sheet view.now).universe cell) }
    ensures text { (reason : Reasoning) → IsReasoning (V.sheet view.now) reason →
        Writes O.given O.faults out.old out.new result
        (next_text some (implied_text (V.sheet view.now).universe
        (sort_of (V.sheet view.now).universe cell) value (reason_of reason cell value))) }
    ensures more { (reason : Reasoning) → IsReasoning (V.sheet view.now) reason →
        IfOk result (λ more.
        more ≡
        some_more some (implied_text (V.sheet view.now).universe
        (sort_of (V.sheet view.now).universe cell) value (reason_of reason cell value))) }
{
    let target = Target {
        cell,
        value,
        holds: true,
    };
    match view.support(target) {
        None => Ok(some),
        Some(_) => {
            let book = view.book();
            write_next_value(book, sort_of(book, cell), value, some, out)?;
            Ok(true)
        }
    }
}

/// Writes the cell's implied values, or a dash where there are none.
fn write_implied<V: Supports, O: Sink>(view: &V, cell: CellId, out: &mut O) -> Result<(), Failed>
    requires { cell.0 < length (cell_sizes (V.sheet view.now).universe) }
    ensures { (reason : Reasoning) → IsReasoning (V.sheet view.now) reason →
        Writes O.given O.faults out.old out.new result
        (listed_texts (implied_texts (V.sheet view.now).universe reason cell)) }
{
    let mut some = false;
    for value in 0..view.book().values_of(cell) {
        some = write_next_implied(view, cell, ValueId(value as u16), some, out)?;
    }
    if some { Ok(()) } else { write_text(b"-", out) }
}

/// Writes the line of a cell, whose family's name takes so many columns.
fn write_grid_line<V: Supports, O: Sink>(
    view: &V,
    cell: CellId,
    name: usize,
    widths: Widths,
    out: &mut O,
) -> Result<(), Failed>
    requires cell { cell.0 < length (cell_sizes (V.sheet view.now).universe) }
    requires name { IsAsWide (family_of (V.sheet view.now).universe cell) name }
    ensures { (reason : Reasoning) → IsReasoning (V.sheet view.now) reason →
        Writes O.given O.faults out.old out.new result
        (grid_line (V.sheet view.now) reason widths.cell widths.entry cell) }
{
    let book = view.book();
    let found = entries_of(book, cell);
    let entries = found.as_slice();
    let clashes = have_conflict(view, entries);
    write_front(book, cell, name, entries, clashes, widths, out)?;
    write_implied(view, cell, out)?;
    write_text(b"\n", out)
}

/// How many columns the name of the cell's family takes, which isn't measured where it was before.
fn name_before<V: Supports>(view: &V, cell: CellId, before: Option<NameColumns>) -> NameColumns
    requires cell { cell.0 < length (cell_sizes (V.sheet view.now).universe) }
    requires before { IfSome before (IsNamedSo (V.sheet view.now).universe) }
    ensures family { IsAsWide (family_of (V.sheet view.now).universe cell) result.columns }
    ensures columns { IsNamedSo (V.sheet view.now).universe result }
{
    let book = view.book();
    well_formed(book);
    name_columns(book, cell, before)
}

/// Writes the display as a table: a line for each cell, with its entries, a mark where one of them has a conflict, and its
/// implied values, in columns as wide as a terminal shows them.
///
/// It fails only where the sink does, and has then written a front of the table.
pub fn grid<V: Supports, O: Sink>(view: &V, out: &mut O) -> Result<(), Failed>
    ensures { (text : List ℕ) → IsGrid (V.sheet view.now) text →
        Writes O.given O.faults out.old out.new result text }
{
    let widths = widths_of(view.book());
    let mut before = None;
    for cell in 0..view.book().cells() {
        let name = name_before(view, CellId(cell as u16), before);
        write_grid_line(view, CellId(cell as u16), name.columns, widths, out)?;
        before = Some(name);
    }
    Ok(())
}
