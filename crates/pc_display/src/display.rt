// The display line by line.
ghost use Rattle.std.specs.Prelude.{◌≡◌, ℕ, ◌<◌, All, List, length};
ghost use Rattle.std.specs.Option.{option_copied};
ghost use Rattle.pc_sheet.specs.Entailment.{cell_sizes, opposite_of};
ghost use Rattle.pc_sheet.specs.Sizes.{size_of};
ghost use Rattle.pc_sheet.specs.WellFormed.{IsEntryOf, IsWellFormed};
ghost use Rattle.pc_writer.specs.Spelling.{sort_of};
ghost use Rattle.pc_writer.specs.Writes.{Writes};
ghost use Rattle.pc_display.specs.Supports.{IsReasoning, IsSupportFor, Reasoning};
ghost use Rattle.pc_display.specs.Show.{cell_lines, conflict_line, conflict_lines, conflict_of, have_conflict, reason_of, value_line, value_lines, IsShown};
ghost use Rattle.pc_display.specs.inside.Entered.{HaveValuesOf};

use crate::cell_entries::{are_several, entries_of};
use crate::lines::{write_conflict_line, write_head_line, write_value_line};
use crate::supports::Supports;
use pc_books::Book;
use pc_port::{Failed, Sink};
use pc_sheet::{CellId, Entry, SortId, Target, ValueId};
use pc_writer::sort_of;

/// The least support of the opposite of an entry, where it has one.
pub(crate) fn conflict_of<V: Supports>(view: &V, entry: Entry) -> Option<&[Entry]>
    requires { IsEntryOf (V.sheet view.now).universe entry }
    ensures { IsSupportFor (V.sheet view.now) (opposite_of entry) (option_copied result) }
{
    view.support(Target {
        cell: entry.cell,
        value: entry.value,
        holds: false,
    })
}

/// Whether some of the entries has a conflict.
pub(crate) fn have_conflict<V: Supports>(view: &V, entries: &[Entry]) -> bool
    requires { All (IsEntryOf (V.sheet view.now).universe) entries.now }
    ensures { (reason : Reasoning) → IsReasoning (V.sheet view.now) reason →
        result ≡ have_conflict reason entries.now }
{
    for entry in entries {
        if conflict_of(view, *entry).is_some() {
            return true;
        }
    }
    false
}

/// Writes a value of the cell with its reason, where it is implied.
fn write_if_implied<V: Supports, O: Sink>(
    view: &V,
    cell: CellId,
    value: ValueId,
    out: &mut O,
) -> Result<(), Failed>
    requires formed { IsWellFormed (V.sheet view.now) }
    requires cell { cell.0 < length (cell_sizes (V.sheet view.now).universe) }
    requires value { value.0 < size_of (V.sheet view.now).universe
        (sort_of (V.sheet view.now).universe cell) }
    ensures { (reason : Reasoning) → IsReasoning (V.sheet view.now) reason →
        Writes O.given O.faults out.old out.new result
        (value_line (V.sheet view.now).universe (sort_of (V.sheet view.now).universe cell) value
        (reason_of reason cell value)) }
{
    let target = Target {
        cell,
        value,
        holds: true,
    };
    match view.support(target) {
        None => Ok(()),
        Some(support) => {
            let book = view.book();
            write_value_line(book, sort_of(book, cell), value, support, out)
        }
    }
}

/// Writes the cell's implied values, in their sort's order.
fn write_value_lines<V: Supports, O: Sink>(
    view: &V,
    cell: CellId,
    out: &mut O,
) -> Result<(), Failed>
    requires formed { IsWellFormed (V.sheet view.now) }
    requires cell { cell.0 < length (cell_sizes (V.sheet view.now).universe) }
    ensures { (reason : Reasoning) → IsReasoning (V.sheet view.now) reason →
        Writes O.given O.faults out.old out.new result
        (value_lines (V.sheet view.now).universe reason cell) }
{
    for value in 0..view.book().values_of(cell) {
        write_if_implied(view, cell, ValueId(value as u16), out)?;
    }
    Ok(())
}

/// Writes what an entry of a cell of that sort clashes with, where it has a conflict.
fn write_if_clashing<V: Supports, O: Sink>(
    view: &V,
    sort: SortId,
    several: bool,
    entry: Entry,
    out: &mut O,
) -> Result<(), Failed>
    requires formed { IsWellFormed (V.sheet view.now) }
    requires entry { IsEntryOf (V.sheet view.now).universe entry }
    requires value { entry.value.0 < size_of (V.sheet view.now).universe sort }
    ensures { (reason : Reasoning) → IsReasoning (V.sheet view.now) reason →
        Writes O.given O.faults out.old out.new result (conflict_line (V.sheet view.now).universe
        sort several entry.value (conflict_of reason entry)) }
{
    match conflict_of(view, entry) {
        None => Ok(()),
        Some(support) => {
            write_conflict_line(view.book(), sort, several, entry.value, support, out)
        }
    }
}

/// Writes what each of a cell's entries clashes with, oldest first.
fn write_conflict_lines<V: Supports, O: Sink>(
    view: &V,
    sort: SortId,
    entries: &[Entry],
    out: &mut O,
) -> Result<(), Failed>
    requires formed { IsWellFormed (V.sheet view.now) }
    requires entries { All (IsEntryOf (V.sheet view.now).universe) entries.now }
    requires values { HaveValuesOf (V.sheet view.now).universe sort entries.now }
    ensures { (reason : Reasoning) → IsReasoning (V.sheet view.now) reason →
        Writes O.given O.faults out.old out.new result (conflict_lines (V.sheet view.now).universe
        reason sort entries.now) }
{
    let several = are_several(entries);
    for entry in entries {
        write_if_clashing(view, sort, several, *entry, out)?;
    }
    Ok(())
}

/// Writes the lines of a cell.
fn write_cell_lines<V: Supports, O: Sink>(view: &V, cell: CellId, out: &mut O) -> Result<(), Failed>
    requires { cell.0 < length (cell_sizes (V.sheet view.now).universe) }
    ensures { (reason : Reasoning) → IsReasoning (V.sheet view.now) reason →
        Writes O.given O.faults out.old out.new result (cell_lines (V.sheet view.now) reason cell) }
{
    let book = view.book();
    let found = entries_of(book, cell);
    let entries = found.as_slice();
    write_head_line(book, cell, entries, have_conflict(view, entries), out)?;
    write_value_lines(view, cell, out)?;
    write_conflict_lines(view, sort_of(book, cell), entries, out)
}

/// Writes the display line by line: each cell with its entries, then its implied values with their reasons, then what its
/// entries clash with.
///
/// It fails only where the sink does, and has then written a front of the display.
pub fn show<V: Supports, O: Sink>(view: &V, out: &mut O) -> Result<(), Failed>
    ensures { (text : List ℕ) → IsShown (V.sheet view.now) text →
        Writes O.given O.faults out.old out.new result text }
{
    for cell in 0..view.book().cells() {
        write_cell_lines(view, CellId(cell as u16), out)?;
    }
    Ok(())
}
