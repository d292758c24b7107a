// The display as JSON.
ghost use Rattle.std.specs.Prelude.{◌≡◌, ◌<◌, ◌++◌, ℕ, All, IfOk, List, OnOk, Some, length, map, string_bytes};
ghost use Rattle.serde_json.specs.Data.{Data};
ghost use Rattle.serde_json.specs.Read.{read};
ghost use Rattle.serde_json.specs.View.{view as data_of};
ghost use Rattle.pc_sheet.specs.Entailment.{cell_sizes};
ghost use Rattle.pc_sheet.specs.Sizes.{size_of};
ghost use Rattle.pc_sheet.specs.WellFormed.{IsEntryOf, IsWellFormed};
ghost use Rattle.pc_writer.specs.Spelling.{sort_of};
ghost use Rattle.pc_display.specs.Supports.{IsReasoning, Reasoning};
ghost use Rattle.pc_display.specs.Show.{conflict_of, reason_of};
ghost use Rattle.pc_display.specs.Json.{all_implied_data, array_of, cell_data, conflict_data, conflicts_data, entered_data, entries_data, implied_data, object_data, one_or_all, reasoned_data, sheet_data, IsJson, IsJsonData};
ghost use Rattle.pc_display.specs.inside.Entered.{HaveValuesOf};

use crate::cell_entries::entries_of;
use crate::display::conflict_of;
use crate::supports::Supports;
use crate::texts::{cell_text, entry_text, value_text};
use pc_books::Book;
use pc_sheet::{CellId, Entry, SortId, Target, ValueId};
use pc_writer::sort_of;
use serde_json::{Value, json};
use std::alloc::{AllocError, Global};

/// Entries by their texts.
fn entries_json(alloc: Global, book: &Book, entries: &[Entry]) -> Result<Value, AllocError>
    requires formed { IsWellFormed book.now }
    requires entries { All (IsEntryOf book.now.universe) entries.now }
    ensures { IfOk result (λ found. data_of found ≡ entries_data book.now.universe entries.now) }
{
    let mut list = Vec::new(alloc);
    for entry in entries {
        list.push(Value::String(entry_text(alloc, book, *entry)?))?;
    }
    Ok(Value::Array(list))
}

/// Null for none, one as it is, and an array of several.
fn one_or_all(mut list: Vec<Value>) -> Value
    ensures { data_of result ≡ one_or_all (map data_of list.items) }
{
    if list.len() > 1 {
        return Value::Array(list);
    }
    match list.pop() {
        None => Value::Null,
        Some(value) => value,
    }
}

/// What an entry clashes with, or null where it has no conflict.
fn conflict_json<V: Supports>(alloc: Global, view: &V, entry: Entry) -> Result<Value, AllocError>
    requires formed { IsWellFormed (V.sheet view.now) }
    requires entry { IsEntryOf (V.sheet view.now).universe entry }
    ensures { (reason : Reasoning) → IsReasoning (V.sheet view.now) reason →
        IfOk result (λ found. data_of found ≡ conflict_data (V.sheet view.now).universe
        (conflict_of reason entry)) }
{
    match conflict_of(view, entry) {
        None => Ok(Value::Null),
        Some(support) => entries_json(alloc, view.book(), support),
    }
}

/// What the cell's entries clash with.
fn conflicts_json<V: Supports>(
    alloc: Global,
    view: &V,
    entries: &[Entry],
) -> Result<Value, AllocError>
    requires formed { IsWellFormed (V.sheet view.now) }
    requires entries { All (IsEntryOf (V.sheet view.now).universe) entries.now }
    ensures { (reason : Reasoning) → IsReasoning (V.sheet view.now) reason →
        IfOk result (λ found. data_of found ≡ conflicts_data (V.sheet view.now).universe reason
        entries.now) }
{
    let mut list = Vec::new(alloc);
    for entry in entries {
        list.push(conflict_json(alloc, view, *entry)?)?;
    }
    Ok(one_or_all(list))
}

/// The values of the entries of a cell of that sort.
fn entered_json(
    alloc: Global,
    book: &Book,
    sort: SortId,
    entries: &[Entry],
) -> Result<Value, AllocError>
    requires formed { IsWellFormed book.now }
    requires values { HaveValuesOf book.now.universe sort entries.now }
    ensures { IfOk result (λ found. data_of found ≡ entered_data book.now.universe sort
        entries.now) }
{
    let mut list = Vec::new(alloc);
    for entry in entries {
        let text = value_text(alloc, book, sort, entry.value)?;
        list.push(Value::String(text))?;
    }
    Ok(one_or_all(list))
}

fn reasoned_json(alloc: Global, because: Value, value: String) -> Result<Value, AllocError>
    ensures { IfOk result (λ found. data_of found ≡ reasoned_data (data_of because)
        (string_bytes value)) }
{
    json!(in alloc; {"because": because, "value": value})
}

fn object_json(
    alloc: Global,
    cell: String,
    conflict: Value,
    entry: Value,
    implied: Value,
) -> Result<Value, AllocError>
    ensures { IfOk result (λ found. data_of found ≡ object_data (string_bytes cell)
        (data_of conflict) (data_of entry) (data_of implied)) }
{
    json!(in alloc; {"cell": cell, "conflict": conflict, "entry": entry, "implied": implied})
}

/// Appends a value of the cell with its reason, where it is implied.
fn push_if_implied<V: Supports>(
    alloc: Global,
    view: &V,
    cell: CellId,
    value: ValueId,
    list: &mut Vec<Value>,
) -> Result<(), AllocError>
    requires formed { IsWellFormed (V.sheet view.now) }
    requires cell { cell.0 < length (cell_sizes (V.sheet view.now).universe) }
    requires value { value.0 < size_of (V.sheet view.now).universe
        (sort_of (V.sheet view.now).universe cell) }
    ensures { (reason : Reasoning) → IsReasoning (V.sheet view.now) reason →
        OnOk result (map data_of list.new.items ≡ map data_of list.old.items ++
        implied_data (V.sheet view.now).universe (sort_of (V.sheet view.now).universe cell) value
        (reason_of reason cell value)) }
{
    let target = Target {
        cell,
        value,
        holds: true,
    };
    match view.support(target) {
        None => Ok(()),
        Some(support) => {
            let book = view.book();
            let because = entries_json(alloc, book, support)?;
            let text = value_text(alloc, book, sort_of(book, cell), value)?;
            list.push(reasoned_json(alloc, because, text)?)?;
            Ok(())
        }
    }
}

/// The cell's implied values, in their sort's order.
fn values_json<V: Supports>(alloc: Global, view: &V, cell: CellId) -> Result<Value, AllocError>
    requires formed { IsWellFormed (V.sheet view.now) }
    requires cell { cell.0 < length (cell_sizes (V.sheet view.now).universe) }
    ensures { (reason : Reasoning) → IsReasoning (V.sheet view.now) reason →
        IfOk result (λ found. data_of found ≡
        array_of (all_implied_data (V.sheet view.now).universe reason cell)) }
{
    let mut list = Vec::new(alloc);
    for value in 0..view.book().values_of(cell) {
        push_if_implied(alloc, view, cell, ValueId(value as u16), &mut list)?;
    }
    Ok(Value::Array(list))
}

fn cell_json<V: Supports>(alloc: Global, view: &V, cell: CellId) -> Result<Value, AllocError>
    requires { cell.0 < length (cell_sizes (V.sheet view.now).universe) }
    ensures { (reason : Reasoning) → IsReasoning (V.sheet view.now) reason →
        IfOk result (λ found. data_of found ≡ cell_data (V.sheet view.now) reason cell) }
{
    let book = view.book();
    let found = entries_of(book, cell);
    let entries = found.as_slice();
    let conflict = conflicts_json(alloc, view, entries)?;
    let entered = entered_json(alloc, book, sort_of(book, cell), entries)?;
    let implied = values_json(alloc, view, cell)?;
    object_json(
        alloc,
        cell_text(alloc, book, cell)?,
        conflict,
        entered,
        implied,
    )
}

fn cells_json<V: Supports>(alloc: Global, view: &V) -> Result<Value, AllocError>
    ensures { (reason : Reasoning) → IsReasoning (V.sheet view.now) reason →
        IfOk result (λ found. data_of found ≡ sheet_data (V.sheet view.now) reason) }
{
    let mut list = Vec::new(alloc);
    for cell in 0..view.book().cells() {
        list.push(cell_json(alloc, view, CellId(cell as u16))?)?;
    }
    Ok(Value::Array(list))
}

/// The display as JSON, in one line without its end: an array with an object for each cell, which has its entries, what they
/// clash with, and its implied values with their reasons.
///
/// It fails only for want of memory.
pub fn json<V: Supports>(alloc: Global, view: &V) -> Result<String, AllocError>
    ensures text { (text : List ℕ) → IsJson (V.sheet view.now) text →
        IfOk result (λ found. string_bytes found ≡ text) }
    ensures reads_back { (whole : Data) → IsJsonData (V.sheet view.now) whole →
        IfOk result (λ found. read (string_bytes found) ≡ Some whole) }
{
    cells_json(alloc, view)?.to_string(alloc)
}
