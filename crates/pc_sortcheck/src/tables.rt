//! Lines that declare a table or one of its rows.
ghost use Rattle.std.specs.Prelude.{◌≡◌, ◌↔◌, ◌<◌, [], All, Contains, IsTrue, MatchResult, IsSomeAnd, length, map, slice_get, sum_by};
ghost use Rattle.pc_sheet.specs.WellFormed.{IsDeclaredSort, rows_in};
ghost use Rattle.pc_syntax.specs.Tree as tree;
ghost use Rattle.pc_syntax.specs.Tree.{value_of};
ghost use Rattle.pc_elaborate.specs.Told.{IsFaultOf};
ghost use Rattle.pc_sortcheck.specs.DeclarationFaults.{AreSortNamesFault, HasRoomForRow, IsDeclarationFault};
ghost use Rattle.pc_sortcheck.specs.Declaring.{AreSortsNamed, Declares};
ghost use Rattle.pc_sortcheck.specs.inside.Fits.{AreNoRowOf, AreRowOf, TableFits};

use crate::names::{is_name, is_new, keeps_form};
use pc_books::{Book, Name, SortId, TableId, ValueId};
use pc_elaborate::{SortFault, find_sort, find_table, find_values};
use pc_sheet::{Limited, MOST_ARGUMENTS, MOST_ROWS, MOST_TABLES};
use pc_syntax::ValueTree;
use std::alloc::Global;

/// The sorts of these names, or why there are none.
pub(crate) fn find_sorts(
    alloc: Global,
    book: &Book,
    names: &[Name],
) -> Result<Vec<SortId>, SortFault>
    ensures { MatchResult result (λ sorts. AreSortsNamed book.now.universe names.now sorts.items)
        (IsFaultOf (AreSortNamesFault book.now.universe names.now)) }
{
    let mut sorts = Vec::new(alloc);
    for name in names {
        sorts.push(find_sort(book, name)?)?;
    }
    Ok(sorts)
}

/// The tests of a table before its sorts, in their order.
fn test_table(book: &Book, name: &Name, sorts: &[Name]) -> Result<(), SortFault>
    ensures { MatchResult result (λ _. TableFits book.now name.now sorts.now)
        (IsDeclarationFault book.now (tree.table name.now sorts.now)) }
{
    if !is_new(book, name) {
        return Err(SortFault::DuplicateName);
    }
    if book.tables() >= MOST_TABLES {
        return Err(SortFault::Limit(Limited::Tables));
    }
    if sorts.is_empty() {
        return Err(SortFault::Limit(Limited::Arity));
    }
    if sorts.len() > MOST_ARGUMENTS {
        return Err(SortFault::Limit(Limited::Arity));
    }
    Ok(())
}

pub(crate) fn declare_table(
    alloc: Global,
    book: &mut Book,
    name: &Name,
    sorts: &[Name],
) -> Result<(), SortFault>
    requires { book.old.rules ≡ [] }
    ensures { MatchResult result (λ _. Declares book.old (tree.table name.now sorts.now) book.new)
        (IsFaultOf (IsDeclarationFault book.old (tree.table name.now sorts.now))) }
{
    keeps_form(book);
    is_name(name);
    test_table(book, name, sorts)?;
    let sorts = find_sorts(alloc, book, sorts)?;
    let name = name.clone()?;
    book.add_table(name, sorts)?;
    Ok(())
}

/// How many rows all tables have.
fn count_rows(book: &Book) -> usize
    ensures { result ≡ sum_by rows_in book.now.universe.tables }
{
    keeps_form(book);
    let mut rows = 0;
    for i in 0..book.tables() {
        rows += book.rows(TableId(i as u16));
    }
    rows
}

/// Whether the row stands in the table.
fn stands(book: &Book, table: TableId, row: &[ValueId]) -> bool
    requires { table.0 < length book.now.universe.tables }
    ensures { IsTrue result ↔ IsSomeAnd (slice_get book.now.universe.tables table.0) (λ declared.
        Contains declared.rows row.now) }
{
    for i in 0..book.rows(table) {
        if book.row(table, i) == row {
            return true;
        }
    }
    false
}

/// Whether the row stands already, or there is room for one more.
fn has_room_for_row(book: &Book, table: TableId, row: &[ValueId]) -> bool
    requires { table.0 < length book.now.universe.tables }
    ensures { IsTrue result ↔ HasRoomForRow book.now.universe table row.now }
{
    count_rows(book) < MOST_ROWS || stands(book, table, row)
}

/// The sorts of a table's arguments.
fn sorts_of_table(book: &Book, table: TableId) -> &[SortId]
    requires { table.0 < length book.now.universe.tables }
    ensures sorts { IsSomeAnd (slice_get book.now.universe.tables table.0) (λ declared.
        declared.sorts ≡ result.now) }
    ensures declared { All (IsDeclaredSort book.now.universe) result.now }
{
    keeps_form(book);
    book.table_sorts(table)
}

/// The row of the table that is written, or why there is none.
fn find_row(
    alloc: Global,
    book: &Book,
    table: TableId,
    values: &[ValueTree],
) -> Result<Vec<ValueId>, SortFault>
    requires { table.0 < length book.now.universe.tables }
    ensures { MatchResult result (λ row. AreRowOf book.now.universe table (map value_of values.now)
        row.items) (IsFaultOf (AreNoRowOf book.now.universe table (map value_of values.now))) }
{
    let sorts = sorts_of_table(book, table);
    if values.len() != sorts.len() {
        return Err(SortFault::WrongArity);
    }
    let mut row = Vec::new(alloc);
    for _ in 0..sorts.len() {
        row.push(ValueId(0))?;
    }
    find_values(book, sorts, values, &mut row)?;
    Ok(row)
}

pub(crate) fn declare_row(
    alloc: Global,
    book: &mut Book,
    name: &Name,
    values: &[ValueTree],
) -> Result<(), SortFault>
    requires { book.old.rules ≡ [] }
    ensures { MatchResult result
        (λ _. Declares book.old (tree.row name.now (map value_of values.now)) book.new)
        (IsFaultOf (IsDeclarationFault book.old (tree.row name.now (map value_of values.now)))) }
{
    keeps_form(book);
    let table = find_table(book, name)?;
    let row = find_row(alloc, book, table, values)?;
    if !has_room_for_row(book, table, &row) {
        return Err(SortFault::Limit(Limited::Rows));
    }
    book.add_row(table, &row)?;
    Ok(())
}
