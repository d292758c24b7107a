//! Reading what a book declares.
ghost use Rattle.std.specs.Prelude.{◌≡◌, ◌↔◌, ◌<◌, ◌≤◌, Some, IsNone, IsSomeAnd, length, slice_get, slice_index_or};
ghost use Rattle.std.specs.Option.{option_copied};
ghost use Rattle.pc_sheet.specs.Limits.{most_cells, most_values};
ghost use Rattle.pc_sheet.specs.Cells.{cells};
ghost use Rattle.pc_sheet.specs.Entailment.{cell_sizes};
ghost use Rattle.pc_sheet.specs.Sizes.{size_of, values_at};
ghost use Rattle.pc_sheet.specs.WellSorted.{IsRange, names_of_values};
ghost use Rattle.pc_books.specs.Named.{bounds_of};

use crate::book::Book;
use crate::scheme::{self, SortValues};
use pc_sheet::{CellId, FamilyId, SortId, TableId, ValueId};

impl Book {
    /// How many sorts there are.
    pub fn sorts(&self) -> usize
        ensures { result ≡ length self.now.universe.sorts }
    {
        self.scheme().sorts.len()
    }

    pub fn sort_name(&self, sort: SortId) -> &str
        requires { sort.0 < length self.now.universe.sorts }
        ensures { IsSomeAnd (slice_get self.now.universe.sorts sort.0) (λ declared.
            result.now ≡ declared.name) }
    {
        self.scheme().sorts[usize::from(sort.0)].name.as_str()
    }

    /// How many values the sort has.
    pub fn size_of(&self, sort: SortId) -> usize
        requires { sort.0 < length self.now.universe.sorts }
        ensures exact { result ≡ size_of self.now.universe sort }
        ensures few { result ≤ most_values }
    {
        scheme::size_of(self.scheme(), sort)
    }

    /// How many values the cell of that number may have, and none where there is no such cell.
    pub fn size_of_cell(&self, cell: usize) -> usize
        ensures exact { result ≡ slice_index_or (cell_sizes self.now.universe) cell 0 }
        ensures small { result ≤ most_values }
        ensures within { 0 < result → cell < most_cells }
    {
        scheme::size_at(self.scheme(), cell)
    }

    /// The bounds of a range of whole numbers, and none for a sort of listed values.
    pub fn range_of(&self, sort: SortId) -> Option<(i32, i32)>
        requires { sort.0 < length self.now.universe.sorts }
        ensures { result ≡ bounds_of (values_at self.now.universe sort) }
    {
        match &self.scheme().sorts[usize::from(sort.0)].values {
            SortValues::Listed(_) => None,
            SortValues::Range { low, high } => Some((*low, *high)),
        }
    }

    /// The name of a listed value, and none for a value of a range.
    pub fn value_name(&self, sort: SortId, value: ValueId) -> Option<&str>
        requires sort { sort.0 < length self.now.universe.sorts }
        requires value { value.0 < size_of self.now.universe sort }
        ensures name { option_copied result ≡
            slice_get (names_of_values (values_at self.now.universe sort)) value.0 }
        ensures unnamed { IsNone result ↔ IsRange (values_at self.now.universe sort) }
    {
        match &self.scheme().sorts[usize::from(sort.0)].values {
            SortValues::Listed(names) => Some(names[usize::from(value.0)].as_str()),
            SortValues::Range { .. } => None,
        }
    }

    /// How many tables there are.
    pub fn tables(&self) -> usize
        ensures { result ≡ length self.now.universe.tables }
    {
        self.scheme().tables.len()
    }

    pub fn table_name(&self, table: TableId) -> &str
        requires { table.0 < length self.now.universe.tables }
        ensures { IsSomeAnd (slice_get self.now.universe.tables table.0) (λ declared.
            result.now ≡ declared.name) }
    {
        self.scheme().tables[usize::from(table.0)].name.as_str()
    }

    /// The sorts of a table's arguments.
    pub fn table_sorts(&self, table: TableId) -> &[SortId]
        requires { table.0 < length self.now.universe.tables }
        ensures { IsSomeAnd (slice_get self.now.universe.tables table.0) (λ declared.
            result.now ≡ declared.sorts) }
    {
        self.scheme().tables[usize::from(table.0)].sorts.as_slice()
    }

    /// How many rows a table has.
    pub fn rows(&self, table: TableId) -> usize
        requires { table.0 < length self.now.universe.tables }
        ensures { IsSomeAnd (slice_get self.now.universe.tables table.0) (λ declared.
            result ≡ length declared.rows) }
    {
        self.scheme().tables[usize::from(table.0)]
            .rows
            .as_slice()
            .len()
    }

    /// A table's row, counted from 0 in the order in which the rows were added.
    pub fn row(&self, table: TableId, i: usize) -> &[ValueId]
        requires { IsSomeAnd (slice_get self.now.universe.tables table.0) (λ declared.
            i < length declared.rows) }
        ensures { IsSomeAnd (slice_get self.now.universe.tables table.0) (λ declared.
            slice_get declared.rows i ≡ Some result.now) }
    {
        self.scheme().tables[usize::from(table.0)].rows.as_slice()[i].as_slice()
    }

    /// How many families there are.
    pub fn families(&self) -> usize
        ensures { result ≡ length self.now.universe.families }
    {
        self.scheme().families.len()
    }

    pub fn family_name(&self, family: FamilyId) -> &str
        requires { family.0 < length self.now.universe.families }
        ensures { IsSomeAnd (slice_get self.now.universe.families family.0) (λ declared.
            result.now ≡ declared.name) }
    {
        self.scheme().families[usize::from(family.0)].name.as_str()
    }

    /// The sorts of a family's arguments.
    pub fn family_sorts(&self, family: FamilyId) -> &[SortId]
        requires { family.0 < length self.now.universe.families }
        ensures { IsSomeAnd (slice_get self.now.universe.families family.0) (λ declared.
            result.now ≡ declared.sorts) }
    {
        self.scheme().families[usize::from(family.0)]
            .sorts
            .as_slice()
    }

    /// The sort of the values of a family's cells.
    pub fn result_sort(&self, family: FamilyId) -> SortId
        requires { family.0 < length self.now.universe.families }
        ensures { IsSomeAnd (slice_get self.now.universe.families family.0) (λ declared.
            result ≡ declared.result_sort) }
    {
        self.scheme().families[usize::from(family.0)].result_sort
    }

    /// The family that has the cell.
    pub fn cell_family(&self, cell: CellId) -> FamilyId
        requires { cell.0 < length (cell_sizes self.now.universe) }
        ensures { IsSomeAnd (slice_get (cells self.now.universe) cell.0) (λ applied.
            result ≡ applied.family) }
    {
        scheme::family_of_cell(self.scheme(), usize::from(cell.0))
    }

    /// An argument of the cell, counted from 0.
    pub fn cell_arg(&self, cell: CellId, i: usize) -> ValueId
        requires cell { cell.0 < length (cell_sizes self.now.universe) }
        requires argument { IsSomeAnd (slice_get (cells self.now.universe) cell.0) (λ applied.
            i < length applied.arguments) }
        ensures { IsSomeAnd (slice_get (cells self.now.universe) cell.0) (λ applied.
            slice_get applied.arguments i ≡ Some result) }
    {
        scheme::argument_of(self.scheme(), usize::from(cell.0), i)
    }
}
