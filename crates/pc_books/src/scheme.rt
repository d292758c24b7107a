//! The declarations that a book keeps, with counts of cells beside the families.
ghost use Rattle.std.specs.Prelude.{◌≡◌, ◌+◌, ◌^◌, ◌<◌, ◌≤◌, IfSome, IsSomeAnd, Some, length, map, slice_get, slice_index_or, take, sum_by};
ghost use Rattle.std.specs.Option.{SomeIff};
ghost use Rattle.pc_sheet.specs.Limits.{most_arguments, most_cells, most_families, most_values};
ghost use Rattle.pc_sheet.specs.Cells.{IsApplication, cells};
ghost use Rattle.pc_sheet.specs.Entailment.{AreWithin, cell_sizes};
ghost use Rattle.pc_sheet.specs.Sizes.{size_of, argument_sorts, result_sort_of, cell_number, cells_in, product, rank_from};
ghost use Rattle.pc_books.specs.SchemeView.{universe_of};
ghost use Rattle.pc_books.specs.Sound.{IsSound};
ghost use Rattle.pc_books.specs.Tuples.{tuple_at};

use crate::rows::Rows;
use pc_sheet::{FamilyId, Name, SortId, ValueId, cells_are_numbered_in_order};

/// The values of a sort: names, or the whole numbers from the low one to the high one.
#[derive(Drop)]
pub enum SortValues {
    Listed(Vec<Name>),
    Range { low: i32, high: i32 },
}

#[derive(Drop)]
pub struct SortDecl {
    pub name: Name,
    pub values: SortValues,
}

#[derive(Drop)]
pub struct TableDecl {
    pub name: Name,
    pub sorts: Vec<SortId>,
    pub rows: Rows,
}

#[derive(Drop)]
pub struct FamilyDecl {
    pub name: Name,
    pub sorts: Vec<SortId>,
    pub result_sort: SortId,
    /// How many cells the families before this one have.
    pub first: usize,
    /// How many cells this one has.
    pub cells: usize,
}

/// The sorts, tables and families of a book.
#[derive(Drop)]
pub struct Scheme {
    pub sorts: Vec<SortDecl>,
    pub tables: Vec<TableDecl>,
    pub families: Vec<FamilyDecl>,
    /// How many cells all families have.
    pub cells: usize,
}

/// How many values a sort has.
pub fn size_of(scheme: &Scheme, sort: SortId) -> usize
    requires { IsSound scheme.now }
    ensures exact { result ≡ size_of (universe_of scheme.now) sort }
    ensures small { result ≤ most_values }
{
    match scheme.sorts.get(usize::from(sort.0)) {
        None => 0,
        Some(decl) => match &decl.values {
            SortValues::Listed(names) => names.len(),
            SortValues::Range { low, high } => high.abs_diff(*low) as usize + 1,
        },
    }
}

pub fn argument_sorts(scheme: &Scheme, family: FamilyId) -> &[SortId]
    requires { IsSound scheme.now }
    ensures small { length result.now ≤ most_arguments }
    ensures exact { result.now ≡
        argument_sorts (slice_get (universe_of scheme.now).families family.0) }
{
    match scheme.families.get(usize::from(family.0)) {
        None => &[],
        Some(decl) => decl.sorts.as_slice(),
    }
}

pub fn result_sort(scheme: &Scheme, family: FamilyId) -> SortId
    ensures { result ≡ result_sort_of (slice_get (universe_of scheme.now).families family.0) }
{
    match scheme.families.get(usize::from(family.0)) {
        None => SortId(0),
        Some(decl) => decl.result_sort,
    }
}

/// How many cells the families before this one have.
pub fn first_cell(scheme: &Scheme, family: FamilyId) -> usize
    requires { IsSound scheme.now }
    ensures exact { result ≡ sum_by (cells_in (universe_of scheme.now))
        (take family.0 (universe_of scheme.now).families) }
    ensures small { result ≤ most_cells }
{
    match scheme.families.get(usize::from(family.0)) {
        None => scheme.cells,
        Some(decl) => decl.first,
    }
}

/// The place of the family that has the cell, by halving.
pub fn family_at(scheme: &Scheme, cell: usize) -> usize
    requires sound { IsSound scheme.now }
    requires cell { cell < scheme.now.cells }
    ensures within { result < length scheme.now.families.items }
    ensures after { sum_by (cells_in (universe_of scheme.now))
        (take result (universe_of scheme.now).families) ≤ cell }
    ensures before { cell < sum_by (cells_in (universe_of scheme.now))
        (take (result + 1) (universe_of scheme.now).families) }
{
    let mut low = 0;
    let mut high = scheme.families.len();
    while high - low > 1 {
        let middle = low + (high - low) / 2;
        if scheme.families[middle].first <= cell {
            low = middle;
        } else {
            high = middle;
        }
    }
    low
}

/// How many values a cell may have.
pub fn values_of_cell(scheme: &Scheme, cell: usize) -> usize
    requires sound { IsSound scheme.now }
    requires cell { cell < scheme.now.cells }
    ensures exact { slice_get (cell_sizes (universe_of scheme.now)) cell ≡ Some result }
    ensures small { result ≤ most_values }
{
    let family = family_at(scheme, cell);
    size_of(scheme, scheme.families[family].result_sort)
}

/// How many values the cell may have, and none where there is no such cell.
pub fn size_at(scheme: &Scheme, cell: usize) -> usize
    requires { IsSound scheme.now }
    ensures exact { result ≡ slice_index_or (cell_sizes (universe_of scheme.now)) cell 0 }
    ensures small { result ≤ most_values }
    ensures within { 0 < result → cell < most_cells }
{
    if cell < scheme.cells {
        values_of_cell(scheme, cell)
    } else {
        0
    }
}

/// How many tuples of arguments of these sorts there are.
pub fn count_tuples(scheme: &Scheme, sorts: &[SortId]) -> usize
    requires sound { IsSound scheme.now }
    requires arity { length sorts.now ≤ most_arguments }
    ensures exact { result ≡ product (map (size_of (universe_of scheme.now)) sorts.now) }
    ensures small { result ≤ 2 ^ 32 }
{
    let mut tuples = 1;
    for sort in sorts {
        tuples *= size_of(scheme, *sort);
    }
    tuples
}

/// The place of a tuple among all tuples of values of these sorts, the first part slowest, if it is one of them.
pub fn rank_of(scheme: &Scheme, sorts: &[SortId], args: &[ValueId]) -> Option<usize>
    requires sound { IsSound scheme.now }
    requires arity { length sorts.now ≤ most_arguments }
    ensures exact { SomeIff result (AreWithin (map (size_of (universe_of scheme.now)) sorts.now)
        args.now) (rank_from 0 (map (size_of (universe_of scheme.now)) sorts.now) args.now) }
{
    if args.len() != sorts.len() {
        return None;
    }
    let mut rank = 0;
    for (i, arg) in args.iter().enumerate() {
        let size = size_of(scheme, sorts[i]);
        let place = usize::from(arg.0);
        if place >= size {
            return None;
        }
        rank = rank * size + place;
    }
    Some(rank)
}

/// The number of the family's cell at these arguments, if they fit.
pub fn cell_at(scheme: &Scheme, family: FamilyId, args: &[ValueId]) -> Option<usize>
    requires sound { IsSound scheme.now }
    ensures exact { SomeIff result
        (IsApplication (universe_of scheme.now) (record { family = family; arguments = args.now }))
        (cell_number (universe_of scheme.now) family args.now) }
    ensures within { IfSome result (λ cell. cell < scheme.now.cells) }
{
    let Some(decl) = scheme.families.get(usize::from(family.0)) else {
        return None;
    };
    match rank_of(scheme, &decl.sorts, args) {
        None => None,
        Some(rank) => Some(decl.first + rank),
    }
}

/// A part of the tuple at a place among all tuples of values of these sorts.
pub fn part_at(scheme: &Scheme, sorts: &[SortId], place: usize, i: usize) -> ValueId
    requires sound { IsSound scheme.now }
    requires arity { length sorts.now ≤ most_arguments }
    requires place { place < product (map (size_of (universe_of scheme.now)) sorts.now) }
    requires part { i < length sorts.now }
    ensures { slice_get (tuple_at (map (size_of (universe_of scheme.now)) sorts.now) place) i ≡
        Some result }
{
    let mut rest = place;
    for j in 0..i {
        let later = count_tuples(scheme, &sorts[j + 1..]);
        rest %= later;
    }
    let later = count_tuples(scheme, &sorts[i + 1..]);
    ValueId((rest / later) as u16)
}

/// An argument of a cell, counted from 0.
pub fn argument_of(scheme: &Scheme, cell: usize, i: usize) -> ValueId
    requires sound { IsSound scheme.now }
    requires cell { cell < scheme.now.cells }
    requires argument { IsSomeAnd (slice_get (cells (universe_of scheme.now)) cell)
        (λ c. i < length c.arguments) }
    ensures { IsSomeAnd (slice_get (cells (universe_of scheme.now)) cell)
        (λ c. slice_get c.arguments i ≡ Some result) }
{
    cells_are_numbered_in_order();
    let family = &scheme.families[family_at(scheme, cell)];
    part_at(scheme, &family.sorts, cell - family.first, i)
}

/// The number of the family that has the cell.
pub fn family_of_cell(scheme: &Scheme, cell: usize) -> FamilyId
    requires sound { IsSound scheme.now }
    requires cell { cell < scheme.now.cells }
    requires few { length scheme.now.families.items ≤ most_families }
    ensures { IsSomeAnd (slice_get (cells (universe_of scheme.now)) cell) (λ c. result ≡ c.family) }
{
    cells_are_numbered_in_order();
    FamilyId(family_at(scheme, cell) as u16)
}
