//! What written values and cells stand for in a book.
ghost use Rattle.std.specs.Prelude.{◌≡◌, ◌≤◌, ◌<◌, IfOk, All, length, map};
ghost use Rattle.pc_formula.specs.Tree.{cell_of, value_of, name_value, integer_value};
ghost use Rattle.pc_sheet.specs.Limits.{most_arguments};
ghost use Rattle.pc_sheet.specs.Entailment.{cell_sizes, AreWithin};
ghost use Rattle.pc_sheet.specs.Sizes.{size_of};
ghost use Rattle.pc_sheet.specs.WellFormed.{IsDeclaredSort, IsEntryOf};
ghost use Rattle.pc_sheet.specs.declared.ids.SortId.{SortId};
ghost use Rattle.pc_sheet.specs.declared.ids.CellId.{CellId};
ghost use Rattle.pc_elaborate.specs.Elaboration.{AreValuesOf, IsCell, StandsForValue, TakesArguments};
ghost use Rattle.pc_elaborate.specs.FormulaFaults.{AreValuesFault, IsCellFault, IsValueFault};
ghost use Rattle.pc_elaborate.specs.Outcome.{IsApplicationTold, IsFoundOrFault, TellsFound, TellsValues, sort_of_cell};

use crate::fault::SortFault;
use crate::names::{find_family, name_fault, value_named};
use pc_books::{Book, CellId, FamilyId, Name, SortId, ValueId, well_formed};
use pc_formula::{CellTree, ValueTree};
use pc_sheet::cells_are_numbered_in_order;

/// The listed value of the sort that a name stands for, or why there is none.
fn find_listed(book: &Book, sort: SortId, name: &Name) -> Result<ValueId, SortFault>
    ensures { IsFoundOrFault (StandsForValue book.now.universe sort (name_value name.now))
        (IsValueFault book.now.universe sort (name_value name.now)) result }
{
    let Some((found, value)) = value_named(book, name) else {
        return Err(name_fault(book, name));
    };
    if found != sort {
        return Err(SortFault::WrongSort);
    }
    Ok(value)
}

/// The value of the sort that a whole number stands for, or why there is none.
pub(crate) fn find_integer(book: &Book, sort: SortId, n: i64) -> Result<ValueId, SortFault>
    requires { sort.0 < length book.now.universe.sorts }
    ensures { IsFoundOrFault (StandsForValue book.now.universe sort (integer_value n))
        (IsValueFault book.now.universe sort (integer_value n)) result }
{
    well_formed(book);
    let Some((low, high)) = book.range_of(sort) else {
        return Err(SortFault::WrongSort);
    };
    if n < i64::from(low) || i64::from(high) < n {
        return Err(SortFault::NotAValue);
    }
    Ok(ValueId((n - i64::from(low)) as u16))
}

/// The value of the sort that is written, or why there is none.
pub fn find_sort_value(book: &Book, sort: SortId, value: &ValueTree) -> Result<ValueId, SortFault>
    requires { sort.0 < length book.now.universe.sorts }
    ensures exact { TellsFound (StandsForValue book.now.universe sort (value_of value.now))
        (IsValueFault book.now.universe sort (value_of value.now)) result }
    ensures within { IfOk result (λ v. v.0 < size_of book.now.universe sort) }
{
    well_formed(book);
    match value {
        ValueTree::Name(name) => find_listed(book, sort, name),
        ValueTree::Number(n) => find_integer(book, sort, *n),
    }
}

/// Writes the values of these sorts that are written, or answers why there are none.
pub fn find_values(
    book: &Book,
    sorts: &[SortId],
    values: &[ValueTree],
    into: &mut [ValueId],
) -> Result<(), SortFault>
    requires sorts { All (IsDeclaredSort book.now.universe) sorts.now }
    requires count { length values.now ≡ length sorts.now }
    requires room { length into.old ≡ length sorts.now }
    ensures exact { TellsValues (AreValuesOf book.now.universe sorts.now (map value_of values.now))
        (AreValuesFault book.now.universe sorts.now (map value_of values.now)) into.new result }
    ensures within { IfOk result (λ done. AreWithin (map (size_of book.now.universe) sorts.now)
        into.new) }
{
    well_formed(book);
    for i in 0..sorts.len() {
        into[i] = find_sort_value(book, sorts[i], &values[i])?;
    }
    Ok(())
}

/// The sorts of a family's arguments, at most four.
pub(crate) fn argument_sorts(book: &Book, family: FamilyId) -> &[SortId]
    requires { family.0 < length book.now.universe.families }
    ensures takes { TakesArguments book.now.universe family result.now }
    ensures few { length result.now ≤ most_arguments }
    ensures declared { All (IsDeclaredSort book.now.universe) result.now }
{
    well_formed(book);
    book.family_sorts(family)
}

/// The family's cell at the arguments that are written, or why there is none.
fn find_application(book: &Book, family: FamilyId, args: &[ValueTree]) -> Result<CellId, SortFault>
    requires { family.0 < length book.now.universe.families }
    ensures { IsApplicationTold book.now.universe family (map value_of args.now) result }
{
    let sorts = argument_sorts(book, family);
    if args.len() != sorts.len() {
        return Err(SortFault::WrongArity);
    }
    let mut values = [ValueId(0); 4];
    find_values(book, sorts, args, &mut values[..sorts.len()])?;
    match book.cell_at(family, &values[..sorts.len()]) {
        Some(cell) => Ok(cell),
        None => unreachable!(),
    }
}

/// The cell that is written, or why there is none.
pub fn find_cell(book: &Book, cell: &CellTree) -> Result<CellId, SortFault>
    ensures exact { TellsFound (λ c. IsCell book.now.universe (cell_of cell.now) c
        (sort_of_cell book.now.universe c)) (IsCellFault book.now.universe (cell_of cell.now))
        result }
    ensures sort { (c : CellId) (s : SortId) → IsCell book.now.universe (cell_of cell.now) c s →
        s ≡ sort_of_cell book.now.universe c }
    ensures within { IfOk result (λ c. c.0 < length (cell_sizes book.now.universe)) }
{
    well_formed(book);
    cells_are_numbered_in_order();
    let family = find_family(book, &cell.name)?;
    find_application(book, family, &cell.args)
}

/// The value of the cell's sort that is written, or why there is none.
pub fn find_value(book: &Book, cell: CellId, value: &ValueTree) -> Result<ValueId, SortFault>
    requires { cell.0 < length (cell_sizes book.now.universe) }
    ensures exact { TellsFound
        (StandsForValue book.now.universe (sort_of_cell book.now.universe cell)
        (value_of value.now)) (IsValueFault book.now.universe (sort_of_cell book.now.universe cell)
        (value_of value.now)) result }
    ensures entry { IfOk result
        (λ v. IsEntryOf book.now.universe (record { cell = cell; value = v })) }
{
    well_formed(book);
    cells_are_numbered_in_order();
    find_sort_value(book, book.result_sort(book.cell_family(cell)), value)
}
