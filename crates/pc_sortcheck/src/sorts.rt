//! Lines that declare a sort.
ghost use Rattle.std.specs.Prelude.{◌≡◌, ◌↔◌, ◌<◌, [], IsTrue, MatchResult, length};
ghost use Rattle.pc_sheet.specs.Limits.{most_sorts};
ghost use Rattle.pc_sheet.specs.WellSorted.{IsSmallNumber};
ghost use Rattle.pc_syntax.specs.Tree as tree;
ghost use Rattle.pc_elaborate.specs.Told.{IsFaultOf};
ghost use Rattle.pc_sortcheck.specs.DeclarationFaults.{IsDeclarationFault};
ghost use Rattle.pc_sortcheck.specs.Declaring.{Declares};
ghost use Rattle.pc_sortcheck.specs.inside.Fits.{ListFits, RangeFits};

use crate::names::{are_names, are_new_values, is_name, is_new, keeps_form};
use pc_books::{Book, Name, copy_names};
use pc_elaborate::SortFault;
use pc_sheet::{LARGEST_NUMBER, Limited, MOST_SORTS, MOST_VALUES};
use std::alloc::Global;

/// Whether there is room for one more sort.
fn has_room_for_sort(book: &Book) -> bool
    ensures { IsTrue result ↔ (length book.now.universe.sorts < most_sorts) }
{
    book.sorts() < MOST_SORTS
}

/// The tests of a listed sort, in their order.
fn test_list(book: &Book, name: &Name, values: &[Name]) -> Result<(), SortFault>
    ensures { MatchResult result (λ _. ListFits book.now name.now values.now)
        (IsDeclarationFault book.now (tree.list_sort name.now values.now)) }
{
    if !is_new(book, name) {
        return Err(SortFault::DuplicateName);
    }
    if !has_room_for_sort(book) {
        return Err(SortFault::Limit(Limited::Sorts));
    }
    if values.is_empty() {
        return Err(SortFault::EmptySort);
    }
    if values.len() > MOST_VALUES {
        return Err(SortFault::Limit(Limited::Values));
    }
    if !are_new_values(book, name, values) {
        return Err(SortFault::DuplicateName);
    }
    Ok(())
}

pub(crate) fn declare_list(
    alloc: Global,
    book: &mut Book,
    name: &Name,
    values: &[Name],
) -> Result<(), SortFault>
    requires { book.old.rules ≡ [] }
    ensures { MatchResult result (λ _. Declares book.old (tree.list_sort name.now values.now)
        book.new) (IsFaultOf (IsDeclarationFault book.old (tree.list_sort name.now values.now))) }
{
    keeps_form(book);
    is_name(name);
    are_names(values);
    test_list(book, name, values)?;
    let values = copy_names(alloc, values)?;
    let name = name.clone()?;
    book.add_list(name, values)?;
    Ok(())
}

/// Whether the number may be a bound of a range.
fn is_small_number(number: i64) -> bool
    ensures { IsTrue result ↔ IsSmallNumber number }
{
    -LARGEST_NUMBER <= number && number <= LARGEST_NUMBER
}

/// The number, which a bound of a range may be.
fn bound(number: i64) -> i32
    requires { IsSmallNumber number }
    ensures { result ≡ number }
{
    number as i32
}

/// The tests of a range, in their order.
fn test_range(book: &Book, name: &Name, low: i64, high: i64) -> Result<(), SortFault>
    ensures { MatchResult result (λ _. RangeFits book.now name.now low high)
        (IsDeclarationFault book.now (tree.range_sort name.now low high)) }
{
    if !is_new(book, name) {
        return Err(SortFault::DuplicateName);
    }
    if !has_room_for_sort(book) {
        return Err(SortFault::Limit(Limited::Sorts));
    }
    if !is_small_number(low) {
        return Err(SortFault::Limit(Limited::Number));
    }
    if !is_small_number(high) {
        return Err(SortFault::Limit(Limited::Number));
    }
    if high < low {
        return Err(SortFault::EmptySort);
    }
    if high - low > 255 {
        return Err(SortFault::Limit(Limited::Values));
    }
    Ok(())
}

pub(crate) fn declare_range(
    book: &mut Book,
    name: &Name,
    low: i64,
    high: i64,
) -> Result<(), SortFault>
    requires { book.old.rules ≡ [] }
    ensures { MatchResult result (λ _. Declares book.old (tree.range_sort name.now low high)
        book.new) (IsFaultOf (IsDeclarationFault book.old (tree.range_sort name.now low high))) }
{
    keeps_form(book);
    is_name(name);
    test_range(book, name, low, high)?;
    let name = name.clone()?;
    let low = bound(low);
    let high = bound(high);
    book.add_range(name, low, high)?;
    Ok(())
}
