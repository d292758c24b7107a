//! Lines that declare a family.
ghost use Rattle.std.specs.Prelude.{◌≡◌, ◌↔◌, ◌+◌, ◌≤◌, ◌^◌, ℕ, List, [], All, IsTrue, MatchResult, length, map};
ghost use Rattle.pc_sheet.specs.Limits.{most_arguments, most_cells, most_values};
ghost use Rattle.pc_sheet.specs.Sizes.{product, size_of};
ghost use Rattle.pc_sheet.specs.Entailment.{cell_sizes};
ghost use Rattle.pc_sheet.specs.WellFormed.{IsDeclaredSort};
ghost use Rattle.pc_syntax.specs.Tree as tree;
ghost use Rattle.pc_elaborate.specs.Told.{IsFaultOf};
ghost use Rattle.pc_sortcheck.specs.DeclarationFaults.{IsDeclarationFault};
ghost use Rattle.pc_sortcheck.specs.Declaring.{Declares};
ghost use Rattle.pc_sortcheck.specs.inside.Fits.{FamilyFits};

use crate::names::{is_name, is_new, keeps_form};
use crate::tables::find_sorts;
use pc_books::{Book, Name, SortId};
use pc_elaborate::{SortFault, find_sort};
use pc_sheet::{Limited, MOST_ARGUMENTS, MOST_CELLS, MOST_FAMILIES};
use std::alloc::Global;

/// The tests of a family before its sorts, in their order.
fn test_family(book: &Book, name: &Name, sorts: &[Name]) -> Result<(), SortFault>
    ensures { MatchResult result (λ _. FamilyFits book.now name.now sorts.now) (λ e. (t : List ℕ) →
        IsDeclarationFault book.now (tree.cell name.now sorts.now t) e) }
{
    if !is_new(book, name) {
        return Err(SortFault::DuplicateName);
    }
    if book.families() >= MOST_FAMILIES {
        return Err(SortFault::Limit(Limited::Families));
    }
    if sorts.len() > MOST_ARGUMENTS {
        return Err(SortFault::Limit(Limited::Arity));
    }
    Ok(())
}

/// How many values a sort has.
fn size_of_sort(book: &Book, sort: SortId) -> usize
    requires { IsDeclaredSort book.now.universe sort }
    ensures exact { result ≡ size_of book.now.universe sort }
    ensures few { result ≤ most_values }
{
    keeps_form(book);
    book.size_of(sort)
}

/// How many tuples of arguments of these sorts there are.
fn count_tuples(book: &Book, sorts: &[SortId]) -> usize
    requires arity { length sorts.now ≤ most_arguments }
    requires declared { All (IsDeclaredSort book.now.universe) sorts.now }
    ensures exact { result ≡ product (map (size_of book.now.universe) sorts.now) }
    ensures small { result ≤ 2 ^ 32 }
{
    let mut tuples = 1;
    for sort in sorts {
        tuples *= size_of_sort(book, *sort);
    }
    tuples
}

/// Whether the cells of a family with these arguments fit behind those that stand.
fn has_room_for_cells(book: &Book, sorts: &[SortId]) -> bool
    requires arity { length sorts.now ≤ most_arguments }
    requires declared { All (IsDeclaredSort book.now.universe) sorts.now }
    ensures { IsTrue result ↔
        (length (cell_sizes book.now.universe) +
        product (map (size_of book.now.universe) sorts.now) ≤ most_cells) }
{
    book.cells() + count_tuples(book, sorts) <= MOST_CELLS
}

pub(crate) fn declare_cell(
    alloc: Global,
    book: &mut Book,
    name: &Name,
    sorts: &[Name],
    result_sort: &Name,
) -> Result<(), SortFault>
    requires { book.old.rules ≡ [] }
    ensures { MatchResult result
        (λ _. Declares book.old (tree.cell name.now sorts.now result_sort.now) book.new)
        (IsFaultOf (IsDeclarationFault book.old (tree.cell name.now sorts.now result_sort.now))) }
{
    keeps_form(book);
    is_name(name);
    test_family(book, name, sorts)?;
    let sorts = find_sorts(alloc, book, sorts)?;
    let result_sort = find_sort(book, result_sort)?;
    if !has_room_for_cells(book, &sorts) {
        return Err(SortFault::Limit(Limited::Cells));
    }
    let name = name.clone()?;
    book.add_family(name, sorts, result_sort)?;
    Ok(())
}
