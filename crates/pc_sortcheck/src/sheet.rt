//! The book of a sheet's declarations.
ghost use Rattle.std.specs.Prelude.{◌≡◌, ℕ, true, [], MatchResult};
ghost use Rattle.pc_sheet.specs.Sheet.{Sheet};
ghost use Rattle.pc_syntax.specs.Sheet.{HasUniverseFirst, is_of_universe};
ghost use Rattle.pc_syntax.specs.Sized.{HasNestedRules, HasSizedRules};
ghost use Rattle.pc_syntax.specs.Tree.{declared_of, sheet_of};
ghost use Rattle.pc_elaborate.specs.Told.{IsFaultOf, IsWantOfMemory};
ghost use Rattle.pc_elaborate.specs.declared.fault.SortFault.{SortFault};
ghost use Rattle.pc_sortcheck.specs.DeclarationFaults.{IsDeclarationFault, IsSheetFault};
ghost use Rattle.pc_sortcheck.specs.Declaring.{Declares, IsSheetOf};
ghost use Rattle.pc_sortcheck.specs.inside.Fits.{HasWrittenRule};

use crate::cells::declare_cell;
use crate::entries::{declare_entry, declare_further_entry};
use crate::fault::SheetSortFault;
use crate::rule::declare_rule;
use crate::sorts::{declare_list, declare_range};
use crate::tables::{declare_row, declare_table};
use pc_books::Book;
use pc_elaborate::{SortFault, trees_have_one_outcome};
use pc_syntax::{Declaration, SheetTree};
use std::alloc::Global;

/// Declares one more thing in the book.
fn declare(alloc: Global, book: &mut Book, declaration: &Declaration) -> Result<(), SortFault>
    requires first { is_of_universe (declared_of declaration.now) ≡ true → book.old.rules ≡ [] }
    requires written { HasWrittenRule (declared_of declaration.now) }
    ensures { MatchResult result (λ _. Declares book.old (declared_of declaration.now) book.new)
        (IsFaultOf (IsDeclarationFault book.old (declared_of declaration.now))) }
{
    match declaration {
        Declaration::ListSort { name, values } => declare_list(alloc, book, name, values),
        Declaration::RangeSort { name, low, high } => declare_range(book, name, *low, *high),
        Declaration::Table { name, sorts } => declare_table(alloc, book, name, sorts),
        Declaration::Row { table, values } => declare_row(alloc, book, table, values),
        Declaration::Cell {
            name,
            sorts,
            result,
        } => declare_cell(alloc, book, name, sorts, result),
        Declaration::Rule(rule) => declare_rule(alloc, book, rule),
        Declaration::Enter(cell, value) => declare_entry(book, cell, value),
        Declaration::Also(cell, value) => declare_further_entry(book, cell, value),
    }
}

/// Declares what the lines declare, one after another, as far as the first fault.
fn declare_all(alloc: Global, tree: &SheetTree) -> Result<Book, SheetSortFault>
    requires ordered { HasUniverseFirst (sheet_of tree.now) }
    requires sized { HasSizedRules (sheet_of tree.now) }
    requires nested { HasNestedRules (sheet_of tree.now) }
    ensures { MatchResult result (IsSheetOf (sheet_of tree.now)) (λ why.
        IsFaultOf (IsSheetFault (sheet_of tree.now) why.line) why.fault) }
{
    let Ok(mut book) = Book::new(alloc) else {
        return Err(SheetSortFault {
            line: 0,
            fault: SortFault::Memory,
        });
    };
    for line in &tree.declarations {
        if let Err(fault) = declare(alloc, &mut book, &line.1) {
            return Err(SheetSortFault {
                line: line.0,
                fault,
            });
        }
    }
    Ok(book)
}

/// The book that the declarations give, one after another, or the first fault: of the first line that has one, and of
/// its tests, in their order, the first that fails.
pub fn check_sheet(alloc: Global, tree: &SheetTree) -> Result<Book, SheetSortFault>
    requires ordered { HasUniverseFirst (sheet_of tree.now) }
    requires sized { HasSizedRules (sheet_of tree.now) }
    requires nested { HasNestedRules (sheet_of tree.now) }
    ensures told { MatchResult result (IsSheetOf (sheet_of tree.now)) (λ why.
        IsFaultOf (IsSheetFault (sheet_of tree.now) why.line) why.fault) }
    ensures only { (sheet : Sheet) → IsSheetOf (sheet_of tree.now) sheet →
        MatchResult result (λ book. sheet ≡ book) (λ why. IsWantOfMemory why.fault) }
    ensures fault { (line : ℕ) (e : SortFault) → IsSheetFault (sheet_of tree.now) line e →
        MatchResult result (λ book. ⊥) (λ why. IsFaultOf (λ f. (f ≡ e) × (why.line ≡ line))
        why.fault) }
{
    trees_have_one_outcome();
    declare_all(alloc, tree)
}
