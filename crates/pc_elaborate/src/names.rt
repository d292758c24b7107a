//! What a name stands for in a book.
ghost use Rattle.std.specs.Prelude.{◌≡◌, ◌↔◌};
ghost use Rattle.pc_formula.specs.Tree.{name_value};
ghost use Rattle.pc_sheet.specs.declared.ids.SortId.{SortId};
ghost use Rattle.pc_sheet.specs.declared.ids.TableId.{TableId};
ghost use Rattle.pc_sheet.specs.declared.ids.FamilyId.{FamilyId};
ghost use Rattle.pc_sheet.specs.declared.ids.ValueId.{ValueId};
ghost use Rattle.pc_elaborate.specs.Elaboration.{IsFamilyNamed, IsSortNamed, IsTableNamed, StandsForValue};
ghost use Rattle.pc_elaborate.specs.FormulaFaults.{IsNameFault, IsSomeFamily, IsSomeTable, IsSortNameFault};
ghost use Rattle.pc_elaborate.specs.Outcome.{IsOtherName, TellsFound};

use crate::fault::SortFault;
use pc_books::{Book, FamilyId, Name, Named, SortId, TableId, ValueId, well_formed};

/// The sort of that name, if it is declared.
pub fn sort_named(book: &Book, name: &Name) -> Option<SortId>
    ensures { (s : SortId) → (result ≡ Some s) ↔ IsSortNamed book.now.universe name.now s }
{
    match book.look_up(name.as_str()) {
        Some(Named::Sort(sort)) => Some(sort),
        Some(Named::Table(_)) => None,
        Some(Named::Family(_)) => None,
        Some(Named::Value(_, _)) => None,
        None => None,
    }
}

/// The table of that name, if it is declared.
pub fn table_named(book: &Book, name: &Name) -> Option<TableId>
    ensures { (t : TableId) → (result ≡ Some t) ↔ IsTableNamed book.now.universe name.now t }
{
    match book.look_up(name.as_str()) {
        Some(Named::Table(table)) => Some(table),
        Some(Named::Sort(_)) => None,
        Some(Named::Family(_)) => None,
        Some(Named::Value(_, _)) => None,
        None => None,
    }
}

/// The family of that name, if it is declared.
pub fn family_named(book: &Book, name: &Name) -> Option<FamilyId>
    ensures { (f : FamilyId) → (result ≡ Some f) ↔ IsFamilyNamed book.now.universe name.now f }
{
    match book.look_up(name.as_str()) {
        Some(Named::Family(family)) => Some(family),
        Some(Named::Sort(_)) => None,
        Some(Named::Table(_)) => None,
        Some(Named::Value(_, _)) => None,
        None => None,
    }
}

/// The listed value of that name, if it is declared.
pub fn value_named(book: &Book, name: &Name) -> Option<(SortId, ValueId)>
    ensures { (s : SortId) (v : ValueId) → (result ≡ Some (s, v)) ↔
        StandsForValue book.now.universe s (name_value name.now) v }
{
    match book.look_up(name.as_str()) {
        Some(Named::Value(sort, value)) => Some((sort, value)),
        Some(Named::Sort(_)) => None,
        Some(Named::Table(_)) => None,
        Some(Named::Family(_)) => None,
        None => None,
    }
}

/// Why a name doesn't stand for what is asked for: it isn't declared, or it stands for something else.
pub(crate) fn name_fault(book: &Book, name: &Name) -> SortFault
    ensures { IsOtherName book.now.universe name.now result }
{
    match book.look_up(name.as_str()) {
        None => SortFault::UnknownName,
        Some(_) => SortFault::WrongSort,
    }
}

/// The sort of that name, or why there is none.
pub fn find_sort(book: &Book, name: &Name) -> Result<SortId, SortFault>
    ensures { TellsFound (IsSortNamed book.now.universe name.now)
        (IsSortNameFault book.now.universe name.now) result }
{
    well_formed(book);
    match sort_named(book, name) {
        Some(sort) => Ok(sort),
        None => Err(name_fault(book, name)),
    }
}

/// The table of that name, or why there is none.
pub fn find_table(book: &Book, name: &Name) -> Result<TableId, SortFault>
    ensures { TellsFound (IsTableNamed book.now.universe name.now)
        (IsNameFault book.now.universe name.now (IsSomeTable book.now.universe name.now)) result }
{
    well_formed(book);
    match table_named(book, name) {
        Some(table) => Ok(table),
        None => Err(name_fault(book, name)),
    }
}

/// The family of that name, or why there is none.
pub fn find_family(book: &Book, name: &Name) -> Result<FamilyId, SortFault>
    ensures { TellsFound (IsFamilyNamed book.now.universe name.now)
        (IsNameFault book.now.universe name.now (IsSomeFamily book.now.universe name.now)) result }
{
    well_formed(book);
    match family_named(book, name) {
        Some(family) => Ok(family),
        None => Err(name_fault(book, name)),
    }
}
