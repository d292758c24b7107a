//! What comparisons and table atoms stand for.
ghost use Rattle.std.specs.Prelude.{All, IsSomeAnd, ◌<◌, ◌≡◌, length, map, slice_get};
ghost use Rattle.pc_formula.specs.Sized.{IsSizedSide};
ghost use Rattle.pc_formula.specs.Tree as tree;
ghost use Rattle.pc_formula.specs.Tree.{item_of, side_of};
ghost use Rattle.pc_sheet.specs.WellFormed.{IsDeclaredSort};
ghost use Rattle.pc_elaborate.specs.inside.Scope.{IsScope};
ghost use Rattle.pc_elaborate.specs.Told.{IsFormulaTold, variables_of};

use crate::fault::SortFault;
use crate::items::arguments;
use crate::names::find_table;
use crate::reads::{reads_in_side, reads_in_terms};
use crate::scope::Variable;
use crate::sides::{find_side, may_compare};
use pc_books::{Book, Formula, Name, Op, SortId, TableId, well_formed};
use pc_formula::{ItemTree, SideTree};
use pc_sheet::{Limited, MOST_READS};
use std::alloc::Global;

/// What a comparison stands for.
pub(crate) fn comparison(
    alloc: Global,
    book: &Book,
    variables: &[Variable],
    left: &SideTree,
    op: Op,
    right: &SideTree,
) -> Result<Formula, SortFault>
    requires scope { IsScope book.now.universe (variables_of variables.now) }
    requires left { IsSizedSide (side_of left.now) }
    requires right { IsSizedSide (side_of right.now) }
    ensures { IsFormulaTold book.now.universe (variables_of variables.now)
        (tree.compare (side_of left.now) op (side_of right.now)) result }
{
    well_formed(book);
    let (left, kind) = find_side(alloc, book, variables, left)?;
    let (right, other) = find_side(alloc, book, variables, right)?;
    if MOST_READS < reads_in_side(&left) + reads_in_side(&right) {
        return Err(SortFault::Limit(Limited::Reads));
    }
    if !may_compare(kind, op, other) {
        return Err(SortFault::WrongSort);
    }
    Ok(Formula::Compare { left, op, right })
}

/// The sorts of a table's arguments.
fn table_sorts(book: &Book, table: TableId) -> &[SortId]
    requires { table.0 < length book.now.universe.tables }
    ensures takes { IsSomeAnd (slice_get book.now.universe.tables table.0) (λ declared.
        declared.sorts ≡ result.now) }
    ensures declared { All (IsDeclaredSort book.now.universe) result.now }
{
    well_formed(book);
    book.table_sorts(table)
}

/// What a table atom stands for.
pub(crate) fn table_atom(
    alloc: Global,
    book: &Book,
    variables: &[Variable],
    name: &Name,
    args: &[ItemTree],
) -> Result<Formula, SortFault>
    requires { IsScope book.now.universe (variables_of variables.now) }
    ensures { IsFormulaTold book.now.universe (variables_of variables.now)
        (tree.in_table name.now (map item_of args.now)) result }
{
    well_formed(book);
    let table = find_table(book, name)?;
    let sorts = table_sorts(book, table);
    if args.len() != sorts.len() {
        return Err(SortFault::WrongArity);
    }
    let args = arguments(alloc, book, variables, sorts, args)?;
    if MOST_READS < reads_in_terms(&args) {
        return Err(SortFault::Limit(Limited::Reads));
    }
    Ok(Formula::InTable { table, args })
}
