//! What the sides of a comparison stand for.
ghost use Rattle.std.specs.Prelude.{◌↔◌, ◌<◌, Bool, IsTrue, length, map};
ghost use Rattle.pc_formula.specs.Sized.{IsSizedSide};
ghost use Rattle.pc_formula.specs.Tree.{added_of, integer, item_of, items_of, named, side_of};
ghost use Rattle.pc_sheet.specs.Sheet.{Universe};
ghost use Rattle.pc_sheet.specs.Sizes.{values_at};
ghost use Rattle.pc_sheet.specs.WellSorted.{IsEquality, Variables};
ghost use Rattle.pc_elaborate.specs.inside.Scope.{IsScope};
ghost use Rattle.pc_elaborate.specs.Told.{AreAddedTold, IsKindOf, IsSideItemTold, IsSideTold, MayCompare, MayStand, variables_of};

use crate::fault::SortFault;
use crate::items::named_item;
use crate::scope::Variable;
use pc_books::{Book, Name, Op, Side, Sign, SortId, Term, well_formed};
use pc_formula::{ItemTree, SideTree};
use pc_sheet::{LARGEST_NUMBER, Limited};
use std::alloc::Global;

/// What is compared: whole numbers, or values of a listed sort.
#[derive(Clone, Copy)]
pub(crate) enum Kind {
    Integer,
    Listed(SortId),
}

/// The kind of what is of the sort.
fn kind_of(book: &Book, sort: SortId) -> Kind
    requires { sort.0 < length book.now.universe.sorts }
    ensures { IsKindOf (values_at book.now.universe sort) sort result }
{
    match book.range_of(sort) {
        Some(_) => Kind::Integer,
        None => Kind::Listed(sort),
    }
}

/// Whether an item of the kind may stand in a side, beside others or alone.
fn may_stand(several: bool, kind: Kind) -> bool
    ensures { IsTrue result ↔ MayStand several kind }
{
    match kind {
        Kind::Integer => true,
        Kind::Listed(_) => !several,
    }
}

/// Whether values are compared by the sign.
fn is_equality(op: Op) -> bool
    ensures { IsTrue result ↔ IsEquality op }
{
    match op {
        Op::Eq | Op::Ne => true,
        Op::Lt | Op::Le | Op::Gt | Op::Ge => false,
    }
}

/// Whether sides of these kinds may be compared by the sign.
pub(crate) fn may_compare(left: Kind, op: Op, right: Kind) -> bool
    ensures { IsTrue result ↔ MayCompare left op right }
{
    match (left, right) {
        (Kind::Integer, Kind::Integer) => true,
        (Kind::Listed(sort), Kind::Listed(other)) => is_equality(op) && sort == other,
        (Kind::Integer, Kind::Listed(_)) => false,
        (Kind::Listed(_), Kind::Integer) => false,
    }
}

/// A whole number in a side.
fn number_item(n: i64) -> Result<(Term, Kind), SortFault>
    ensures { (u : Universe) (vs : Variables) (several : Bool) →
        IsSideItemTold u vs several (integer n) result }
{
    if n < -LARGEST_NUMBER || LARGEST_NUMBER < n {
        return Err(SortFault::Limit(Limited::Number));
    }
    Ok((Term::Number(n as i32), Kind::Integer))
}

/// A name in a side, beside other items or alone.
fn named_side_item(
    alloc: Global,
    book: &Book,
    variables: &[Variable],
    several: bool,
    name: &Name,
    args: &[ItemTree],
) -> Result<(Term, Kind), SortFault>
    requires { IsScope book.now.universe (variables_of variables.now) }
    ensures { IsSideItemTold book.now.universe (variables_of variables.now) several
        (named name.now (items_of (map item_of args.now))) result }
{
    well_formed(book);
    let (term, sort) = named_item(alloc, book, variables, name, args)?;
    let kind = kind_of(book, sort);
    if !may_stand(several, kind) {
        return Err(SortFault::WrongSort);
    }
    Ok((term, kind))
}

/// An item of a side, beside others or alone.
fn side_item(
    alloc: Global,
    book: &Book,
    variables: &[Variable],
    several: bool,
    item: &ItemTree,
) -> Result<(Term, Kind), SortFault>
    requires { IsScope book.now.universe (variables_of variables.now) }
    ensures { IsSideItemTold book.now.universe (variables_of variables.now) several
        (item_of item.now) result }
{
    match item {
        ItemTree::Number(n) => number_item(*n),
        ItemTree::Named { name, args } => {
            named_side_item(alloc, book, variables, several, name, args)
        }
    }
}

/// The items that are added and subtracted in a side.
fn added_items(
    alloc: Global,
    book: &Book,
    variables: &[Variable],
    rest: &[(Sign, ItemTree)],
) -> Result<Vec<(Sign, Term)>, SortFault>
    requires { IsScope book.now.universe (variables_of variables.now) }
    ensures { AreAddedTold book.now.universe (variables_of variables.now) (map added_of rest.now)
        result }
{
    let mut items = Vec::new(alloc);
    for (sign, item) in rest {
        let (term, _) = side_item(alloc, book, variables, true, item)?;
        items.push((*sign, term))?;
    }
    Ok(items)
}

/// What a side stands for, with its kind.
pub(crate) fn find_side(
    alloc: Global,
    book: &Book,
    variables: &[Variable],
    side: &SideTree,
) -> Result<(Side, Kind), SortFault>
    requires scope { IsScope book.now.universe (variables_of variables.now) }
    requires sized { IsSizedSide (side_of side.now) }
    ensures { IsSideTold book.now.universe (variables_of variables.now) (side_of side.now) result }
{
    let several = !side.rest.is_empty();
    let (first, kind) = side_item(alloc, book, variables, several, &side.first)?;
    let rest = added_items(alloc, book, variables, &side.rest)?;
    Ok((Side { first, rest }, kind))
}
