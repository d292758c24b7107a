//! What names and applications stand for.
ghost use Rattle.std.specs.Prelude.{◌≡◌, ◌<◌, length, map, All};
ghost use Rattle.pc_formula.specs.Tree.{item_of, items_of, named, no_item};
ghost use Rattle.pc_elaborate.specs.inside.Scope.{IsScope};
ghost use Rattle.pc_elaborate.specs.Elaboration.{IsFamilyNamed};
ghost use Rattle.pc_elaborate.specs.Told.{AreArgumentsTold, IsAppliedTold, IsArgumentTold, IsItemTold, variables_of};
ghost use Rattle.pc_sheet.specs.WellFormed.{IsDeclaredSort};

use crate::cells::{argument_sorts, find_integer};
use crate::fault::SortFault;
use crate::scope::{Variable, variable_named};
use pc_books::{Book, FamilyId, Name, Named, SortId, Term, well_formed};
use pc_formula::ItemTree;
use std::alloc::Global;

/// What a bare name stands for, with its sort: a variable, a listed value or the only cell of a family.
fn bare_item(
    alloc: Global,
    book: &Book,
    variables: &[Variable],
    name: &Name,
) -> Result<(Term, SortId), SortFault>
    requires { IsScope book.now.universe (variables_of variables.now) }
    ensures { IsItemTold book.now.universe (variables_of variables.now) (named name.now no_item)
        result }
{
    if let Some((k, sort)) = variable_named(variables, name) {
        return Ok((Term::Variable(k), sort));
    }
    match book.look_up(name.as_str()) {
        None => Err(SortFault::UnknownName),
        Some(Named::Sort(_)) => Err(SortFault::WrongSort),
        Some(Named::Table(_)) => Err(SortFault::WrongSort),
        Some(Named::Value(sort, value)) => Ok((Term::Value(sort, value), sort)),
        Some(Named::Family(family)) => only_cell(alloc, book, variables, name, family),
    }
}

/// The only cell of a family without arguments, with its sort.
fn only_cell(
    alloc: Global,
    book: &Book,
    variables: &[Variable],
    name: &Name,
    family: FamilyId,
) -> Result<(Term, SortId), SortFault>
    requires scope { IsScope book.now.universe (variables_of variables.now) }
    requires family { IsFamilyNamed book.now.universe name.now family }
    ensures { IsItemTold book.now.universe (variables_of variables.now) (named name.now no_item)
        result }
{
    well_formed(book);
    if !argument_sorts(book, family).is_empty() {
        return Err(SortFault::WrongArity);
    }
    let args = Vec::new(alloc);
    Ok((Term::Cell { family, args }, book.result_sort(family)))
}

/// The family of a name that stands in front of arguments.
fn applied_family(book: &Book, variables: &[Variable], name: &Name) -> Result<FamilyId, SortFault>
    requires { IsScope book.now.universe (variables_of variables.now) }
    ensures { IsAppliedTold book.now.universe (variables_of variables.now) name.now result }
{
    well_formed(book);
    match book.look_up(name.as_str()) {
        Some(Named::Family(family)) => Ok(family),
        Some(Named::Sort(_)) => Err(SortFault::WrongSort),
        Some(Named::Table(_)) => Err(SortFault::WrongSort),
        Some(Named::Value(_, _)) => Err(SortFault::WrongSort),
        None => match variable_named(variables, name) {
            Some(_) => Err(SortFault::WrongSort),
            None => Err(SortFault::UnknownName),
        },
    }
}

/// What a name with its arguments stands for, with its sort.
#[cycle(item)]
pub(crate) fn named_item(
    alloc: Global,
    book: &Book,
    variables: &[Variable],
    name: &Name,
    args: &[ItemTree],
) -> Result<(Term, SortId), SortFault>
    requires { IsScope book.now.universe (variables_of variables.now) }
    ensures { IsItemTold book.now.universe (variables_of variables.now)
        (named name.now (items_of (map item_of args.now))) result }
{
    if args.is_empty() {
        bare_item(alloc, book, variables, name)
    } else {
        application(alloc, book, variables, name, args)
    }
}

/// What a name with one argument or more stands for, with its sort.
#[cycle(item)]
fn application(
    alloc: Global,
    book: &Book,
    variables: &[Variable],
    name: &Name,
    args: &[ItemTree],
) -> Result<(Term, SortId), SortFault>
    requires scope { IsScope book.now.universe (variables_of variables.now) }
    requires some { 0 < length args.now }
    ensures { IsItemTold book.now.universe (variables_of variables.now)
        (named name.now (items_of (map item_of args.now))) result }
{
    well_formed(book);
    let family = applied_family(book, variables, name)?;
    let sorts = argument_sorts(book, family);
    if args.len() != sorts.len() {
        return Err(SortFault::WrongArity);
    }
    let args = arguments(alloc, book, variables, sorts, args)?;
    Ok((Term::Cell { family, args }, book.result_sort(family)))
}

/// What arguments of these sorts stand for.
#[cycle(item)]
pub(crate) fn arguments(
    alloc: Global,
    book: &Book,
    variables: &[Variable],
    sorts: &[SortId],
    args: &[ItemTree],
) -> Result<Vec<Term>, SortFault>
    requires scope { IsScope book.now.universe (variables_of variables.now) }
    requires sorts { All (IsDeclaredSort book.now.universe) sorts.now }
    requires count { length args.now ≡ length sorts.now }
    ensures { AreArgumentsTold book.now.universe (variables_of variables.now) sorts.now
        (items_of (map item_of args.now)) result }
{
    let mut terms = Vec::new(alloc);
    for (i, arg) in args.iter().enumerate() {
        terms.push(argument(alloc, book, variables, sorts[i], arg)?)?;
    }
    Ok(terms)
}

/// What an argument of the sort stands for: an integer is a value of the sort.
#[cycle(item)]
fn argument(
    alloc: Global,
    book: &Book,
    variables: &[Variable],
    sort: SortId,
    arg: &ItemTree,
) -> Result<Term, SortFault>
    requires scope { IsScope book.now.universe (variables_of variables.now) }
    requires sort { sort.0 < length book.now.universe.sorts }
    ensures { IsArgumentTold book.now.universe (variables_of variables.now) sort (item_of arg.now)
        result }
{
    match arg {
        ItemTree::Number(n) => {
            let value = find_integer(book, sort, *n)?;
            Ok(Term::Value(sort, value))
        }
        ItemTree::Named { name, args } => {
            well_formed(book);
            let (term, found) = named_item(alloc, book, variables, name, args)?;
            if found != sort {
                return Err(SortFault::WrongSort);
            }
            Ok(term)
        }
    }
}
