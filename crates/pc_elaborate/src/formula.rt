//! What a formula stands for.
ghost use Rattle.std.specs.Prelude.{◌≡◌, [], IfOk, map};
ghost use Rattle.pc_formula.specs.Nesting as written;
ghost use Rattle.pc_formula.specs.Sized.{AreSized, IsSized};
ghost use Rattle.pc_formula.specs.Tree.{formula_of, parts_of};
ghost use Rattle.pc_sheet.specs.Nesting as built;
ghost use Rattle.pc_sheet.specs.Sheet.{Statement};
ghost use Rattle.pc_sheet.specs.Views.{statement_of};
ghost use Rattle.pc_sheet.specs.WellSorted.{IsWellSorted};
ghost use Rattle.pc_elaborate.specs.Elaboration.{IsStatement};
ghost use Rattle.pc_elaborate.specs.FormulaFaults.{IsFormulaFault};
ghost use Rattle.pc_elaborate.specs.inside.Scope.{IsScope};
ghost use Rattle.pc_elaborate.specs.Told.{AreFormulasTold, IsBoxedTold, IsCountTold, IsFormulaTold, IsQuantifiedTold, IsVariableTold, TellsFault, TellsStatement, variables_of};
ghost use Rattle.pc_elaborate.specs.declared.fault.SortFault.{SortFault};

use crate::atoms::{comparison, table_atom};
use crate::fault::SortFault;
use crate::names::find_sort;
use crate::scope::{Variable, variable_named, with_variable};
use pc_books::{Book, Formula, Name, SortId, well_formed};
use pc_formula::FormulaTree;
use pc_sheet::{Limited, MOST_COUNTED, MOST_DEPTH};
use std::alloc::Global;

/// How many values a counting quantifier asks for, where it may.
fn count_of(at_most: bool, bound: i64) -> Result<u16, SortFault>
    ensures { IsCountTold at_most bound result }
{
    let most = i64::from(MOST_COUNTED);
    let within = if at_most {
        0 <= bound && bound < most
    } else {
        1 <= bound && bound <= most
    };
    if !within {
        return Err(SortFault::Limit(Limited::Count));
    }
    Ok(bound as u16)
}

/// The sort of a quantifier's variable, which is a new one.
fn variable_sort(
    book: &Book,
    variables: &[Variable],
    name: &Name,
    sort: &Name,
) -> Result<SortId, SortFault>
    requires { IsScope book.now.universe (variables_of variables.now) }
    ensures { IsVariableTold book.now.universe (variables_of variables.now) name.now sort.now
        result }
{
    if variables.len() == MOST_DEPTH {
        return Err(SortFault::Limit(Limited::Depth));
    }
    match book.look_up(name.as_str()) {
        Some(_declared) => Err(SortFault::DuplicateName),
        None => match variable_named(variables, name) {
            Some(_) => Err(SortFault::DuplicateName),
            None => find_sort(book, sort),
        },
    }
}

/// The parts of a quantified formula.
#[cycle(formula)]
fn quantified<'a>(
    alloc: Global,
    book: &Book,
    variables: &[Variable<'a>],
    name: &'a Name,
    sort: &Name,
    body: &'a FormulaTree,
) -> Result<(Name, SortId, Box<Formula>), SortFault>
    requires scope { IsScope book.now.universe (variables_of variables.now) }
    requires sized { IsSized (formula_of body.now) }
    ensures { IsQuantifiedTold book.now.universe (variables_of variables.now) name.now sort.now
        (formula_of body.now) result }
{
    let sort = variable_sort(book, variables, name, sort)?;
    let inner = with_variable(alloc, variables, name, sort)?;
    let body = boxed(alloc, book, &inner, body)?;
    let name = name.clone()?;
    Ok((name, sort, body))
}

/// What a formula stands for among these variables.
#[cycle(formula)]
fn formula_among<'a>(
    alloc: Global,
    book: &Book,
    variables: &[Variable<'a>],
    formula: &'a FormulaTree,
) -> Result<Formula, SortFault>
    requires scope { IsScope book.now.universe (variables_of variables.now) }
    requires sized { IsSized (formula_of formula.now) }
    ensures { IsFormulaTold book.now.universe (variables_of variables.now) (formula_of formula.now)
        result }
{
    match formula {
        FormulaTree::Compare { left, op, right } => {
            comparison(alloc, book, variables, left, *op, right)
        }
        FormulaTree::InTable { table, args } => table_atom(alloc, book, variables, table, args),
        FormulaTree::Not(part) => {
            let part = boxed(alloc, book, variables, part)?;
            Ok(Formula::Not(part))
        }
        FormulaTree::And(parts) => {
            let parts = formulas(alloc, book, variables, parts)?;
            Ok(Formula::And(parts))
        }
        FormulaTree::Or(parts) => {
            let parts = formulas(alloc, book, variables, parts)?;
            Ok(Formula::Or(parts))
        }
        FormulaTree::Implies(left, right) => {
            let left = boxed(alloc, book, variables, left)?;
            let right = boxed(alloc, book, variables, right)?;
            Ok(Formula::Implies(left, right))
        }
        FormulaTree::Iff(left, right) => {
            let left = boxed(alloc, book, variables, left)?;
            let right = boxed(alloc, book, variables, right)?;
            Ok(Formula::Iff(left, right))
        }
        FormulaTree::ForAll { name, sort, body } => {
            let (name, sort, body) = quantified(alloc, book, variables, name, sort, body)?;
            Ok(Formula::ForAll { name, sort, body })
        }
        FormulaTree::Exists { name, sort, body } => {
            let (name, sort, body) = quantified(alloc, book, variables, name, sort, body)?;
            Ok(Formula::Exists { name, sort, body })
        }
        FormulaTree::Count {
            at_most,
            bound,
            name,
            sort,
            body,
        } => {
            let bound = count_of(*at_most, *bound)?;
            let (name, sort, body) = quantified(alloc, book, variables, name, sort, body)?;
            Ok(Formula::Count {
                at_most: *at_most,
                bound,
                name,
                sort,
                body,
            })
        }
    }
}

/// The same in a box.
#[cycle(formula)]
fn boxed<'a>(
    alloc: Global,
    book: &Book,
    variables: &[Variable<'a>],
    formula: &'a FormulaTree,
) -> Result<Box<Formula>, SortFault>
    requires scope { IsScope book.now.universe (variables_of variables.now) }
    requires sized { IsSized (formula_of formula.now) }
    ensures { IsBoxedTold book.now.universe (variables_of variables.now) (formula_of formula.now)
        result }
{
    let found = formula_among(alloc, book, variables, formula)?;
    Ok(Box::new(alloc, found)?)
}

/// What the parts of an `And` or an `Or` stand for.
#[cycle(formula)]
fn formulas<'a>(
    alloc: Global,
    book: &Book,
    variables: &[Variable<'a>],
    parts: &'a [FormulaTree],
) -> Result<Vec<Formula>, SortFault>
    requires scope { IsScope book.now.universe (variables_of variables.now) }
    requires sized { AreSized (parts_of (map formula_of parts.now)) }
    ensures { AreFormulasTold book.now.universe (variables_of variables.now)
        (parts_of (map formula_of parts.now)) result }
{
    let mut found = Vec::new(alloc);
    for part in parts {
        found.push(formula_among(alloc, book, variables, part)?)?;
    }
    Ok(found)
}

/// The statement that a closed formula stands for in the book, which is well sorted and nests as the formula does, or
/// the first fault from left to right.
pub fn check_formula(
    alloc: Global,
    book: &Book,
    formula: &FormulaTree,
) -> Result<Formula, SortFault>
    requires sized { IsSized (formula_of formula.now) }
    ensures told { IsFormulaTold book.now.universe [] (formula_of formula.now) result }
    ensures nested { IfOk result (λ f. built.nesting_of (statement_of f) ≡
        written.nesting_of (formula_of formula.now)) }
    ensures only { (s : Statement) → IsStatement book.now.universe [] (formula_of formula.now) s →
        IsWellSorted book.now.universe [] s → TellsStatement result s }
    ensures fault { (e : SortFault) → IsFormulaFault book.now.universe [] (formula_of formula.now)
        e → TellsFault result e }
{
    well_formed(book);
    formula_among(alloc, book, &[], formula)
}
