//! The variables around a place.
ghost use Rattle.std.specs.Prelude.{◌≡◌, ◌≤◌, ◌∷◌, ◌++◌, [], IfOk, IfSome, IfNone, Some, length, map, slice_get};
ghost use Rattle.pc_sheet.specs.Limits.{most_depth};
ghost use Rattle.pc_elaborate.specs.FormulaFaults.{IsAround};
ghost use Rattle.pc_elaborate.specs.Told.{variable_of, variables_of};

use pc_books::{Name, SortId};
use std::alloc::{AllocError, Global};

/// A variable with the sort of its quantifier.
#[derive(Clone, Copy)]
pub(crate) struct Variable<'a> {
    pub(crate) name: &'a Name,
    pub(crate) sort: SortId,
}

/// The place and sort of the variable of that name, if there is one.
pub(crate) fn variable_named(variables: &[Variable], name: &Name) -> Option<(u8, SortId)>
    requires { length variables.now ≤ most_depth }
    ensures some { IfSome result (λ found. slice_get (variables_of variables.now) found.0 ≡
        Some (name.now, found.1)) }
    ensures none { IfNone result (¬ IsAround (variables_of variables.now) name.now) }
{
    for (k, variable) in variables.iter().enumerate() {
        if variable.name == name {
            return Some((k as u8, variable.sort));
        }
    }
    None
}

/// The variables inside one more quantifier.
pub(crate) fn with_variable<'a>(
    alloc: Global,
    variables: &[Variable<'a>],
    name: &'a Name,
    sort: SortId,
) -> Result<Vec<Variable<'a>>, AllocError>
    ensures { IfOk result (λ inner. variables_of inner.items ≡ variables_of variables.now ++
        (name.now, sort) ∷ []) }
{
    let mut inner = Vec::from_slice(alloc, variables)?;
    inner.push(Variable { name, sort })?;
    Ok(inner)
}
