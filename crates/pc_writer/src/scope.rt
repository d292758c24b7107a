// The variables of the quantifiers that stand around a place.
ghost use Rattle.std.specs.Prelude.{◌≡◌, ◌+◌, ◌<◌, ◌++◌, ◌∷◌, [], length, take};
ghost use Rattle.pc_sheet.specs.Limits.{most_depth};
ghost use Rattle.pc_writer.specs.inside.Scope.{variables_of};

use pc_sheet::{Name, SortId};

/// A quantifier's variable.
#[derive(Clone, Copy)]
pub(crate) struct Variable<'a> {
    pub(crate) name: &'a str,
    pub(crate) sort: SortId,
}

/// The variables inside one more quantifier, in the first places of a larger array.
pub(crate) fn extended<'a>(
    variables: &[Variable<'a>],
    name: &'a Name,
    sort: SortId,
) -> [Variable<'a>; 16]
    requires { length variables.now < most_depth }
    ensures { variables_of (take (length variables.now + 1) result) ≡ variables_of variables.now ++
        (name.now, sort) ∷ [] }
{
    let none = Variable {
        name: "",
        sort: SortId(0),
    };
    let mut inner = [none; 16];
    inner[..variables.len()].copy_from_slice(variables);
    inner[variables.len()] = Variable {
        name: name.as_str(),
        sort,
    };
    inner
}
