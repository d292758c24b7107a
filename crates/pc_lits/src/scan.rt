//! What is left of a clause under a partial assignment.

ghost use Rattle.std.specs.Prelude.{◌<◌, All, length};
ghost use Rattle.pc_lits.specs.Scan.{IsScanned};

use crate::Lit;
use crate::values::Values;

/// Which literals of a clause aren't false: none, one alone, or at least two different ones.
#[derive(Clone, Copy)]
pub enum Left {
    Nothing,
    Last(Lit),
    More,
}

/// Looks at each literal of the clause.
pub fn left_of(clause: &[Lit], values: &Values) -> Left
    requires { All (λ l. l.variable.0 < length values.now) clause.now }
    ensures { IsScanned values.now clause.now result }
{
    let mut left = Left::Nothing;
    for lit in clause {
        if !values.is_false(*lit) {
            match left {
                Left::Nothing => left = Left::Last(*lit),
                Left::Last(last) => {
                    if last != *lit {
                        return Left::More;
                    }
                }
                Left::More => {}
            }
        }
    }
    left
}
