//! Whether a clause is a good step by its hints.

ghost use Rattle.std.specs.Prelude.{◌≡◌, List, All, IsTrue, ◌↔◌, length, replicate, None};
ghost use Rattle.std.specs.Bool.{OnTrue, OnFalse};
ghost use Rattle.pc_lits.specs.declared.literal.Lit.{Lit};
ghost use Rattle.pc_lits.specs.Literals.{negated};
ghost use Rattle.pc_lits.specs.Steps.{IsTautology, Refutes, IsGoodStep};
ghost use Rattle.pc_lits.specs.Values.{IsInRange, Agrees};

use crate::Lit;
use crate::hints::Hints;
use crate::scan::{Left, left_of};
use crate::values::Values;

/// Whether the clause is a good step by the hints. It takes no memory and looks at each literal of the clause
/// and of the hints once. The values serve as scratch: what they hold before doesn't matter.
pub fn is_good_step<H: Hints>(clause: &[Lit], hints: &H, values: &mut Values) -> bool
    requires clause { All (IsInRange values.old) clause.now }
    requires hints { All (All (IsInRange values.old)) (H.clauses hints.now) }
    ensures good { IsTrue result ↔ IsGoodStep negated clause.now (H.clauses hints.now) }
    ensures room { length values.new ≡ length values.old }
{
    values.clear();
    if deny_all(clause, values) {
        refutes(hints, values)
    } else {
        hints.count() == 0
    }
}

// Makes the clause's literals false, unless one of them is another's negation.
fn deny_all(clause: &[Lit], values: &mut Values) -> bool
    requires blank { values.old ≡ replicate (length values.old) None }
    requires in_range { All (IsInRange values.old) clause.now }
    ensures tautology { IsTrue result ↔ ¬ IsTautology negated clause.now }
    ensures denied { OnTrue result (Agrees values.new clause.now) }
    ensures found { OnFalse result (IsTautology negated clause.now) }
    ensures room { length values.new ≡ length values.old }
{
    for lit in clause {
        if values.is_true(*lit) {
            return false;
        }
        values.deny(*lit);
    }
    true
}

// Takes the hints in order, with the literals false that are so at the start.
fn refutes<H: Hints>(hints: &H, values: &mut Values) -> bool
    requires hints { All (All (IsInRange values.old)) (H.clauses hints.now) }
    ensures answer { (falses : List Lit) → Agrees values.old falses →
        (IsTrue result ↔ Refutes negated falses (H.clauses hints.now)) }
    ensures room { length values.new ≡ length values.old }
{
    let count = hints.count();
    for place in 0..count {
        match left_of(hints.clause(place), values) {
            Left::Nothing => return place + 1 == count,
            Left::Last(lit) => values.assign(lit),
            Left::More => return false,
        }
    }
    false
}
