//! Whether a clause may be the reason of a literal that is true.

ghost use Rattle.std.specs.Prelude.{◌≢◌, ◌<◌, Contains};
ghost use Rattle.std.specs.Bool.{OnTrue};
ghost use Rattle.pc_lits.specs.Literals.{negated};
ghost use Rattle.pc_propagate.specs.Entries.{falses, HasValue};
ghost use Rattle.pc_propagate.specs.Over.{AreInRange};
ghost use Rattle.pc_solver.specs.inside.Reasons.{IsFalseBefore, AreFalseBefore, IsReasonFor};

use pc_lits::Lit;
use pc_propagate::Trail;

// Whether the other literal became false before this place, or is the same one.
fn is_before(trail: &Trail, other: Lit, lit: Lit, place: usize) -> bool
    requires { other.variable.0 < trail.now.variables }
    ensures { OnTrue result (other ≢ lit → IsFalseBefore trail.now.entries place other) }
{
    if other == lit {
        return true;
    }
    let Some(sign) = trail.value(other.variable) else {
        return false;
    };
    if sign == other.is_positive() {
        return false;
    }
    if trail.place_of(other.variable) >= place {
        return false;
    }
    true
}

// Whether each literal of the clause but this one became false before this place.
fn are_before(trail: &Trail, clause: &[Lit], lit: Lit, place: usize) -> bool
    requires { AreInRange trail.now.variables clause.now }
    ensures { OnTrue result (AreFalseBefore trail.now.entries place clause.now lit) }
{
    for other in clause {
        if !is_before(trail, *other, lit, place) {
            return false;
        }
    }
    true
}

/// Whether the clause may be the reason of this literal of it, which is true by another one, and was settled at each decision: its
/// other literals became false before, and its second one did so at the same level, where that isn't 0.
pub(crate) fn is_reason(trail: &Trail, clause: &[Lit], lit: Lit) -> bool
    requires in_range { AreInRange trail.now.variables clause.now }
    requires is_true { Contains (falses trail.now.entries) (negated lit) }
    requires known { HasValue trail.now.entries lit.variable }
    ensures { OnTrue result (IsReasonFor trail.now.entries clause.now lit) }
{
    if trail.reason_of(lit.variable).is_none() {
        return false;
    }
    let place = trail.place_of(lit.variable);
    if !are_before(trail, clause, lit, place) {
        return false;
    }
    let level = trail.level_of(lit.variable);
    if level == 0 {
        return true;
    }
    if clause.len() < 2 {
        return false;
    }
    let second = clause[1];
    if second == lit {
        return false;
    }
    if trail.level_of(second.variable) != level {
        return false;
    }
    true
}
