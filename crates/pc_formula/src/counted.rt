// Whether a formula has a counting quantifier.
ghost use Rattle.std.specs.Prelude.{◌≡◌, map};
ghost use Rattle.pc_formula.specs.Tree.{formula_of, parts_of};
ghost use Rattle.pc_formula.specs.Counted.{has_count, have_count};

use crate::tree::FormulaTree;

/// Whether a counting quantifier stands in the formula.
#[cycle(counted)]
pub fn has_count(formula: &FormulaTree) -> bool
    ensures { result ≡ has_count (formula_of formula.now) }
{
    match formula {
        FormulaTree::Count { .. } => true,
        FormulaTree::ForAll { body, .. } => has_count(body),
        FormulaTree::Exists { body, .. } => has_count(body),
        FormulaTree::Iff(left, right) => has_count(left) || has_count(right),
        FormulaTree::Implies(left, right) => has_count(left) || has_count(right),
        FormulaTree::Or(parts) => have_count(parts),
        FormulaTree::And(parts) => have_count(parts),
        FormulaTree::Not(part) => has_count(part),
        FormulaTree::Compare { .. } => false,
        FormulaTree::InTable { .. } => false,
    }
}

// Whether one of the parts has it.
#[cycle(counted)]
fn have_count(parts: &[FormulaTree]) -> bool
    ensures { result ≡ have_count (parts_of (map formula_of parts.now)) }
{
    for part in parts {
        if has_count(part) {
            return true;
        }
    }
    false
}
