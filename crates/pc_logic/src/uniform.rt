//! Formulas that look up the same cells whatever values the variables have: these weigh the same under each.
ghost use Rattle.std.specs.Prelude.{IsTrue, map};
ghost use Rattle.pc_sheet.specs.Views.{added_of, item_of, items_of, statement_of, statements_of, sum_of};
ghost use Rattle.pc_logic.specs.inside.Uniform.{IsConstantItem, AreConstant, IsFixed, AreFixed, AllFixed, IsFixedSum, IsUniform, AreUniform};

use pc_sheet::{Formula, Side, Sign, Term};

/// Whether the term is a value or a number.
fn is_constant(term: &Term) -> bool
    ensures { IsTrue result → IsConstantItem (item_of term.now) }
{
    match term {
        Term::Variable(_) => false,
        Term::Value(_, _) => true,
        Term::Number(_) => true,
        Term::Cell { .. } => false,
    }
}

fn are_constant(terms: &[Term]) -> bool
    ensures { IsTrue result → AreConstant (items_of (map item_of terms.now)) }
{
    for term in terms {
        if !is_constant(term) {
            return false;
        }
    }
    true
}

/// Whether the term has no cell, or one at values and numbers.
fn is_fixed(term: &Term) -> bool
    ensures { IsTrue result → IsFixed (item_of term.now) }
{
    match term {
        Term::Variable(_) => true,
        Term::Value(_, _) => true,
        Term::Number(_) => true,
        Term::Cell { args, .. } => are_constant(args),
    }
}

fn are_fixed(terms: &[Term]) -> bool
    ensures { IsTrue result → AreFixed (items_of (map item_of terms.now)) }
{
    for term in terms {
        if !is_fixed(term) {
            return false;
        }
    }
    true
}

fn all_fixed(items: &[(Sign, Term)]) -> bool
    ensures { IsTrue result → AllFixed (map added_of items.now) }
{
    for (_, term) in items {
        if !is_fixed(term) {
            return false;
        }
    }
    true
}

fn is_fixed_side(side: &Side) -> bool
    ensures { IsTrue result → IsFixedSum (sum_of side.now) }
{
    is_fixed(&side.first) && all_fixed(&side.rest)
}

/// Whether each term of the formula has no cell, or one at values and numbers.
#[cycle(uniform)]
pub(crate) fn is_uniform(formula: &Formula) -> bool
    ensures { IsTrue result → IsUniform (statement_of formula.now) }
{
    match formula {
        Formula::Compare { left, right, .. } => is_fixed_side(left) && is_fixed_side(right),
        Formula::InTable { args, .. } => are_fixed(args),
        Formula::Not(part) => is_uniform(part),
        Formula::And(parts) => are_uniform(parts),
        Formula::Or(parts) => are_uniform(parts),
        Formula::Implies(left, right) => is_uniform(left) && is_uniform(right),
        Formula::Iff(left, right) => is_uniform(left) && is_uniform(right),
        Formula::ForAll { body, .. } => is_uniform(body),
        Formula::Exists { body, .. } => is_uniform(body),
        Formula::Count { body, .. } => is_uniform(body),
    }
}

#[cycle(uniform)]
fn are_uniform(parts: &[Formula]) -> bool
    ensures { IsTrue result → AreUniform (statements_of (map statement_of parts.now)) }
{
    for part in parts {
        if !is_uniform(part) {
            return false;
        }
    }
    true
}
