//! A first guess of the axioms that a search takes. Nothing rests on it: what is missing is found and added.
ghost use Rattle.std.specs.Prelude.{◌≡◌, ◌<◌, ◌^◌, All, length, IfOk};
ghost use Rattle.pc_kept.specs.inside.Checks.{IsRoom};

use crate::checking::{has_constant, is_of_node, none_is_named};
use crate::trial::{Stored, Trial};
use pc_lits::{ClauseStore, Left, Lit, Values, left_of};

/// Makes the clause's last literal true, where it isn't yet, and says by which clause.
fn force_once(clause: &[Lit], place: usize, values: &mut Values, reasons: &mut Vec<usize>)
    requires room { All (λ l. l.variable.0 < length values.old) clause.now }
    ensures room { length values.new ≡ length values.old }
    ensures reasons { length reasons.new.items ≡ length reasons.old.items }
{
    if let Left::Last(literal) = left_of(clause, values) {
        let x = literal.variable.0 as usize;
        if !values.is_true(literal) && x < reasons.len() {
            values.assign(literal);
            reasons[x] = place;
        }
    }
}

/// Goes over all clauses, back and on.
pub(crate) fn force_twice(
    store: &ClauseStore,
    used: &[usize],
    values: &mut Values,
    reasons: &mut Vec<usize>,
)
    requires room { IsRoom values.old store.now }
    requires within { All (λ k. k < length store.now) used.now }
    ensures room { length values.new ≡ length values.old }
{
    for i in 0..used.len() {
        let place = used.len() - 1 - i;
        force_once(store.get(used[place]), place, values, reasons);
    }
    for place in 0..used.len() {
        force_once(store.get(used[place]), place, values, reasons);
    }
}

/// Names the variable, and marks the reason of its value.
fn name_one(
    literal: Lit,
    values: &Values,
    named: &mut Values,
    reasons: &[usize],
    marks: &mut Vec<bool>,
)
    requires values { literal.variable.0 < length values.now }
    requires named { literal.variable.0 < length named.old }
    ensures room { length named.new ≡ length named.old }
    ensures marks { length marks.new.items ≡ length marks.old.items }
{
    named.assign(Lit::positive(literal.variable));
    let x = literal.variable.0 as usize;
    if values.get(literal.variable).is_some() && x < reasons.len() {
        let place = reasons[x];
        if place < marks.len() {
            marks[place] = true;
        }
    }
}

/// Names the clause's variables.
fn name_each(
    clause: &[Lit],
    values: &Values,
    named: &mut Values,
    reasons: &[usize],
    marks: &mut Vec<bool>,
)
    requires values { All (λ l. l.variable.0 < length values.now) clause.now }
    requires named { All (λ l. l.variable.0 < length named.old) clause.now }
    ensures room { length named.new ≡ length named.old }
    ensures marks { length marks.new.items ≡ length marks.old.items }
{
    for i in 0..clause.len() {
        name_one(clause[i], values, named, reasons, marks);
    }
}

/// Names the variables of the literal's reason, where its variable wasn't named.
fn name_reason(
    store: &ClauseStore,
    used: &[usize],
    literal: Lit,
    values: &Values,
    named: &mut Values,
    reasons: &[usize],
    marks: &mut Vec<bool>,
)
    requires values { IsRoom values.now store.now }
    requires named { IsRoom named.old store.now }
    requires literal { literal.variable.0 < length values.now }
    requires other { literal.variable.0 < length named.old }
    requires within { All (λ k. k < length store.now) used.now }
    ensures room { length named.new ≡ length named.old }
    ensures marks { length marks.new.items ≡ length marks.old.items }
{
    let is_new = !named.is_true(Lit::positive(literal.variable));
    name_one(literal, values, named, reasons, marks);
    let x = literal.variable.0 as usize;
    if is_new && values.get(literal.variable).is_some() && x < reasons.len() {
        let place = reasons[x];
        if place < used.len() {
            name_each(store.get(used[place]), values, named, reasons, marks);
        }
    }
}

/// Names the clause's variables, and those of their reasons.
fn name_deep(
    store: &ClauseStore,
    used: &[usize],
    clause: &[Lit],
    values: &Values,
    named: &mut Values,
    reasons: &[usize],
    marks: &mut Vec<bool>,
)
    requires values { IsRoom values.now store.now }
    requires named { IsRoom named.old store.now }
    requires clause { All (λ l. l.variable.0 < length values.now) clause.now }
    requires other { All (λ l. l.variable.0 < length named.old) clause.now }
    requires within { All (λ k. k < length store.now) used.now }
    ensures room { length named.new ≡ length named.old }
    ensures marks { length marks.new.items ≡ length marks.old.items }
{
    for i in 0..clause.len() {
        name_reason(store, used, clause[i], values, named, reasons, marks);
    }
}

/// Whether another clause makes a named literal of this one true.
fn is_settled(
    clause: &[Lit],
    place: usize,
    values: &Values,
    named: &Values,
    reasons: &[usize],
) -> bool
    requires values { All (λ l. l.variable.0 < length values.now) clause.now }
    requires named { All (λ l. l.variable.0 < length named.now) clause.now }
{
    for i in 0..clause.len() {
        let literal = clause[i];
        let x = literal.variable.0 as usize;
        if values.is_true(literal) && x < reasons.len() && reasons[x] != place {
            if named.is_true(Lit::positive(literal.variable)) {
                return true;
            }
        }
    }
    false
}

/// Marks what a search seems to need, from the rules on.
pub(crate) fn guess(
    stored: Stored<'_>,
    used: &[usize],
    constants: &Values,
    trial: &mut Trial,
    marks: &mut Vec<bool>,
)
    requires values { IsRoom trial.old.values stored.store.now }
    requires constants { IsRoom constants.now stored.store.now }
    requires named { IsRoom trial.old.named stored.store.now }
    requires few { length stored.store.now < 2 ^ 32 }
    requires names { length stored.names.now.axioms ≡ length stored.store.now }
    requires within { All (λ k. k < length stored.store.now) used.now }
    requires marks { length marks.old.items ≡ length used.now }
    ensures values { length trial.new.values ≡ length trial.old.values }
    ensures named { length trial.new.named ≡ length trial.old.named }
    ensures marks { length marks.new.items ≡ length marks.old.items }
{
    trial.values.clear();
    trial.named.clear();
    force_twice(stored.store, used, &mut trial.values, &mut trial.reasons);
    for place in 0..used.len() {
        let clause = stored.store.get(used[place]);
        let asked = marks[place]
            || !is_of_node(stored.names, used[place])
            || !(none_is_named(clause, stored.pairs, &trial.named)
                || has_constant(clause, stored.pairs, constants, &trial.named)
                || is_settled(clause, place, &trial.values, &trial.named, &trial.reasons));
        if asked {
            marks[place] = true;
            name_deep(
                stored.store,
                used,
                clause,
                &trial.values,
                &mut trial.named,
                &trial.reasons,
                marks,
            );
        }
    }
}
