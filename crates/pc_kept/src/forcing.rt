//! What unit propagation over some clauses makes true, and which variables they name.
ghost use Rattle.std.specs.Prelude.{◌≡◌, ℕ, ◌<◌, All, Contains, List, length};
ghost use Rattle.pc_lits.specs.declared.literal.Lit.{Lit};
ghost use Rattle.pc_kept.specs.Kept.{IsAmong};
ghost use Rattle.pc_kept.specs.inside.Checks.{IsRoom, AreRight, IsNamed, AreNamed};

use pc_lits::{ClauseStore, Left, Lit, Values, left_of};

/// Makes the clause's last literal true, where all others are false.
fn force_by(clause: &[Lit], values: &mut Values)
    requires { All (λ l. l.variable.0 < length values.old) clause.now }
    ensures forced { (store : List (List Lit)) (kept : List ℕ) → IsAmong store kept clause.now →
        AreRight store kept values.old → AreRight store kept values.new }
    ensures room { length values.new ≡ length values.old }
{
    if let Left::Last(literal) = left_of(clause, values) {
        values.assign(literal);
    }
}

/// From the last clause to the first.
pub(crate) fn force_back(store: &ClauseStore, kept: &[usize], values: &mut Values)
    requires room { IsRoom values.old store.now }
    requires kept { All (λ k. k < length store.now) kept.now }
    ensures forced { AreRight store.now kept.now values.old →
        AreRight store.now kept.now values.new }
    ensures room { length values.new ≡ length values.old }
{
    for i in 0..kept.len() {
        let number = kept[kept.len() - 1 - i];
        force_by(store.get(number), values);
    }
}

/// From the first clause to the last.
pub(crate) fn force_on(store: &ClauseStore, kept: &[usize], values: &mut Values)
    requires room { IsRoom values.old store.now }
    requires kept { All (λ k. k < length store.now) kept.now }
    ensures forced { AreRight store.now kept.now values.old →
        AreRight store.now kept.now values.new }
    ensures room { length values.new ≡ length values.old }
{
    for i in 0..kept.len() {
        force_by(store.get(kept[i]), values);
    }
}

/// Names the clause's variables.
fn name_clause(clause: &[Lit], named: &mut Values)
    requires { All (λ l. l.variable.0 < length named.old) clause.now }
    ensures each { (l : Lit) → Contains clause.now l → IsNamed named.new l.variable.0 }
    ensures kept { (x : ℕ) → IsNamed named.old x → IsNamed named.new x }
    ensures room { length named.new ≡ length named.old }
{
    for i in 0..clause.len() {
        named.assign(Lit::positive(clause[i].variable));
    }
}

/// Names the variables of these clauses.
pub(crate) fn name_all(store: &ClauseStore, kept: &[usize], named: &mut Values)
    requires room { IsRoom named.old store.now }
    requires kept { All (λ k. k < length store.now) kept.now }
    ensures named { AreNamed store.now kept.now named.new }
    ensures room { length named.new ≡ length named.old }
{
    for i in 0..kept.len() {
        name_clause(store.get(kept[i]), named);
    }
}
