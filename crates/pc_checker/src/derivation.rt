//! The tests of the derivation: its lines in order, and where it ends.

ghost use Rattle.std.specs.Prelude.{◌≡◌, ◌<◌, ◌↔◌, All, Contains, IsTrue, List, length};
ghost use Rattle.pc_lits.specs.declared.literal.Lit.{Lit as TheLit};
ghost use Rattle.pc_lits.specs.Values.{IsInRange};
ghost use Rattle.pc_checker.specs.inside.Parts.{IsStepBy, IsGoodPart, IsFirstBad, EndsAmong, IsAmongOf, AreMarked};

use crate::hints::{HintsByNumber, are_earlier};
use crate::line_clauses::LineClauses;
use pc_cert::{CertLine, CertPart};
use pc_lits::{Lit, Values, is_good_step};

/// The first line that is neither marked as an axiom nor a good step by earlier lines.
pub(crate) fn first_bad(
    lines: &[CertLine],
    axioms: &[bool],
    clauses: &LineClauses,
    values: &mut Values,
) -> Option<usize>
    requires count { length clauses.now ≡ length lines.now }
    requires marks { length axioms.now ≡ length lines.now }
    requires clauses { All (All (IsInRange values.old)) clauses.now }
    ensures first { IsFirstBad clauses.now axioms.now lines.now result }
    ensures room { length values.new ≡ length values.old }
{
    for (place, line) in lines.iter().enumerate() {
        if !is_good(place, &line.part, axioms, clauses, values) {
            return Some(place);
        }
    }
    None
}

// Whether the line of that place is marked as an axiom, or a good step.
fn is_good(
    place: usize,
    part: &CertPart,
    axioms: &[bool],
    clauses: &LineClauses,
    values: &mut Values,
) -> bool
    requires place { place < length clauses.now }
    requires marks { place < length axioms.now }
    requires clauses { All (All (IsInRange values.old)) clauses.now }
    ensures good { IsTrue result ↔ IsGoodPart clauses.now axioms.now place part.now }
    ensures room { length values.new ≡ length values.old }
{
    match part {
        CertPart::Axiom(_) => axioms[place],
        CertPart::Step { hints, .. } => is_step(place, hints, clauses, values),
        CertPart::Block(_) => axioms[place],
    }
}

// Whether the clause of that place is a good step by hints that number earlier ones.
fn is_step(place: usize, hints: &[u64], clauses: &LineClauses, values: &mut Values) -> bool
    requires place { place < length clauses.now }
    requires clauses { All (All (IsInRange values.old)) clauses.now }
    ensures good { IsTrue result ↔ IsStepBy clauses.now place hints.now }
    ensures room { length values.new ≡ length values.old }
{
    if are_earlier(hints, place) {
        let hinted = HintsByNumber {
            clauses,
            numbers: hints,
        };
        is_good_step(clauses.get(place), &hinted, values)
    } else {
        false
    }
}

/// Whether there is a last clause, and its literals are among these.
pub(crate) fn ends_among(clauses: &LineClauses, allowed: &[Lit], values: &mut Values) -> bool
    requires clauses { All (All (IsInRange values.old)) clauses.now }
    requires allowed { All (IsInRange values.old) allowed.now }
    ensures among { IsTrue result ↔ EndsAmong clauses.now allowed.now }
    ensures room { length values.new ≡ length values.old }
{
    let count = clauses.len();
    if count == 0 {
        return false;
    }
    are_among(clauses.get(count - 1), allowed, values)
}

// Whether the literals of the clause are allowed. A variable may be allowed with both signs, so each sign has its turn.
fn are_among(clause: &[Lit], allowed: &[Lit], values: &mut Values) -> bool
    requires clause { All (IsInRange values.old) clause.now }
    requires allowed { All (IsInRange values.old) allowed.now }
    ensures among { IsTrue result ↔ All (Contains allowed.now) clause.now }
    ensures room { length values.new ≡ length values.old }
{
    if !are_among_of(true, clause, allowed, values) {
        return false;
    }
    are_among_of(false, clause, allowed, values)
}

// Whether the clause's literals of that sign are allowed.
fn are_among_of(sign: bool, clause: &[Lit], allowed: &[Lit], values: &mut Values) -> bool
    requires clause { All (IsInRange values.old) clause.now }
    requires allowed { All (IsInRange values.old) allowed.now }
    ensures among { IsTrue result ↔ All (IsAmongOf sign allowed.now) clause.now }
    ensures room { length values.new ≡ length values.old }
{
    mark(sign, allowed, values);
    for lit in clause {
        if !is_marked(sign, *lit, values) {
            return false;
        }
    }
    true
}

// Makes the literals of that sign true, and no other.
fn mark(sign: bool, lits: &[Lit], values: &mut Values)
    requires { All (IsInRange values.old) lits.now }
    ensures marks { AreMarked sign lits.now values.new }
    ensures room { length values.new ≡ length values.old }
{
    values.clear();
    for lit in lits {
        if lit.is_positive() == sign {
            values.assign(*lit);
        }
    }
}

// Whether the literal is of the other sign or marked.
fn is_marked(sign: bool, lit: Lit, values: &Values) -> bool
    requires { IsInRange values.now lit }
    ensures { (lits : List TheLit) → AreMarked sign lits values.now →
        (IsTrue result ↔ IsAmongOf sign lits lit) }
{
    if lit.is_positive() == sign {
        values.is_true(lit)
    } else {
        true
    }
}
