//! Which axioms may be left out, by what is true and what is named.
ghost use Rattle.std.specs.Prelude.{◌≡◌, ℕ, ◌<◌, ◌≤◌, ◌^◌, ◌⊎◌, All, Contains, List, length, Some, slice_get, IfOk, OnOk, ◌++◌, ◌∷◌, [], cond};
ghost use Rattle.std.specs.Bool.{OnTrue};
ghost use Rattle.pc_accept.specs.Axioms.{Axiom};
ghost use Rattle.pc_kept.specs.Kept.{IsOfNode};
ghost use Rattle.pc_kept.specs.inside.Checks.{IsRoom, IsNamed, HasTrue, HasConstant, NoneIsNamed, IsFine, AreFine, marked};
ghost use Rattle.pc_lits.specs.Values.{MakesTrue};
ghost use Rattle.pc_kept.specs.Stored.{AreMeaningsStored};

use crate::trial::{Stored, Trial};
use pc_axiom_names::{AxiomRef, Names};
use pc_lits::{Lit, Values};
use std::alloc::{AllocError, Global};

/// Whether the axiom says what a node or an atom means.
pub(crate) fn is_of_node(names: &Names, number: usize) -> bool
    requires few { number < 2 ^ 32 }
    requires within { number < length names.now.axioms }
    ensures { OnTrue result ((x : Axiom) → slice_get names.now.axioms number ≡ Some x →
        IsOfNode x) }
{
    match names.axiom(number as u32) {
        AxiomRef::Any(_) => false,
        AxiomRef::One(_, _, _) => false,
        AxiomRef::Rule(_) => false,
        AxiomRef::Node(_, _) => true,
        AxiomRef::Atom(_, _) => true,
    }
}

/// Whether a literal of the clause has become true.
fn has_true(clause: &[Lit], values: &Values) -> bool
    requires { All (λ l. l.variable.0 < length values.now) clause.now }
    ensures { OnTrue result (HasTrue values.now clause.now) }
{
    for i in 0..clause.len() {
        if values.is_true(clause[i]) {
            return true;
        }
    }
    false
}

/// Whether none of the clause's variables from the number `pairs` on is named.
pub(crate) fn none_is_named(clause: &[Lit], pairs: u32, named: &Values) -> bool
    requires { All (λ l. l.variable.0 < length named.now) clause.now }
    ensures { OnTrue result (NoneIsNamed pairs named.now clause.now) }
{
    for i in 0..clause.len() {
        if clause[i].variable.0 >= pairs && named.is_true(Lit::positive(clause[i].variable)) {
            return false;
        }
    }
    true
}

/// Whether a literal of a node that isn't named is true whatever values the cells have.
pub(crate) fn has_constant(clause: &[Lit], pairs: u32, constants: &Values, named: &Values) -> bool
    requires constants { All (λ l. l.variable.0 < length constants.now) clause.now }
    requires named { All (λ l. l.variable.0 < length named.now) clause.now }
    ensures { OnTrue result (HasConstant pairs constants.now named.now clause.now) }
{
    for i in 0..clause.len() {
        if is_constant(clause[i], pairs, constants, named) {
            return true;
        }
    }
    false
}

fn is_constant(literal: Lit, pairs: u32, constants: &Values, named: &Values) -> bool
    requires constants { literal.variable.0 < length constants.now }
    requires named { literal.variable.0 < length named.now }
    ensures { OnTrue result ((pairs ≤ literal.variable.0) × MakesTrue constants.now literal ×
        (¬ IsNamed named.now literal.variable.0)) }
{
    if literal.variable.0 < pairs {
        return false;
    }
    if named.is_true(Lit::positive(literal.variable)) {
        return false;
    }
    constants.is_true(literal)
}

/// The numbers of those axioms that say what nodes and atoms mean.
pub(crate) fn meanings_of(
    alloc: Global,
    names: &Names,
    used: &[usize],
) -> Result<Vec<usize>, AllocError>
    requires few { length names.now.axioms < 2 ^ 32 }
    requires within { All (λ k. k < length names.now.axioms) used.now }
    ensures within { IfOk result (λ ms. All (λ k. k < length names.now.axioms) ms.items) }
    ensures meanings { IfOk result (λ ms. AreMeaningsStored names.now.axioms ms.items) }
{
    let mut meanings = Vec::new(alloc);
    for i in 0..used.len() {
        if is_of_node(names, used[i]) {
            meanings.push(used[i])?;
        }
    }
    Ok(meanings)
}

/// Whether a node's axiom with that clause may be left out.
fn may_go(clause: &[Lit], pairs: u32, values: &Values, constants: &Values, named: &Values) -> bool
    requires values { All (λ l. l.variable.0 < length values.now) clause.now }
    requires constants { All (λ l. l.variable.0 < length constants.now) clause.now }
    requires named { All (λ l. l.variable.0 < length named.now) clause.now }
    ensures { OnTrue result (HasTrue values.now clause.now ⊎
        (NoneIsNamed pairs named.now clause.now ⊎
        HasConstant pairs constants.now named.now clause.now)) }
{
    if has_true(clause, values) {
        return true;
    }
    if none_is_named(clause, pairs, named) {
        return true;
    }
    has_constant(clause, pairs, constants, named)
}

/// Whether the axiom may be left out.
pub(crate) fn is_fine(stored: Stored<'_>, constants: &Values, trial: &Trial, number: usize) -> bool
    requires values { IsRoom trial.now.values stored.store.now }
    requires constants { IsRoom constants.now stored.store.now }
    requires named { IsRoom trial.now.named stored.store.now }
    requires few { length stored.store.now < 2 ^ 32 }
    requires names { length stored.names.now.axioms ≡ length stored.store.now }
    requires within { number < length stored.store.now }
    ensures { OnTrue result (IsFine stored.entry.pairs stored.entry.store.now
        stored.entry.names.now.axioms trial.now.values constants.now trial.now.named number) }
{
    if !is_of_node(stored.names, number) {
        return false;
    }
    let clause = stored.store.get(number);
    may_go(clause, stored.pairs, &trial.values, constants, &trial.named)
}

/// Whether each axiom without a mark may be left out.
pub(crate) fn are_fine(
    stored: Stored<'_>,
    used: &[usize],
    constants: &Values,
    trial: &Trial,
    marks: &[bool],
) -> bool
    requires values { IsRoom trial.now.values stored.store.now }
    requires constants { IsRoom constants.now stored.store.now }
    requires named { IsRoom trial.now.named stored.store.now }
    requires few { length stored.store.now < 2 ^ 32 }
    requires names { length stored.names.now.axioms ≡ length stored.store.now }
    requires within { All (λ k. k < length stored.store.now) used.now }
    requires marks { length marks.now ≡ length used.now }
    ensures { OnTrue result (AreFine stored.entry.pairs stored.entry.store.now
        stored.entry.names.now.axioms trial.now.values constants.now trial.now.named used.now
        marks.now) }
{
    for i in 0..used.len() {
        if !marks[i] && !is_fine(stored, constants, trial, used[i]) {
            return false;
        }
    }
    true
}

/// Marks what may not be left out.
pub(crate) fn mark_missing(
    stored: Stored<'_>,
    used: &[usize],
    constants: &Values,
    trial: &Trial,
    marks: &mut Vec<bool>,
)
    requires values { IsRoom trial.now.values stored.store.now }
    requires constants { IsRoom constants.now stored.store.now }
    requires named { IsRoom trial.now.named stored.store.now }
    requires few { length stored.store.now < 2 ^ 32 }
    requires names { length stored.names.now.axioms ≡ length stored.store.now }
    requires within { All (λ k. k < length stored.store.now) used.now }
    requires marks { length marks.old.items ≡ length used.now }
    ensures { length marks.new.items ≡ length marks.old.items }
{
    for i in 0..used.len() {
        if !marks[i] && !is_fine(stored, constants, trial, used[i]) {
            marks[i] = true;
        }
    }
}

/// Appends the number where it is marked.
fn push_if(kept: &mut Vec<usize>, mark: bool, number: usize) -> Result<(), AllocError>
    ensures { OnOk result (kept.new.items ≡ kept.old.items ++ cond mark (number ∷ []) []) }
{
    if mark {
        kept.push(number)?;
    }
    Ok(())
}

/// The numbers that are marked.
pub(crate) fn numbers_marked(
    alloc: Global,
    used: &[usize],
    marks: &[bool],
) -> Result<Vec<usize>, AllocError>
    requires { length marks.now ≡ length used.now }
    ensures { IfOk result (λ kept. kept.items ≡ marked used.now marks.now) }
{
    let mut kept = Vec::new(alloc);
    for i in 0..used.len() {
        push_if(&mut kept, marks[i], used[i])?;
    }
    Ok(kept)
}
