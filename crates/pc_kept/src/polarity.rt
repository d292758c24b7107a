//! Which literals are named, by their signs, and which are banned.
ghost use Rattle.std.specs.Prelude.{◌≡◌, ◌<◌, ◌^◌, ◌↔◌, All, Contains, IfOk, IfSome, IsTrue, List, None, Some, length, slice_get, slice_index_or};
ghost use Rattle.std.specs.Bool.{OnTrue};
ghost use Rattle.pc_accept.specs.Literals.{node};
ghost use Rattle.pc_axiom_names.specs.Shown.{axiom_shown};
ghost use Rattle.pc_lits.specs.declared.literal.Lit.{Lit as Literal};
ghost use Rattle.pc_lits.specs.Values.{MakesTrue};
ghost use Rattle.pc_kept.specs.ByPolarity.{meant_by};
ghost use Rattle.pc_kept.specs.Stored.{IsOwnStored, IsNamedStored, IsBannedOutStored};
ghost use Rattle.pc_kept.specs.inside.Signs.{IsStored, IsSigned};

use crate::trial::Stored;
use pc_axiom_names::{AxiomRef, Names, VarName};
use pc_lits::{Lit, Values, Var};
use pc_sheet::NodePath;
use std::alloc::{AllocError, Global};

/// Whether two paths lead to the same node.
fn is_same(left: &NodePath, right: &NodePath) -> bool
    ensures rule { IsTrue result → left.now.rule ≡ right.now.rule }
    ensures steps { IsTrue result → left.now.steps.items ≡ right.now.steps.items }
{
    left.rule == right.rule && left.steps.as_slice() == right.steps.as_slice()
}

/// Whether the axiom of that name says what the node means.
fn is_meant(name: AxiomRef<'_>, path: &NodePath) -> bool
    ensures { OnTrue result
        (meant_by (axiom_shown name.entry) ≡ Some (node path.now.rule path.now.steps.items)) }
{
    match name {
        AxiomRef::Any(_) => false,
        AxiomRef::One(_, _, _) => false,
        AxiomRef::Rule(_) => false,
        AxiomRef::Node(own, _) => is_same(own, path),
        AxiomRef::Atom(own, _) => is_same(own, path),
    }
}

/// Whether the axiom says what the variable means.
fn is_own(names: &Names, number: usize, variable: Var) -> bool
    requires few { number < 2 ^ 32 }
    requires axiom { number < length names.now.axioms }
    requires variable { variable.0 < length names.now.variables }
    ensures { OnTrue result (IsOwnStored names.now number variable.0) }
{
    match names.variable(variable) {
        VarName::Pair(_, _) => false,
        VarName::Node(path) => is_meant(names.axiom(number as u32), path),
    }
}

fn own_in(names: &Names, number: usize, clause: &[Lit]) -> Option<Lit>
    requires few { number < 2 ^ 32 }
    requires axiom { number < length names.now.axioms }
    requires variables { All (λ l. l.variable.0 < length names.now.variables) clause.now }
    ensures { IfSome result (λ l. l.variable.0 < length names.now.variables) }
{
    for i in 0..clause.len() {
        if is_own(names, number, clause[i].variable) {
            return Some(clause[i]);
        }
    }
    None
}

/// The axiom's own literal.
pub(crate) fn own_of(stored: Stored<'_>, number: usize) -> Option<Lit>
    requires stored { IsStored stored.store.now stored.names.now }
    requires within { number < length stored.store.now }
    ensures { IfSome result (λ l. l.variable.0 < length stored.entry.names.now.variables) }
{
    own_in(stored.names, number, stored.store.get(number))
}

/// Of the variables those that are named by positive and by negative literals, and the values that are banned: no learned
/// clause is to have a literal that one of them makes true.
#[derive(Drop)]
pub(crate) struct Polarity {
    yes: Values,
    no: Values,
    banned: Values,
}

impl Polarity {
    /// Nothing is named and nothing banned.
    pub(crate) fn new(alloc: Global, variables: u32) -> Result<Polarity, AllocError>
        ensures yes { IfOk result (λ p. length p.yes ≡ variables) }
        ensures no { IfOk result (λ p. length p.no ≡ variables) }
        ensures banned { IfOk result (λ p. length p.banned ≡ variables) }
    {
        Ok(Polarity {
            yes: Values::new(alloc, variables)?,
            no: Values::new(alloc, variables)?,
            banned: Values::new(alloc, variables)?,
        })
    }

    /// Nothing is named any more.
    pub(crate) fn forget_names(&mut self)
        ensures yes { length self.new.yes ≡ length self.old.yes }
        ensures no { length self.new.no ≡ length self.old.no }
        ensures banned { self.new.banned ≡ self.old.banned }
    {
        self.yes.clear();
        self.no.clear();
    }

    /// What is banned.
    pub(crate) fn into_banned(self) -> Values
        ensures { result ≡ self.banned }
    {
        let Polarity {
            banned,
            yes: _,
            no: _,
        } = self;
        banned
    }

    /// Whether the literal is named.
    pub(crate) fn has(&self, literal: Lit) -> bool
        requires yes { literal.variable.0 < length self.now.yes }
        requires no { literal.variable.0 < length self.now.no }
        ensures { IsTrue result ↔ IsSigned self.now.yes self.now.no literal }
    {
        if literal.sign {
            self.yes.is_true(Lit::positive(literal.variable))
        } else {
            self.no.is_true(Lit::positive(literal.variable))
        }
    }

    fn name(&mut self, literal: Lit)
        requires yes { literal.variable.0 < length self.old.yes }
        requires no { literal.variable.0 < length self.old.no }
        ensures here { IsSigned self.new.yes self.new.no literal }
        ensures kept { (m : Literal) → IsSigned self.old.yes self.old.no m →
            IsSigned self.new.yes self.new.no m }
        ensures yes { length self.new.yes ≡ length self.old.yes }
        ensures no { length self.new.no ≡ length self.old.no }
        ensures banned { self.new.banned ≡ self.old.banned }
    {
        if literal.sign {
            self.yes.assign(Lit::positive(literal.variable));
        } else {
            self.no.assign(Lit::positive(literal.variable));
        }
    }

    fn name_clause(&mut self, names: &Names, number: usize, clause: &[Lit])
        requires few { number < 2 ^ 32 }
        requires axiom { number < length names.now.axioms }
        requires variables { All (λ l. l.variable.0 < length names.now.variables) clause.now }
        requires yes { length names.now.variables ≡ length self.old.yes }
        requires no { length names.now.variables ≡ length self.old.no }
        ensures each { (m : Literal) → Contains clause.now m →
            (¬ IsOwnStored names.now number m.variable.0) → IsSigned self.new.yes self.new.no m }
        ensures kept { (m : Literal) → IsSigned self.old.yes self.old.no m →
            IsSigned self.new.yes self.new.no m }
        ensures yes { length self.new.yes ≡ length self.old.yes }
        ensures no { length self.new.no ≡ length self.old.no }
        ensures banned { self.new.banned ≡ self.old.banned }
    {
        for i in 0..clause.len() {
            if !is_own(names, number, clause[i].variable) {
                self.name(clause[i]);
            }
        }
    }

    /// Names the axiom's literals, but for its own one.
    pub(crate) fn name_others(&mut self, stored: Stored<'_>, number: usize)
        requires stored { IsStored stored.store.now stored.names.now }
        requires within { number < length stored.store.now }
        requires yes { length stored.names.now.variables ≡ length self.old.yes }
        requires no { length stored.names.now.variables ≡ length self.old.no }
        ensures each { (clause : List Literal) (m : Literal) →
            slice_get stored.entry.store.now number ≡ Some clause → Contains clause m →
            (¬ IsOwnStored stored.entry.names.now number m.variable.0) →
            IsSigned self.new.yes self.new.no m }
        ensures kept { (m : Literal) → IsSigned self.old.yes self.old.no m →
            IsSigned self.new.yes self.new.no m }
        ensures yes { length self.new.yes ≡ length self.old.yes }
        ensures no { length self.new.no ≡ length self.old.no }
        ensures banned { self.new.banned ≡ self.old.banned }
    {
        self.name_clause(stored.names, number, stored.store.get(number));
    }

    /// Names what these axioms name.
    pub(crate) fn name_all(&mut self, stored: Stored<'_>, kept: &[usize])
        requires stored { IsStored stored.store.now stored.names.now }
        requires within { All (λ k. k < length stored.store.now) kept.now }
        requires yes { length stored.names.now.variables ≡ length self.old.yes }
        requires no { length stored.names.now.variables ≡ length self.old.no }
        ensures each { (m : Literal) →
            IsNamedStored stored.entry.store.now stored.entry.names.now kept.now m →
            IsSigned self.new.yes self.new.no m }
        ensures kept { (m : Literal) → IsSigned self.old.yes self.old.no m →
            IsSigned self.new.yes self.new.no m }
        ensures yes { length self.new.yes ≡ length self.old.yes }
        ensures no { length self.new.no ≡ length self.old.no }
        ensures banned { self.new.banned ≡ self.old.banned }
    {
        for i in 0..kept.len() {
            self.name_others(stored, kept[i]);
        }
    }

    /// Bans the literal, where its variable has no banned one.
    pub(crate) fn ban(&mut self, literal: Lit)
        requires { literal.variable.0 < length self.old.banned }
        ensures yes { self.new.yes ≡ self.old.yes }
        ensures no { self.new.no ≡ self.old.no }
        ensures kept { (m : Literal) → MakesTrue self.old.banned m → MakesTrue self.new.banned m }
        ensures banned { length self.new.banned ≡ length self.old.banned }
    {
        if self.banned.get(literal.variable).is_none() {
            self.banned.assign(literal);
        }
    }

    /// The sign with which the variable is banned.
    pub(crate) fn banned_sign(&self, variable: Var) -> Option<bool>
        requires { variable.0 < length self.now.banned }
        ensures { result ≡ slice_index_or self.now.banned variable.0 None }
    {
        self.banned.get(variable)
    }

    fn has_banned(&self, names: &Names, number: usize, clause: &[Lit]) -> bool
        requires few { number < 2 ^ 32 }
        requires axiom { number < length names.now.axioms }
        requires variables { All (λ l. l.variable.0 < length names.now.variables) clause.now }
        requires banned { length names.now.variables ≡ length self.now.banned }
        ensures { OnTrue result ((l : Literal) × Contains clause.now l ×
            IsOwnStored names.now number l.variable.0 × MakesTrue self.now.banned l) }
    {
        for i in 0..clause.len() {
            if self.banned.is_true(clause[i]) && is_own(names, number, clause[i].variable) {
                return true;
            }
        }
        false
    }

    /// Whether the axiom's own literal is banned.
    pub(crate) fn is_banned_out(&self, stored: Stored<'_>, number: usize) -> bool
        requires stored { IsStored stored.store.now stored.names.now }
        requires within { number < length stored.store.now }
        requires banned { length stored.names.now.variables ≡ length self.now.banned }
        ensures { OnTrue result (IsBannedOutStored stored.entry.store.now stored.entry.names.now
            self.now.banned number) }
    {
        self.has_banned(stored.names, number, stored.store.get(number))
    }
}
