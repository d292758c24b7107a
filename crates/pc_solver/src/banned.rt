//! The literals that no learned clause is to have.

ghost use Rattle.std.specs.Prelude.{◌≡◌, ◌<◌};
ghost use Rattle.std.specs.Bool.{OnTrue, OnFalse};
ghost use Rattle.pc_lits.specs.Literals.{negated};
ghost use Rattle.pc_lits.specs.Values.{MakesTrue};
ghost use Rattle.pc_solver.specs.Banned.{banned_sign, AreAskable};
ghost use Rattle.pc_solver.specs.inside.Banning.{values_in, IsOpen, IsSetBy};

use pc_lits::{Lit, Values, Var};
use pc_propagate::Trail;
use std::marker::Model;

/// The banned literals: those that the values make true, if there are any.
#[derive(Drop)]
pub(crate) struct Banned<'g> {
    values: Option<&'g Values>,
}

impl<'g> Model for Banned<'g> {
    ghost use Rattle.std.specs.Prelude.{Bool, List, Option};
    ghost use Rattle.pc_solver.specs.inside.Banning.{values_in};

    ghost Value = { List (Option Bool) };

    ghost view = { λ b. values_in b.values };
}

impl<'g> Banned<'g> {
    /// Those that these values make true.
    pub(crate) fn new(values: Option<&'g Values>) -> Banned<'g>
        ensures { result ≡ values_in values.entry }
    {
        Banned { values }
    }

    /// The values, if there are any.
    pub(crate) fn values(&self) -> Option<&'g Values>
        ensures { values_in result ≡ self.now }
    {
        self.values
    }

    /// The sign of the variable's banned literal.
    pub(crate) fn sign(&self, variable: Var) -> Option<bool>
        ensures { result ≡ banned_sign self.now variable }
    {
        match self.values {
            None => None,
            Some(values) => sign_by(values, variable),
        }
    }

    /// Whether the negation of none of these literals is banned.
    pub(crate) fn allows(&self, lits: &[Lit]) -> bool
        ensures { OnTrue result (AreAskable self.now lits.now) }
    {
        for lit in lits {
            if self.denies(*lit) {
                return false;
            }
        }
        true
    }

    // Whether the literal's negation is banned.
    fn denies(&self, lit: Lit) -> bool
        ensures { OnFalse result (¬ MakesTrue self.now (negated lit)) }
    {
        match self.sign(lit.variable) {
            None => false,
            Some(sign) => sign != lit.sign,
        }
    }

    /// Whether the variable may be decided: it has neither a value nor a banned literal.
    pub(crate) fn leaves(&self, trail: &Trail, variable: Var) -> bool
        requires { variable.0 < trail.now.variables }
        ensures open { OnTrue result (IsOpen self.now trail.now.entries variable) }
        ensures set { OnFalse result (IsSetBy self.now trail.now.entries variable) }
    {
        if trail.value(variable).is_some() {
            return false;
        }
        self.sign(variable).is_none()
    }
}

// The variable's value, where there is room for it.
fn sign_by(values: &Values, variable: Var) -> Option<bool>
    ensures { result ≡ banned_sign values.now variable }
{
    if variable.0 as usize >= values.len() {
        return None;
    }
    values.get(variable)
}
