//! Decisions that teach merged clauses: the literals of one are decided false, one after another, until that leads to a conflict.

ghost use Rattle.std.specs.Prelude.{◌≡◌, ◌<◌, All, Contains, IfSome};
ghost use Rattle.pc_solver.specs.inside.Banning.{IsOpen};

use crate::Preferences;
use crate::banned::Banned;
use crate::clauses::Clauses;
use crate::search::Search;
use pc_lits::{Lit, Var};
use pc_propagate::Trail;
use std::alloc::Global;

impl<'g> Search<'g> {
    /// The first `count` own variables, which are those of pairs, are decided before the others. What leaves come to is guessed.
    pub(crate) fn prefer_first(&mut self, count: usize)
        ensures { self.new ≡ self.old }
    {
        self.preferences.prefer_first(count);
        let alloc = self.alloc;
        merge(alloc, &self.clauses, &mut self.preferences, count);
    }
}

// Guesses what leaves among the used axioms come to.
fn merge(alloc: Global, clauses: &Clauses<'_>, preferences: &mut Preferences, count: usize) {
    let own = clauses.own();
    preferences.merge(alloc, clauses.axioms(), clauses.used(), own, count);
}

/// The negation of a literal of the merged clause that is taught next. Those that have a true literal wait.
pub(crate) fn lesson(
    trail: &Trail,
    own: &[Var],
    banned: &Banned<'_>,
    preferences: &mut Preferences,
) -> Option<Lit>
    requires { All (λ v. v.0 < trail.now.variables) own.now }
    ensures { IfSome result (λ l. Contains own.now l.variable ×
        IsOpen banned.now trail.now.entries l.variable) }
{
    for _ in 0..preferences.merges().waiting() {
        let number = preferences.merges().next();
        if let Some(lit) = look(trail, own, preferences, number) {
            if let Some(place) = preferences.place_of(own, lit.variable) {
                if place < own.len() && banned.leaves(trail, own[place]) {
                    preferences.begin_lesson();
                    return Some(Lit {
                        variable: own[place],
                        sign: !lit.sign,
                    });
                }
            }
        }
        preferences.end_lesson();
    }
    None
}

// Whether the literal is true, where it has a value.
fn truth(trail: &Trail, own: &[Var], preferences: &Preferences, lit: Lit) -> Option<bool>
    requires { All (λ v. v.0 < trail.now.variables) own.now }
{
    let Some(place) = preferences.place_of(own, lit.variable) else {
        return None;
    };
    if place >= own.len() {
        return None;
    }
    match trail.value(own[place]) {
        Some(sign) => Some(sign == lit.sign),
        None => None,
    }
}

// The first literal of the clause that has no value, if none is true.
fn look(trail: &Trail, own: &[Var], preferences: &Preferences, number: usize) -> Option<Lit>
    requires { All (λ v. v.0 < trail.now.variables) own.now }
{
    let clause = preferences.merges().clause(number);
    let mut left = None;
    for lit in clause {
        match truth(trail, own, preferences, *lit) {
            Some(true) => return None,
            Some(false) => {}
            None => {
                if left.is_none() {
                    left = Some(*lit);
                }
            }
        }
    }
    left
}
