//! Before a search: the levels that it may keep of the one before, and the clauses of which the trail isn't told yet.

ghost use Rattle.std.specs.Prelude.{◌≡◌, ◌<◌, ℕ, List, OnOk};
ghost use Rattle.std.specs.Bool.{OnTrue};
ghost use Rattle.pc_lits.specs.declared.literal.Lit.{Lit};
ghost use Rattle.pc_propagate.specs.Levels.{IsBackTo};
ghost use Rattle.pc_propagate.specs.Over.{IsOver, AreInRange};
ghost use Rattle.pc_solver.specs.Clauses.{IsOverOwn, KeepsProblem};
ghost use Rattle.pc_solver.specs.inside.Search.{IsSearch, KnowsAll, AssumesFirst, AreAssumed, IsStartOf, HasNoDecision, KeepsLogs};

use crate::Preferences;
use crate::clauses::Clauses;
use crate::decisions::{note_answer, put_back};
use crate::search::Search;
use pc_lits::{Lit, Var};
use pc_propagate::Trail;
use pc_propagate::laws::quiet_is_kept;
use std::alloc::AllocError;

// Whether the literal is the decision that starts this level.
fn starts(trail: &Trail, lit: Lit, level: u32) -> bool
    requires { lit.variable.0 < trail.now.variables }
    ensures { OnTrue result (IsStartOf trail.now.entries level lit) }
{
    let Some(sign) = trail.value(lit.variable) else {
        return false;
    };
    if sign != lit.sign {
        return false;
    }
    if trail.reason_of(lit.variable).is_some() {
        return false;
    }
    if trail.level_of(lit.variable) != level {
        return false;
    }
    true
}

// The highest level up to which each decision is one of the assumptions, in their order.
fn assumed_levels(trail: &Trail, assumed: &[Lit]) -> u32
    requires { AreInRange trail.now.variables assumed.now }
    ensures { AreAssumed trail.now.entries assumed.now result }
{
    let top = trail.level();
    let mut level = 0;
    for lit in assumed {
        if level < top && starts(trail, *lit, level + 1) {
            level += 1;
        }
    }
    level
}

// Keeps the levels whose decisions are assumptions.
fn keep_levels(trail: &mut Trail, own: &[Var], preferences: &mut Preferences, assumed: &[Lit])
    requires { AreInRange trail.old.variables assumed.now }
    ensures first { AssumesFirst assumed.now trail.new.entries }
    ensures back { (level : ℕ) × IsBackTo level trail.old trail.new }
    ensures over { (axioms more : List (List Lit)) → IsOver axioms more trail.old →
        IsOver axioms more trail.new }
{
    let level = assumed_levels(trail, assumed);
    put_back(trail, own, preferences, level);
    preferences.begin();
    trail.back_to(level);
}

// Tells the trail, which is at level 0, of the clauses that it wasn't told of.
fn attach_rest(clauses: &mut Clauses<'_>, trail: &mut Trail) -> Result<(), AllocError>
    requires search { IsSearch clauses.old trail.old }
    requires level { HasNoDecision trail.old.entries }
    ensures search { IsSearch clauses.new trail.new }
    ensures level { HasNoDecision trail.new.entries }
    ensures variables { trail.new.variables ≡ trail.old.variables }
    ensures problem { KeepsProblem clauses.old clauses.new }
    ensures logs { KeepsLogs clauses.old clauses.new }
    ensures all { OnOk result (KnowsAll clauses.new) }
{
    'rest: while clauses.known() < clauses.more().len() {
        clauses.attach_next(trail)?;
    }
    Ok(())
}

impl<'g> Search<'g> {
    /// Makes the trail ready for a search under these assumptions. Where the trail was told of each clause, the levels of
    /// the search before stay whose decisions are assumptions still.
    pub(crate) fn prepare(&mut self, assumed: &[Lit]) -> Result<(), AllocError>
        requires { IsOverOwn self.old.clauses.own assumed.now }
        ensures problem { KeepsProblem self.old.clauses self.new.clauses }
        ensures logs { KeepsLogs self.old.clauses self.new.clauses }
        ensures all { OnOk result (KnowsAll self.new.clauses) }
        ensures first { AssumesFirst assumed.now self.new.trail.entries }
        ensures variables { self.new.trail.variables ≡ self.old.trail.variables }
    {
        quiet_is_kept();
        note_answer(
            &self.trail,
            self.clauses.own(),
            self.clauses.banned(),
            &mut self.preferences,
        );
        if self.clauses.known() == self.clauses.more().len() {
            keep_levels(
                &mut self.trail,
                self.clauses.own(),
                &mut self.preferences,
                assumed,
            );
            return Ok(());
        }
        put_back(&self.trail, self.clauses.own(), &mut self.preferences, 0);
        self.preferences.begin();
        self.trail.back_to(0);
        attach_rest(&mut self.clauses, &mut self.trail)
    }
}
