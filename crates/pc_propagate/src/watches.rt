//! Which two literals of a clause are watched.
//!
//! A clause needs no look while two of its literals aren't false, or one is true that stays true as long as the others stay
//! false. So each clause watches two literals, and is looked at only when one of them becomes false. Going back needs no
//! look at all. These are the watched literals of Moskewicz and others' Chaff, with lists and blockers as in MiniSat: where
//! some other literal of the clause is known to be true, the clause itself isn't read. A clause whose first two literals
//! can't be watched, as one of a single literal that isn't true for good, waits: each propagation looks at it.

ghost use Rattle.std.specs.Prelude.{◌≡◌, ◌<◌, ◌≤◌, ℕ, None, length};
ghost use Rattle.std.specs.Bool.{OnTrue};
ghost use Rattle.pc_propagate.specs.Over.{AreInRange};
ghost use Rattle.pc_propagate.specs.Watching.{body_at, wait_at};
ghost use Rattle.pc_propagate.specs.Watched.{GuardsAt, GuardEachOther, IsSure, IsTrueFromStart};
ghost use Rattle.pc_propagate.specs.inside.Steady.{IsReconsidered};

use crate::trail::Trail;
use pc_lits::Lit;

impl Trail {
    // Whether, where the literal is false, the other one is true, and at no higher level.
    fn is_guarded(&self, lit: Lit, other: Lit) -> bool
        requires lit { lit.variable.0 < self.now.variables }
        requires other { other.variable.0 < self.now.variables }
        ensures { OnTrue result ((k : ℕ) → GuardsAt self.now.entries lit other k) }
    {
        if !self.is_false(lit) {
            return true;
        }
        if !self.is_true(other) {
            return false;
        }
        if self.level_of(lit.variable) < self.level_of(other.variable) {
            return false;
        }
        true
    }

    // Whether the literal is true for good.
    fn is_true_from_start(&self, lit: Lit) -> bool
        requires { lit.variable.0 < self.now.variables }
        ensures { OnTrue result (IsTrueFromStart self.now.entries lit) }
    {
        if !self.is_true(lit) {
            return false;
        }
        if self.level_of(lit.variable) > 0 {
            return false;
        }
        true
    }

    // Whether the two literals may be watched together.
    fn fits(&self, lit: Lit, other: Lit) -> bool
        requires lit { lit.variable.0 < self.now.variables }
        requires other { other.variable.0 < self.now.variables }
        ensures { OnTrue result (GuardEachOther self.now.entries lit other) }
    {
        if lit == other {
            return false;
        }
        if !self.is_guarded(lit, other) {
            return false;
        }
        if !self.is_guarded(other, lit) {
            return false;
        }
        true
    }

    // Whether the clause needs no look unless one of its first two literals becomes false.
    fn is_kept(&self, number: usize) -> bool
        requires { number < length self.now.watching.watched.bodies }
        ensures { OnTrue result ((head : ℕ) →
            IsSure self.now.entries head (body_at self.now.watching number)) }
    {
        let body = self.body(number);
        if body.is_empty() {
            return false;
        }
        if self.is_true_from_start(body[0]) {
            return true;
        }
        if body.len() < 2 {
            return false;
        }
        if !self.fits(body[0], body[1]) {
            return false;
        }
        true
    }

    // Lets a clause that doesn't wait wait for the next propagation, unless it needs no look.
    pub(crate) fn reconsider(&mut self, number: usize)
        requires waiting { number < length self.old.watching.waiting }
        requires within { number < length self.old.watching.watched.bodies }
        requires free { wait_at self.old.watching number ≡ None }
        ensures { IsReconsidered number self.old self.new }
    {
        if !self.is_kept(number) {
            self.wait_again(number);
        }
    }

    // How late the literal became false, and the highest number where it isn't false.
    fn rank(&self, lit: Lit) -> u32
        requires { lit.variable.0 < self.now.variables }
    {
        if self.is_false(lit) {
            self.level_of(lit.variable)
        } else {
            u32::MAX
        }
    }

    // The place of the literal of highest rank.
    pub(crate) fn best(&self, lits: &[Lit]) -> usize
        requires { AreInRange self.now.variables lits.now }
        ensures { 2 ≤ length lits.now → result < length lits.now }
    {
        let mut best = 0;
        let mut highest = 0;
        for place in 0..lits.len() {
            let rank = self.rank(lits[place]);
            if highest < rank {
                best = place;
                highest = rank;
            }
        }
        best
    }

    // The place of the literal of highest rank behind the first one, once the literal of this place has come to stand first.
    pub(crate) fn best_after(&self, lits: &[Lit], first: usize) -> usize
        requires in_range { AreInRange self.now.variables lits.now }
        ensures { 2 ≤ length lits.now → result < length lits.now }
    {
        let mut best = 1;
        let mut highest = 0;
        for place in 1..lits.len() {
            let rank = self.rank(if place == first { lits[0] } else { lits[place] });
            if highest < rank {
                best = place;
                highest = rank;
            }
        }
        best
    }
}
