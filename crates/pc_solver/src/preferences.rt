//! What a search prefers: the variable that it decides next, and when it begins anew.
//!
//! Activities as in Chaff and MiniSat: a variable's activity is at first the number of its literals in the used axioms. It rises
//! at each literal that the analysis of a conflict meets, and later conflicts count for more. Restarts come at the conflict
//! counts of Luby, Sinclair and Zuckerman, found by Knuth's reluctant doubling, and after each conflict that was sought to teach
//! a merged clause, which changes no activity. Where the first own variables are preferred,
//! activities are theirs alone, and the others come after them, in their order. No contract rests on any of it. The own
//! variables are to rise; where they don't, some may be left out.

use crate::merges::Merges;
use crate::order::{Order, SCALE};
use crate::places::Places;
use crate::signs::Signs;
use pc_lits::{ClauseStore, Lit, Var};
use std::alloc::{AllocError, Global};

// Past this step all activities are made smaller. The first step is `SCALE`.
const LARGEST_STEP: u64 = 281_474_976_710_656;

// How many conflicts the shortest run has.
const SHORTEST_RUN: u64 = 512;

// The same once an answer has come: then a search begins anew near the last one.
const RUN_NEAR_ANSWER: u64 = 32;

/// The activities of the own variables, and the length of runs.
#[derive(Drop)]
pub struct Preferences {
    order: Order,
    places: Places,
    signs: Signs,
    // how many of the own variables go by activity; the others come after them
    active: usize,
    // those of the others that stand before this place have values
    next: usize,
    step: u64,
    // how many conflicts are left of this run
    left: u64,
    runs: u64,
    length: u64,
    // what leaves come to together, which the search is led to learn
    merges: Merges,
}

impl Preferences {
    /// No activity yet, for these own variables. It takes all the memory that it will need.
    pub fn new(alloc: Global, own: &[Var]) -> Result<Preferences, AllocError> {
        let order = Order::new(alloc, own.len())?;
        let places = Places::new(alloc, own)?;
        let signs = Signs::new(alloc, own.len())?;
        Ok(Preferences {
            order,
            places,
            signs,
            active: own.len(),
            next: own.len(),
            step: SCALE,
            left: SHORTEST_RUN,
            runs: 1,
            length: 1,
            merges: Merges::new(alloc),
        })
    }

    /// From now on the first `count` own variables alone go by activity. No variable has a value.
    pub fn prefer_first(&mut self, count: usize) {
        self.active = count;
        self.next = count;
        self.order.keep_below(count);
        self.signs.prefer_first(count);
    }

    /// From now on no variable is to be shown true.
    pub fn show_nothing(&mut self) {
        self.signs.show_nothing();
    }

    /// The place from which on to look for a variable that may be decided, where none goes by activity.
    pub fn next(&self) -> usize {
        self.next
    }

    /// The own variables before this place have values.
    pub fn set_next(&mut self, place: usize) {
        self.next = place;
    }

    /// Raises the variable's activity. Here and below `own` are the variables for which these preferences were made.
    pub fn raise(&mut self, own: &[Var], variable: Var) {
        if let Some(place) = self.places.of(own, variable) {
            if place < self.active {
                self.order.raise(place, self.step);
            }
        }
    }

    /// Raises the activity of each literal's variable.
    pub fn raise_all(&mut self, own: &[Var], clause: &[Lit]) {
        if self.merges.has_begun() {
            return;
        }
        for lit in clause {
            self.raise(own, lit.var());
        }
    }

    /// The place among the own variables of the most active one that may be decided, of those that go by activity.
    pub fn first(&self) -> Option<usize> {
        self.order.top()
    }

    /// The most active variable that may be decided has a value: it isn't to be decided until it is put back.
    pub fn drop_first(&mut self) {
        self.order.drop_top();
    }

    /// The sign with which the variable is decided.
    pub fn sign(&self, own: &[Var], variable: Var) -> bool {
        match self.places.of(own, variable) {
            Some(place) => self.signs.of(place),
            None => false,
        }
    }

    /// Guesses what leaves come to together, of these axioms over variables whose first `count` are those of pairs.
    pub fn merge(
        &mut self,
        alloc: Global,
        axioms: &ClauseStore,
        used: &[u32],
        own: &[Var],
        count: usize,
    ) {
        let _ = self.merges.find(alloc, axioms, used, own, count);
    }

    /// What leaves come to together.
    pub fn merges(&self) -> &Merges {
        &self.merges
    }

    /// A literal is decided for the merged clause.
    pub fn begin_lesson(&mut self) {
        self.merges.begin();
    }

    /// The merged clause is taught, or isn't worth it.
    pub fn end_lesson(&mut self) {
        self.merges.end();
    }

    /// The variable's place among the own ones.
    pub fn place_of(&self, own: &[Var], variable: Var) -> Option<usize> {
        self.places.of(own, variable)
    }

    /// Another search made this literal true.
    pub fn expect(&mut self, own: &[Var], lit: Lit) {
        if let Some(place) = self.places.of(own, lit.variable) {
            self.signs.expect(place, lit.sign);
        }
    }

    /// The set of assumptions with this name is asked about next.
    pub fn turn_to(&mut self, name: u64) {
        self.signs.turn_to(name);
    }

    /// A call begins.
    pub fn begin(&mut self) {
        self.signs.begin();
        self.merges.look_again();
    }

    /// The place of the next variable that is to be shown true.
    pub fn wanted(&self) -> Option<usize> {
        self.signs.wanted()
    }

    /// The variable that is to be shown true next has a value, or is to be false.
    pub fn drop_wanted(&mut self) {
        self.signs.drop_wanted();
    }

    /// An answer comes, of whose true variables each is told by `see`.
    pub fn forget_last(&mut self) {
        self.signs.forget_last();
    }

    /// The answer makes this variable true.
    pub fn see(&mut self, own: &[Var], variable: Var) {
        if let Some(place) = self.places.of(own, variable) {
            self.signs.see(place);
        }
    }

    /// Variables have lost their values.
    pub fn settle(&mut self) {
        self.signs.settle();
    }

    /// The literal isn't true any more: its variable may be decided again.
    pub fn put_back(&mut self, own: &[Var], lit: Lit) {
        if let Some(place) = self.places.of(own, lit.variable) {
            self.signs.set(place, lit.sign);
            if place < self.active {
                self.order.put_back(place);
            } else if place < self.next {
                self.next = place;
            }
        }
    }

    /// No variable has a value any more.
    pub fn put_all_back(&mut self) {
        self.order.put_all_back(self.active);
        self.next = self.active;
    }

    /// Counts a conflict, and answers whether the search is to begin anew.
    pub fn note_conflict(&mut self) -> bool {
        if self.merges.has_begun() {
            self.merges.end();
            self.merges.look_again();
            return true;
        }
        self.step = self.step.saturating_add(self.step / 12);
        if self.step > LARGEST_STEP {
            self.make_smaller();
        }
        if self.signs.note_conflict() {
            self.merges.look_again();
            return true;
        }
        self.left = self.left.saturating_sub(1);
        if self.left > 0 {
            return false;
        }
        self.merges.look_again();
        self.begin_run();
        true
    }

    // Divides all activities, and the step with them.
    fn make_smaller(&mut self) {
        self.order.make_smaller();
        self.step /= SCALE;
    }

    // The next run's length.
    fn begin_run(&mut self) {
        if self.runs & self.runs.wrapping_neg() == self.length {
            self.runs = self.runs.wrapping_add(1);
            self.length = 1;
        } else {
            self.length = self.length.saturating_mul(2);
        }
        let unit = if self.signs.has_answer() {
            RUN_NEAR_ANSWER
        } else {
            SHORTEST_RUN
        };
        self.left = self.length.saturating_mul(unit);
    }
}
