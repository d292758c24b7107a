//! Which sign each own variable is decided with, and which are to be true next.
//!
//! Signs are those that the variables had last (Pipatsrisawat and Darwiche), false at first. Of the preferred variables a few
//! that no answer has made true yet are decided true before others, so that few answers show many of them: eight in the first
//! call, twice as many after a call without trouble, half as many after one with more than a few conflicts. Where a call has
//! met some conflicts, the signs are again those of the last answer. No contract rests on it.

use crate::shown::Shown;
use std::alloc::{AllocError, Global};

// How many variables are to be shown true in the first call.
const FIRST_SHARE: usize = 8;

// A call with no more conflicts than this has shown without trouble what was to be shown.
const FEW: u64 = 1;

// A call with more conflicts than this was to show too much.
const MANY: u64 = 4;

// How many calls go by before something is to be shown again, once one variable alone was too much.
const REST: u64 = 6;

// After so many conflicts of a call the last answer's signs are taken up again.
const PATIENCE: u64 = 20;

// A call with more conflicts than this is long.
const LONG: u64 = 4_096;

/// The signs of the own variables, by their places.
#[derive(Drop)]
pub struct Signs {
    signs: Vec<bool>,
    // the signs in the last answer, and what answers have shown
    last: Vec<bool>,
    shown_yet: Shown,
    // the places that are to be shown true: the first `wanted` of these, from `next` on
    shown: Vec<usize>,
    wanted: usize,
    next: usize,
    // of how many of the first places that is tried, and of how many at once
    preferred: usize,
    share: usize,
    // whether something is to be shown, and whether there was a call
    shows: bool,
    has_begun: bool,
    // how many calls go by before something is tried again, and how many calls there were
    rest: u64,
    turn: usize,
    // the conflicts of this call, and how many are left before the last answer's signs come back
    met: u64,
    patience: u64,
    is_due: bool,
    // whether variables keep the signs that they had, and whether an answer has come
    keeps: bool,
    has_answer: bool,
    // of how many variables another search has told the sign
    expected: usize,
}

impl Signs {
    /// All variables false at first. It takes all the memory that it will need.
    pub fn new(alloc: Global, count: usize) -> Result<Signs, AllocError> {
        Ok(Signs {
            signs: vec![in alloc; false; count]?,
            last: vec![in alloc; false; count]?,
            shown_yet: Shown::new(alloc, count)?,
            shown: vec![in alloc; 0; count]?,
            wanted: 0,
            next: 0,
            preferred: 0,
            share: FIRST_SHARE,
            shows: true,
            has_begun: false,
            rest: 0,
            turn: 0,
            met: 0,
            patience: 0,
            is_due: false,
            keeps: false,
            has_answer: false,
            expected: 0,
        })
    }

    /// Of the first `count` variables some are to be shown true.
    pub fn prefer_first(&mut self, count: usize) {
        self.preferred = count;
        self.shown_yet.narrow(count);
        self.share = self.share.min(count);
    }

    /// From now on nothing is to be shown true.
    pub fn show_nothing(&mut self) {
        self.shows = false;
    }

    /// The set with this name is asked about next: what is to be shown is what its answers haven't.
    pub fn turn_to(&mut self, name: u64) {
        self.shown_yet.turn_to(name);
    }

    /// The sign with which the variable at this place is decided.
    pub fn of(&self, place: usize) -> bool {
        place < self.signs.len() && self.signs[place]
    }

    /// The variable at this place is decided with this sign from now on.
    pub fn set(&mut self, place: usize, sign: bool) {
        if self.keeps && place < self.signs.len() {
            self.signs[place] = sign;
        }
    }

    /// The last answer of another search over these variables gave the one at this place this sign: it is as if that answer had come
    /// here, once all have signs.
    pub fn expect(&mut self, place: usize, sign: bool) {
        if place < self.signs.len() && place < self.last.len() {
            self.signs[place] = sign;
            self.last[place] = sign;
            self.expected = self.expected.saturating_add(1);
            if self.expected >= self.signs.len() {
                self.keeps = true;
                self.has_answer = true;
            }
        }
    }

    /// Whether an answer has come.
    pub fn has_answer(&self) -> bool {
        self.has_answer
    }

    /// A call begins: some variables that no answer has made true are to be so.
    pub fn begin(&mut self) {
        if self.has_begun {
            self.fit_share();
        }
        self.has_begun = true;
        self.shown_yet.begin();
        self.met = 0;
        self.patience = PATIENCE;
        self.wanted = 0;
        self.next = 0;
        if self.shows && self.share > 0 {
            self.want();
        }
    }

    // As many at once as the last call has shown to be right.
    fn fit_share(&mut self) {
        if self.share == 0 {
            if self.rest > 0 {
                self.rest -= 1;
            } else {
                self.share = 1;
            }
        } else if self.met > MANY {
            self.share = if self.share == 1 { 0 } else { self.share / 2 };
            self.rest = REST;
        } else if self.met <= FEW {
            self.share = self.share.saturating_mul(2).min(self.preferred.max(1));
        }
    }

    // Takes up so many of those that no answer has made true, spread over all of them.
    fn want(&mut self) {
        let mut unseen: usize = 0;
        for place in 0..self.preferred {
            if self.shown_yet.lacks(place) {
                unseen = unseen.saturating_add(1);
            }
        }
        let step = (unseen / self.share.max(1)).saturating_add(1).max(1);
        self.turn = self.turn.wrapping_add(1);
        let mut number = self.turn;
        for place in 0..self.preferred {
            if self.shown_yet.lacks(place) {
                if number % step == 0
                    && self.wanted < self.shown.len()
                    && place < self.signs.len()
                {
                    self.signs[place] = true;
                    self.shown[self.wanted] = place;
                    self.wanted += 1;
                }
                number = number.wrapping_add(1);
            }
        }
    }

    /// The next place that is to be shown true; whoever has no use for it drops it.
    pub fn wanted(&self) -> Option<usize> {
        if self.next < self.wanted && self.next < self.shown.len() {
            Some(self.shown[self.next])
        } else {
            None
        }
    }

    /// What is to be shown next has a value, or is false.
    pub fn drop_wanted(&mut self) {
        self.next = self.next.saturating_add(1);
    }

    /// Variables have lost their values: what is to be shown is looked at anew, or the last answer's signs come back.
    pub fn settle(&mut self) {
        self.next = 0;
        if !self.is_due {
            return;
        }
        self.is_due = false;
        self.wanted = 0;
        for place in 0..self.signs.len() {
            if place < self.preferred && place < self.last.len() {
                self.signs[place] = self.last[place];
            }
        }
    }

    /// An answer comes: no variable is known to be true in it yet.
    pub fn forget_last(&mut self) {
        self.keeps = true;
        self.has_answer = true;
        for place in 0..self.last.len() {
            self.last[place] = false;
        }
    }

    /// The answer makes the variable at this place true.
    pub fn see(&mut self, place: usize) {
        self.shown_yet.add_place(place);
        if place < self.last.len() {
            self.last[place] = true;
        }
    }

    /// Counts a conflict, and answers whether the search is to begin anew, with the last answer's signs.
    pub fn note_conflict(&mut self) -> bool {
        self.met = self.met.saturating_add(1);
        if self.met > LONG {
            self.keeps = true;
        }
        if self.patience == 0 {
            return false;
        }
        self.patience -= 1;
        self.is_due = self.patience == 0;
        self.is_due
    }
}
