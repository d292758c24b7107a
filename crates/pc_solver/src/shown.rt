//! What answers have shown, for each set that is asked about by itself.
//!
//! A target is asked about with one maximal set after another, and what answers with one of them have made true tells nothing of
//! another. So it is noted for each set. No contract rests on it.

use std::alloc::{AllocError, Global};

// How many sets are told apart. Others share what is noted of the first one.
const MOST: usize = 256;

/// Which of the first places some answer has made true, by the set that was asked about.
#[derive(Drop)]
pub struct Shown {
    // the numbers that stand for the sets; the first one has what was noted before any was named
    names: Vec<u64>,
    // the truth of so many places for each set
    rows: Vec<bool>,
    width: usize,
    // the set of the present answers, and the one that is asked about next
    present: usize,
    next: usize,
}

impl Shown {
    /// Nothing is shown of so many places, and no set is named.
    pub fn new(alloc: Global, width: usize) -> Result<Shown, AllocError> {
        Ok(Shown {
            names: Vec::new(alloc),
            rows: vec![in alloc; false; width]?,
            width,
            present: 0,
            next: 0,
        })
    }

    /// From now on it is of the first `width` places alone. No set is named yet.
    pub fn narrow(&mut self, width: usize) {
        self.width = self.width.min(width);
    }

    /// The set with this name is asked about next. Without memory it isn't told from the first one.
    pub fn turn_to(&mut self, name: u64) {
        self.next = 0;
        for number in 0..self.names.len() {
            if self.names[number] == name {
                self.next = number;
                return;
            }
        }
        let count = self.names.len();
        if count < MOST {
            if let Ok(()) = self.add(name) {
                self.next = count;
            }
        }
    }

    // Adds a set of which nothing is shown, but for the first one.
    fn add(&mut self, name: u64) -> Result<(), AllocError> {
        if !self.names.is_empty() {
            self.rows.reserve(self.width)?;
            for _ in 0..self.width {
                self.rows.push(false)?;
            }
        }
        self.names.push(name)?;
        Ok(())
    }

    /// The next call begins.
    pub fn begin(&mut self) {
        self.present = self.next;
    }

    // Where the place of the present set stands.
    fn at(&self, place: usize) -> usize {
        self.present
            .saturating_mul(self.width)
            .saturating_add(place)
    }

    /// Whether the place is one of the first, and no answer has made it true.
    pub fn lacks(&self, place: usize) -> bool {
        let at = self.at(place);
        place < self.width && at < self.rows.len() && !self.rows[at]
    }

    /// An answer makes the place true.
    pub fn add_place(&mut self, place: usize) {
        let at = self.at(place);
        if place < self.width && at < self.rows.len() {
            self.rows[at] = true;
        }
    }
}
