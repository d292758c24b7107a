//! The own variables by their activities, the most active one first.
//!
//! A binary heap of places among the own variables, with the spot of each in the heap, as in MiniSat. Of two that are
//! equally active the lower place comes first, also where they are so since all were made smaller. No contract rests on it:
//! whoever asks it tests the answer.

use std::alloc::{AllocError, Global};

/// By how much activities are made smaller.
pub const SCALE: u64 = 65_536;

// The spot of a place that isn't in the heap.
const NOWHERE: u32 = u32::MAX;

/// Places with their activities, of which some stand in a heap.
#[derive(Drop)]
pub struct Order {
    activities: Vec<u64>,
    // the heap: the first `filled` of these
    heap: Vec<u32>,
    filled: usize,
    // where each place stands in the heap, and `NOWHERE` if it doesn't
    spots: Vec<u32>,
}

impl Order {
    /// All places below `count`, without activity. It takes all the memory that it will need.
    pub fn new(alloc: Global, count: usize) -> Result<Order, AllocError> {
        if count >= NOWHERE as usize {
            return Err(AllocError);
        }
        let activities = vec![in alloc; 0; count]?;
        let mut heap = Vec::with_capacity(alloc, count)?;
        let mut spots = Vec::with_capacity(alloc, count)?;
        for place in 0..count {
            heap.push(place as u32)?;
            spots.push(place as u32)?;
        }
        Ok(Order {
            activities,
            heap,
            filled: count,
            spots,
        })
    }

    /// The most active place of the heap.
    pub fn top(&self) -> Option<usize> {
        if self.filled == 0 {
            None
        } else {
            Some(self.at(0))
        }
    }

    /// Takes the most active place out of the heap.
    pub fn drop_top(&mut self) {
        if self.filled == 0 {
            return;
        }
        let place = self.at(0);
        if place < self.spots.len() {
            self.spots[place] = NOWHERE;
        }
        self.filled -= 1;
        if self.filled > 0 {
            let last = self.at(self.filled);
            self.sink(0, last);
        }
    }

    /// Puts the place into the heap, if it isn't there.
    pub fn put_back(&mut self, place: usize) {
        if place < self.spots.len() && self.filled < self.heap.len() {
            if self.spots[place] == NOWHERE {
                let spot = self.filled;
                self.filled += 1;
                self.rise(spot, place);
            }
        }
    }

    /// Puts the places below `count` into the heap.
    pub fn put_all_back(&mut self, count: usize) {
        for place in 0..self.spots.len() {
            if place < count {
                self.put_back(place);
            }
        }
    }

    /// Makes the place more active.
    pub fn raise(&mut self, place: usize, step: u64) {
        if place < self.activities.len() {
            self.activities[place] = self.activities[place].saturating_add(step);
        }
        if place < self.spots.len() {
            let spot = self.spots[place];
            if spot != NOWHERE {
                self.rise(spot as usize, place);
            }
        }
    }

    /// Divides all activities by `SCALE`. Some are equal then that were not, so the heap is put in order again.
    pub fn make_smaller(&mut self) {
        for place in 0..self.activities.len() {
            self.activities[place] /= SCALE;
        }
        self.put_in_order();
    }

    /// Leaves the places below `count` alone in the heap, all of them.
    pub fn keep_below(&mut self, count: usize) {
        self.filled = 0;
        for place in 0..self.spots.len() {
            self.spots[place] = NOWHERE;
        }
        for place in 0..self.spots.len() {
            if place < count {
                self.put_back(place);
            }
        }
    }

    // Makes a heap of the places that stand in it, from the lowest ones up.
    fn put_in_order(&mut self) {
        let inner = self.filled / 2;
        for number in 0..inner {
            let spot = inner - 1 - number;
            let place = self.at(spot);
            self.sink(spot, place);
        }
    }

    // The place at this spot of the heap.
    fn at(&self, spot: usize) -> usize {
        if spot < self.heap.len() {
            self.heap[spot] as usize
        } else {
            0
        }
    }

    // Sets the place at this spot of the heap.
    fn set(&mut self, spot: usize, place: usize) {
        if spot < self.heap.len()
            && place < self.spots.len()
            && spot < NOWHERE as usize
            && place < NOWHERE as usize
        {
            self.heap[spot] = place as u32;
            self.spots[place] = spot as u32;
        }
    }

    // Sets the place at this spot, or above it where it comes before those that stand there. A heap is less deep than a
    // number has bits.
    fn rise(&mut self, start: usize, place: usize) {
        let mut spot = start;
        for _ in 0..usize::BITS {
            if spot == 0 {
                break;
            }
            let above = (spot - 1) / 2;
            let other = self.at(above);
            if !self.comes_first(place, other) {
                break;
            }
            self.set(spot, other);
            spot = above;
        }
        self.set(spot, place);
    }

    // Sets the place at this spot, or below it where those that stand there come first.
    fn sink(&mut self, start: usize, place: usize) {
        let mut spot = start;
        for _ in 0..usize::BITS {
            let Some(below) = self.first_below(spot) else {
                break;
            };
            let other = self.at(below);
            if !self.comes_first(other, place) {
                break;
            }
            self.set(spot, other);
            spot = below;
        }
        self.set(spot, place);
    }

    // Of the two spots below this one that which comes first.
    fn first_below(&self, spot: usize) -> Option<usize> {
        let left = spot.saturating_mul(2).saturating_add(1);
        if left >= self.filled {
            return None;
        }
        let right = left + 1;
        if right < self.filled && self.comes_first(self.at(right), self.at(left)) {
            Some(right)
        } else {
            Some(left)
        }
    }

    // Whether the first of these places comes before the other.
    fn comes_first(&self, one: usize, other: usize) -> bool {
        let first = self.activity(one);
        let second = self.activity(other);
        first > second || (first == second && one < other)
    }

    // The place's activity.
    fn activity(&self, place: usize) -> u64 {
        if place < self.activities.len() {
            self.activities[place]
        } else {
            0
        }
    }
}
