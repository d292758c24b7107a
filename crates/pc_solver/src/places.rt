//! Where each own variable stands among them.
//!
//! Where they have all numbers from the least one to the greatest one, that is counted. Else there is a table of these numbers,
//! where it takes few for each own variable, or a variable is found by halving. No contract rests on it: each answer is tested.

use pc_lits::Var;
use std::alloc::{AllocError, Global};

// How many numbers the table may take for each own variable.
const LARGEST_SHARE: usize = 4;

// What the table has for a variable that isn't own.
const NOWHERE: u32 = u32::MAX;

/// The place of each own variable.
#[derive(Drop)]
pub struct Places {
    first: u32,
    // how many variables there are from `first` on, where all of them are own
    run: usize,
    // the place of each variable from `first` on; empty where it would be too long, or isn't needed
    table: Vec<u32>,
}

impl Places {
    /// The places of these variables, which rise. It takes all the memory that it will need.
    pub fn new(alloc: Global, own: &[Var]) -> Result<Places, AllocError> {
        let mut places = Places {
            first: 0,
            run: 0,
            table: Vec::new(alloc),
        };
        if own.is_empty() {
            return Ok(places);
        }
        places.first = own[0].0;
        let span = own[own.len() - 1].0.saturating_sub(places.first) as usize;
        if span + 1 == own.len() {
            places.run = own.len();
        } else if span / LARGEST_SHARE < own.len() {
            places.table = table(alloc, own, places.first, span)?;
        }
        Ok(places)
    }

    /// The variable's place among these, of which it was made.
    pub fn of(&self, own: &[Var], variable: Var) -> Option<usize> {
        let at = variable.0.wrapping_sub(self.first) as usize;
        if self.run > 0 {
            return if at < self.run { Some(at) } else { None };
        }
        if self.table.is_empty() {
            return own.binary_search(&variable).ok();
        }
        if at >= self.table.len() || self.table[at] == NOWHERE {
            return None;
        }
        Some(self.table[at] as usize)
    }
}

// For the first of these variables and the `span` numbers after it, the place of each that is one of them.
fn table(alloc: Global, own: &[Var], first: u32, span: usize) -> Result<Vec<u32>, AllocError> {
    let mut table = vec![in alloc; NOWHERE; span.saturating_add(1)]?;
    for place in 0..own.len() {
        let at = own[place].0.wrapping_sub(first) as usize;
        if at < table.len() && place < NOWHERE as usize {
            table[at] = place as u32;
        }
    }
    Ok(table)
}
