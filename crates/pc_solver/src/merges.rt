//! Merged leaves: what the leaves of an atom say together with the clause of their last read's cell.
//!
//! Leaves that differ in the value of their last read alone say that none of these values stands beside the rest. Since the cell has
//! some value, one of its other values does, or the rest isn't so. Unit propagation by the leaves doesn't see that the rest isn't
//! so once the other values are lost. So the search is led into conflicts that teach these clauses: once all assumptions are true,
//! it decides the literals of a clause false, one after another. At the last one the leaves leave the cell no value, and what is
//! learned of that conflict is the clause, or one like it. Then the search begins anew with another clause, until each that is
//! left has a literal that is true. That takes a conflict a clause, so that only many leaves make it worth while.
//!
//! Here is guessed what the clauses are. No contract rests on it: a wrong guess is a decision like any other.

use pc_lits::{ClauseStore, Lit, Rows, Var};
use std::alloc::{AllocError, Global};

// So many leaves are worth a clause.
const MANY: usize = 12;

// At most so many clauses are looked at in vain before the search begins anew.
const MOST_LOOKS: usize = 256;

/// The clauses that leaves come to, and the one that is looked at next.
#[derive(Drop)]
pub struct Merges {
    clauses: Rows<Lit>,
    // the numbers of those that weren't taught yet, and which of these is looked at next
    left: Vec<usize>,
    at: usize,
    // how many of them were good for nothing since the search began anew, and whether a literal was decided for the next one
    tried: usize,
    has_begun: bool,
}

impl Merges {
    /// None. It takes no memory.
    pub fn new(alloc: Global) -> Merges {
        Merges {
            clauses: Rows::new(alloc),
            left: Vec::new(alloc),
            at: 0,
            tried: 0,
            has_begun: false,
        }
    }

    /// Guesses the clauses of these axioms, over variables whose first `count` are those of pairs. Without memory some are missing.
    pub fn find(
        &mut self,
        alloc: Global,
        axioms: &ClauseStore,
        used: &[u32],
        own: &[Var],
        count: usize,
    ) -> Result<(), AllocError> {
        if count == 0 || count > own.len() {
            return Ok(());
        }
        let first = own[0].0;
        let last = own[count - 1].0;
        let leaves = Leaves { axioms, used, last };
        let groups = leaves.groups(alloc)?;
        if groups.is_empty() {
            return Ok(());
        }
        let homes = leaves.homes(alloc, first)?;
        for group in &groups {
            self.add_group(alloc, &leaves, &homes, *group)?;
        }
        Ok(())
    }

    // Adds the clause of a group.
    fn add_group(
        &mut self,
        alloc: Global,
        leaves: &Leaves<'_>,
        homes: &Homes,
        group: (usize, usize),
    ) -> Result<(), AllocError> {
        let leaf = leaves.clause(group.0);
        let Some(read) = read_of(leaf) else {
            return Ok(());
        };
        let Some(home) = homes.of(read.variable) else {
            return Ok(());
        };
        let mut clause = Vec::new(alloc);
        let mut place = group.0;
        for lit in leaves.clause(home) {
            if place < group.1 && leaves.is_read(place, lit.variable) {
                place += 1;
            } else {
                clause.push(*lit)?;
            }
        }
        for lit in leaf {
            if *lit != read {
                clause.push(*lit)?;
            }
        }
        self.left.push(self.clauses.len())?;
        self.clauses.push(&clause)
    }

    /// How many clauses are to be looked at until the search begins anew.
    pub fn waiting(&self) -> usize {
        let most = self.left.len().min(MOST_LOOKS);
        most.saturating_sub(self.tried)
    }

    /// The number of the clause that is looked at next.
    pub fn next(&self) -> usize {
        if self.at < self.left.len() {
            self.left[self.at]
        } else {
            0
        }
    }

    /// Whether a literal was decided for the next clause.
    pub fn has_begun(&self) -> bool {
        self.has_begun
    }

    /// A literal is decided for the next clause.
    pub fn begin(&mut self) {
        self.has_begun = true;
    }

    /// The next clause is taught, or needs no teaching, if it was begun; else it is looked at again when the search begins anew.
    pub fn end(&mut self) {
        if self.has_begun {
            if self.at < self.left.len() {
                self.left.swap_remove(self.at);
            }
        } else {
            self.at = self.at.saturating_add(1);
            self.tried = self.tried.saturating_add(1);
        }
        if self.at >= self.left.len() {
            self.at = 0;
        }
        self.has_begun = false;
    }

    /// The search begins anew.
    pub fn look_again(&mut self) {
        self.tried = 0;
        self.has_begun = false;
    }

    /// The clause of this number.
    pub fn clause(&self, number: usize) -> &[Lit] {
        if number < self.clauses.len() {
            return self.clauses.get(number);
        }
        &[]
    }
}

// The axioms of a part, and the last variable of a pair.
#[derive(Drop)]
struct Leaves<'a> {
    axioms: &'a ClauseStore,
    used: &'a [u32],
    last: u32,
}

// For each pair from `first` on the place of the axiom that says that its cell has some value.
#[derive(Drop)]
struct Homes {
    first: u32,
    places: Vec<Option<usize>>,
}

impl Homes {
    fn of(&self, variable: Var) -> Option<usize> {
        let at = variable.0.wrapping_sub(self.first) as usize;
        if at < self.places.len() {
            return self.places[at];
        }
        None
    }

    fn set(&mut self, variable: Var, place: usize) {
        let at = variable.0.wrapping_sub(self.first) as usize;
        if at < self.places.len() {
            self.places[at] = Some(place);
        }
    }
}

impl<'a> Leaves<'a> {
    // The clause of the used axiom at this place.
    fn clause(&self, place: usize) -> &[Lit] {
        if place < self.used.len() {
            let number = self.used[place] as usize;
            if number < self.axioms.len() {
                return self.axioms.get(number);
            }
        }
        &[]
    }

    fn is_pair(&self, lit: Lit) -> bool {
        lit.variable.0 <= self.last
    }

    // Whether all literals but the last one are pairs that aren't so, and the last one is of no pair.
    fn is_leaf(&self, clause: &[Lit]) -> bool {
        let count = clause.len();
        for place in 0..count {
            let is_last = place + 1 == count;
            let is_lost = self.is_pair(clause[place]) && !clause[place].sign;
            if is_last == is_lost || is_last == self.is_pair(clause[place]) {
                return false;
            }
        }
        count >= 2
    }

    // Whether all literals are pairs that are so.
    fn is_home(&self, clause: &[Lit]) -> bool {
        for lit in clause {
            if !lit.sign || !self.is_pair(*lit) {
                return false;
            }
        }
        true
    }

    // From where to where so many leaves lie that differ in their last read alone.
    fn groups(&self, alloc: Global) -> Result<Vec<(usize, usize)>, AllocError> {
        let mut groups = Vec::new(alloc);
        let mut start = 0;
        for place in 0..self.used.len() {
            let clause = self.clause(place);
            if !are_alike(self.clause(start), clause) || !self.is_leaf(clause) {
                if place.saturating_sub(start) >= MANY {
                    groups.push((start, place))?;
                }
                start = place;
            }
        }
        let end = self.used.len();
        if end.saturating_sub(start) >= MANY {
            groups.push((start, end))?;
        }
        Ok(groups)
    }

    fn homes(&self, alloc: Global, first: u32) -> Result<Homes, AllocError> {
        let span = self.last.saturating_sub(first) as usize;
        let mut homes = Homes {
            first,
            places: vec![in alloc; None; span + 1]?,
        };
        for place in 0..self.used.len() {
            let clause = self.clause(place);
            if self.is_home(clause) {
                for lit in clause {
                    homes.set(lit.variable, place);
                }
            }
        }
        Ok(homes)
    }

    // Whether the last read of the leaf at this place is this one.
    fn is_read(&self, place: usize, variable: Var) -> bool {
        match read_of(self.clause(place)) {
            Some(read) => read.variable == variable,
            None => false,
        }
    }
}

// The last read of a leaf, which comes before the atom.
fn read_of(leaf: &[Lit]) -> Option<Lit> {
    let count = leaf.len();
    if count < 2 {
        None
    } else {
        Some(leaf[count - 2])
    }
}

// Whether the clauses differ in their last literal but one alone, if at all.
fn are_alike(one: &[Lit], other: &[Lit]) -> bool {
    let count = one.len();
    if count != other.len() {
        return false;
    }
    for place in 0..count {
        if place + 2 != count && one[place] != other[place] {
            return false;
        }
    }
    true
}
