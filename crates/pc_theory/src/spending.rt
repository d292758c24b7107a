//! What a search spends.

use pc_lits::Tally;
use pc_log::Log;

/// What a search has spent on one part.
#[derive(Drop)]
pub struct PartSpending {
    /// The part's number.
    pub part: u32,
    /// What was spent.
    pub tally: Tally,
    /// The logs of its solvers, at most three.
    pub logs: Vec<Log>,
}

/// What an edit or a load has spent.
#[derive(Drop)]
pub struct Spending {
    /// The sum.
    pub tally: Tally,
    /// Part by part.
    pub parts: Vec<PartSpending>,
}
