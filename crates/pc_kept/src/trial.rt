//! What a choice of a part's axioms is made from, and what it looks at.

use pc_axiom_names::Names;
use pc_lits::{ClauseStore, Values};

/// What is stored of a sheet: its clauses, its axioms' names, and how many variables are of pairs.
#[derive(Clone, Copy)]
pub(crate) struct Stored<'a> {
    pub(crate) store: &'a ClauseStore,
    pub(crate) names: &'a Names,
    pub(crate) pairs: u32,
}

/// What the axioms that are tried make true, by which of them, and what they name.
#[derive(Drop)]
pub(crate) struct Trial {
    pub(crate) values: Values,
    pub(crate) reasons: Vec<usize>,
    pub(crate) named: Values,
}
