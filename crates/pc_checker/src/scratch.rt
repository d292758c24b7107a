//! What a check needs of memory.

use crate::line_clauses::LineClauses;
use pc_books::Assignment;
use pc_lits::{Lit, Values};

/// What is prepared for the check of one certificate, so that the check itself takes no memory. The symbols of all
/// clauses have numbers, the certificate's own first.
#[derive(Drop)]
pub struct Scratch {
    // Whether each pair of a cell and a value is entered.
    pub(crate) entered: Vec<bool>,
    // The values of the certificate's `value` lines.
    pub(crate) assignment: Assignment,
    // The values of the `value` lines of each set.
    pub(crate) sets: Vec<Assignment>,
    // Room to mark the entries of a set, by cell and value.
    pub(crate) pairs: Values,
    // How many of the first sets are known to be apart from one another.
    pub(crate) apart: usize,
    // The clause of each line of the derivation.
    pub(crate) clauses: LineClauses,
    // Whether each line may be taken as an axiom.
    pub(crate) axioms: Vec<bool>,
    // The literals that the last clause may have.
    pub(crate) allowed: Vec<Lit>,
    // The truth values by which a step is tested.
    pub(crate) values: Values,
}
