//! A reason, lent in parts from where they are kept.

use pc_axiom_names::Names;
use pc_books::Assignment;
use pc_log::Derivation;
use pc_sheet::{Entry, Target};

/// Why a target is implied.
#[derive(Clone, Copy)]
pub struct Reason<'a> {
    /// What is implied: that a cell has a value, or that it hasn't.
    pub target: Target,
    /// The entries that imply it, oldest first.
    pub support: &'a [Entry],
    /// An assignment that makes every rule true and has these entries.
    pub shown: &'a Assignment,
    /// What the variables and the axioms of the derivation are.
    pub names: &'a Names,
    /// A derivation of the target from the rules and these entries.
    pub proof: Derivation<'a>,
}
