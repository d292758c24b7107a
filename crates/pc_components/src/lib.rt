//! The parts of a book, with the axioms and the variables of each.
#![tactic(auto)]

mod components;
mod labels;
mod laws;
mod marks;
mod narrow;
mod numbers;
mod part_numbers;
mod piece_part;
mod tied;
mod turned;
mod variables;

pub use components::{Components, Part, find_components};
pub use laws::{
    axioms_are_for_their_sheet, clauses_decide, owners_are_found, owners_are_parts,
    part_axioms_are_for_their_parts, parts_are_in_their_ground, parts_are_solvable,
    parts_have_their_own_variables,
};
pub use piece_part::{PartOfPiece, find_last_part};
