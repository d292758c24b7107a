//! Books and their parts as problems for a solver: the one premise of all searches over a book or a part of it, and laws that
//! every book and each of its parts meets it.
#![tactic(auto)]

pub mod laws;
pub mod pairs;

pub use pairs::count_pairs;
