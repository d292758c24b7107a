//! Which axioms of a part a search takes.
//!
//! An axiom that says what a node or an atom means is left out where unit propagation over the kept ones makes one of its
//! literals true, where no kept axiom names a node that it names, or where it is so whatever values cells have. What a sheet
//! needs of it is kept: clauses over the kept axioms are for the part's sheet as all of its axioms are.
//!
//! Where at most a third of these stays by that, a part goes by polarity: an axiom is also left out where no kept axiom names the
//! opposite of its own literal, that of the node whose meaning it says. Its own literal is banned then: no clause that a search
//! over the part learns is to have it.
#![tactic(auto)]

mod checking;
mod components;
mod fewer;
mod forcing;
mod guessing;
mod keeping;
pub mod laws;
mod leaving;
mod polarity;
mod trial;
mod unnamed;

pub use components::kept_components;
