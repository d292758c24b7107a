//! The check of a certificate: whether its entries, its assignment and its derivation show what it claims.
#![tactic(auto)]

mod alike;
mod axiom;
mod checking;
mod claim;
mod counting;
mod derivation;
mod draft;
mod entered;
mod hints;
mod law;
mod line_clauses;
mod node;
mod once;
mod room;
mod scratch;
mod sets;
mod shared;
mod taken;
mod verdict;

pub use checking::check;
pub use law::{accepted_is_accepts, verdicts_are_one};
pub use room::room_for;
pub use scratch::Scratch;
pub use verdict::Verdict;
