//! The text of certificates, written to any sink piece by piece from where reasons are kept, without taking memory.
//!
//! The text is a function of the plain certificate, so that reasons and refutations have one text, and what is read back
//! from it (`pc_cert_laws`) speaks of no code. Its derivation lists each line with hints to the lines that it is derived
//! from, as the LRAT format does (Cruz-Filipe, Heule, Hunt, Kaufmann and Schneider-Kamp, 2017), but with the sheet's own
//! names in place of numbered variables, and with axioms that the checker tests by the sheet.
#![tactic(auto)]

mod axiom;
mod certificate;
mod claim;
mod entries;
mod hint;
mod law;
mod line;
mod lines;
mod literal;
mod number;
mod path;
mod sets;
mod tight;
mod why;

pub use certificate::{write_against, write_reason, write_refutation, write_sets};
pub use law::texts_are_worked;
pub use why::write_why;
