//! Certificates, the reading of their text, and laws of it: a text has one reading, and what it is read as is a certificate for
//! the sheet.
#![tactic(auto)]

mod axiom;
mod cert;
mod claim;
mod derived;
mod draft;
mod entries;
mod fronts;
mod law;
mod line;
mod links;
mod literal;
mod lookup;
mod node;
mod number;
mod numbering;
mod one_reading;
mod order;
mod part;
mod path;
mod read;
mod spelled;
mod table;
mod texts;
mod tree;

pub use cert::{Cert, CertFault, CertLine, CertPart, Claim, Said, SaidSet, Symbol};
pub use law::worked_lines;
pub use numbering::Numbering;
pub use one_reading::{certificates_have_one_reading, what_is_read_is_for_the_sheet};
pub use pc_axiom_names::AxiomName;
pub use pc_lits::{Lit, Var};
pub use pc_sheet::{CellId, Entry, NodePath, Target, ValueId};
pub use read::read_cert;

/// The most bytes that the text of a certificate may have.
pub const CERT_LIMIT: usize = 67_108_864;
