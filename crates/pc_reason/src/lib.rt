//! Derivations with names, and reasons, as others lend and keep them: why a target is implied, and why no assignment makes
//! every rule true.
//!
//! A reason is what a certificate holds, before it is text: the least support of its target, an assignment that shows the
//! support consistent, and a derivation of the target from it (`pc_log::Derivation`): some of the lines that many reasons share,
//! with the names of their variables and axioms, so that it is lent without a copy. What refutes rules or says what may be kept
//! together is a proof (`Proof`): a span of a log, with names. A reason is right by definition where the certificate made of it
//! is accepted (`pc_accept`), so that whoever keeps reasons and whoever checks certificates mean the same. That derivations are
//! kept as lines with hints to earlier lines is as in the LRAT format (Cruz-Filipe, Heule, Hunt, Kaufmann and Schneider-Kamp,
//! 2017).
#![tactic(auto)]

mod law;
mod proof;
mod reason;
mod reasons;
mod refutation;
mod steps;

pub use law::{accepted_are_writable, justifications_show_supports};
pub use pc_axiom_names::Names;
pub use pc_log::{Line, Log, Span, StepId};
pub use proof::Proof;
pub use reason::Reason;
pub use reasons::Reasons;
pub use refutation::Refutation;
pub use steps::Steps;
