//! Verdicts.

/// What a check of a certificate says, in the order of its tests. A line is one of the certificate's text.
#[derive(Clone, Copy, PartialEq, Eq)]
pub enum Verdict {
    /// The used entry isn't entered.
    UseNotEntered { line: u32 },
    /// The value isn't that of the cell whose turn it is; or this is the line at which a value is missing.
    BadValues { line: u32 },
    /// The assignment hasn't the used entry.
    UseNotHeld { line: u32 },
    /// The assignment makes this rule false, the first such one.
    RuleBroken { rule: u32 },
    /// The assignment of the set that begins here has the value that is said not to be implied.
    HasValue { line: u32 },
    /// The set that begins here lies within an earlier one, or an earlier one within it.
    SetInSet { line: u32 },
    /// What was taken as an axiom isn't one.
    BadAxiom { line: u32 },
    /// The clause isn't a good step by its hints.
    BadStep { line: u32 },
    /// There is no last clause, or it says more than was claimed.
    WrongEnd,
    Accepted,
}
