//! Laws of verdicts. Each function is a law: its contract holds for every value, and it does nothing.

ghost use Rattle.pc_checker.specs.Laws.{AcceptedIsAccepts, VerdictsAreOne};

/// A certificate is accepted exactly where the definition of acceptance takes it.
pub fn accepted_is_accepts()
    ensures { AcceptedIsAccepts }
{}

/// A certificate has one verdict at most.
pub fn verdicts_are_one()
    ensures { VerdictsAreOne }
{}
