//! Laws on formulas that entries support, as contracts.
ghost use Rattle.pc_accept.specs.AskedLaws.{StatementsAreDecided, StatementHasOneLeast, StatementIsByMaximalSet, AgainstIsSupport, AcceptedAgainstIsSupport};

/// A closed formula is implied or not.
pub fn statements_are_decided()
    ensures { StatementsAreDecided }
{}

/// An implied formula has exactly one least support.
pub fn statement_has_one_least()
    ensures { StatementHasOneLeast }
{}

/// A formula is implied exactly where some maximal set entails it.
pub fn statement_is_by_maximal_set()
    ensures { StatementIsByMaximalSet }
{}

/// Entries are against the last rule of the asked sheet exactly where they support the formula.
pub fn against_is_support()
    ensures { AgainstIsSupport }
{}

/// The used entries of an accepted certificate against the last rule of the asked sheet support the formula.
pub fn accepted_against_is_support()
    ensures { AcceptedAgainstIsSupport }
{}
