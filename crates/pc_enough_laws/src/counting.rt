//! How many clauses there are over some variables, and how amounts add up: the laws, as contracts.
ghost use Rattle.pc_enough_laws.specs.Clauses.{NewClausesAreFew};
ghost use Rattle.pc_enough_laws.specs.Amounts.{EnoughAddsUp, EnoughGrows, WorkedEnough};

/// Clauses that contain no earlier one and not the given one are fewer than three to the number of their variables.
pub fn new_clauses_are_few()
    ensures { NewClausesAreFew }
{}

/// What is enough for each of several parts is together no more than what is enough for the whole.
pub fn enough_adds_up()
    ensures { EnoughAddsUp }
{}

/// What is enough grows with the variables, the entries and the targets.
pub fn enough_grows()
    ensures { EnoughGrows }
{}

/// What is enough for a small sheet.
pub fn enough_is_worked()
    ensures { WorkedEnough }
{}
