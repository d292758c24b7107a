//! Laws over the definitions, each the contract of a function that does nothing.
ghost use Rattle.pc_elaborate.specs.Examples.{AreWorkedFaults};
ghost use Rattle.pc_elaborate.specs.Laws.{TreesHaveOneOutcome};

/// In a well-formed universe each name, value, cell and formula stands for one thing at most, has one first fault at
/// most, and has no fault where it stands for something.
pub fn trees_have_one_outcome()
    ensures { TreesHaveOneOutcome }
{}

/// The first faults of some small formulas.
pub fn worked_faults()
    ensures { AreWorkedFaults }
{}
