//! Laws over the definitions, each the contract of a function that does nothing.
ghost use Rattle.pc_sortcheck.specs.Laws.{SheetsAreWellFormed};

/// The sheet that a text reads as is well formed.
pub fn sheets_are_well_formed()
    ensures { SheetsAreWellFormed }
{}
