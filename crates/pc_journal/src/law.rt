//! Laws of the modes over journals. Each function is a law: its contract holds for every value, and it does nothing.
ghost use Rattle.std.specs.Prelude.{List, [], ℕ};
ghost use Rattle.pc_refusals.specs.Stages.{takes, sheet_file};
ghost use Rattle.pc_journal.specs.Course.{Merge};
ghost use Rattle.pc_journal.specs.Examples.{LinesAreWorked};

/// What is told of journals, by example.
pub fn lines_are_worked()
    ensures { LinesAreWorked }
{}

/// A merge asks the shelf for its file first.
pub fn merges_ask_first()
    ensures { (file : List ℕ) → Merge file [] (takes (sheet_file file)) tt }
{}
