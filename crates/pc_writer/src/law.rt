// Worked examples and a law, each the contract of a function that does nothing.
ghost use Rattle.pc_writer.specs.Examples.{TextsAreWorked};
ghost use Rattle.pc_writer.specs.Versions.{VersionsTell};

/// The canonical texts of four sheets: a small one, the same with two entries of a cell, one whose rules count, and one with
/// a range, a table, arguments, quantifiers and sums.
pub fn texts_are_worked()
    ensures { TextsAreWorked }
{}

/// A text's version tells whether some cell has two entries or more, and so some line is an `also` line, or some rule counts.
pub fn versions_tell()
    ensures { VersionsTell }
{}
