// Laws of the displays, each the contract of a function that does nothing.
ghost use Rattle.pc_display.specs.Examples.{DisplaysAreThese, GridsAreThese, JsonTextsAreThese};
ghost use Rattle.pc_display.specs.Marks.{MarksShowConflicts};
ghost use Rattle.pc_display.specs.OneDisplay.{SheetHasOneDisplay};

/// A sheet has one display in each form: what is shown depends on nothing but the sheet.
pub fn sheet_has_one_display()
    ensures { SheetHasOneDisplay }
{}

/// An entry has a conflict exactly where it is in some minimal inconsistent sublist of the entries, and a cell is marked exactly
/// where one of its entries is.
pub fn marks_show_conflicts()
    ensures { MarksShowConflicts }
{}

/// What small sheets with given reasons show, line by line.
pub fn displays_are_these()
    ensures { DisplaysAreThese }
{}

/// The same as tables, and a table with names of wide, combining and zero-width characters.
pub fn grids_are_these()
    ensures { GridsAreThese }
{}

/// The same as JSON.
pub fn json_texts_are_these()
    ensures { JsonTextsAreThese }
{}
