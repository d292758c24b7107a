//! Laws over the judgement, each the contract of a function that does nothing.
ghost use Rattle.pc_spreadsheet.specs.Laws.{AnswersKeepForm, LinesHaveOneVerdict, SheetsHaveOneSummary, StartsAreWellFormed, TextsHaveOneVerdict};

use pc_elaborate::trees_have_one_outcome;
use pc_load::texts_have_one_outcome;
use pc_sheet::cells_are_numbered_in_order;
use pc_sortcheck::sheets_are_well_formed;
use pc_syntax::one_reading;

/// A command line asks for nothing, for one task, for one contradiction, or it has one refusal: two of these never hold
/// together.
pub fn lines_have_one_verdict()
    ensures { LinesHaveOneVerdict }
{
    one_reading();
    trees_have_one_outcome();
}

/// A text is a sheet with one state to start from, or it has one refusal: two of these never hold together.
pub fn texts_have_one_verdict()
    ensures { TextsHaveOneVerdict }
{
    texts_have_one_outcome();
}

/// The state from which a run starts is well formed, and so is each state that an answer leaves.
pub fn states_are_well_formed()
    ensures starts { StartsAreWellFormed }
    ensures answers { AnswersKeepForm }
{
    sheets_are_well_formed();
    cells_are_numbered_in_order();
}

/// A sheet is summed up by these numbers and by no others.
pub fn sheets_have_one_summary()
    ensures { SheetsHaveOneSummary }
{}
