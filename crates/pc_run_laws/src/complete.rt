//! Laws on budgets that are enough, each the contract of a function that does nothing.
ghost use Rattle.pc_run_laws.specs.Enough.{CallsSpendTooLittle};
ghost use Rattle.pc_run_laws.specs.Complete.{LinesAreAnsweredInFull, TextsAreRefusedInFull, TextsOfEnoughAreOpened, TranscriptsAreInFull};
ghost use Rattle.pc_run_laws.specs.Runs.{FaultlessRunsAreAnswered, RunsAreInFull, RunsOfEnoughAreAnswered};
ghost use Rattle.pc_run_laws.specs.Worked.{NoVerdictIsSpent, WorkedBudgets};

use pc_sheet::cells_are_numbered_in_order;
use pc_sortcheck::sheets_are_well_formed;
use pc_spreadsheet::{lines_have_one_verdict, states_are_well_formed, texts_have_one_verdict};
use pc_words::words_fit_one_request;

/// A session's load and each of its edits answer that the budget is spent only where it is less than enough for the parts
/// that the edit touches, in the sheet that it would make.
pub fn calls_spend_too_little()
    ensures { CallsSpendTooLittle }
{}

/// Where the budget is enough for the search that a command line needs, its answer is as the line is judged, or memory was
/// wanting, and nothing is noted.
pub fn lines_are_answered_in_full()
    ensures { LinesAreAnsweredInFull }
{
    lines_have_one_verdict();
    cells_are_numbered_in_order();
}

/// So it is of each line of a legal transcript.
pub fn transcripts_are_in_full()
    ensures { TranscriptsAreInFull }
{
    lines_are_answered_in_full();
    states_are_well_formed();
}

/// Where the budget is enough for a text's sheet, the text is refused only as it is judged; so one from which a run starts
/// isn't refused.
pub fn texts_are_refused_in_full()
    ensures judged { TextsAreRefusedInFull }
    ensures opened { TextsOfEnoughAreOpened }
{
    sheets_are_well_formed();
    texts_have_one_verdict();
}

/// In a run of commands the sheet and each line are told as they are judged, or memory was wanting, where the budget is
/// enough for them.
pub fn runs_are_in_full()
    ensures { RunsAreInFull }
{
    lines_are_answered_in_full();
    transcripts_are_in_full();
    texts_are_refused_in_full();
    states_are_well_formed();
}

/// A run of commands in which no device was at fault, nothing was too long and the sheet wasn't refused is answered to the
/// end of its input, or memory was wanting.
pub fn faultless_runs_are_answered()
    ensures { FaultlessRunsAreAnswered }
{
    words_fit_one_request();
}

/// A run that edits a file from whose text a run starts, with budget enough for that, in which no device was at fault and
/// nothing was too long, is answered to the end of its input, or memory was wanting.
pub fn runs_of_enough_are_answered()
    ensures { RunsOfEnoughAreAnswered }
{
    words_fit_one_request();
    texts_are_refused_in_full();
    faultless_runs_are_answered();
}

/// What is enough for small sheets; and no verdict on a line is that its search spent the budget.
pub fn budgets_are_worked()
    ensures numbers { WorkedBudgets }
    ensures never { NoVerdictIsSpent }
{}
