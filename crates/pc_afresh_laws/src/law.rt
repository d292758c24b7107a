//! Laws over the judgement, each the contract of a function that does nothing.
ghost use Rattle.pc_afresh_laws.specs.Afresh.{AnswersKeepOpen, DumpsStartAgain, ListingsAreOne, LoadedAfreshShowsTheSame, RunsLoadAfresh, StartsAreOpen, TranscriptsKeepOpen};

use pc_canonical_laws::texts_read_back;
use pc_display::sheet_has_one_display;
use pc_spreadsheet::{states_are_well_formed, texts_have_one_verdict};

/// The sheet from which a run starts is well formed, within the limit of weight, and has rules that some assignment makes
/// true; and so is each sheet that an answer leaves.
pub fn states_stay_open()
    ensures starts { StartsAreOpen }
    ensures answers { AnswersKeepOpen }
{
    states_are_well_formed();
}

/// So is each sheet that a list of lines with their answers leaves.
pub fn transcripts_stay_open()
    ensures { TranscriptsKeepOpen }
{
    states_stay_open();
}

/// What such a sheet is dumped as starts a run again, with any budget, from that sheet and from no other.
pub fn dumps_start_again()
    ensures { DumpsStartAgain }
{
    texts_read_back();
    texts_have_one_verdict();
}

/// In each form such a sheet has one display, and the sheet that its dump is loaded as has the same.
pub fn loaded_afresh_shows_the_same()
    ensures { LoadedAfreshShowsTheSame }
{
    sheet_has_one_display();
    dumps_start_again();
}

/// A sheet has one listing of what can be kept together, at most.
pub fn listings_are_one()
    ensures { ListingsAreOne }
{}

/// After any lines with their answers the display is that of the same sheet loaded afresh.
pub fn runs_load_afresh()
    ensures { RunsLoadAfresh }
{
    states_stay_open();
    transcripts_stay_open();
    dumps_start_again();
    loaded_afresh_shows_the_same();
}
