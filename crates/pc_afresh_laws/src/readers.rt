//! Laws over readers of the same posts, each the contract of a function that does nothing.
ghost use Rattle.pc_afresh_laws.specs.Readers.{AnswersSayTheSame, ReadersSeeOneDisplay, TranscriptsSayTheSame};

use crate::{listings_are_one, states_stay_open, transcripts_stay_open};
use pc_collab::merges_are_lawful;
use pc_display::sheet_has_one_display;
use pc_spreadsheet::{lines_have_one_verdict, states_are_well_formed, texts_have_one_verdict};

/// Two answers to a line on one sheet, neither of them that a budget is spent or that memory is wanted, say the same, and leave
/// one sheet, whatever the budgets.
pub fn answers_say_the_same()
    ensures { AnswersSayTheSame }
{
    lines_have_one_verdict();
    sheet_has_one_display();
    listings_are_one();
}

/// So it is of two lists of lines with their answers, line by line.
pub fn transcripts_say_the_same()
    ensures { TranscriptsSayTheSame }
{
    answers_say_the_same();
    states_are_well_formed();
}

/// Who has the same posts, however they were merged and with whatever budget, sees the same answers to them, and one display.
pub fn readers_see_one_display()
    ensures { ReadersSeeOneDisplay }
{
    transcripts_say_the_same();
    states_are_well_formed();
    texts_have_one_verdict();
    merges_are_lawful();
    sheet_has_one_display();
    states_stay_open();
    transcripts_stay_open();
}
