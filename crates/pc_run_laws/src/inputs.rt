//! Laws on runs whose input is known.
ghost use Rattle.pc_run_laws.specs.Inputs.{FaultlessPostsAreAnswered, InputsHaveOneSheetPart, PostsOfEnoughAreAnswered, ReplaysOfEnoughAreAnswered};

use crate::complete::{faultless_runs_are_answered, texts_are_refused_in_full};
use pc_collab::journals_read_back;
use pc_words::words_fit_one_request;

/// An input begins with one text that is its sheet's part.
pub fn inputs_have_one_sheet_part()
    ensures { InputsHaveOneSheetPart }
{}

/// A run that replays an input whose sheet's part starts a run, with budget enough for that, in which no device was at fault
/// and nothing was too long, is answered to the end of its input, or memory was wanting.
pub fn replays_of_enough_are_answered()
    ensures { ReplaysOfEnoughAreAnswered }
{
    words_fit_one_request();
    inputs_have_one_sheet_part();
    texts_are_refused_in_full();
    faultless_runs_are_answered();
}

/// A run that answers a journal's posts, in which no device was at fault, nothing was too long and neither sheet nor journal
/// was refused, is answered to its end, or memory was wanting.
pub fn faultless_posts_are_answered()
    ensures { FaultlessPostsAreAnswered }
{
    words_fit_one_request();
}

/// So is one whose input is a journal's text, on a file from whose text a run starts, with budget enough for that.
pub fn posts_of_enough_are_answered()
    ensures { PostsOfEnoughAreAnswered }
{
    words_fit_one_request();
    journals_read_back();
    texts_are_refused_in_full();
    faultless_posts_are_answered();
}
