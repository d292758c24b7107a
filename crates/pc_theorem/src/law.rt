// The laws of the page, each the contract of a function that does nothing.
ghost use Rattle.pc_theorem.specs.Examples.{BrokenAnswers, BrokenVerdicts, BrokenWords, WorkedWords};
ghost use Rattle.pc_theorem.specs.Laws.{AnswersLeaveOneState, DemonstrationsOfEnoughAreDone, RunsKeepTheirWord, SavedSheetsShowTheSame, SavedSheetsTakeCertificates, TranscriptsLeaveOneState};

use pc_accept::certificates_are_sound;
use pc_afresh_laws::{dumps_start_again, states_stay_open, transcripts_stay_open};
use pc_cert::{certificates_have_one_reading, what_is_read_is_for_the_sheet};
use pc_cert_laws::texts_read_back;
use pc_collab::journals_read_back;
use pc_display::sheet_has_one_display;
use pc_elaborate::trees_have_one_outcome;
use pc_gen::{generated_sheets_weigh, generated_texts_read_back};
use pc_judge::{judgements_are_one, told_accepted_is_accepts};
use pc_load::texts_have_one_outcome;
use pc_parts::{
    maximal_sets_are_unions, parts_are_a_division, parts_are_determined, parts_are_found,
};
use pc_run_laws::{
    all_lines_are_answered, certificates_are_refused_in_checks, entries_say_what_is_enough,
    events_add_up, memory_is_told_where_wanted, refused_sheets_are_told, usage_is_told_of_words,
};
use pc_sheet::cells_are_numbered_in_order;
use pc_sortcheck::sheets_are_well_formed;
use pc_spreadsheet::{lines_have_one_verdict, states_are_well_formed};
use pc_syntax::one_reading;
use pc_words::words_fit_one_request;

/// Whatever a run was asked for, it keeps its word; and so does one over journals, and a demonstration.
pub fn runs_keep_their_word()
    ensures { RunsKeepTheirWord }
{
    events_add_up();
    words_fit_one_request();
    all_lines_are_answered();
    refused_sheets_are_told();
    certificates_are_refused_in_checks();
    memory_is_told_where_wanted();
    usage_is_told_of_words();
    states_stay_open();
    transcripts_stay_open();
    sheets_are_well_formed();
    cells_are_numbered_in_order();
    entries_say_what_is_enough();
    one_reading();
    dumps_start_again();
    sheet_has_one_display();
    parts_are_found();
    parts_are_a_division();
    parts_are_determined();
    maximal_sets_are_unions();
    texts_read_back();
    certificates_have_one_reading();
    what_is_read_is_for_the_sheet();
    certificates_are_sound();
    told_accepted_is_accepts();
    judgements_are_one();
    journals_read_back();
    trees_have_one_outcome();
    texts_have_one_outcome();
    generated_texts_read_back();
    generated_sheets_weigh();
}

/// A session that begins with what another one printed for `dump` shows what that one showed.
pub fn saved_sheets_show_the_same()
    ensures { SavedSheetsShowTheSame }
{}

/// What `check` accepts for the sheet of a session, it doesn't refuse for what the session printed then for `dump`.
pub fn saved_sheets_take_certificates()
    ensures { SavedSheetsTakeCertificates }
{}

/// An answer leaves one state, and so do the answers to many lines.
pub fn answers_leave_one_state()
    ensures answer { AnswersLeaveOneState }
    ensures transcript { TranscriptsLeaveOneState }
{
    lines_have_one_verdict();
    states_are_well_formed();
}

/// A demonstration with a budget that is enough for its sheet is done, unless a device fails or memory is wanting.
pub fn demonstrations_of_enough_are_done()
    ensures { DemonstrationsOfEnoughAreDone }
{}

/// Runs that keep their word.
pub fn worked_words()
    ensures { WorkedWords }
{
    words_fit_one_request();
    dumps_start_again();
    sheet_has_one_display();
}

/// Runs that would not keep their word, and answers that no line may have: the page says something.
pub fn broken_words()
    ensures words { BrokenWords }
    ensures answers { BrokenAnswers }
    ensures verdicts { BrokenVerdicts }
{
    one_reading();
    dumps_start_again();
    texts_have_one_outcome();
    lines_have_one_verdict();
}
