//! Laws of what runs say by their status, each the contract of a function that does nothing.
ghost use Rattle.std.specs.Prelude.{List, codes, ℕ};
ghost use Rattle.pc_refusals.specs.declared.status.Status.{Status as AStatus};
ghost use Rattle.pc_refusals.specs.Events.{Outside};
ghost use Rattle.pc_refusals.specs.Runs.{Ran};
ghost use Rattle.pc_run_laws.specs.Causes.{FaultsComeLast, HasCauses};
ghost use Rattle.pc_run_laws.specs.Limits.{EndsTooLongExactly};
ghost use Rattle.pc_demo.specs.Course.{Demo};
ghost use Rattle.pc_judge.specs.Course.{CheckOf};
ghost use Rattle.pc_replay.specs.Course.{Course, Runs};
ghost use Rattle.pc_run_laws.specs.Checks.{Checked, ChecksEndAsJudged};
ghost use Rattle.pc_run_laws.specs.Demonstrations.{Demonstrated};
ghost use Rattle.pc_run_laws.specs.Statuses.{DoneIsSo, LimitsArePassed, ReadsFail, SheetsAreRefused, SomeAreRefused, WritesFail};
ghost use Rattle.pc_spreadsheet.specs.Allowed.{Allows, Notes};
ghost use Rattle.pc_spreadsheet.specs.Tasks.{State};
ghost use Rattle.pc_token.specs.Line.{IsOneName};
ghost use Rattle.pc_transcript.specs.Answer.{no_memory};

use pc_judge::judgements_are_one;
use pc_load::texts_have_one_outcome;
use pc_sortcheck::sheets_are_well_formed;
use pc_words::words_fit_one_request;

/// A run is done only where all lines of its mode were answered and none was refused or wanted memory, or its certificate
/// was accepted, or its journals were merged. It ends in `SomeRefused` only where all lines were answered, some was refused
/// and none wanted memory.
pub fn all_lines_are_answered()
    ensures done { DoneIsSo }
    ensures some_refused { SomeAreRefused }
{}

/// A run ends in `SheetRefused` only where what it took as the sheet, or as a journal, is refused so, and this is told last.
pub fn refused_sheets_are_told()
    ensures { SheetsAreRefused }
{}

/// A run ends in `TooLong` exactly where it took in what passes the limit of that, and no device failed; then this is told
/// last. So do a check and a demonstration, which takes in nothing and never ends so.
pub fn limits_are_passed()
    ensures exactly { (words : List (List ℕ)) (notes : Notes) →
        EndsTooLongExactly (Course words notes) }
    ensures told { LimitsArePassed }
    ensures check { (file : List ℕ) → EndsTooLongExactly (CheckOf file) }
    ensures demo { (blocks budget : ℕ) (notes : Notes) →
        EndsTooLongExactly (Demo blocks budget notes) }
{
    words_fit_one_request();
}

/// A run ends in `ReadFault` only where a read of the input failed, in what its mode takes in, or the shelf's one read did,
/// of the file that its words name.
pub fn failed_reads_are_told()
    ensures { ReadsFail }
{}

/// A run ends in `WriteFault` only where a front of a piece was told: of the last one, of the counts of a generated sheet, or
/// of an answer, behind those of the lines before it. At most one more was noted than by the answers that were told whole.
pub fn failed_writes_are_told()
    ensures { WritesFail }
{}

/// Want of memory is never told at a line whose one token is `show`.
pub fn showing_takes_no_memory()
    ensures { (old new : State × Notes) (line : List ℕ) → IsOneName line (codes "show") →
        ¬ Allows old line no_memory new }
{}

/// A fault is told exactly where the count of that device rose, and it is the last that happens.
pub fn faults_end_runs()
    ensures causes { (words : List (List ℕ)) (status : AStatus) (notes notes' : Notes)
        (before after : Outside) → Runs words status notes notes' before after →
        HasCauses status before after }
    ensures last { (words : List (List ℕ)) (status : AStatus) (notes notes' : Notes)
        (before after : Outside) (runs : Runs words status notes notes' before after) →
        FaultsComeLast runs.2.events }
    ensures check { (file : List ℕ) (most : ℕ) (status : AStatus) (before after : Outside) →
        Ran (CheckOf file) most status tt before after → HasCauses status before after }
    ensures demo { (blocks budget most : ℕ) (status : AStatus) (notes notes' : Notes)
        (before after : Outside) → Ran (Demo blocks budget notes) most status notes' before after →
        HasCauses status before after }
{}

/// What a check says by its status follows from its events: what of the file and the input was taken, what was printed, and
/// which of the two failed.
pub fn checks_are_said_by_status()
    ensures { (file : List ℕ) (status : AStatus) (before after : Outside) →
        Ran (CheckOf file) 0 status tt before after → Checked file status before after }
{}

/// What a demonstration says by its status follows from its events.
pub fn demonstrations_are_said_by_status()
    ensures { (blocks budget most : ℕ) (status : AStatus) (notes notes' : Notes)
        (before after : Outside) → Ran (Demo blocks budget notes) most status notes' before after →
        Demonstrated blocks budget status notes notes' before after }
{}

/// Where the shelf tells the file, the input the certificate, and neither is too long, a check ends as the certificate is
/// judged, in `Done` or `CertRefused`, but where a device fails or memory is wanting.
pub fn checks_end_as_judged()
    ensures { ChecksEndAsJudged }
{
    words_fit_one_request();
    texts_have_one_outcome();
    sheets_are_well_formed();
    judgements_are_one();
}
