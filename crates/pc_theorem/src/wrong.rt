// Runs that would not keep their word, and answers that no line may have: each arm of a page refuses something.
ghost use Rattle.pc_theorem.specs.WrongAnswers.{BrokenCertificates, BrokenPages, BrokenReplies};
ghost use Rattle.pc_theorem.specs.WrongRuns.{BrokenChecks, BrokenDemonstrations, BrokenDevices, BrokenJournals, BrokenSessions, BrokenUsage};

use pc_afresh_laws::dumps_start_again;
use pc_collab::journals_read_back;
use pc_laws::implied_has_one_least_support;
use pc_load::texts_have_one_outcome;
use pc_spreadsheet::lines_have_one_verdict;
use pc_syntax::one_reading;
use pc_words::words_are_worked;

/// Replies that no line may have.
pub fn broken_replies()
    ensures { BrokenReplies }
{
    one_reading();
    lines_have_one_verdict();
}

/// Pages that no line may have.
pub fn broken_pages()
    ensures { BrokenPages }
{
    one_reading();
    texts_have_one_outcome();
}

/// Certificates that no line may have.
pub fn broken_certificates()
    ensures { BrokenCertificates }
{
    one_reading();
    lines_have_one_verdict();
    implied_has_one_least_support();
}

/// Checks that would not keep their word.
pub fn broken_checks()
    ensures { BrokenChecks }
{
    texts_have_one_outcome();
}

/// Runs that would take words for others.
pub fn broken_usage()
    ensures { BrokenUsage }
{
    words_are_worked();
}

/// Sessions that would not keep their word.
pub fn broken_sessions()
    ensures { BrokenSessions }
{
    one_reading();
    dumps_start_again();
    texts_have_one_outcome();
    lines_have_one_verdict();
}

/// Runs over journals that would not keep their word.
pub fn broken_journals()
    ensures { BrokenJournals }
{
    one_reading();
    dumps_start_again();
    texts_have_one_outcome();
    journals_read_back();
}

/// Demonstrations that would not keep their word.
pub fn broken_demonstrations()
    ensures { BrokenDemonstrations }
{}

/// Devices that were at no fault, and words that weren't read.
pub fn broken_devices()
    ensures { BrokenDevices }
{}
