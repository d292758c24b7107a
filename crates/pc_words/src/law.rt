// Laws over the definitions, each the contract of a function that does nothing.
ghost use Rattle.pc_words.specs.Examples.{WordsAreWorked};
ghost use Rattle.pc_words.specs.Laws.{WordsFitOneRequest};

/// Words fit one request at most.
pub fn words_fit_one_request()
    ensures { WordsFitOneRequest }
{}

/// Words that fit with what they ask for, and words that fit nothing.
pub fn words_are_worked()
    ensures { WordsAreWorked }
{}
