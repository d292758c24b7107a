//! The laws, as contracts.
ghost use Rattle.pc_enough_laws.specs.Bytes.{SpentBytesAreBounded, WorkedBytes};
ghost use Rattle.pc_enough_laws.specs.Laws.{LawfulLogsLearnFew, MaximalSetsAreFew, PartsSpendLess, LawfulSpendingsAreOfLess, PartsNeedNoMore, EnoughIsNeverSpent, CountsAreBounded, EnoughIsNeverSpentWhole, EntryEditsSpendOnOnePart, WholeSpendingsLearnFew};

/// A lawful log has fewer learned clauses than three to the number of its variables, where some axiom has no literal together
/// with its negation.
pub fn lawful_logs_learn_few()
    ensures { LawfulLogsLearnFew }
{}

/// A part has no more maximal sets than two to the number of its entries.
pub fn maximal_sets_are_few()
    ensures { MaximalSetsAreFew }
{}

/// What is spent on a part is less than enough for it.
pub fn parts_spend_less()
    ensures { PartsSpendLess }
{}

/// The limit of a lawful spending is less than enough for the touched parts.
pub fn lawful_spendings_are_of_less()
    ensures { LawfulSpendingsAreOfLess }
{}

/// The touched parts need no more than the whole sheet.
pub fn parts_need_no_more()
    ensures { PartsNeedNoMore }
{}

/// Where the limit is enough for the whole sheet, no spending is lawful.
pub fn enough_is_never_spent()
    ensures { EnoughIsNeverSpent }
{}

/// What is spent on touched parts has bounded counts: of placed literals by the sheet's variables, of learned clauses by those of
/// the touched parts, and of calls by their maximal sets, targets and entries.
pub fn counts_are_bounded()
    ensures { CountsAreBounded }
{}

/// An edit of an entry spends on the part of its cell alone.
pub fn entry_edits_spend_on_one_part()
    ensures { EntryEditsSpendOnOnePart }
{}

/// Searches of a whole sheet learn no more clauses than three to one more than the number of its pairs and nodes.
pub fn whole_spendings_learn_few()
    ensures { WholeSpendingsLearnFew }
{}

/// Where the limit is enough for so many calls, no spending of at most so many on a whole sheet is lawful.
pub fn enough_is_never_spent_whole()
    ensures { EnoughIsNeverSpentWhole }
{}

/// Of what searches of touched parts keep, the placed literals and the calls are enough to know a bound, with the parts' axioms and
/// the sheet's variables.
pub fn spent_bytes_are_bounded()
    ensures { SpentBytesAreBounded }
{}

/// How many bytes searches of two parts may keep.
pub fn spent_bytes_are_worked()
    ensures { WorkedBytes }
{}
