//! The examples, as contracts: the definitions say of small sheets what a reader expects.
ghost use Rattle.pc_worked_laws.specs.Axioms.{WorkedKinds, WorkedAxioms};
ghost use Rattle.pc_worked_laws.specs.Connectives.{WorkedConnectives, WorkedCounterTruths, WorkedPieces};
ghost use Rattle.pc_worked_laws.specs.Counting.{WorkedCounts, WorkedBounds, WorkedCountWeights};
ghost use Rattle.pc_worked_laws.specs.Asked.{WorkedFormulas, WorkedClashes};
ghost use Rattle.pc_worked_laws.specs.Certificates.{WorkedAgainst, WorkedOpposed, WorkedFewSets, WorkedWithin};
ghost use Rattle.pc_worked_laws.specs.Newest.{NewestDecides};
ghost use Rattle.pc_worked_laws.specs.LargestSets.{NothingIsKept, PairsHaveFourSets};
ghost use Rattle.pc_worked_laws.specs.PartSheets.{WorkedPartSheets};
ghost use Rattle.pc_worked_laws.specs.ReadSizes.{WorkedReadSizes};
ghost use Rattle.pc_worked_laws.specs.Worlds.{WorkedWorlds, WorkedWithout};
ghost use Rattle.pc_worked_laws.specs.Transcripts.{WorkedTranscripts, WorkedAnswers};
ghost use Rattle.pc_worked_laws.specs.Rows.{WorkedRows};
ghost use Rattle.pc_worked_laws.specs.Several.{WorkedViews, WorkedEdits, WorkedLimit};
ghost use Rattle.pc_worked_laws.specs.Trails.{WorkedSettled, WorkedFirstPoint};
ghost use Rattle.pc_worked_laws.specs.Watches.{WorkedKnownWatches, WorkedLists, WorkedAdditions, WorkedShifts};
ghost use Rattle.pc_worked_laws.specs.Guards.{WorkedGuards, WorkedWatches, WorkedSure, WorkedKept, WorkedJustified};
ghost use Rattle.pc_worked_laws.specs.Logs.{WorkedNewClauses, WorkedLawfulLogs, WorkedSmallLogs, WorkedListingLogs};
ghost use Rattle.pc_worked_laws.specs.LeftOut.{WorkedTwice, WorkedConstants};
ghost use Rattle.pc_worked_laws.specs.Spendings.{WorkedSpendings, WorkedLogSpendings};
ghost use Rattle.pc_worked_laws.specs.WholeSpendings.{WorkedWholeSpendings};
ghost use Rattle.pc_worked_laws.specs.Budgets.{WorkedPartBudgets};
ghost use Rattle.pc_worked_laws.specs.Spare.{EnteringMayChange, AddingMayChange, RemovingMayChange, ClearingMayChange, WorkedPlaces, WorkedSpare, WorkedReasons, WorkedSessions};
ghost use Rattle.pc_worked_laws.specs.Searches.{SearchesChange, ClearingSpareIsNoSearch, RemovingSpareIsNoSearch, EnteringNeedsOne, WorkedSearches};
ghost use Rattle.pc_worked_laws.specs.Merges.{WorkedJournals, WorkedMerges, WorkedDifferences};
ghost use Rattle.pc_worked_laws.specs.JournalTexts.{WorkedTexts, WorkedFaults};
ghost use Rattle.pc_worked_laws.specs.Listings.{WorkedListings};
ghost use Rattle.pc_worked_laws.specs.Shown.{WorkedNewerViews};

/// What connectives and counters say, and which of them are one piece.
pub fn connectives_are_worked()
    ensures connectives { WorkedConnectives }
    ensures counters { WorkedCounterTruths }
    ensures pieces { WorkedPieces }
{}

/// When at least so many values are such, what a quantifier may count, and how many literals its clauses have.
pub fn counting_is_worked()
    ensures counts { WorkedCounts }
    ensures bounds { WorkedBounds }
    ensures weights { WorkedCountWeights }
{}

/// Which numbers the clauses of nodes have, and what is an axiom and what is none.
pub fn axioms_are_worked()
    ensures kinds { WorkedKinds }
    ensures axioms { WorkedAxioms }
{}

/// Which certificates against a rule, and of one set or none, are accepted.
pub fn certificates_are_worked()
    ensures against { WorkedAgainst }
    ensures opposed { WorkedOpposed }
    ensures few_sets { WorkedFewSets }
    ensures within { WorkedWithin }
{}

/// Which formulas the entries of small sheets imply, and by which least supports.
pub fn formulas_are_worked()
    ensures formulas { WorkedFormulas }
    ensures clashes { WorkedClashes }
{}

/// The newest entry on which two supports differ decides which one is less.
pub fn newest_decides()
    ensures { NewestDecides }
{}

/// The maximal sets of small sheets.
pub fn largest_sets_are_worked()
    ensures nothing_kept { NothingIsKept }
    ensures four_sets { PairsHaveFourSets }
{}

/// What cells with several entries imply, what edits make of them, and how many a cell may have.
pub fn several_entries_are_worked()
    ensures views { WorkedViews }
    ensures edits { WorkedEdits }
    ensures limit { WorkedLimit }
{}

/// The sheets of the parts of small sheets.
pub fn part_sheets_are_worked()
    ensures { WorkedPartSheets }
{}

/// What formulas read of a small sheet.
pub fn read_sizes_are_worked()
    ensures { WorkedReadSizes }
{}

/// The worlds of small sheets, and what is left of them without an entry.
pub fn worlds_are_worked()
    ensures exact { WorkedWorlds }
    ensures without { WorkedWithout }
{}

/// Which lists of two command lines with their answers are legal, and which runs they are.
pub fn transcripts_are_worked()
    ensures legal { WorkedTranscripts }
    ensures answered { WorkedAnswers }
{}

/// The rows of targets, what changes make of them, and which targets are still to be searched.
pub fn rows_are_worked()
    ensures { WorkedRows }
{}

/// Which clauses a small trail settles, and where a conflict has its first unique implication point.
pub fn trails_are_worked()
    ensures settled { WorkedSettled }
    ensures first_point { WorkedFirstPoint }
{}

/// Which lists of watches a clause of three literals has, and what adding it and shifting a watch make of them.
pub fn watches_are_worked()
    ensures known { WorkedKnownWatches }
    ensures listed { WorkedLists }
    ensures added { WorkedAdditions }
    ensures shifted { WorkedShifts }
{}

/// Which literals of a clause may be watched on small trails, which clauses no propagation overlooks, and what another reason changes.
pub fn watched_trails_are_worked()
    ensures guards { WorkedGuards }
    ensures watches { WorkedWatches }
    ensures sure { WorkedSure }
    ensures kept { WorkedKept }
    ensures justified { WorkedJustified }
{}

/// Which logs of a small sheet are lawful, which have an axiom twice or too long a step, and which list its maximal sets.
pub fn logs_are_worked()
    ensures new { WorkedNewClauses }
    ensures lawful { WorkedLawfulLogs }
    ensures small { WorkedSmallLogs }
    ensures listing { WorkedListingLogs }
{}

/// Which axioms of small sheets a search may leave out, and which it has to take.
pub fn left_out_axioms_are_worked()
    ensures kept { WorkedTwice }
    ensures constants { WorkedConstants }
{}

/// What a search of small sheets may say that it has spent, and what it may not.
pub fn spendings_are_worked()
    ensures counts { WorkedSpendings }
    ensures logs { WorkedLogSpendings }
{}

/// What searches of a whole small sheet may say that they have spent, and what they may not.
pub fn whole_spendings_are_worked()
    ensures { WorkedWholeSpendings }
{}

/// What is enough for a sheet of two parts, part by part and as a whole.
pub fn budgets_are_worked()
    ensures { WorkedPartBudgets }
{}

/// Which edits of entries change nothing, which entries are spare, what is left of reasons where entries go, and what accepted
/// and refused edits leave.
pub fn spare_entries_are_worked()
    ensures entering { EnteringMayChange }
    ensures adding { AddingMayChange }
    ensures removing { RemovingMayChange }
    ensures clearing { ClearingMayChange }
    ensures places { WorkedPlaces }
    ensures spare { WorkedSpare }
    ensures reasons { WorkedReasons }
    ensures sessions { WorkedSessions }
{}

/// What may be kept together, as it is listed.
pub fn listings_are_worked()
    ensures { WorkedListings }
{}

/// How a cell is displayed of whose two views the newer one alone clashes.
pub fn displays_are_worked()
    ensures { WorkedNewerViews }
{}

/// Which commands need a search, after which too much may be spent: none that changes nothing, and none that clears what is spare.
pub fn searches_are_worked()
    ensures changes { SearchesChange }
    ensures clearing { ClearingSpareIsNoSearch }
    ensures removing { RemovingSpareIsNoSearch }
    ensures entering { EnteringNeedsOne }
    ensures worked { WorkedSearches }
{}

/// Which lists of posts are journals, what the merges of two are, and where two differ first.
pub fn merges_are_worked()
    ensures journals { WorkedJournals }
    ensures merges { WorkedMerges }
    ensures differences { WorkedDifferences }
{}

/// What the texts of small journals are, and which line of other texts is at fault first.
pub fn journal_texts_are_worked()
    ensures texts { WorkedTexts }
    ensures faults { WorkedFaults }
{}
