//! What kept axioms are worth. Each function is a law: its contract holds for every sheet, and it does nothing.
ghost use Rattle.pc_kept.specs.ByPolarity.{KeptAreByPolarity, KeptByPolarityAreForTheirParts, KeptByPolarityAreKept, NoneIsContainedByPolarity};
ghost use Rattle.pc_kept.specs.Polar.{NamedLiteralsAreRight};
ghost use Rattle.pc_kept.specs.Settled.{CountersAreSettled, NodesAreSettled};
ghost use Rattle.pc_kept.specs.Laws.{KeptByWhatIsStored, KeptPartsAreSearched};

/// What is kept by a sheet's clauses, names and number of pairs is kept of the sheet.
pub fn kept_by_what_is_stored()
    ensures { KeptByWhatIsStored }
{}

/// A part is searched on its cells by its kept axioms, over the variables that these name.
pub fn kept_parts_are_searched()
    ensures { KeptPartsAreSearched }
{}

/// Where axioms of nodes are left out whose own literals no kept axiom asks for, what kept axioms ask for or force is right where it
/// is true.
pub fn named_literals_are_right()
    ensures { NamedLiteralsAreRight }
{}

/// What is kept by polarity where nothing is banned is kept, and the other way round.
pub fn kept_by_polarity_where_nothing_is_banned()
    ensures kept { KeptByPolarityAreKept }
    ensures by_polarity { KeptAreByPolarity }
{}

/// The axioms of a part that are kept by polarity stand for the part's sheet on its cells.
pub fn kept_by_polarity_are_for_their_parts()
    ensures { KeptByPolarityAreForTheirParts }
{}

/// What contains no axiom kept by polarity, no literal that these force and no banned one contains no axiom of the part.
pub fn none_is_contained_by_polarity()
    ensures { NoneIsContainedByPolarity }
{}

/// The axioms that say what a statement's node means leave it one truth.
pub fn nodes_are_settled()
    ensures { NodesAreSettled }
{}

/// The axioms of a counter leave it one truth.
pub fn counters_are_settled()
    ensures { CountersAreSettled }
{}
