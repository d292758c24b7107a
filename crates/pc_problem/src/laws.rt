//! Books and their parts are searched by their clauses. Each function is a law: its contract holds for every sheet, and it
//! does nothing.
ghost use Rattle.pc_problem.specs.Laws.{PartsAreSearched, WholeIsSearched};

/// A book is searched on all of its cells, by all of its axioms, over all of its variables.
pub fn whole_is_searched()
    ensures { WholeIsSearched }
{}

/// A part of a book is searched on its cells, by its axioms, over the variables that these name.
pub fn parts_are_searched()
    ensures { PartsAreSearched }
{}
