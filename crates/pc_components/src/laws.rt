//! What the axioms of a part say. Each function is a law: its contract holds for every sheet, and it does nothing.
ghost use Rattle.pc_components.specs.inside.Owners.{OwnersAreFound, OwnersAreParts};
ghost use Rattle.pc_components.specs.Laws.{AxiomsAreForTheirSheet, ClausesDecide, PartAxiomsAreForTheirParts, PartsAreInTheirGround, PartsAreSolvable, PartsHaveTheirOwnVariables};

/// The axioms of a part stand for the part's sheet on its cells.
pub fn part_axioms_are_for_their_parts()
    ensures { PartAxiomsAreForTheirParts }
{}

/// All axioms of a book stand for it on all cells.
pub fn axioms_are_for_their_sheet()
    ensures { AxiomsAreForTheirSheet }
{}

/// Clauses that stand for a sheet on some cells decide which entries there are consistent, and what they entail.
pub fn clauses_decide()
    ensures { ClausesDecide }
{}

/// One walk over the rules gives for each axiom exactly the parts of the pieces that it touches.
pub fn owners_are_found()
    ensures { OwnersAreFound }
{}

/// For each axiom the numbers that the walk gives are those of the parts that it is of.
pub fn owners_are_parts()
    ensures { OwnersAreParts }
{}

/// Each part has a variable that no other part has.
pub fn parts_have_their_own_variables()
    ensures { PartsHaveTheirOwnVariables }
{}

/// The axioms of a part are clauses of the store, and its variables are variables of the ground.
pub fn parts_are_in_their_ground()
    ensures { PartsAreInTheirGround }
{}

/// The axioms of a part, over its variables, are what a solver asks for.
pub fn parts_are_solvable()
    ensures { PartsAreSolvable }
{}
