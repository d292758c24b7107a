//! From the lines of a log to accepted certificates.

ghost use Rattle.pc_justify_laws.specs.Laws.{NamedLinesDerive, NamesAreOfTheirSheet, OwnLinesAreNamed, OwnLinesAreNamedBeside, TrimmedLinesAreAgainst, TrimmedLinesDeriveBeside, TrimmedLinesJustify, TrimmedLinesRefute};

use pc_ground::laws::{
    clauses_are_of_axioms, pairs_are_variables, symbols_are_variables, variables_have_their_places,
};
use pc_log::laws::trimming_keeps_derivations;
use pc_reason::accepted_are_writable;

/// A derivation from a sheet's clauses, called by the sheet's names, is one that acceptance takes, of its clauses' names.
pub fn named_lines_derive()
    ensures { NamedLinesDerive }
{
    clauses_are_of_axioms();
    symbols_are_variables();
    variables_have_their_places();
}

/// In a log without blocks whose steps are over variables of the sheet each line has names.
pub fn own_lines_are_named()
    ensures { OwnLinesAreNamed }
{
    variables_have_their_places();
}

/// In a log whose blocks are numbered below a bound and whose steps are over variables of the sheet each line has names.
pub fn own_lines_are_named_beside()
    ensures { OwnLinesAreNamedBeside }
{
    variables_have_their_places();
}

/// A line that derives a target from its least support justifies the target, once it is trimmed.
pub fn trimmed_lines_justify()
    ensures { TrimmedLinesJustify }
{
    clauses_are_of_axioms();
    symbols_are_variables();
    pairs_are_variables();
    variables_have_their_places();
    trimming_keeps_derivations();
    accepted_are_writable();
}

/// A line with the empty clause makes an accepted certificate that the rules are inconsistent, once it is trimmed.
pub fn trimmed_lines_refute()
    ensures { TrimmedLinesRefute }
{
    clauses_are_of_axioms();
    symbols_are_variables();
    variables_have_their_places();
    trimming_keeps_derivations();
    accepted_are_writable();
}

/// A line with the empty clause derives it beside the clauses that the log's blocks are, once it is trimmed.
pub fn trimmed_lines_derive_beside()
    ensures { TrimmedLinesDeriveBeside }
{
    clauses_are_of_axioms();
    symbols_are_variables();
    variables_have_their_places();
    trimming_keeps_derivations();
    accepted_are_writable();
}

/// A line whose clause lies within negated entries makes an accepted derivation against a rule, once it is trimmed.
pub fn trimmed_lines_are_against()
    ensures { TrimmedLinesAreAgainst }
{
    clauses_are_of_axioms();
    symbols_are_variables();
    pairs_are_variables();
    variables_have_their_places();
    trimming_keeps_derivations();
    accepted_are_writable();
}

/// The variables and axioms of a well-formed sheet are named by what it has.
pub fn names_are_of_their_sheet()
    ensures { NamesAreOfTheirSheet }
{
    clauses_are_of_axioms();
}
