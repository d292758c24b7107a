//! What a book's rules come to: their truth, their nodes and what they weigh.
ghost use Rattle.std.specs.Prelude.{◌≡◌, ◌↔◌, ◌<◌, ◌≤◌, ◌+◌, All, Bool, IsNone, Some, IsTrue, IfErr, IfOk, length, map};
ghost use Rattle.pc_sheet.specs.Limits.{most_weight};
ghost use Rattle.pc_sheet.specs.Entailment.{Fits, HaveDistinctCells, RuleHolds};
ghost use Rattle.pc_sheet.specs.Nodes.{kind_at};
ghost use Rattle.pc_sheet.specs.Sheet.{NamedStatement, Sheet, with_rule};
ghost use Rattle.pc_sheet.specs.Readings.{known, atom_reading, after, StopsAt};
ghost use Rattle.pc_sheet.specs.Views.{statement_of, path_of, rule_of};
ghost use Rattle.pc_sheet.specs.Weight.{rule_weight, weight};
ghost use Rattle.pc_sheet.specs.WellFormed.{IsEntryOf};
ghost use Rattle.pc_sheet.specs.declared.nodes.NodeKind.TheVariants.{Atom};
ghost use Rattle.pc_logic.specs.Cut.{cut};
ghost use Rattle.pc_logic.specs.Outcome.{AreTooFewAt, GiveTruthAt};
ghost use Rattle.pc_logic.specs.Bounded.{AreAllBounded, AreShallow};

use crate::reading::CellReads;
use crate::{nodes, partial, truth, weighing};
use pc_books::{Assignment, Book, well_formed};
use pc_sheet::{Entry, Formula, NodeKind, NodePath, Rule, SortId, ValueId};

// The rules, as the code reads them.
fn bounded_rules(book: &Book) -> &[Rule]
    ensures items { map rule_of result.now ≡ book.now.rules }
    ensures shallow { AreShallow result.now }
    ensures bounded { AreAllBounded result.now }
{
    well_formed(book);
    book.rules()
}

/// The truth of a rule.
pub fn eval(book: &Book, rule: usize, values: &Assignment) -> bool
    requires { rule < length book.now.rules }
    ensures { IsTrue result ↔ RuleHolds book.now values.now rule }
{
    truth::rule_holds(book.scheme(), bounded_rules(book), rule, values.values())
}

/// The truth of the atom to which the path leads, each cell that its terms need having its value in the reads. There is
/// none where such a cell is missing.
pub fn eval_partial(book: &Book, path: &NodePath, reads: &[Entry]) -> Option<bool>
    requires atom { kind_at book.now path.now.rule path.now.steps.items ≡ Some Atom }
    requires distinct { HaveDistinctCells reads.now }
    requires entries { All (IsEntryOf book.now.universe) reads.now }
    ensures truth { (is : Bool) → (result ≡ Some is) ↔
        GiveTruthAt book.now (path_of path.now) reads.now is }
    ensures missing { IsNone result ↔ AreTooFewAt book.now (path_of path.now) reads.now }
{
    partial::truth_at(
        book.scheme(),
        reads,
        bounded_rules(book),
        path.rule as usize,
        &path.steps,
    )
}

/// The kind of the node to which a rule's path leads, with the number of its children. There is none where there is no
/// such rule, or where the path leaves its formula.
pub fn node_at(book: &Book, rule: u32, steps: &[u32]) -> Option<NodeKind>
    ensures { result ≡ kind_at book.now rule steps.now }
{
    nodes::kind_at(book.scheme(), bounded_rules(book), rule as usize, steps)
}

/// The truth of an atom under a scope, each cell that its terms need having its value in the reads; or the first cell, in
/// the order in which the terms are read, that is missing there. At other formulas it is `false`.
pub fn read_atom(
    book: &Book,
    reads: &[Entry],
    scope: &[(SortId, ValueId)],
    atom: &Formula,
) -> Result<bool, usize>
    ensures known { IfOk result (λ is.
        after reads.now (atom_reading book.now.universe scope.now (statement_of atom.now)) ≡
        known is) }
    ensures stopped { IfErr result
        (λ c.
        StopsAt c
        (after reads.now (atom_reading book.now.universe scope.now (statement_of atom.now)))) }
{
    CellReads {
        scheme: book.scheme(),
        reads,
    }
    .read_atom(scope, atom, &(None, None))
}

/// Whether every rule is true.
pub fn satisfies(book: &Book, values: &Assignment) -> bool
    ensures { IsTrue result ↔ Fits book.now values.now }
{
    truth::rules_hold(book.scheme(), bounded_rules(book), values.values())
}

/// How many literals the book's axioms have, or 4,000,001 where there are more than 4,000,000.
pub fn weight(book: &Book) -> u64
    ensures { result ≡ cut (weight book.now) }
{
    weighing::weigh(book.scheme(), bounded_rules(book))
}

/// So many literals with those of the last rule's axioms, or 4,000,001 where these are more than 4,000,000.
pub fn weight_with_last(book: &Book, before: u64) -> u64
    requires few { before ≤ most_weight + 1 }
    requires some { 0 < length book.now.rules }
    ensures { (s : Sheet) (r : NamedStatement) → book.now ≡ with_rule s r →
        result ≡ cut (before + rule_weight s.universe r) }
{
    let rules = bounded_rules(book);
    weighing::add_rules(book.scheme(), &rules[rules.len() - 1..], before)
}
