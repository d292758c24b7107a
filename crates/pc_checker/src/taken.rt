//! What may be taken as an axiom, and its clause.

ghost use Rattle.std.specs.Prelude.{◌≡◌, ◌<◌, ◌≤◌, ◌↔◌, IfOk, IsTrue, All, Some, [], length};
ghost use Rattle.pc_axiom_names.specs.Views.{axiom_of};
ghost use Rattle.pc_accept.specs.Axioms.{axiom_atom};
ghost use Rattle.pc_sheet.specs.Entailment.{HaveDistinctCells, cell_sizes};
ghost use Rattle.pc_sheet.specs.Nodes.{kind_at};
ghost use Rattle.pc_sheet.specs.WellFormed.{IsEntryOf};
ghost use Rattle.pc_sheet.specs.declared.nodes.NodeKind.{NodeKind};
ghost use Rattle.pc_cert.specs.ReadFor.{IsOverSheet};
ghost use Rattle.pc_checker.specs.inside.Written.{IsAxiomWritten};

use crate::axiom::{write_reads, write_values};
use crate::draft::ClauseDraft;
use crate::node::write_node;
use pc_axiom_names::AxiomName;
use pc_books::Book;
use pc_lits::{Lit, Values, Var};
use pc_logic::{eval_partial, node_at};
use pc_sheet::{Entry, NodeKind, NodePath};
use std::alloc::{AllocError, Global};

/// Writes the axiom's clause, and answers whether the book has that axiom. The marks have room for each cell, and what
/// they hold before doesn't matter.
pub(crate) fn write_axiom(
    alloc: Global,
    book: &Book,
    name: &AxiomName,
    draft: &mut ClauseDraft,
    marks: &mut Values,
) -> Result<bool, AllocError>
    requires over { IsOverSheet book.now name.now }
    requires blank { draft.old.clause ≡ [] }
    requires marks { length (cell_sizes book.now.universe) ≤ length marks.old }
    ensures written { IfOk result (IsAxiomWritten book.now (axiom_of name.now) draft.old
        draft.new) }
    ensures room { length marks.new ≡ length marks.old }
{
    match name {
        AxiomName::Any(cell) => {
            write_values(alloc, *cell, book.values_of(*cell), draft)?;
            Ok(true)
        }
        AxiomName::One(cell, value, other) => {
            if value.0 == other.0 {
                return Ok(false);
            }
            draft.push_pair(alloc, *cell, *value, false)?;
            draft.push_pair(alloc, *cell, *other, false)?;
            Ok(true)
        }
        AxiomName::Rule(rule) => {
            if *rule as usize >= book.rules().len() {
                return Ok(false);
            }
            draft.push_node(alloc, *rule, &[], true)?;
            Ok(true)
        }
        AxiomName::Node(path, number) => match node_at(book, path.rule, &path.steps) {
            None => Ok(false),
            Some(kind) => write_node(alloc, book, path, kind, *number, draft),
        },
        AxiomName::Atom(path, reads) => match node_at(book, path.rule, &path.steps) {
            Some(NodeKind::Atom) => write_atom(alloc, book, path, reads, draft, marks),
            _ => Ok(false),
        },
    }
}

// Writes the negated reads, and the atom by the truth that they give it.
fn write_atom(
    alloc: Global,
    book: &Book,
    path: &NodePath,
    reads: &[Entry],
    draft: &mut ClauseDraft,
    marks: &mut Values,
) -> Result<bool, AllocError>
    requires atom { kind_at book.now path.now.rule path.now.steps.items ≡ Some NodeKind.Atom }
    requires reads { All (IsEntryOf book.now.universe) reads.now }
    requires blank { draft.old.clause ≡ [] }
    requires marks { length (cell_sizes book.now.universe) ≤ length marks.old }
    ensures written { IfOk result
        (IsAxiomWritten book.now (axiom_atom path.now.rule path.now.steps.items reads.now) draft.old
        draft.new) }
    ensures room { length marks.new ≡ length marks.old }
{
    if !have_distinct_cells(reads, marks) {
        return Ok(false);
    }
    match eval_partial(book, path, reads) {
        None => Ok(false),
        Some(truth) => {
            write_reads(alloc, reads, draft)?;
            draft.push_node(alloc, path.rule, &path.steps, truth)?;
            Ok(true)
        }
    }
}

// Whether no cell is read twice: each read marks its cell.
fn have_distinct_cells(reads: &[Entry], marks: &mut Values) -> bool
    requires { All (λ r. r.cell.0 < length marks.old) reads.now }
    ensures distinct { IsTrue result ↔ HaveDistinctCells reads.now }
    ensures room { length marks.new ≡ length marks.old }
{
    marks.clear();
    for read in reads {
        let cell = Lit::positive(Var(u32::from(read.cell.0)));
        if marks.is_true(cell) {
            return false;
        }
        marks.assign(cell);
    }
    true
}
