// The axioms that lines of a derivation name.
ghost use Rattle.std.specs.Prelude.{◌≡◌, ◌↔◌, ℕ, List, Some, map, IfOk};
ghost use Rattle.std.specs.Option.{option_map};
ghost use Rattle.pc_accept.specs.Axioms.{Axiom};
ghost use Rattle.pc_formula.specs.Tree.{cell_of, value_of};
ghost use Rattle.pc_axiom_names.specs.Views.{axiom_of};
ghost use Rattle.pc_cert.specs.Meaning.{IsAxiomNamed};
ghost use Rattle.pc_cert.specs.Trees.{pair_of, part_of, path_of};
ghost use Rattle.pc_cert.specs.Written.{written_some, written_one, written_rule, written_node_clause, written_atom};

use crate::entries::named_entries;
use crate::lookup::{named_cell, named_rule, named_values};
use crate::node::named_node;
use crate::tree::{PairTree, PartTree, PathTree};
use pc_axiom_names::AxiomName;
use pc_books::Book;
use pc_formula::{CellTree, Name, ValueTree};
use std::alloc::{AllocError, Global};

// `some`
fn some_axiom(book: &Book, cell: &CellTree) -> Option<AxiomName>
    ensures { (a : Axiom) → (option_map axiom_of result ≡ Some a) ↔
        IsAxiomNamed book.now (written_some (cell_of cell.now)) a }
{
    let Some(id) = named_cell(book, cell) else {
        return None;
    };
    Some(AxiomName::Any(id))
}

// `one`
fn one_axiom(
    book: &Book,
    cell: &CellTree,
    first: &ValueTree,
    second: &ValueTree,
) -> Option<AxiomName>
    ensures { (a : Axiom) → (option_map axiom_of result ≡ Some a) ↔
        IsAxiomNamed book.now (written_one (cell_of cell.now) (value_of first.now)
        (value_of second.now)) a }
{
    let Some((id, v, w)) = named_values(book, cell, first, second) else {
        return None;
    };
    Some(AxiomName::One(id, v, w))
}

// `rule`
fn rule_axiom(book: &Book, name: &Name) -> Option<AxiomName>
    ensures { (a : Axiom) → (option_map axiom_of result ≡ Some a) ↔
        IsAxiomNamed book.now (written_rule name.now) a }
{
    let Some(rule) = named_rule(book, name) else {
        return None;
    };
    Some(AxiomName::Rule(rule))
}

// `node`
fn node_axiom(
    alloc: Global,
    book: &Book,
    path: &PathTree,
    number: u32,
) -> Result<Option<AxiomName>, AllocError>
    ensures { IfOk result (λ o. (a : Axiom) → (option_map axiom_of o ≡ Some a) ↔
        IsAxiomNamed book.now (written_node_clause (path_of path.now) number) a) }
{
    let Some(place) = named_node(alloc, book, path)? else {
        return Ok(None);
    };
    Ok(Some(AxiomName::Node(place, number)))
}

// `atom`
fn atom_axiom(
    alloc: Global,
    book: &Book,
    path: &PathTree,
    reads: &[PairTree],
) -> Result<Option<AxiomName>, AllocError>
    ensures { IfOk result (λ o. (a : Axiom) → (option_map axiom_of o ≡ Some a) ↔
        IsAxiomNamed book.now (written_atom (path_of path.now) (map pair_of reads.now)) a) }
{
    let Some(place) = named_node(alloc, book, path)? else {
        return Ok(None);
    };
    let Some(entries) = named_entries(alloc, book, reads)? else {
        return Ok(None);
    };
    Ok(Some(AxiomName::Atom(place, entries)))
}

/// The axiom that the part names. A step and a set's clause name none.
pub fn named_axiom(
    alloc: Global,
    book: &Book,
    part: &PartTree,
) -> Result<Option<AxiomName>, AllocError>
    ensures { IfOk result (λ o. (a : Axiom) → (option_map axiom_of o ≡ Some a) ↔
        IsAxiomNamed book.now (part_of part.now) a) }
{
    match part {
        PartTree::Any(cell) => Ok(some_axiom(book, cell)),
        PartTree::One(cell, first, second) => Ok(one_axiom(book, cell, first, second)),
        PartTree::Rule(name) => Ok(rule_axiom(book, name)),
        PartTree::Node(path, number) => node_axiom(alloc, book, path, *number),
        PartTree::Atom(path, reads) => atom_axiom(alloc, book, path, reads.as_slice()),
        PartTree::Step { .. } => Ok(None),
        PartTree::Block(_) => Ok(None),
    }
}
