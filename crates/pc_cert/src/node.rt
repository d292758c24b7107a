// Where the paths in a line lead in a book.
ghost use Rattle.std.specs.Prelude.{◌≡◌, ◌↔◌, ◌<◌, ◌≤◌, ◌^◌, ◌∷◌, ◌++◌, ℕ, List, Some, IsSome, IfOk, MatchOption};
ghost use Rattle.std.specs.Option.{option_map};
ghost use Rattle.pc_sheet.specs.Nodes.{children_of, node_at};
ghost use Rattle.pc_cert.specs.Meaning.{IsNodeNamed};
ghost use Rattle.pc_cert.specs.Trees.{path_of, place_of};

use crate::lookup::named_rule;
use crate::tree::PathTree;
use pc_books::{Book, NodeKind};
use pc_logic::{few_children, node_at};
use pc_sheet::NodePath;
use std::alloc::{AllocError, Global};

/// How many children a node of the kind has.
fn children(kind: NodeKind) -> u32
    requires few { children_of kind < 2 ^ 32 }
    ensures exact { result ≡ children_of kind }
    ensures few { result < 2 ^ 32 }
{
    match kind {
        NodeKind::Atom => 0,
        NodeKind::Not => 1,
        NodeKind::And(count) => count,
        NodeKind::Or(count) => count,
        NodeKind::Implies => 2,
        NodeKind::Iff => 2,
        NodeKind::ForAll(count) => count,
        NodeKind::Exists(count) => count,
        NodeKind::Count {
            values,
            threshold,
            ..
        } => values + values * threshold,
        NodeKind::Counter { .. } => 0,
    }
}

// No node has so many children that a child's number takes more than 32 bits.
fn has_few_children(book: &Book, rule: u32, steps: &[u32])
    ensures { (k : ℕ) (more : List ℕ) → 2 ^ 32 ≤ k →
        IsSome (node_at book.now rule (steps.now ++ k ∷ more)) → ⊥ }
{
    let Some(kind) = node_at(book, rule, steps) else {
        return;
    };
    few_children(book);
    let _ = children(kind);
}

// The steps of a path, as numbers of 32 bits. Where one takes more, the path leads to no node.
fn small_steps(
    alloc: Global,
    book: &Book,
    rule: u32,
    steps: &[u64],
) -> Result<Option<Vec<u32>>, AllocError>
    ensures { IfOk result (λ o. MatchOption o (IsSome (node_at book.now rule steps.now) →
        ⊥) (λ v. v.items ≡ steps.now)) }
{
    let mut small = Vec::new(alloc);
    for step in steps {
        let step = *step;
        if step > 4_294_967_295 {
            has_few_children(book, rule, small.as_slice());
            return Ok(None);
        }
        small.push(step as u32)?;
    }
    Ok(Some(small))
}

/// The node that is named.
pub fn named_node(
    alloc: Global,
    book: &Book,
    path: &PathTree,
) -> Result<Option<NodePath>, AllocError>
    ensures { IfOk result (λ o. (rule : ℕ) (steps : List ℕ) →
        (option_map place_of o ≡ Some (rule, steps)) ↔
        IsNodeNamed book.now (path_of path.now) rule steps) }
{
    let Some(rule) = named_rule(book, &path.rule) else {
        return Ok(None);
    };
    let Some(steps) = small_steps(alloc, book, rule, path.steps.as_slice())? else {
        return Ok(None);
    };
    if node_at(book, rule, steps.as_slice()).is_none() {
        return Ok(None);
    }
    Ok(Some(NodePath { rule, steps }))
}
