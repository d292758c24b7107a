//! The clauses of nodes that are no atoms.

ghost use Rattle.std.specs.Prelude.{◌≡◌, [], IfOk, Some};
ghost use Rattle.pc_accept.specs.Axioms.{child_of, IsClauseOfKind};
ghost use Rattle.pc_accept.specs.Literals.{node};
ghost use Rattle.pc_sheet.specs.Nodes.{kind_at};
ghost use Rattle.pc_sheet.specs.declared.nodes.NodeKind.{NodeKind};
ghost use Rattle.pc_checker.specs.inside.Written.{IsWritten, IsKindWritten, IsNumberWritten, clauses_of_many};

use crate::axiom::write_parts;
use crate::counting::{Counted, write_count, write_counter_at};
use crate::draft::ClauseDraft;
use pc_books::Book;
use pc_logic::few_children;
use pc_sheet::{NodeKind, NodePath};
use std::alloc::{AllocError, Global};

/// Writes the clause of that number, from 1, of the node to which the path leads, and answers whether there is one.
pub(crate) fn write_node(
    alloc: Global,
    book: &Book,
    path: &NodePath,
    kind: NodeKind,
    number: u32,
    draft: &mut ClauseDraft,
) -> Result<bool, AllocError>
    requires blank { draft.old.clause ≡ [] }
    requires at { kind_at book.now path.now.rule path.now.steps.items ≡ Some kind }
    ensures { IfOk result
        (IsWritten (IsClauseOfKind book.now path.now.rule path.now.steps.items kind number)
        draft.old draft.new) }
{
    match kind {
        NodeKind::Atom => Ok(false),
        NodeKind::Not => write_not(alloc, path, number, draft),
        NodeKind::Implies => write_implies(alloc, path, number, draft),
        NodeKind::Iff => write_iff(alloc, path, number, draft),
        NodeKind::And(count) => write_many(alloc, path, count, true, number, draft),
        NodeKind::Or(count) => write_many(alloc, path, count, false, number, draft),
        NodeKind::ForAll(count) => write_many(alloc, path, count, true, number, draft),
        NodeKind::Exists(count) => write_many(alloc, path, count, false, number, draft),
        NodeKind::Count {
            at_most,
            values,
            threshold,
        } => {
            few_children(book);
            let counted = Counted { values, threshold };
            write_count(alloc, path, counted, at_most, number, draft)
        }
        NodeKind::Counter { .. } => write_counter_at(alloc, book, path, number, draft),
    }
}

fn write_not(
    alloc: Global,
    path: &NodePath,
    number: u32,
    draft: &mut ClauseDraft,
) -> Result<bool, AllocError>
    requires { draft.old.clause ≡ [] }
    ensures { IfOk result
        (IsKindWritten path.now NodeKind.Not number draft.old draft.new) }
{
    if number == 1 {
        write_parts(alloc, path, false, &[(0, false)], draft)?;
        return Ok(true);
    }
    if number == 2 {
        write_parts(alloc, path, true, &[(0, true)], draft)?;
        return Ok(true);
    }
    Ok(false)
}

fn write_implies(
    alloc: Global,
    path: &NodePath,
    number: u32,
    draft: &mut ClauseDraft,
) -> Result<bool, AllocError>
    requires { draft.old.clause ≡ [] }
    ensures { IfOk result
        (IsKindWritten path.now NodeKind.Implies number draft.old draft.new) }
{
    if number == 1 {
        write_parts(alloc, path, false, &[(0, false), (1, true)], draft)?;
        return Ok(true);
    }
    if number == 2 {
        write_parts(alloc, path, true, &[(0, true)], draft)?;
        return Ok(true);
    }
    if number == 3 {
        write_parts(alloc, path, true, &[(1, false)], draft)?;
        return Ok(true);
    }
    Ok(false)
}

fn write_iff(
    alloc: Global,
    path: &NodePath,
    number: u32,
    draft: &mut ClauseDraft,
) -> Result<bool, AllocError>
    requires { draft.old.clause ≡ [] }
    ensures { IfOk result
        (IsKindWritten path.now NodeKind.Iff number draft.old draft.new) }
{
    if number == 1 {
        write_parts(alloc, path, false, &[(0, false), (1, true)], draft)?;
        return Ok(true);
    }
    if number == 2 {
        write_parts(alloc, path, false, &[(0, true), (1, false)], draft)?;
        return Ok(true);
    }
    if number == 3 {
        write_parts(alloc, path, true, &[(0, true), (1, true)], draft)?;
        return Ok(true);
    }
    if number == 4 {
        write_parts(alloc, path, true, &[(0, false), (1, false)], draft)?;
        return Ok(true);
    }
    Ok(false)
}

// For each child one clause, in which the child has this sign and the node the other, and then one of all children, in
// which the node has this sign and each child the other.
fn write_many(
    alloc: Global,
    path: &NodePath,
    count: u32,
    sign: bool,
    number: u32,
    draft: &mut ClauseDraft,
) -> Result<bool, AllocError>
    requires { draft.old.clause ≡ [] }
    ensures { IfOk result
        (IsNumberWritten (clauses_of_many (node path.now.rule path.now.steps.items)
        (child_of path.now.rule path.now.steps.items) sign count) number draft.old draft.new) }
{
    if number == 0 {
        return Ok(false);
    }
    let place = number - 1;
    if place < count {
        write_parts(alloc, path, !sign, &[(place, sign)], draft)?;
        return Ok(true);
    }
    if place > count {
        return Ok(false);
    }
    draft.push_node(alloc, path.rule, &path.steps, sign)?;
    draft.push_children(alloc, path, count, !sign)?;
    Ok(true)
}
