//! The clauses of counting quantifiers and of their counters.

ghost use Rattle.std.specs.Prelude.{◌≡◌, ◌+◌, ◌*◌, ◌^◌, ◌<◌, ◌≤◌, ℕ, Bool, List, [], IfOk, MatchOption, Some, map};
ghost use Rattle.pc_accept.specs.Axioms.{signed_node, signed_child, IsClauseOfKind};
ghost use Rattle.pc_accept.specs.Rows.{counter_part, count_rows, counter_rows, rows_below_kind, rows_of_child};
ghost use Rattle.pc_sheet.specs.Nodes.{kind_at};
ghost use Rattle.pc_sheet.specs.declared.nodes.NodeKind.TheVariants.{Count, Counter};
ghost use Rattle.pc_checker.specs.inside.RowParts.{part_of};
ghost use Rattle.pc_checker.specs.inside.Written.{IsWritten, IsRowWritten, IsRowNumberWritten};

use crate::draft::ClauseDraft;
use pc_books::Book;
use pc_logic::{few_children, node_at};
use pc_sheet::{NodeKind, NodePath};
use std::alloc::{AllocError, Global};

/// A part of a clause: what is known to be true or false, or that the quantifier's node or one of its children has this
/// truth.
#[derive(Clone, Copy)]
pub(crate) enum RowPart {
    Fixed(bool),
    Own(bool),
    Child(u32, bool),
}

/// How many values a counting quantifier goes over, and how many of them make it true, or false if it says at most.
#[derive(Clone, Copy)]
pub(crate) struct Counted {
    pub(crate) values: u32,
    pub(crate) threshold: u32,
}

impl Counted {
    // That at least `j` of the first `i` values make the body true, or that they don't.
    fn part(self, i: u32, j: u32, sign: bool) -> RowPart
        requires few { self.values + self.values * self.threshold < 2 ^ 32 }
        requires i { i ≤ self.values }
        requires j { j ≤ self.threshold }
        ensures { (rule : ℕ) (path : List ℕ) →
            part_of rule path result ≡ counter_part (signed_node rule path) (signed_child rule path)
            self.values self.threshold i j sign }
    {
        if j == 0 {
            return RowPart::Fixed(sign);
        }
        if i == 0 {
            return RowPart::Fixed(!sign);
        }
        RowPart::Child(self.values + (i - 1) * self.threshold + (j - 1), sign)
    }
}

// Writes the clause of a row, and answers whether there is one: none where a part of it is known to be true.
fn write_row(
    alloc: Global,
    path: &NodePath,
    row: &[RowPart],
    draft: &mut ClauseDraft,
) -> Result<bool, AllocError>
    requires { draft.old.clause ≡ [] }
    ensures { IfOk result (IsRowWritten (map (part_of path.now.rule path.now.steps.items) row.now)
        draft.old draft.new) }
{
    for part in row {
        match part {
            RowPart::Fixed(is) => {
                if *is {
                    return Ok(false);
                }
            }
            RowPart::Own(sign) => draft.push_node(alloc, path.rule, &path.steps, *sign)?,
            RowPart::Child(child, sign) => draft.push_child(alloc, path, *child, *sign)?,
        }
    }
    Ok(true)
}

/// Writes the clause of that number, from 1, of the quantifier's node, and answers whether there is one.
pub(crate) fn write_count(
    alloc: Global,
    path: &NodePath,
    counted: Counted,
    at_most: bool,
    number: u32,
    draft: &mut ClauseDraft,
) -> Result<bool, AllocError>
    requires blank { draft.old.clause ≡ [] }
    requires few { counted.values + counted.values * counted.threshold < 2 ^ 32 }
    ensures { IfOk result
        (IsRowNumberWritten (count_rows (signed_node path.now.rule path.now.steps.items)
        (signed_child path.now.rule path.now.steps.items) counted.values counted.threshold at_most)
        number draft.old draft.new) }
{
    if number == 1 {
        let all = counted.part(counted.values, counted.threshold, !at_most);
        return write_row(alloc, path, &[RowPart::Own(false), all], draft);
    }
    if number == 2 {
        let all = counted.part(counted.values, counted.threshold, at_most);
        return write_row(alloc, path, &[RowPart::Own(true), all], draft);
    }
    Ok(false)
}

// The same of its counter that at least `j + 1` of the first `i + 1` values make the body true.
fn write_counter(
    alloc: Global,
    path: &NodePath,
    counted: Counted,
    i: u32,
    j: u32,
    number: u32,
    draft: &mut ClauseDraft,
) -> Result<bool, AllocError>
    requires blank { draft.old.clause ≡ [] }
    requires few { counted.values + counted.values * counted.threshold < 2 ^ 32 }
    requires i { i < counted.values }
    requires j { j < counted.threshold }
    ensures { IfOk result
        (IsRowNumberWritten (counter_rows (signed_node path.now.rule path.now.steps.items)
        (signed_child path.now.rule path.now.steps.items) counted.values counted.threshold i j)
        number draft.old draft.new) }
{
    if number == 1 {
        let not = counted.part(i + 1, j + 1, false);
        let before = counted.part(i, j + 1, true);
        return write_row(alloc, path, &[not, before, RowPart::Child(i, true)], draft);
    }
    if number == 2 {
        let not = counted.part(i + 1, j + 1, false);
        let before = counted.part(i, j + 1, true);
        let fewer = counted.part(i, j, true);
        return write_row(alloc, path, &[not, before, fewer], draft);
    }
    if number == 3 {
        let is = counted.part(i + 1, j + 1, true);
        let not_before = counted.part(i, j + 1, false);
        return write_row(alloc, path, &[is, not_before], draft);
    }
    if number == 4 {
        let is = counted.part(i + 1, j + 1, true);
        let not_fewer = counted.part(i, j, false);
        return write_row(
            alloc,
            path,
            &[is, not_fewer, RowPart::Child(i, false)],
            draft,
        );
    }
    Ok(false)
}

// The same of its child of number `k`, if that is a counter.
fn write_child(
    alloc: Global,
    path: &NodePath,
    counted: Counted,
    k: u32,
    number: u32,
    draft: &mut ClauseDraft,
) -> Result<bool, AllocError>
    requires blank { draft.old.clause ≡ [] }
    requires few { counted.values + counted.values * counted.threshold < 2 ^ 32 }
    ensures { IfOk result
        (IsRowNumberWritten (rows_of_child (signed_node path.now.rule path.now.steps.items)
        (signed_child path.now.rule path.now.steps.items) counted.values counted.threshold k) number
        draft.old draft.new) }
{
    if k < counted.values {
        return Ok(false);
    }
    let q = k - counted.values;
    let m = counted.threshold;
    if m == 0 || q >= counted.values * m {
        return Ok(false);
    }
    write_counter(alloc, path, counted, q / m, q % m, number, draft)
}

// What a node of that kind counts, if it does.
fn counted_by(kind: NodeKind) -> Option<Counted>
    ensures { MatchOption result ((rule : ℕ) (path : List ℕ) (k : ℕ) →
        rows_below_kind (signed_node rule path) (signed_child rule path) kind k ≡ [])
        (λ c. (at_most : Bool) × (kind ≡ Count at_most c.values c.threshold)) }
{
    match kind {
        NodeKind::Count {
            values,
            threshold,
            ..
        } => Some(Counted { values, threshold }),
        _ => None,
    }
}

/// Writes the clause of that number, from 1, of a counter, which is by its number among the children of the node above
/// it, and answers whether there is one.
pub(crate) fn write_counter_at(
    alloc: Global,
    book: &Book,
    path: &NodePath,
    number: u32,
    draft: &mut ClauseDraft,
) -> Result<bool, AllocError>
    requires blank { draft.old.clause ≡ [] }
    ensures { (i j : ℕ) → kind_at book.now path.now.rule path.now.steps.items ≡ Some (Counter i j) →
        IfOk result
        (IsWritten (IsClauseOfKind book.now path.now.rule path.now.steps.items (Counter i j) number)
        draft.old draft.new) }
{
    let Some((last, steps)) = path.steps.split_last() else {
        return Ok(false);
    };
    let Some(kind) = node_at(book, path.rule, steps) else {
        return Ok(false);
    };
    let Some(counted) = counted_by(kind) else {
        return Ok(false);
    };
    few_children(book);
    let above = NodePath {
        rule: path.rule,
        steps: Vec::from_slice(alloc, steps)?,
    };
    write_child(alloc, &above, counted, *last, number, draft)
}
