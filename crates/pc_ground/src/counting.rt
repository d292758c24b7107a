//! The clauses of counting quantifiers and of their counters.
ghost use Rattle.std.specs.Prelude.{◌≡◌, ◌+◌, ◌*◌, ◌^◌, ◌<◌, ◌≤◌, ◌++◌, OnOk, map};
ghost use Rattle.std.specs.List.{flat_map, range_with_len};
ghost use Rattle.pc_accept.specs.Rows.{literal, clause_of, counter_part};
ghost use Rattle.pc_ground.specs.ByNumber.{lit, counted_literal, row_clause, counter_clauses, counters_clauses, count_clauses};
ghost use Rattle.pc_ground.specs.RowView.{end_of, part_of};
ghost use Rattle.pc_sheet.specs.declared.nodes.NodeKind.TheVariants.{Count};

use crate::clauses::literal;
use pc_lits::{ClauseStore, Lit};
use std::alloc::{AllocError, Global};

/// A part of a clause: what is known to be true or false, or a literal.
#[derive(Clone, Copy)]
pub(crate) enum RowPart {
    Fixed(bool),
    Literal(Lit),
}

/// What a counting quantifier says of how many values make its body true.
#[derive(Clone, Copy)]
pub(crate) struct Counting {
    /// Whether fewer than the threshold do, or at least as many.
    pub(crate) at_most: bool,
    pub(crate) threshold: u32,
}

/// The variables of a counting quantifier: its node, the nodes of its body under each of its values, and its counters.
#[derive(Clone, Copy)]
pub(crate) struct Counted {
    /// The variable of the quantifier's node.
    pub(crate) node: u32,
    /// How many values it goes over.
    pub(crate) values: u32,
    /// How many nodes its body has.
    pub(crate) size: u32,
    /// How many values make it true, or false if it says at most.
    pub(crate) threshold: u32,
}

/// Appends the clause of a row, unless a part of it is known to be true.
fn push_row(alloc: Global, store: &mut ClauseStore, row: &[RowPart]) -> Result<(), AllocError>
    ensures { OnOk result (store.new ≡ store.old ++ row_clause (clause_of (map part_of row.now))) }
{
    let mut clause = Vec::new(alloc);
    for part in row {
        match part {
            RowPart::Fixed(is) => {
                if *is {
                    return Ok(());
                }
            }
            RowPart::Literal(l) => clause.push(*l)?,
        }
    }
    store.push(&clause)?;
    Ok(())
}

/// The body under the value of number `i`, or its negation.
fn body_part(counted: Counted, i: u32, sign: bool) -> RowPart
    requires i { i < counted.values }
    requires room { end_of counted < 2 ^ 32 }
    ensures { part_of result ≡ literal (counted_literal counted.node counted.values counted.size i
        sign) }
{
    let variable = counted.node + 1 + i * counted.size;
    RowPart::Literal(literal(variable, sign))
}

/// That at least `j` of the first `i` values make the body true, or its negation.
fn counter_part(counted: Counted, i: u32, j: u32, sign: bool) -> RowPart
    requires i { i ≤ counted.values }
    requires j { j ≤ counted.threshold }
    requires room { end_of counted < 2 ^ 32 }
    ensures { part_of result ≡ counter_part (lit counted.node)
        (counted_literal counted.node counted.values counted.size) counted.values counted.threshold
        i j sign }
{
    if j == 0 {
        return RowPart::Fixed(sign);
    }
    if i == 0 {
        return RowPart::Fixed(!sign);
    }
    let first = counted.node + 1 + counted.values * counted.size;
    let variable = first + ((i - 1) * counted.threshold + (j - 1));
    RowPart::Literal(literal(variable, sign))
}

/// Appends the clauses of the quantifier's node.
pub(crate) fn push_count(
    alloc: Global,
    store: &mut ClauseStore,
    counted: Counted,
    at_most: bool,
) -> Result<(), AllocError>
    requires room { end_of counted < 2 ^ 32 }
    ensures { OnOk result (store.new ≡ store.old ++ count_clauses counted.node counted.values
        counted.size (Count at_most counted.values counted.threshold)) }
{
    let node = RowPart::Literal(literal(counted.node, true));
    let not = RowPart::Literal(literal(counted.node, false));
    let all = counter_part(counted, counted.values, counted.threshold, at_most);
    let not_all = counter_part(counted, counted.values, counted.threshold, !at_most);
    push_row(alloc, store, &[not, not_all])?;
    push_row(alloc, store, &[node, all])?;
    Ok(())
}

/// Appends the clauses of the counter that at least `j + 1` of the first `i + 1` values make the body true.
fn push_counter(
    alloc: Global,
    store: &mut ClauseStore,
    counted: Counted,
    i: u32,
    j: u32,
) -> Result<(), AllocError>
    requires i { i < counted.values }
    requires j { j < counted.threshold }
    requires room { end_of counted < 2 ^ 32 }
    ensures { OnOk result (store.new ≡ store.old ++ counter_clauses counted.node counted.values
        counted.size counted.threshold i j) }
{
    let is = counter_part(counted, i + 1, j + 1, true);
    let not = counter_part(counted, i + 1, j + 1, false);
    let before = counter_part(counted, i, j + 1, true);
    let not_before = counter_part(counted, i, j + 1, false);
    let fewer = counter_part(counted, i, j, true);
    let not_fewer = counter_part(counted, i, j, false);
    let last = body_part(counted, i, true);
    let not_last = body_part(counted, i, false);
    push_row(alloc, store, &[not, before, last])?;
    push_row(alloc, store, &[not, before, fewer])?;
    push_row(alloc, store, &[is, not_before])?;
    push_row(alloc, store, &[is, not_fewer, not_last])?;
    Ok(())
}

/// Appends the clauses of the counters of the first `i + 1` values.
fn push_counters_of(
    alloc: Global,
    store: &mut ClauseStore,
    counted: Counted,
    i: u32,
) -> Result<(), AllocError>
    requires i { i < counted.values }
    requires room { end_of counted < 2 ^ 32 }
    ensures { OnOk result (store.new ≡ store.old ++
        flat_map (counter_clauses counted.node counted.values counted.size counted.threshold i)
        (range_with_len 0 counted.threshold)) }
{
    for j in 0..counted.threshold {
        push_counter(alloc, store, counted, i, j)?;
    }
    Ok(())
}

/// Appends the clauses of all counters.
pub(crate) fn push_counters(
    alloc: Global,
    store: &mut ClauseStore,
    counted: Counted,
) -> Result<(), AllocError>
    requires room { end_of counted < 2 ^ 32 }
    ensures { OnOk result (store.new ≡ store.old ++ counters_clauses counted.node counted.values
        counted.size counted.threshold) }
{
    for i in 0..counted.values {
        push_counters_of(alloc, store, counted, i)?;
    }
    Ok(())
}
