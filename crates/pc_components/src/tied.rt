//! The labels of the cells of known parts, and what they become where one more piece ties cells together.
ghost use Rattle.std.specs.Prelude.{◌≡◌, [], ◌∷◌, IfOk, map, slice_index_or};
ghost use Rattle.pc_parts.specs.Components.{all_relabeled, label_of, pairs_of, relabeled, renamed};
ghost use Rattle.pc_components.specs.View.{number_of};
ghost use Rattle.pc_components.specs.inside.Tied.{first_by, firsts_by_number};

use pc_lits::Rows;
use pc_sheet::CellId;
use std::alloc::{AllocError, Global};

/// The first cell of the row of that number, where there is one.
fn first_of(rows: &Rows<CellId>, number: usize) -> usize
    ensures { result ≡ first_by (map (map number_of) rows.now) number }
{
    if number >= rows.len() {
        return 0;
    }
    let row = rows.get(number);
    if row.len() == 0 {
        return 0;
    }
    usize::from(row[0].0)
}

/// The first cell of each cell's part, by the cells of the parts and the number of each cell's.
pub(crate) fn first_cells(
    alloc: Global,
    rows: &Rows<CellId>,
    numbers: &[usize],
) -> Result<Vec<usize>, AllocError>
    ensures { IfOk result (λ firsts. firsts.items ≡
        firsts_by_number (map (map number_of) rows.now) numbers.now) }
{
    let mut firsts = Vec::with_capacity(alloc, numbers.len())?;
    for number in numbers {
        firsts.push(first_of(rows, *number))?;
    }
    Ok(firsts)
}

/// The label of that cell, where there is one.
fn label_of(labels: &[usize], cell: usize) -> usize
    ensures { result ≡ label_of labels.now cell }
{
    if cell < labels.len() { labels[cell] } else { 0 }
}

/// The label, where it isn't one of the two; else the lesser of these.
fn renamed(first: usize, second: usize, label: usize) -> usize
    ensures { result ≡ renamed (first ∷ second ∷ []) label }
{
    if label != first && label != second {
        return label;
    }
    if first <= second { first } else { second }
}

/// Gives all cells that have one of the two labels the lesser.
fn rename(labels: &mut Vec<usize>, first: usize, second: usize)
    ensures { labels.new.items ≡ map (renamed (first ∷ second ∷ [])) labels.old.items }
{
    for cell in 0..labels.len() {
        labels[cell] = renamed(first, second, labels[cell]);
    }
}

/// Gives all cells that have the label of one of the two cells the lesser of these labels.
fn tie(labels: &mut Vec<usize>, first: usize, second: usize)
    ensures { labels.new.items ≡ relabeled (first ∷ second ∷ []) labels.old.items }
{
    let one = label_of(labels, first);
    let other = label_of(labels, second);
    if one == other {
        return;
    }
    rename(labels, one, other);
}

/// Ties all these cells to the first of them.
pub(crate) fn tie_all(labels: &mut Vec<usize>, cells: &[usize])
    ensures { labels.new.items ≡ all_relabeled (pairs_of cells.now) labels.old.items }
{
    for place in 1..cells.len() {
        tie(labels, cells[0], cells[place]);
    }
}
