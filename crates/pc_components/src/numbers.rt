//! The numbers of the parts of cells and pieces, from the labels.
ghost use Rattle.std.specs.Prelude.{◌≡◌, ◌≤◌, ◌==◌, cond, IfOk, length, map, slice_index_or};
ghost use Rattle.pc_components.specs.inside.Owners.{place_in};
ghost use Rattle.pc_components.specs.inside.Numbers.{AreOwn, own_firsts, piece_number, last_count, alone};

use pc_lits::Rows;
use std::alloc::{AllocError, Global};

/// The number of a cell's part: the next one where the cell is the first of its part, and else that of the first cell.
fn number_of_cell(numbers: &[usize], next: usize, label: usize, cell: usize) -> usize
    ensures { result ≡ cond (label == cell) next (slice_index_or numbers.now label 0) }
{
    if label == cell {
        return next;
    }
    if label < numbers.len() {
        numbers[label]
    } else {
        0
    }
}

/// One where the cell is its own label, and else none.
fn count_first(label: usize, cell: usize) -> usize
    ensures exact { result ≡ cond (label == cell) 1 0 }
    ensures small { result ≤ 1 }
{
    if label == cell { 1 } else { 0 }
}

/// The number of each cell's part, and how many parts have cells: a part's first cell is its own label.
pub(crate) fn number_cells(
    alloc: Global,
    labels: &[usize],
) -> Result<(Vec<usize>, usize), AllocError>
    requires { AreOwn labels.now }
    ensures numbers { IfOk result (λ found. found.0.items ≡ map (place_in (own_firsts labels.now))
        labels.now) }
    ensures count { IfOk result (λ found. found.1 ≡ length (own_firsts labels.now)) }
    ensures small { IfOk result (λ found. found.1 ≤ length labels.now) }
{
    let mut numbers = Vec::with_capacity(alloc, labels.len())?;
    let mut count = 0;
    for c in 0..labels.len() {
        let number = number_of_cell(&numbers, count, labels[c], c);
        numbers.push(number)?;
        count += count_first(labels[c], c);
    }
    Ok((numbers, count))
}

/// The number of a piece's part, by the cells that the piece reads.
fn number_of_piece(cells: &[usize], numbers: &[usize], last: usize) -> usize
    ensures { result ≡ piece_number numbers.now last cells.now }
{
    if cells.len() == 0 {
        return last;
    }
    let first = cells[0];
    if first < numbers.len() {
        numbers[first]
    } else {
        0
    }
}

/// The number of each piece's part, by the cells that each reads; the part without cells has the number `last`.
pub(crate) fn numbers_of_pieces(
    alloc: Global,
    rows: &Rows<usize>,
    numbers: &[usize],
    last: usize,
) -> Result<Vec<usize>, AllocError>
    ensures { IfOk result (λ found. found.items ≡ map (piece_number numbers.now last) rows.now) }
{
    let mut found = Vec::with_capacity(alloc, rows.len())?;
    for i in 0..rows.len() {
        found.push(number_of_piece(rows.get(i), numbers, last))?;
    }
    Ok(found)
}

/// One where some piece reads no cell, and else none.
pub(crate) fn count_last(rows: &Rows<usize>) -> usize
    ensures exact { result ≡ last_count rows.now }
    ensures small { result ≤ 1 }
{
    for i in 0..rows.len() {
        if rows.get(i).len() == 0 {
            return 1;
        }
    }
    0
}

/// A row for each number.
pub(crate) fn rows_of_each(alloc: Global, numbers: &[usize]) -> Result<Rows<usize>, AllocError>
    ensures { IfOk result (λ rows. rows ≡ map alone numbers.now) }
{
    let mut rows = Rows::new(alloc);
    for number in numbers {
        rows.push(&[*number])?;
    }
    Ok(rows)
}
