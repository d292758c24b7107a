//! How many of a part's variables are of pairs.

use pc_books::Book;
use pc_sheet::CellId;

/// How many pairs the cells have. Where they are those of a part, the first of its variables are these pairs'. No contract
/// rests on it.
pub fn count_pairs(book: &Book, cells: &[CellId]) -> usize {
    let mut count: usize = 0;
    for cell in cells {
        if usize::from(cell.0) < book.cells() {
            count = count.saturating_add(book.values_of(*cell));
        }
    }
    count
}
