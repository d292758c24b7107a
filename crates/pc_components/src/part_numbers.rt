//! Which part each cell, each piece and each axiom of a book is of, by the parts' numbers.
ghost use Rattle.std.specs.Prelude.{◌≡◌, ◌+◌, ◌++◌, ◌≤◌, IfOk, length, map};
ghost use Rattle.pc_parts.specs.Components.{labels_of};
ghost use Rattle.pc_parts.specs.PartSheets.{is_among};
ghost use Rattle.pc_ground.specs.Grounded.{grounded};
ghost use Rattle.pc_components.specs.inside.Numbers.{alone};
ghost use Rattle.pc_components.specs.inside.Owners.{owners_by};
ghost use Rattle.pc_components.specs.inside.PartNumbers.{HasNumbers};
ghost use Rattle.pc_components.specs.inside.Spans.{AreWithin, row_of};
ghost use Rattle.pc_components.specs.inside.Turned.{places_from};

use crate::labels::labels_by;
use crate::marks::{is_among, marked_places, marks_of_numbers};
use crate::numbers::{count_last, number_cells, numbers_of_pieces};
use pc_books::{Book, well_formed};
use pc_ground::{Ground, Span};
use pc_lits::Rows;
use std::alloc::{AllocError, Global};

/// How many parts there are, and the number of each cell's and each piece's part.
#[derive(Drop)]
pub(crate) struct PartNumbers {
    pub(crate) parts: usize,
    pub(crate) cells: Vec<usize>,
    pub(crate) pieces: Vec<usize>,
}

/// The numbers of the groups of a span.
fn row_of(numbers: &[usize], span: Span) -> &[usize]
    requires { span.first + span.count ≤ length numbers.now }
    ensures { result.now ≡ row_of numbers.now span }
{
    let first = span.first as usize;
    &numbers[first..first + span.count as usize]
}

/// For each span, the numbers of its groups.
fn rows_of(alloc: Global, numbers: &[usize], spans: &[Span]) -> Result<Rows<usize>, AllocError>
    requires { AreWithin (length numbers.now) spans.now }
    ensures { IfOk result (λ rows. rows ≡ map (row_of numbers.now) spans.now) }
{
    let mut rows = Rows::new(alloc);
    for span in spans {
        rows.push(row_of(numbers, *span))?;
    }
    Ok(rows)
}

/// For each span whether that number is one of its groups'.
fn marks_of_spans(
    alloc: Global,
    numbers: &[usize],
    spans: &[Span],
    number: usize,
) -> Result<Vec<bool>, AllocError>
    requires { AreWithin (length numbers.now) spans.now }
    ensures { IfOk result (λ marks. marks.items ≡
        map (λ span. is_among (row_of numbers.now span) number) spans.now) }
{
    let mut marks = Vec::with_capacity(alloc, spans.len())?;
    for span in spans {
        marks.push(is_among(row_of(numbers, *span), number))?;
    }
    Ok(marks)
}

impl PartNumbers {
    /// The numbers of a book's parts.
    #[tactic(auto, using(crate::proofs::RowsWithin::rows_within))]
    pub(crate) fn new(
        alloc: Global,
        book: &Book,
        ground: &Ground,
    ) -> Result<PartNumbers, AllocError>
        requires { ground.now ≡ grounded book.now }
        ensures { IfOk result (λ found. HasNumbers book.now found.parts found.cells.items
            found.pieces.items) }
    {
        well_formed(book);
        let labels = labels_by(alloc, ground.reads(), book.cells())?;
        PartNumbers::by_labels(alloc, book, ground, &labels)
    }

    /// The numbers of a book's parts, from the labels of its cells.
    pub(crate) fn by_labels(
        alloc: Global,
        book: &Book,
        ground: &Ground,
        labels: &[usize],
    ) -> Result<PartNumbers, AllocError>
        requires ground { ground.now ≡ grounded book.now }
        requires labels { labels.now ≡ labels_of book.now }
        ensures { IfOk result (λ found. HasNumbers book.now found.parts found.cells.items
            found.pieces.items) }
    {
        well_formed(book);
        let rows = ground.reads();
        let (cells, parts) = number_cells(alloc, labels)?;
        let pieces = numbers_of_pieces(alloc, rows, &cells, parts)?;
        Ok(PartNumbers {
            parts: parts + count_last(rows),
            cells,
            pieces,
        })
    }

    /// The number of each cell's part, and then of each piece's.
    fn all(&self, alloc: Global) -> Result<Vec<usize>, AllocError>
        ensures { IfOk result (λ all. all.items ≡ self.now.cells.items ++ self.now.pieces.items) }
    {
        let mut all = Vec::new(alloc);
        all.extend_from_slice(&self.cells)?;
        all.extend_from_slice(&self.pieces)?;
        Ok(all)
    }

    /// The numbers of the parts that each axiom of the book is of, axiom by axiom.
    pub(crate) fn owners(
        &self,
        alloc: Global,
        book: &Book,
        ground: &Ground,
    ) -> Result<Rows<usize>, AllocError>
        requires ground { ground.now ≡ grounded book.now }
        requires numbers { HasNumbers book.now self.now.parts self.now.cells.items
            self.now.pieces.items }
        ensures { IfOk result (λ rows. rows ≡ owners_by book.now (labels_of book.now)) }
    {
        let numbers = self.all(alloc)?;
        rows_of(alloc, &numbers, ground.owners())
    }

    /// The cells of the part of that number, in order.
    pub(crate) fn cells_of(&self, alloc: Global, number: usize) -> Result<Vec<usize>, AllocError>
        ensures { IfOk result (λ cells. cells.items ≡ places_from 0 (map alone self.now.cells.items)
            number) }
    {
        let marks = marks_of_numbers(alloc, &self.cells, number)?;
        marked_places(alloc, &marks)
    }

    /// The axioms of the part of that number, in order.
    pub(crate) fn axioms_of(
        &self,
        alloc: Global,
        book: &Book,
        ground: &Ground,
        number: usize,
    ) -> Result<Vec<usize>, AllocError>
        requires ground { ground.now ≡ grounded book.now }
        requires numbers { HasNumbers book.now self.now.parts self.now.cells.items
            self.now.pieces.items }
        ensures { IfOk result (λ axioms. axioms.items ≡
            places_from 0 (owners_by book.now (labels_of book.now)) number) }
    {
        let numbers = self.all(alloc)?;
        let marks = marks_of_spans(alloc, &numbers, ground.owners(), number)?;
        marked_places(alloc, &marks)
    }
}
