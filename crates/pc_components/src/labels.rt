//! Labels of cells: the label of a cell is the first cell of its component.
//!
//! A cell and a row of cells that are tied together are the nodes of a graph, in which each row is linked with its cells.
//! From the first cell without a label a search goes from cell to cell over the rows that have them and labels all that it
//! reaches; then from the next cell without a label, and so on. It goes over each row once, so its time is linear in the
//! rows (connected components by graph search; Hopcroft and Tarjan, "Algorithm 447: efficient algorithms for graph
//! manipulation", 1973).
ghost use Rattle.std.specs.Prelude.{◌≡◌, ◌<◌, ◌+◌, ◌++◌, [], true, false, IfOk, IfNone, OnOk, length, replicate, option_to_list, slice_index_or};
ghost use Rattle.pc_components.specs.Labels.{AreLabels};
ghost use Rattle.pc_components.specs.Traversal.{IsTraversal, Nothing, is_open, reached, all_reached, marked, row_visited, rows_visited};
ghost use Rattle.pc_components.specs.inside.Turned.{turned};
ghost use Rattle.pc_components.specs.inside.Within.{AreBelow, AreAllBelow};

use crate::marks::no_marks;
use crate::turned::turn;
use pc_lits::Rows;
use std::alloc::{AllocError, Global};
use std::marker::Model;

/// A label for each cell, which is the count of cells where it has none yet; the labeled cells that the search hasn't gone
/// on from; and for each row whether the search went over it.
#[derive(Drop)]
struct Traversal {
    labels: Vec<usize>,
    frontier: Vec<usize>,
    visited: Vec<bool>,
}

impl Model for Traversal {
    ghost use Rattle.pc_components.specs.Traversal.{Traversal};

    ghost Value = { Traversal };

    ghost view = { λ t. record { labels = t.labels.items; frontier = t.frontier.items; visited = t.visited.items } };
}

/// Whether the cell has no label.
fn is_open(labels: &[usize], cell: usize) -> bool
    ensures { result ≡ is_open labels.now cell }
{
    cell < labels.len() && labels[cell] == labels.len()
}

/// So many cells without a label.
fn no_labels(alloc: Global, count: usize) -> Result<Vec<usize>, AllocError>
    ensures { IfOk result (λ labels. labels.items ≡ replicate count count) }
{
    let mut labels = Vec::with_capacity(alloc, count)?;
    for _ in 0..count {
        labels.push(count)?;
    }
    Ok(labels)
}

impl Traversal {
    /// Before the search.
    fn new(alloc: Global, cells: usize, rows: usize) -> Result<Traversal, AllocError>
        ensures { IfOk result (λ t. t ≡ record {
          labels = replicate cells cells;
          frontier = [];
          visited = replicate rows false;
        }) }
    {
        Ok(Traversal {
            labels: no_labels(alloc, cells)?,
            frontier: Vec::new(alloc),
            visited: no_marks(alloc, rows)?,
        })
    }

    /// Labels the cell where it has no label.
    fn reach(&mut self, label: usize, cell: usize) -> Result<(), AllocError>
        ensures { OnOk result (self.new ≡ reached label cell self.old) }
    {
        if !is_open(&self.labels, cell) {
            return Ok(());
        }
        self.labels[cell] = label;
        self.frontier.push(cell)?;
        Ok(())
    }

    /// Labels these cells.
    fn reach_all(&mut self, label: usize, cells: &[usize]) -> Result<(), AllocError>
        ensures { OnOk result (self.new ≡ all_reached label cells.now self.old) }
    {
        for cell in cells {
            self.reach(label, *cell)?;
        }
        Ok(())
    }

    /// Whether the search went over the row at this place.
    fn is_visited(&self, place: usize) -> bool
        ensures { result ≡ slice_index_or self.now.visited place true }
    {
        place >= self.visited.len() || self.visited[place]
    }

    /// Marks the row at this place.
    fn mark(&mut self, place: usize)
        ensures { self.new ≡ marked place self.old }
    {
        if place < self.visited.len() {
            self.visited[place] = true;
        }
    }

    /// Labels the cells of the row at this place, where the search didn't go over it.
    fn visit(&mut self, label: usize, place: usize, row: &[usize]) -> Result<(), AllocError>
        ensures { OnOk result (self.new ≡ row_visited label place row.now self.old) }
    {
        if self.is_visited(place) {
            return Ok(());
        }
        self.reach_all(label, row)?;
        self.mark(place);
        Ok(())
    }

    /// Labels the cells of the rows at these places.
    fn visit_all(
        &mut self,
        label: usize,
        rows: &Rows<usize>,
        places: &[usize],
    ) -> Result<(), AllocError>
        requires { AreBelow (length rows.now) places.now }
        ensures { OnOk result (self.new ≡ rows_visited label rows.now places.now self.old) }
    {
        for place in places {
            self.visit(label, *place, rows.get(*place))?;
        }
        Ok(())
    }

    /// Takes a cell from the frontier.
    fn next(&mut self) -> Option<usize>
        ensures labels { self.new.labels ≡ self.old.labels }
        ensures frontier { self.old.frontier ≡ self.new.frontier ++ option_to_list result }
        ensures visited { self.new.visited ≡ self.old.visited }
        ensures last { IfNone result (self.new.frontier ≡ []) }
    {
        self.frontier.pop()
    }

    /// Goes on from the cells of the frontier, until there are none.
    fn go_on(
        &mut self,
        label: usize,
        rows: &Rows<usize>,
        rows_of: &Rows<usize>,
        count: usize,
    ) -> Result<(), AllocError>
        requires rows { AreAllBelow count rows.now }
        requires rows_of { rows_of.now ≡ turned count rows.now }
        requires label { label < count }
        requires search { IsTraversal rows.now count (label + 1) label Nothing self.old }
        ensures search { OnOk result (IsTraversal rows.now count (label + 1) label Nothing
            self.new) }
        ensures all { OnOk result (self.new.frontier ≡ []) }
    {
        'cells: while let Some(cell) = self.next() {
            self.visit_all(label, rows, rows_of.get(cell))?;
        }
        Ok(())
    }
}

/// The search over all cells.
fn traverse(
    alloc: Global,
    rows: &Rows<usize>,
    rows_of: &Rows<usize>,
    count: usize,
) -> Result<Traversal, AllocError>
    requires rows { AreAllBelow count rows.now }
    requires rows_of { rows_of.now ≡ turned count rows.now }
    ensures search { IfOk result (λ t. IsTraversal rows.now count count 0 Nothing t) }
    ensures all { IfOk result (λ t. t.frontier ≡ []) }
{
    let mut search = Traversal::new(alloc, count, rows.len())?;
    'starts: for first in 0..count {
        search.reach(first, first)?;
        search.go_on(first, rows, rows_of, count)?;
    }
    Ok(search)
}

/// The labels of so many cells, where those of each row are tied together.
pub(crate) fn labels_by(
    alloc: Global,
    rows: &Rows<usize>,
    count: usize,
) -> Result<Vec<usize>, AllocError>
    requires { AreAllBelow count rows.now }
    ensures { IfOk result (λ labels. AreLabels rows.now count labels.items) }
{
    let rows_of = turn(alloc, rows, count)?;
    let Traversal { labels, .. } = traverse(alloc, rows, &rows_of, count)?;
    Ok(labels)
}
