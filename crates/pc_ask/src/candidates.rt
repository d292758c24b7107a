//! What is asked about: the entries on the parts that a formula reads, and these parts with their maximal sets.
ghost use Rattle.std.specs.Prelude.{◌≡◌, ◌-◌, ◌<◌, ◌==◌, ◌||◌, ℕ, filter, IfOk, length, OnOk, slice_get, Some};
ghost use Rattle.pc_accept.specs.Sets.{is_in, those_in};
ghost use Rattle.pc_accept.specs.Asked.{asked};
ghost use Rattle.pc_ground.specs.Grounded.{grounded};
ghost use Rattle.pc_sheet.specs.Sheet.{Statement};
ghost use Rattle.pc_ask.specs.inside.Reading.{are_marked, AreCandidates, AreMarksOf, has_mark, is_cell_of, is_marked, is_on_some, is_read};

use pc_books::{Assignment, Book, well_formed};
use pc_ground::Ground;
use pc_repairs::{PartSets, sets_by_part};
use pc_sheet::{CellId, Entry};
use pc_world_list::Choices;
use std::alloc::{AllocError, Global};

// Marks the cell of that number.
fn mark(marks: &mut Vec<bool>, cell: usize) -> Result<(), AllocError>
    ensures { OnOk result ((c : ℕ) →
        has_mark marks.new.items c ≡ (has_mark marks.old.items c || cell == c)) }
{
    'room: while marks.len() <= cell {
        marks.push(false)?;
    }
    marks[cell] = true;
    Ok(())
}

// Marks of the cells that are read.
fn read_marks(alloc: Global, reads: &[usize]) -> Result<Vec<bool>, AllocError>
    ensures { IfOk result (λ marks. AreMarksOf reads.now marks.items) }
{
    let mut marks = Vec::new(alloc);
    for cell in reads {
        mark(&mut marks, *cell)?;
    }
    Ok(marks)
}

// Whether the cell of that number has a mark.
fn has_mark(marks: &[bool], cell: usize) -> bool
    ensures { result ≡ has_mark marks.now cell }
{
    cell < marks.len() && marks[cell]
}

// Whether one of the cells has a mark.
fn are_marked(marks: &[bool], cells: &[CellId]) -> bool
    ensures { result ≡ are_marked marks.now cells.now }
{
    cells
        .iter()
        .any(|cell| has_mark(marks, usize::from(cell.0)))
}

// The parts with a cell that has a mark.
fn marked_parts<'a>(
    alloc: Global,
    all: &[PartSets<'a>],
    marks: &[bool],
) -> Result<Vec<PartSets<'a>>, AllocError>
    ensures { IfOk result (λ parts. parts.items ≡ filter (is_marked marks.now) all.now) }
{
    all.iter()
        .copied()
        .filter(|part| are_marked(marks, part.cells))
        .collect(alloc)
}

// The parts with a cell that is read. A cell is read as often as leaves have it, so the reads are gone over once.
fn read_parts<'a>(
    alloc: Global,
    all: &[PartSets<'a>],
    reads: &[usize],
) -> Result<Vec<PartSets<'a>>, AllocError>
    ensures { IfOk result (λ parts. parts.items ≡ filter (is_read reads.now) all.now) }
{
    let marks = read_marks(alloc, reads)?;
    marked_parts(alloc, all, &marks)
}

fn is_cell_of(cell: CellId, part: PartSets<'_>) -> bool
    ensures { result ≡ is_cell_of cell part.entry }
{
    part.cells.iter().any(|other| other.0 == cell.0)
}

fn is_on_some(parts: &[PartSets<'_>], entry: Entry) -> bool
    ensures { result ≡ is_on_some parts.now entry }
{
    parts.iter().any(|part| is_cell_of(entry.cell, *part))
}

// The entries on cells of these parts, oldest first.
fn entries_on(
    alloc: Global,
    entries: &[Entry],
    parts: &[PartSets<'_>],
) -> Result<Vec<Entry>, AllocError>
    ensures { IfOk result (λ on. on.items ≡ filter (is_on_some parts.now) entries.now) }
{
    entries
        .iter()
        .copied()
        .filter(|entry| is_on_some(parts, *entry))
        .collect(alloc)
}

fn is_in(set: &[Entry], entry: Entry) -> bool
    ensures { result ≡ is_in set.now entry }
{
    set.iter().any(|other| entry.cell.0 == other.cell.0 && entry.value.0 == other.value.0)
}

/// Those of the entries that are in the set, oldest first.
pub(crate) fn those_in(
    alloc: Global,
    entries: &[Entry],
    set: &[Entry],
) -> Result<Vec<Entry>, AllocError>
    ensures { IfOk result (λ some. some.items ≡ those_in entries.now set.now) }
{
    entries
        .iter()
        .copied()
        .filter(|entry| is_in(set, *entry))
        .collect(alloc)
}

/// The entries that are asked about, oldest first, an assignment that fits, and the parts of which one set each is chosen.
#[derive(Drop)]
pub(crate) struct Candidates<'a> {
    pub(crate) entries: Vec<Entry>,
    pub(crate) fitting: &'a Assignment,
    pub(crate) parts: Vec<PartSets<'a>>,
}

/// The numbers of the cells that the last piece of the rules reads.
pub(crate) fn last_reads(ground: &Ground) -> &[usize]
    requires { 0 < length ground.now.reads }
    ensures { slice_get ground.now.reads (length ground.now.reads - 1) ≡ Some result.now }
{
    let reads = ground.reads();
    reads.get(reads.len() - 1)
}

/// What is asked about in a book whose last rule asks a formula of the view. An error is want of memory.
pub(crate) fn find_candidates<'a, C: Choices>(
    alloc: Global,
    view: &'a C,
    book: &Book,
    ground: &Ground,
) -> Result<Candidates<'a>, AllocError>
    requires ground { ground.now ≡ grounded book.now }
    requires asked { (f : Statement) × (book.now ≡ asked (C.sheet view.now) f) }
    ensures { IfOk result (λ c. AreCandidates (C.sheet view.now) book.now c.entries.items
        c.fitting.now c.parts.items) }
{
    let own = view.book();
    let fitting = view.fitting();
    well_formed(own);
    well_formed(book);
    let all = sets_by_part(alloc, view)?;
    let parts = read_parts(alloc, &all, last_reads(ground))?;
    let entries = entries_on(alloc, book.entries(), &parts)?;
    Ok(Candidates {
        entries,
        fitting,
        parts,
    })
}
