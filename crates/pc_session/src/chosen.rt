//! Which parts of a book have entries, as a mark for each part.
//!
//! The numbers of the marked parts are kept in order, so that they are lent at once. They are gathered once for all marks of a
//! book, and anew where a mark changes: where a part gets its first entry or loses its last one.
ghost use Rattle.std.specs.Prelude.{◌≡◌, ◌≤◌, ◌<◌, ◌+◌, ◌++◌, ◌∷◌, [], cond, IfOk, length, set, slice_get, Some, take};
ghost use Rattle.pc_parts.specs.Parts.{Part};
ghost use Rattle.pc_parts.specs.PartSheets.{is_on};
ghost use Rattle.pc_parts.specs.Unions.{has_entries};
ghost use Rattle.pc_sheet.specs.Entailment.{cell_sizes};
ghost use Rattle.pc_theory.specs.Theories.{rules_alone, IsPartNumbered, IsTheory};
ghost use Rattle.pc_session.specs.inside.Chosen.{AreChosen, places_of};

use pc_books::{Book, Entry};
use pc_theory::Theory;
use std::alloc::{AllocError, Global};
use std::marker::Model;

/// A mark for each part, and the numbers of the marked parts in order: so many of the kept numbers.
#[derive(Drop)]
pub(crate) struct Chosen {
    marks: Vec<bool>,
    numbers: Vec<usize>,
    count: usize,
}

impl Model for Chosen {
    ghost use Rattle.std.specs.Prelude.{◌≡◌, ◌≤◌, Bool, length, List, take};
    ghost use Rattle.pc_session.specs.inside.Chosen.{places_of};

    ghost Value = { List Bool };

    ghost view = { λ c. c.marks.items };

    ghost invariant = { λ c. (length c.numbers.items ≡ length c.marks.items) × (c.count ≤ length c.numbers.items) × (take c.count c.numbers.items ≡ places_of c.marks.items) };
}

// Puts the number behind the first so many, where it is to be added, and says how many there are then.
fn add_if(mark: bool, number: usize, numbers: &mut Vec<usize>, count: usize) -> usize
    requires { count < length numbers.old.items }
    ensures long { length numbers.new.items ≡ length numbers.old.items }
    ensures few { result ≤ count + 1 }
    ensures added { take result numbers.new.items ≡ take count numbers.old.items ++
        cond mark (number ∷ []) [] }
{
    if !mark {
        return count;
    }
    numbers[count] = number;
    count + 1
}

// Puts the numbers of the marked parts first, in order, and says how many there are.
fn gather(marks: &[bool], numbers: &mut Vec<usize>) -> usize
    requires { length numbers.old.items ≡ length marks.now }
    ensures long { length numbers.new.items ≡ length numbers.old.items }
    ensures few { result ≤ length numbers.new.items }
    ensures places { take result numbers.new.items ≡ places_of marks.now }
{
    let mut count = 0;
    for (number, mark) in marks.iter().enumerate() {
        count = add_if(*mark, number, numbers, count);
    }
    count
}

impl Chosen {
    /// These marks, with the numbers of the marked parts gathered once.
    fn of(alloc: Global, marks: Vec<bool>) -> Result<Chosen, AllocError>
        ensures { IfOk result (λ chosen. chosen ≡ marks.items) }
    {
        let mut numbers = vec![in alloc; 0; marks.len()]?;
        let count = gather(&marks, &mut numbers);
        Ok(Chosen {
            marks,
            numbers,
            count,
        })
    }

    /// Marks the part, or takes its mark away.
    pub(crate) fn mark(&mut self, part: usize, mark: bool)
        requires { part < length self.old }
        ensures { self.new ≡ set self.old part mark }
    {
        if self.marks[part] != mark {
            self.marks[part] = mark;
            self.count = gather(&self.marks, &mut self.numbers);
        }
    }

    /// How many parts have a mark.
    pub(crate) fn len(&self) -> usize
        ensures { result ≡ length (places_of self.now) }
    {
        self.count
    }

    /// The number of the marked part at this place.
    pub(crate) fn get(&self, place: usize) -> usize
        requires { place < length (places_of self.now) }
        ensures { slice_get (places_of self.now) place ≡ Some result }
    {
        self.numbers[place]
    }
}

// Whether the entry is on the part's cells.
fn is_on(book: &Book, theory: &Theory, part: usize, entry: Entry) -> bool
    requires theory { IsTheory (rules_alone book.now) theory.now }
    requires cell { entry.cell.0 < length (cell_sizes book.now.universe) }
    ensures { (p : Part) → IsPartNumbered (rules_alone book.now) part p →
        result ≡ is_on p.cells entry }
{
    theory.part_of(book, entry.cell) == part
}

// Whether some entry is on the part's cells.
fn has_entries(book: &Book, theory: &Theory, part: usize) -> bool
    requires { IsTheory (rules_alone book.now) theory.now }
    ensures { (p : Part) → IsPartNumbered (rules_alone book.now) part p →
        result ≡ has_entries book.now p }
{
    let entries = book.entries();
    for entry in entries {
        if is_on(book, theory, part, *entry) {
            return true;
        }
    }
    false
}

/// Marks the part where it has an entry on its cells, and takes its mark away where it hasn't.
pub(crate) fn choose(chosen: &mut Chosen, theory: &Theory, book: &Book, part: usize)
    requires theory { IsTheory (rules_alone book.now) theory.now }
    requires part { part < length chosen.old }
    ensures { (p : Part) → IsPartNumbered (rules_alone book.now) part p →
        chosen.new ≡ set chosen.old part (has_entries book.now p) }
{
    chosen.mark(part, has_entries(book, theory, part));
}

// A mark for each part of the book: whether it has entries.
fn marks_of(alloc: Global, book: &Book, theory: &Theory) -> Result<Vec<bool>, AllocError>
    requires { IsTheory (rules_alone book.now) theory.now }
    ensures { IfOk result (λ marks. AreChosen book.now marks.items) }
{
    let entries = book.entries();
    let mut marks = vec![in alloc; false; theory.components().len()]?;
    for entry in entries {
        marks[theory.part_of(book, entry.cell)] = true;
    }
    Ok(marks)
}

/// The marks of a book's parts.
pub(crate) fn chosen_of(alloc: Global, book: &Book, theory: &Theory) -> Result<Chosen, AllocError>
    requires { IsTheory (rules_alone book.now) theory.now }
    ensures { IfOk result (AreChosen book.now) }
{
    let marks = marks_of(alloc, book, theory)?;
    Chosen::of(alloc, marks)
}
