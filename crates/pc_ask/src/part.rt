//! The part of an asked book that has what is asked, as what a solver searches. Its rules tie all parts of the book together
//! that the formula reads; no other part is searched.
ghost use Rattle.std.specs.Prelude.{◌≡◌, ◌↔◌, ◌<◌, ◌^◌, [], ◌∷◌, ◌++◌, All, cond, IfOk, IsTrue, length, OnOk};
ghost use Rattle.pc_sheet.specs.Sheet.{Sheet, Statement};
ghost use Rattle.pc_sheet.specs.WellFormed.{IsWellFormed};
ghost use Rattle.pc_accept.specs.Asked.{asked};
ghost use Rattle.pc_components.specs.View.{AreComponentsOf};
ghost use Rattle.pc_ground.specs.Ground.{clauses};
ghost use Rattle.pc_ground.specs.Grounded.{grounded};
ghost use Rattle.pc_ask.specs.inside.Parts.{AreAxiomsOver, AreMarked, AreMarkedBelow, IsAsked, IsAskedOver, IsMarkedClause};

use pc_books::{Book, well_formed};
use pc_components::{Components, PartOfPiece, find_last_part};
use pc_ground::Ground;
use pc_lits::{ClauseStore, Lit, Values, Var};
use pc_problem::count_pairs;
use pc_problem::laws::parts_are_searched;
use pc_solver::Solver;
use std::alloc::{AllocError, Global};

/// An asked book with its clauses, and the variables of the part that has what is asked.
#[derive(Clone, Copy)]
pub(crate) struct AskTask<'g> {
    pub(crate) alloc: Global,
    pub(crate) book: &'g Book,
    pub(crate) ground: &'g Ground,
    pub(crate) variables: &'g [Var],
}

/// The part that has what is asked: that of the last piece of the rules, from the parts of the book in which it is asked. An
/// error is want of memory.
pub(crate) fn asked_part(
    alloc: Global,
    book: &Book,
    ground: &Ground,
    components: &Components,
) -> Result<PartOfPiece, AllocError>
    requires ground { ground.now ≡ grounded book.now }
    requires asked { (sheet : Sheet) × (f : Statement) × (book.now ≡ asked sheet f) ×
        IsWellFormed sheet × AreComponentsOf sheet components.now }
    ensures { IfOk result (λ part. IsAskedOver book.now part.cells.items part.variables.items) }
{
    find_last_part(alloc, book, ground, components)
}

// Marks for these variables.
fn marks_of(alloc: Global, count: u32, own: &[Var]) -> Result<Values, AllocError>
    requires { All (λ v. v.0 < count) own.now }
    ensures room { IfOk result (λ marks. length marks ≡ count) }
    ensures marked { IfOk result (AreMarked own.now) }
{
    let mut marks = Values::new(alloc, count)?;
    for i in 0..own.len() {
        marks.assign(Lit::positive(own[i]));
    }
    Ok(marks)
}

// Whether each of the clause's variables is marked.
fn is_marked(clause: &[Lit], marks: &Values) -> bool
    requires { All (λ l. l.variable.0 < length marks.now) clause.now }
    ensures { IsTrue result ↔ IsMarkedClause marks.now clause.now }
{
    for literal in clause {
        if !marks.is_true(Lit::positive(literal.variable)) {
            return false;
        }
    }
    true
}

// Appends the number where it is so.
fn push_if(numbers: &mut Vec<u32>, is: bool, number: u32) -> Result<(), AllocError>
    ensures { OnOk result (numbers.new.items ≡ numbers.old.items ++ cond is (number ∷ []) []) }
{
    if is {
        numbers.push(number)?;
    }
    Ok(())
}

// The numbers of the clauses of which each variable is marked.
fn marked_clauses(
    alloc: Global,
    store: &ClauseStore,
    marks: &Values,
) -> Result<Vec<u32>, AllocError>
    requires few { length store.now < 2 ^ 32 }
    requires room { All (All (λ l. l.variable.0 < length marks.now)) store.now }
    ensures { IfOk result (λ used. AreMarkedBelow store.now marks.now (length store.now)
        used.items) }
{
    let mut used = Vec::new(alloc);
    for number in 0..store.len() {
        let is = is_marked(store.get(number), marks);
        push_if(&mut used, is, number as u32)?;
    }
    Ok(used)
}

/// The numbers of all axioms over the part's variables.
pub(crate) fn axioms_over(
    alloc: Global,
    book: &Book,
    ground: &Ground,
    part: &PartOfPiece,
) -> Result<Vec<u32>, AllocError>
    requires ground { ground.now ≡ grounded book.now }
    requires literals { All (All (λ l. l.variable.0 < ground.now.variables)) ground.now.clauses }
    requires part { IsAskedOver book.now part.now.cells.items part.now.variables.items }
    ensures { IfOk result (λ used. AreAxiomsOver (clauses book.now) part.now.variables.items
        used.items) }
{
    well_formed(book);
    ground.few_axioms();
    parts_are_searched();
    let marks = marks_of(alloc, ground.variables(), &part.variables)?;
    let used = marked_clauses(alloc, ground.store(), &marks)?;
    Ok(used)
}

/// A solver over the part's variables, which has no blocks and has derived nothing yet. The pairs are decided first,
/// and none is to be shown true.
pub(crate) fn part_solver<'g>(
    alloc: Global,
    book: &Book,
    ground: &'g Ground,
    part: &'g PartOfPiece,
    axioms: &'g [u32],
) -> Result<Solver<'g>, AllocError>
    requires ground { ground.now ≡ grounded book.now }
    requires part { IsAskedOver book.now part.now.cells.items part.now.variables.items }
    requires axioms { AreAxiomsOver (clauses book.now) part.now.variables.items axioms.now }
    ensures { IfOk result (λ s. IsAsked book.now part.now.variables.items s []) }
{
    well_formed(book);
    ground.few_axioms();
    parts_are_searched();
    let mut solver = Solver::new(
        alloc,
        ground.store(),
        axioms,
        &part.variables,
        ground.variables(),
    )?;
    solver.prefer_first(count_pairs(book, &part.cells));
    solver.show_nothing();
    Ok(solver)
}
