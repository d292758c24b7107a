//! What could be kept together, and certificates of that.
ghost use Rattle.std.specs.Prelude.{◌≡◌, ◌∷◌, [], length, true};
ghost use Rattle.pc_world_list.specs.declared.set_proof.SetsClaim.TheVariants.{Lacking};
ghost use Rattle.pc_ground.specs.Grounded.{grounded};
ghost use Rattle.pc_reason.specs.Targets.{IsTargetIn};
ghost use Rattle.pc_repairs.specs.Claims.{IsRightOn};
ghost use Rattle.pc_repairs.specs.Whole.{AreAllSets};
ghost use Rattle.pc_sheet.specs.Entailment.{IsImplied};
ghost use Rattle.pc_syntax.specs.Tree.{asks_prove_repairs, asks_whynot, cell_of, value_of};
ghost use Rattle.pc_spreadsheet.specs.Commands.{Obeys, state_of};
ghost use Rattle.pc_spreadsheet.specs.inside.Repairs.{Doubts, HasSpent, ListsRepairs, Proves};

use crate::page::Page;
use crate::refusal::refuse;
use crate::spending::{Told, note_whole};
use pc_books::Book;
use pc_display::Text;
use pc_ground::Ground;
use pc_lits::Tally;
use pc_log::Log;
use pc_reason::Reasons;
use pc_refusals::Refusal;
use pc_repairs::{ListFault, lacking, list, prove, refute, whole};
use pc_session::{Session, Spendings};
use pc_sheet::Target;
use pc_solver::Stop;
use pc_sortcheck::find_entry;
use pc_syntax::{CellTree, ValueTree};
use pc_transcript::Reply;
use pc_world_list::{SetsClaim, Worlds};
use std::alloc::{AllocError, Global};

/// Lists which entries could be kept together, part by part. The text is made here.
pub(crate) fn list_repairs(alloc: Global, session: &Session) -> Told
    ensures { ListsRepairs session.now.sheet result }
{
    let mut text = Text::new(alloc);
    match list(alloc, session, &mut text) {
        Ok(()) => Reply::Shown(Page::Listed(text.bytes)),
        Err(ListFault::Failed) => Reply::Memory,
        Err(ListFault::Memory) => Reply::Memory,
    }
}

/// Proves that the maximal sets are all that there are, where they aren't too many.
pub(crate) fn prove_repairs(alloc: Global, session: &Session, notes: &mut Spendings) -> Told
    ensures { Obeys (state_of session.now, notes.old) asks_prove_repairs result
        (state_of session.now, notes.new) }
{
    match whole(alloc, session) {
        Ok(Some(sets)) => prove_sets(Searched::of(alloc, session), sets, notes),
        Ok(None) => Reply::Refused(Refusal::TooManySets, None),
        Err(AllocError) => Reply::Memory,
    }
}

/// Shows why the cell hasn't the value by what is implied, or that it has.
pub(crate) fn why_not(
    alloc: Global,
    session: &Session,
    cell: &CellTree,
    value: &ValueTree,
    notes: &mut Spendings,
) -> Told
    ensures { Obeys (state_of session.now, notes.old)
        (asks_whynot (cell_of cell.now) (value_of value.now)) result
        (state_of session.now, notes.new) }
{
    let target = match find_entry(session.book(), cell, value) {
        Ok(entry) => Target {
            cell: entry.cell,
            value: entry.value,
            holds: true,
        },
        Err(fault) => return refuse(fault),
    };
    match whole(alloc, session) {
        Ok(Some(sets)) => doubt(alloc, session, &sets, target, notes),
        Ok(None) => Reply::Refused(Refusal::TooManySets, None),
        Err(AllocError) => Reply::Memory,
    }
}

// Shows it of the target by these sets.
fn doubt(
    alloc: Global,
    session: &Session,
    sets: &Worlds,
    target: Target,
    notes: &mut Spendings,
) -> Told
    requires all { AreAllSets session.now.sheet sets.now }
    requires target { IsTargetIn session.now.sheet.universe target }
    requires holds { target.holds ≡ true }
    ensures { Doubts session.now.budget session.now.sheet target notes.old notes.new result }
{
    match session.reason(target) {
        Some(_) => Reply::Shown(Page::Implied(target)),
        None => find_lacking(Searched::of(alloc, session), sets, target, notes),
    }
}

// A book with its clauses, to be searched as a whole, and the budget of that.
#[derive(Clone, Copy)]
struct Searched<'a> {
    alloc: Global,
    book: &'a Book,
    ground: &'a Ground,
    budget: u64,
}

impl<'a> Searched<'a> {
    // Those of a session.
    fn of(alloc: Global, session: &'a Session) -> Searched<'a>
        ensures book { result.book.now ≡ session.now.sheet }
        ensures ground { result.ground.now ≡ grounded session.now.sheet }
        ensures budget { result.budget ≡ session.now.budget }
    {
        Searched {
            alloc,
            book: session.book(),
            ground: session.ground(),
            budget: session.budget(),
        }
    }

    // Nothing is spent of the budget.
    fn tally(self) -> Tally
        ensures { HasSpent self.entry.book.now self.entry.budget 0 [] result }
    {
        Tally {
            placed: 0,
            learned: 0,
            calls: 0,
            limit: self.budget,
        }
    }
}

// Proves that these sets are all that there are.
fn prove_sets(searched: Searched<'_>, sets: Worlds, notes: &mut Spendings) -> Told
    requires ground { searched.ground.now ≡ grounded searched.book.now }
    requires all { AreAllSets searched.book.now sets }
    ensures { Proves searched.entry.budget searched.entry.book.now notes.old notes.new result }
{
    let Searched {
        alloc,
        book,
        ground,
        ..
    } = searched;
    let mut tally = searched.tally();
    let mut log = Log::new(alloc);
    let last = match refute(alloc, book, ground, &sets, &mut log, &mut tally) {
        Ok(last) => last,
        Err(Stop::Spent) => return note_whole(book, &[log], tally, notes),
        Err(Stop::Memory) => return Reply::Memory,
    };
    match prove(alloc, book, SetsClaim::Repairs, sets, &log, last) {
        Ok(proof) => Reply::Shown(Page::Proof(proof)),
        Err(AllocError) => Reply::Memory,
    }
}

// Finds assignments of the sets that lack the target, and proves by them that it isn't implied.
fn find_lacking(
    searched: Searched<'_>,
    sets: &Worlds,
    target: Target,
    notes: &mut Spendings,
) -> Told
    requires ground { searched.ground.now ≡ grounded searched.book.now }
    requires all { AreAllSets searched.book.now sets.now }
    requires target { IsTargetIn searched.book.now.universe target }
    requires holds { target.holds ≡ true }
    requires unimplied { ¬ IsImplied searched.book.now target }
    ensures { Doubts searched.entry.budget searched.entry.book.now target notes.old notes.new
        result }
{
    let Searched {
        alloc,
        book,
        ground,
        ..
    } = searched;
    let mut tally = searched.tally();
    let mut log = Log::new(alloc);
    match lacking(alloc, book, ground, sets, target, &mut log, &mut tally) {
        Ok(Some(found)) => prove_lacking(searched, found, target, log, tally, notes),
        Ok(None) => Reply::Shown(Page::Implied(target)),
        Err(Stop::Spent) => note_whole(book, &[log], tally, notes),
        Err(Stop::Memory) => Reply::Memory,
    }
}

// Proves that the target isn't implied, by sets with assignments that lack it. The search for these has spent the tally.
fn prove_lacking(
    searched: Searched<'_>,
    sets: Worlds,
    target: Target,
    first: Log,
    mut tally: Tally,
    notes: &mut Spendings,
) -> Told
    requires ground { searched.ground.now ≡ grounded searched.book.now }
    requires all { AreAllSets searched.book.now sets }
    requires unimplied { ¬ IsImplied searched.book.now target }
    requires right { IsRightOn searched.book.now sets (Lacking target) }
    requires spent { HasSpent searched.book.now searched.budget (length sets) (first ∷ []) tally }
    ensures { Doubts searched.entry.budget searched.entry.book.now target notes.old notes.new
        result }
{
    let Searched {
        alloc,
        book,
        ground,
        ..
    } = searched;
    tally.recall_limit();
    let mut log = Log::new(alloc);
    let last = match refute(alloc, book, ground, &sets, &mut log, &mut tally) {
        Ok(last) => last,
        Err(Stop::Spent) => return note_whole(book, &[first, log], tally, notes),
        Err(Stop::Memory) => return Reply::Memory,
    };
    match prove(alloc, book, SetsClaim::Lacking(target), sets, &log, last) {
        Ok(proof) => Reply::Shown(Page::Unimplied(target, proof)),
        Err(AllocError) => Reply::Memory,
    }
}
