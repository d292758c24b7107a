//! Assignments of a book's maximal sets that lack a target.

ghost use Rattle.std.specs.Prelude.{◌≡◌, ◌↔◌, ◌<◌, ◌^◌, [], IfErr, IfOk, IsTrue, All, length, true};
ghost use Rattle.pc_sheet.specs.Entailment.{HasTarget, IsAssignment};
ghost use Rattle.pc_ground.specs.Grounded.{grounded};
ghost use Rattle.pc_reason.specs.Targets.{IsTargetIn};
ghost use Rattle.pc_ground.specs.Variables.{variable_count};
ghost use Rattle.pc_solver.specs.Spending.{SpendsIn, StopSays};
ghost use Rattle.pc_world_list.specs.Worlds.{AreExact, set_at};
ghost use Rattle.pc_repairs.specs.Lacking.{LackSays};
ghost use Rattle.pc_repairs.specs.Searches.{IsWholeSearch};
ghost use Rattle.pc_repairs.specs.inside.Asking.{AddsLacking, AllSay, IsAsked};
ghost use Rattle.pc_repairs.specs.inside.Tasks.{IsTask};
ghost use Rattle.pc_problem.specs.Room.{HasRoom};

use crate::asking::ask;
use crate::task::{Numbers, WholeTask};
use pc_books::{Assignment, Book, has_target, well_formed};
use pc_ground::Ground;
use pc_laws::implied_is_by_maximal_set;
use pc_lits::Tally;
use pc_log::Log;
use pc_sheet::Target;
use pc_solver::{Solver, Stop};
use pc_world_list::Worlds;
use std::alloc::{AllocError, Global};

// What a search for such assignments works on: the solver, the assignment that it found last, and the sets with theirs.
#[derive(Drop)]
struct Search<'g> {
    solver: Solver<'g>,
    shown: Assignment,
    found: Worlds,
}

// Whether no set's assignment has the target.
fn all_lack(sets: &Worlds, target: Target) -> bool
    requires { target.holds ≡ true }
    ensures { IsTrue result → All (λ w. ¬ HasTarget w.shown target) sets.now }
{
    for place in 0..sets.len() {
        if has_target(sets.shown(place).values(), target) {
            return false;
        }
    }
    true
}

// Adds the set at this place with an assignment that lacks the target, if there is one. Its own one may do.
fn add_lacking(
    task: WholeTask<'_>,
    sets: &Worlds,
    place: usize,
    target: Target,
    search: &mut Search<'_>,
    log: &mut Log,
    tally: &mut Tally,
) -> Result<bool, Stop>
    requires task { IsTask task.book.now task.ground.now task.numbers.now }
    requires exact { AreExact task.book.now sets.now }
    requires place { place < length sets.now }
    requires target { IsTargetIn task.book.now.universe target }
    requires holds { target.holds ≡ true }
    requires asked { IsAsked task.book.now [] search.old.solver log.old }
    requires shown { IsAssignment task.book.now.universe search.old.shown }
    requires counts { HasRoom 126 tally.old }
    ensures asked { IsAsked task.entry.book.now [] search.new.solver log.new }
    ensures shown { IsAssignment task.entry.book.now.universe search.new.shown }
    ensures spends { SpendsIn (variable_count task.entry.book.now) 1 tally.old tally.new log.old
        log.new }
    ensures adds { IfOk result (AddsLacking task.entry.book.now (set_at sets.now place) target
        search.old.found search.new.found) }
    ensures stop { IfErr result (StopSays tally.new) }
{
    if !has_target(sets.shown(place).values(), target) {
        search.found.push(sets.entries(place), sets.shown(place))?;
        return Ok(true);
    }
    let set = sets.entries(place);
    if !ask(
        task,
        set,
        target,
        &mut search.solver,
        &mut search.shown,
        log,
        tally,
    )? {
        return Ok(false);
    }
    search.found.push(set, &search.shown)?;
    Ok(true)
}

// Adds each set with an assignment that lacks the target, until one has none.
fn add_all(
    task: WholeTask<'_>,
    sets: &Worlds,
    target: Target,
    search: &mut Search<'_>,
    log: &mut Log,
    tally: &mut Tally,
) -> Result<bool, Stop>
    requires task { IsTask task.book.now task.ground.now task.numbers.now }
    requires exact { AreExact task.book.now sets.now }
    requires target { IsTargetIn task.book.now.universe target }
    requires holds { target.holds ≡ true }
    requires asked { IsAsked task.book.now [] search.old.solver log.old }
    requires shown { IsAssignment task.book.now.universe search.old.shown }
    requires none { search.old.found ≡ [] }
    requires counts { HasRoom 120 tally.old }
    ensures asked { IsAsked task.entry.book.now [] search.new.solver log.new }
    ensures spends { SpendsIn (variable_count task.entry.book.now) (length sets.now) tally.old
        tally.new log.old log.new }
    ensures says { IfOk result (AllSay task.entry.book.now sets.now target search.new.found) }
    ensures stop { IfErr result (StopSays tally.new) }
{
    tally.recall_limit();
    for place in 0..sets.len() {
        if !add_lacking(task, sets, place, target, search, log, tally)? {
            return Ok(false);
        }
    }
    Ok(true)
}

// A search of all of the book, which has found nothing.
fn new_search<'g>(task: WholeTask<'g>) -> Result<Search<'g>, AllocError>
    requires { IsTask task.book.now task.ground.now task.numbers.now }
    ensures asked { IfOk result (λ s. IsAsked task.entry.book.now [] s.solver []) }
    ensures shown { IfOk result (λ s. IsAssignment task.entry.book.now.universe s.shown) }
    ensures found { IfOk result (λ s. s.found ≡ []) }
{
    let shown = Assignment::first(task.alloc, task.book)?;
    let solver = task.solver()?;
    Ok(Search {
        solver,
        shown,
        found: Worlds::new(task.alloc),
    })
}

// The sets with assignments that lack the target, by a search.
fn lacking_by_search(
    task: WholeTask<'_>,
    sets: &Worlds,
    target: Target,
    log: &mut Log,
    tally: &mut Tally,
) -> Result<Option<Worlds>, Stop>
    requires task { IsTask task.book.now task.ground.now task.numbers.now }
    requires exact { AreExact task.book.now sets.now }
    requires target { IsTargetIn task.book.now.universe target }
    requires holds { target.holds ≡ true }
    requires new_log { log.old ≡ [] }
    requires counts { HasRoom 120 tally.old }
    ensures says { IfOk result (LackSays task.entry.book.now sets.now target) }
    ensures stop { IfErr result (StopSays tally.new) }
    ensures search { IsWholeSearch task.entry.book.now [] (length sets.now) tally.old tally.new
        log.new }
{
    implied_is_by_maximal_set();
    well_formed(task.book);
    let mut search = new_search(task)?;
    if !add_all(task, sets, target, &mut search, log, tally)? {
        return Ok(None);
    }
    Ok(Some(search.found))
}

/// The book's maximal sets in their order, each with an assignment that fits and has it, and gives the target's cell another
/// value; `None` exactly where some set entails the target, which says that its cell has a value. An assignment that a set
/// has already may do, so that there is a call of a solver for each other set alone. The log is empty before. Whatever is
/// answered, tally and log have what was done.
pub fn lacking(
    alloc: Global,
    book: &Book,
    ground: &Ground,
    sets: &Worlds,
    target: Target,
    log: &mut Log,
    tally: &mut Tally,
) -> Result<Option<Worlds>, Stop>
    requires ground { ground.now ≡ grounded book.now }
    requires exact { AreExact book.now sets.now }
    requires target { IsTargetIn book.now.universe target }
    requires holds { target.holds ≡ true }
    requires new_log { log.old ≡ [] }
    requires few_learned { tally.old.learned < 2 ^ 120 }
    requires few_calls { tally.old.calls < 2 ^ 120 }
    ensures says { IfOk result (LackSays book.now sets.now target) }
    ensures stop { IfErr result (StopSays tally.new) }
    ensures search { IsWholeSearch book.now [] (length sets.now) tally.old tally.new log.new }
{
    implied_is_by_maximal_set();
    well_formed(book);
    if all_lack(sets, target) {
        return Ok(Some(sets.copy()?));
    }
    let numbers = Numbers::of(alloc, book, ground)?;
    let task = WholeTask {
        alloc,
        book,
        ground,
        numbers: &numbers,
    };
    lacking_by_search(task, sets, target, log, tally)
}
