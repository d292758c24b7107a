//! Narrowing entries down to the least that can't stand together in a book, from the newest entry to the oldest.
ghost use Rattle.std.specs.Prelude.{◌≡◌, ◌↔◌, ◌<◌, ◌≤◌, ◌+◌, ◌*◌, IfErr, IfNone, IfOk, IfSome, IsTrue, OnOk, length};
ghost use Rattle.pc_sheet.specs.Entailment.{HasAll};
ghost use Rattle.pc_problem.specs.Room.{HasRoom};
ghost use Rattle.pc_solver.specs.Spending.{GoesOnFor, StopSays};
ghost use Rattle.pc_ask.specs.inside.Narrowing.{left_of};
ghost use Rattle.pc_ask.specs.inside.Choices.{AreAmong, HasNone, IsChoosing, IsNarrowedTo, OneSays, SomeSays, tried_of};
ghost use Rattle.pc_ask.specs.inside.Parts.{IsAsked};
ghost use Rattle.pc_ask.specs.inside.Ways.{most_tried};
ghost use Rattle.pc_solver.specs.declared.stop.Stop.TheVariants.{Memory};

use crate::part::AskTask;
use crate::refuting::refute_set;
use crate::ways::{MOST_TRIED, count_ways, way_at};
use pc_books::{Assignment, has_entry};
use pc_lits::Tally;
use pc_log::{Log, StepId};
use pc_repairs::{PartSets, had_by};
use pc_sheet::Entry;
use pc_solver::{Solver, Stop};
use std::alloc::AllocError;

/// An asked book that is searched, some of its entries, and parts with an assignment that fits: for each way to choose one set
/// of each part it is asked about the entries that the way's assignment has.
#[derive(Clone, Copy)]
pub(crate) struct Choosing<'a, 'b> {
    pub(crate) task: AskTask<'a>,
    pub(crate) entries: &'a [Entry],
    pub(crate) fitting: &'b Assignment,
    pub(crate) parts: &'a [PartSets<'b>],
}

/// A way, by its number, whose assignment has what is kept, and the line that derives that what is left of it can't stand
/// together.
#[derive(Clone, Copy)]
pub(crate) struct Witness {
    pub(crate) way: usize,
    pub(crate) line: StepId,
}

/// What is kept of the entries, newest first, and a witness with it.
#[derive(Drop)]
pub(crate) struct Narrowed {
    pub(crate) kept: Vec<Entry>,
    pub(crate) witness: Witness,
}

// Whether the assignment has each of the entries.
fn has_all(values: &Assignment, kept: &[Entry]) -> bool
    ensures { IsTrue result ↔ HasAll values.now kept.now }
{
    kept.iter().all(|entry| has_entry(values.values(), *entry))
}

// Those of the first entries that the assignment has, and those that are kept.
fn left_of(
    choosing: Choosing<'_, '_>,
    count: usize,
    values: &Assignment,
    kept: &[Entry],
) -> Result<Vec<Entry>, AllocError>
    requires { count ≤ length choosing.entries.now }
    ensures { IfOk result (λ left. left.items ≡ left_of choosing.entry.entries.now count kept.now
        values.now) }
{
    let mut left = had_by(choosing.task.alloc, &choosing.entries[..count], values)?;
    for entry in kept {
        left.push(*entry)?;
    }
    Ok(left)
}

// The line that derives that what is left of the assignment, with the first so many entries, can't stand together. `None` where
// it can, or where the assignment lacks something that is kept.
fn refute_way(
    choosing: Choosing<'_, '_>,
    count: usize,
    values: &Assignment,
    kept: &[Entry],
    solver: &mut Solver<'_>,
    log: &mut Log,
    tally: &mut Tally,
) -> Result<Option<StepId>, Stop>
    requires choosing { IsChoosing choosing }
    requires count { count ≤ length choosing.entries.now }
    requires kept { AreAmong choosing kept.now }
    requires asked { IsAsked choosing.task.book.now choosing.task.variables.now solver.old log.old }
    requires counts { HasRoom 126 tally.old }
    ensures goes_on { GoesOnFor 1 solver.old solver.new tally.old tally.new log.old log.new }
    ensures says { IfOk result (OneSays choosing.entry count kept.now values.now log.new) }
    ensures stop { IfErr result (StopSays tally.new) }
{
    if !has_all(values, kept) {
        return Ok(None);
    }
    let left = left_of(choosing, count, values, kept)?;
    refute_set(choosing.task, &left, solver, log, tally)
}

// There are no more ways than those of that count. Numbers never come to an end; if they did, that would be want of room for
// them.
fn all_tried(ways: usize) -> Result<(), Stop>
    ensures ok { OnOk result (ways < most_tried) }
    ensures err { IfErr result (λ stop. stop ≡ Memory) }
{
    if ways < MOST_TRIED {
        return Ok(());
    }
    Err(Stop::Memory)
}

// The first way that is such a witness.
fn find_witness(
    choosing: Choosing<'_, '_>,
    count: usize,
    kept: &[Entry],
    solver: &mut Solver<'_>,
    log: &mut Log,
    tally: &mut Tally,
) -> Result<Option<Witness>, Stop>
    requires choosing { IsChoosing choosing }
    requires count { count ≤ length choosing.entries.now }
    requires kept { AreAmong choosing kept.now }
    requires asked { IsAsked choosing.task.book.now choosing.task.variables.now solver.old log.old }
    requires counts { HasRoom 125 tally.old }
    ensures goes_on { GoesOnFor (tried_of choosing.entry) solver.old solver.new tally.old tally.new
        log.old log.new }
    ensures says { IfOk result (SomeSays choosing.entry count kept.now log.new) }
    ensures stop { IfErr result (StopSays tally.new) }
{
    tally.recall_limit();
    let ways = count_ways(choosing.parts);
    for way in 0..ways {
        let values = way_at(choosing.task.alloc, choosing.fitting, choosing.parts, way)?;
        match refute_way(choosing, count, &values, kept, solver, log, tally)? {
            Some(line) => return Ok(Some(Witness { way, line })),
            None => {}
        }
    }
    all_tried(ways)?;
    Ok(None)
}

// Decides the entry at the place: it is kept where there is no witness without it. A witness that there was stays one: it has
// the entry, since it would be one without it.
fn decide(
    choosing: Choosing<'_, '_>,
    place: usize,
    narrowed: &mut Narrowed,
    solver: &mut Solver<'_>,
    log: &mut Log,
    tally: &mut Tally,
) -> Result<(), Stop>
    requires choosing { IsChoosing choosing }
    requires place { place < length choosing.entries.now }
    requires narrowed { IsNarrowedTo choosing (place + 1) log.old narrowed.old }
    requires asked { IsAsked choosing.task.book.now choosing.task.variables.now solver.old log.old }
    requires counts { HasRoom 125 tally.old }
    ensures goes_on { GoesOnFor (tried_of choosing.entry) solver.old solver.new tally.old tally.new
        log.old log.new }
    ensures narrowed { OnOk result (IsNarrowedTo choosing.entry place log.new narrowed.new) }
    ensures stop { IfErr result (StopSays tally.new) }
{
    match find_witness(choosing, place, &narrowed.kept, solver, log, tally)? {
        Some(witness) => {
            narrowed.witness = witness;
            Ok(())
        }
        None => {
            let entries = choosing.entries;
            narrowed.kept.push(entries[place])?;
            Ok(())
        }
    }
}

// Decides each of the entries, from the newest to the oldest.
fn decide_all(
    choosing: Choosing<'_, '_>,
    narrowed: &mut Narrowed,
    solver: &mut Solver<'_>,
    log: &mut Log,
    tally: &mut Tally,
) -> Result<(), Stop>
    requires choosing { IsChoosing choosing }
    requires narrowed { IsNarrowedTo choosing (length choosing.entries.now) log.old narrowed.old }
    requires asked { IsAsked choosing.task.book.now choosing.task.variables.now solver.old log.old }
    requires counts { HasRoom 124 tally.old }
    ensures goes_on { GoesOnFor (tried_of choosing.entry * length choosing.entry.entries.now)
        solver.old solver.new tally.old tally.new log.old log.new }
    ensures narrowed { OnOk result (IsNarrowedTo choosing.entry 0 log.new narrowed.new) }
    ensures stop { IfErr result (StopSays tally.new) }
{
    tally.recall_limit();
    let count = choosing.entries.len();
    for place in (0..count).rev() {
        decide(choosing, place, narrowed, solver, log, tally)?;
    }
    Ok(())
}

/// What is kept of the entries in the end, and a witness with it alone. `None` where no way is one with all of the entries that
/// it has.
pub(crate) fn narrow(
    choosing: Choosing<'_, '_>,
    solver: &mut Solver<'_>,
    log: &mut Log,
    tally: &mut Tally,
) -> Result<Option<Narrowed>, Stop>
    requires choosing { IsChoosing choosing }
    requires asked { IsAsked choosing.task.book.now choosing.task.variables.now solver.old log.old }
    requires counts { HasRoom 123 tally.old }
    ensures goes_on { GoesOnFor (tried_of choosing.entry * (length choosing.entry.entries.now + 1))
        solver.old solver.new tally.old tally.new log.old log.new }
    ensures none { IfOk result (λ found. IfNone found (HasNone choosing.entry)) }
    ensures some { IfOk result (λ found. IfSome found (IsNarrowedTo choosing.entry 0 log.new)) }
    ensures stop { IfErr result (StopSays tally.new) }
{
    tally.recall_limit();
    let count = choosing.entries.len();
    let kept = Vec::new(choosing.task.alloc);
    match find_witness(choosing, count, &kept, solver, log, tally)? {
        None => Ok(None),
        Some(witness) => {
            let mut narrowed = Narrowed { kept, witness };
            decide_all(choosing, &mut narrowed, solver, log, tally)?;
            Ok(Some(narrowed))
        }
    }
}
