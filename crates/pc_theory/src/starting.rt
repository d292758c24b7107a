//! The first call of each part, which tells whether its rules are consistent.
ghost use Rattle.std.specs.Prelude.{◌≡◌, ℕ, ◌+◌, ◌<◌, ◌≤◌, ◌∷◌, [], IfErr, IfOk, OnOk, length};
ghost use Rattle.pc_sheet.specs.Limits.{most_cells};
ghost use Rattle.pc_ground.specs.Naming.{names_of};
ghost use Rattle.pc_reason.specs.Refutations.{RefutesRules};
ghost use Rattle.pc_solver.specs.Solver.{HasLog, Spends};
ghost use Rattle.pc_theory.specs.inside.Tasks.{IsReady};
ghost use Rattle.pc_theory.specs.inside.Starting.{AreStarted, HaltSays};
ghost use Rattle.pc_theory.specs.inside.Calling.{EndSays, IsCalled, IsEmptyAt, IsFresh, IsRefused};

use crate::reading::read_values;
use crate::spending::PartSpending;
use crate::stop::Halt;
use crate::task::BookTask;
use pc_books::Assignment;
use pc_justify_laws::{names_are_of_their_sheet, own_lines_are_named, trimmed_lines_refute};
use pc_kept::laws::kept_parts_are_searched;
use pc_lits::Tally;
use pc_log::{Log, Span, StepId, trim};
use pc_problem::count_pairs;
use pc_solver::{Outcome, Solver, SpareTrails, Suspended};
use std::alloc::{AllocError, Global};

// A log, and a span of it.
#[derive(Drop)]
struct Derivation {
    log: Log,
    span: Span,
}

// Keeps what derives the empty clause.
fn refuted(task: BookTask<'_>, log: &Log, last: StepId) -> Result<Derivation, AllocError>
    requires ready { IsReady task.book.now task.ground.now task.components.now }
    requires empty { IsEmptyAt task.book.now log.now last }
    ensures { IfOk result (λ r. RefutesRules task.entry.book.now (names_of task.entry.book.now)
        r.log r.span) }
{
    names_are_of_their_sheet();
    trimmed_lines_refute();
    log.few_lines();
    let mut kept = Log::new(task.alloc);
    let span = trim(task.alloc, log, last, &mut kept)?;
    Ok(Derivation { log: kept, span })
}

// How a call ended that refuted nothing.
#[derive(Clone, Copy)]
enum End {
    // The values meet the axioms.
    Met,
    // The limit is reached.
    Spent,
}

// A solver of a part that has made one call, what it has spent, and how it ended.
#[derive(Drop)]
struct Called<'g> {
    solver: Solver<'g>,
    place: PartSpending,
    end: End,
}

// A solver of a part, which has made no call.
fn new_solver<'g>(
    task: BookTask<'g>,
    number: usize,
    trails: &mut SpareTrails,
) -> Result<Solver<'g>, AllocError>
    requires ready { IsReady task.book.now task.ground.now task.components.now }
    requires trails { trails.old ≡ task.ground.now.variables }
    requires number { number < length task.components.now.cells }
    ensures fresh { IfOk result (IsFresh task.entry.ground.now task.entry.components.now number) }
    ensures variables { IfOk result (λ solver. solver.variables ≡ trails.old) }
    ensures trails { trails.new ≡ trails.old }
{
    kept_parts_are_searched();
    let part = task.components.part(number);
    let trail = trails.take()?;
    let mut solver = Solver::polar(
        task.alloc,
        task.ground.store(),
        part.axioms,
        part.variables,
        trail,
        part.banned,
    )?;
    solver.prefer_first(count_pairs(task.book, part.cells));
    Ok(solver)
}

// Makes the first call of a part's solver.
fn first_call(
    task: BookTask<'_>,
    solver: &mut Solver<'_>,
    log: &mut Log,
    tally: &mut Tally,
) -> Result<End, Halt>
    requires ready { IsReady task.book.now task.ground.now task.components.now }
    requires fresh { (number : ℕ) × IsFresh task.ground.now task.components.now number solver.old }
    requires log { log.old ≡ [] }
    requires learned { tally.old.learned ≡ 0 }
    requires calls { tally.old.calls ≡ 0 }
    ensures says { IfOk result (EndSays solver.new tally.new) }
    ensures refused { IfErr result (IsRefused task.entry.book.now) }
    ensures problem { solver.new.problem ≡ solver.old.problem }
    ensures variables { solver.new.variables ≡ solver.old.variables }
    ensures blocks { solver.new.blocks ≡ solver.old.blocks }
    ensures log { HasLog solver.new log.new }
    ensures spends { Spends (length solver.old.problem.own) tally.old tally.new log.old log.new }
{
    kept_parts_are_searched();
    own_lines_are_named();
    match solver.solve(&[], log, tally) {
        Outcome::Unsat(last) => {
            let derivation = refuted(task, log, last)?;
            Err(Halt::Inconsistent(derivation.log, derivation.span))
        }
        Outcome::Sat => Ok(End::Met),
        Outcome::Spent => Ok(End::Spent),
        Outcome::Memory => Err(Halt::Memory),
    }
}

// Makes the first call of a part.
fn call_part<'g>(
    task: BookTask<'g>,
    number: usize,
    limit: u64,
    trails: &mut SpareTrails,
) -> Result<Called<'g>, Halt>
    requires ready { IsReady task.book.now task.ground.now task.components.now }
    requires trails { trails.old ≡ task.ground.now.variables }
    requires number { number < length task.components.now.cells }
    requires few { number ≤ most_cells }
    ensures called { IfOk result (λ c. IsCalled task.entry.book.now task.entry.components.now number
        limit c.solver c.place c.end) }
    ensures variables { IfOk result (λ c. c.solver.variables ≡ trails.old) }
    ensures refused { IfErr result (IsRefused task.entry.book.now) }
    ensures trails { trails.new ≡ trails.old }
{
    kept_parts_are_searched();
    let mut solver = new_solver(task, number, trails)?;
    let mut log = Log::new(task.alloc);
    let mut tally = Tally {
        placed: 0,
        learned: 0,
        calls: 0,
        limit,
    };
    let end = first_call(task, &mut solver, &mut log, &mut tally)?;
    let called = keep(task.alloc, number, solver, log, tally, end)?;
    Ok(called)
}

// The place of a part with its first log.
fn keep<'g>(
    alloc: Global,
    number: usize,
    solver: Solver<'g>,
    log: Log,
    tally: Tally,
    end: End,
) -> Result<Called<'g>, AllocError>
    requires few { number ≤ most_cells }
    ensures solver { IfOk result (λ c. c.solver ≡ solver.entry) }
    ensures number { IfOk result (λ c. c.place.part ≡ number) }
    ensures tally { IfOk result (λ c. c.place.tally ≡ tally) }
    ensures logs { IfOk result (λ c. c.place.logs.items ≡ log ∷ []) }
    ensures end { IfOk result (λ c. c.end ≡ end) }
{
    let mut logs = Vec::new(alloc);
    logs.push(log)?;
    Ok(Called {
        solver,
        place: PartSpending {
            part: number as u32,
            tally,
            logs,
        },
        end,
    })
}

// Makes the first call of the next part, and reads the values of its cells, which mean nothing where the limit is reached. The
// solver is kept without its trail.
fn start_part<'g>(
    task: BookTask<'g>,
    spent: &mut u64,
    base: &mut Assignment,
    trails: &mut SpareTrails,
    parts: &mut Vec<PartSpending>,
    solvers: &mut Vec<Suspended<'g>>,
) -> Result<(), Halt>
    requires ready { IsReady task.book.now task.ground.now task.components.now }
    requires trails { trails.old ≡ task.ground.now.variables }
    requires number { length parts.old.items < length task.components.now.cells }
    requires few { length parts.old.items ≤ most_cells }
    requires within { spent.old ≤ task.budget }
    requires started { AreStarted task.book.now task.components.now spent.old base.old
        parts.old.items solvers.old.items }
    ensures many { OnOk result (length parts.new.items ≡ length parts.old.items + 1) }
    ensures within { spent.new ≤ task.entry.budget }
    ensures started { OnOk result (AreStarted task.entry.book.now task.entry.components.now
        spent.new base.new parts.new.items solvers.new.items) }
    ensures halt { IfErr result (HaltSays task.entry.book.now task.entry.components.now
        task.entry.budget spent.new parts.new.items) }
    ensures trails { trails.new ≡ trails.old }
{
    kept_parts_are_searched();
    let number = parts.len();
    let part = task.components.part(number);
    parts.reserve(1)?;
    solvers.reserve(1)?;
    let called = call_part(task, number, task.budget - *spent, trails)?;
    *spent += called.place.tally.placed;
    read_values(task.book, task.ground, part.cells, &called.solver, base);
    let (solver, trail) = called.solver.suspend();
    trails.give(trail);
    parts.push(called.place).unwrap();
    solvers.push(solver).unwrap();
    match called.end {
        End::Met => Ok(()),
        End::Spent => Err(Halt::Spent),
    }
}

/// Makes the first call of each part, all on one trail. The base is at first the first value of each cell, and then fits the
/// book.
pub(crate) fn start_parts<'g>(
    task: BookTask<'g>,
    spent: &mut u64,
    trails: &mut SpareTrails,
    parts: &mut Vec<PartSpending>,
    solvers: &mut Vec<Suspended<'g>>,
) -> Result<Assignment, Halt>
    requires ready { IsReady task.book.now task.ground.now task.components.now }
    requires trails { trails.old ≡ task.ground.now.variables }
    requires few { length task.components.now.cells ≤ 4097 }
    requires none { parts.old.items ≡ [] }
    requires no_solvers { solvers.old.items ≡ [] }
    requires nothing { spent.old ≡ 0 }
    ensures many { IfOk result (λ _. length parts.new.items ≡
        length task.entry.components.now.cells) }
    ensures within { spent.new ≤ task.entry.budget }
    ensures started { IfOk result (λ base. AreStarted task.entry.book.now task.entry.components.now
        spent.new base parts.new.items solvers.new.items) }
    ensures halt { IfErr result (HaltSays task.entry.book.now task.entry.components.now
        task.entry.budget spent.new parts.new.items) }
    ensures trails { trails.new ≡ trails.old }
{
    let mut base = Assignment::first(task.alloc, task.book)?;
    for _number in 0..task.components.len() {
        start_part(task, spent, &mut base, trails, parts, solvers)?;
    }
    Ok(base)
}
