// A solver that is asked.
ghost use Rattle.std.specs.Prelude.{◌≡◌, ◌<◌, [], All, Contains, IfOk, IsTrue, length, slice_index_or};
ghost use Rattle.pc_solver.specs.Clauses.{IsOverOwn};
ghost use Rattle.pc_solver.specs.Solver.{IsProblem, AreOwn};

use crate::literals::{add_literals, literals};
use crate::rows::{Machine, no_command, number, parted};
use crate::texts::{add_number, number_text};
use pc_lits::{ClauseStore, Lit, Tally, Var};
use pc_log::{Line, Log, StepId, trim};
use pc_solver::{Outcome, Solver};
use std::alloc::{AllocError, Global};
use std::marker::Model;

// More than any search of a table places.
const AMPLE: u64 = 100_000_000;

// Whether the variable is among these.
fn is_own(variable: Var, own: &[Var]) -> bool
    ensures { IsTrue result → Contains own.now variable }
{
    for other in own {
        if *other == variable {
            return true;
        }
    }
    false
}

// Whether the literals' variables are among these.
fn is_over(lits: &[Lit], own: &[Var]) -> bool
    ensures { IsTrue result → AreOwn own.now lits.now }
{
    for lit in lits {
        if !is_own(lit.variable, own) {
            return false;
        }
    }
    true
}

// Whether the numbers are places in the store.
fn are_places(used: &[u32], store: &ClauseStore) -> bool
    ensures { IsTrue result → All (λ n. n < length store.now) used.now }
{
    for number in used {
        if *number as usize >= store.len() {
            return false;
        }
    }
    true
}

// Whether these clauses are over own variables.
fn are_over(store: &ClauseStore, used: &[u32], own: &[Var]) -> bool
    requires { All (λ n. n < length store.now) used.now }
    ensures { IsTrue result → All (λ n. IsOverOwn own.now (slice_index_or store.now n []))
        used.now }
{
    for number in used {
        if !is_over(store.get(*number as usize), own) {
            return false;
        }
    }
    true
}

// Whether the variables have numbers below this one.
fn are_below(own: &[Var], variables: u32) -> bool
    ensures { IsTrue result → All (λ v. v.0 < variables) own.now }
{
    for variable in own {
        if variable.0 >= variables {
            return false;
        }
    }
    true
}

// Whether a solver takes these.
fn fit(store: &ClauseStore, used: &[u32], own: &[Var], variables: u32) -> bool
    ensures { IsTrue result →
        IsProblem variables (record {
          axioms = store.now;
          used = used.now;
          own = own.now;
          banned = [];
        }) }
{
    store.len() <= 1_000_000
        && are_places(used, store)
        && are_below(own, variables)
        && are_over(store, used, own)
}

/// A solver with its log, and how many clauses it learned in its last call.
#[derive(Drop)]
pub(crate) struct Trial<'g> {
    solver: Solver<'g>,
    log: Log,
    own: &'g [Var],
    learned: u128,
}

impl<'g> Model for Trial<'g> {
    ghost use Rattle.std.specs.Prelude.{◌≡◌};
    ghost use Rattle.pc_solver.specs.Solver.{SolverView, HasLog, IsProblem};

    ghost Value = { SolverView };

    ghost view = { λ t. t.solver };

    ghost invariant = { λ t. HasLog t.solver t.log × (t.solver.problem.own ≡ t.own.now) × IsProblem t.solver.variables t.solver.problem };
}

// How a search ends.
fn outcome_text(alloc: Global, outcome: Outcome) -> Result<String, AllocError> {
    match outcome {
        Outcome::Sat => String::from_str(alloc, "sat"),
        Outcome::Unsat(_) => String::from_str(alloc, "unsat"),
        Outcome::Spent => String::from_str(alloc, "spent"),
        Outcome::Memory => Err(AllocError),
    }
}

// Adds a step: its clause, and behind `by` the lines that it rests on.
fn add_step(
    alloc: Global,
    text: &mut String,
    clause: &[Lit],
    hints: &[StepId],
) -> Result<(), AllocError> {
    text.push_str("step")?;
    add_literals(alloc, text, clause)?;
    text.push_str(" by")?;
    for hint in hints {
        add_number(alloc, text, " ", hint.0 as u64)?;
    }
    Ok(())
}

// Adds a line of a derivation.
fn add_line(alloc: Global, text: &mut String, line: Line<'_>) -> Result<(), AllocError> {
    match line {
        Line::Axiom(number) => add_number(alloc, text, "axiom ", u64::from(number))?,
        Line::Block { number, .. } => add_number(alloc, text, "block ", number as u64)?,
        Line::Step { clause, hints, .. } => add_step(alloc, text, clause, hints)?,
    }
    text.push_str("; ")
}

// Whether some clauses were learned.
fn learned_text(alloc: Global, learned: u128) -> Result<String, AllocError> {
    String::from_str(alloc, if learned > 0 { "some" } else { "none" })
}

// The lines of a log, one after the other.
fn log_text(alloc: Global, log: &Log) -> Result<String, AllocError> {
    let mut text = String::new(alloc);
    for place in 0..log.count() {
        add_line(alloc, &mut text, log.line(StepId(place)))?;
    }
    Ok(text)
}

// The lines of a log that its last line rests on, and that line.
fn lines_text(alloc: Global, log: &Log) -> Result<String, AllocError> {
    let mut trimmed = Log::new(alloc);
    let count = log.count();
    if count > 0 {
        trim(alloc, log, StepId(count - 1), &mut trimmed)?;
    }
    log_text(alloc, &trimmed)
}

// How many literals the clause of the last line has, or on how many lines it rests.
fn last_text(alloc: Global, log: &Log, word: &str) -> Result<String, AllocError> {
    let count = log.count();
    if count == 0 {
        return String::from_str(alloc, "no line");
    }
    match log.line(StepId(count - 1)) {
        Line::Step { clause, hints, .. } => {
            let size = if word == "clause" {
                clause.len()
            } else {
                hints.len()
            };
            number_text(alloc, size as u64)
        }
        _ => String::from_str(alloc, "no step"),
    }
}

impl<'g> Trial<'g> {
    /// A solver that wasn't asked yet, over the clauses that the numbers name. None where a solver doesn't take these.
    pub(crate) fn new(
        alloc: Global,
        store: &'g ClauseStore,
        used: &'g [u32],
        own: &'g [Var],
        variables: u32,
    ) -> Result<Option<Trial<'g>>, AllocError> {
        if !fit(store, used, own, variables) {
            return Ok(None);
        }
        let solver = Solver::new(alloc, store, used, own, variables)?;
        let log = Log::new(alloc);
        Ok(Some(Trial {
            solver,
            log,
            own,
            learned: 0,
        }))
    }

    // What the solver answers where at most so many literals may be placed. None where these aren't over own variables.
    fn ask(&mut self, limit: u64, assumed: &[Lit]) -> Option<Outcome> {
        if !is_over(assumed, self.own) {
            return None;
        }
        let mut tally = Tally {
            placed: 0,
            learned: 0,
            calls: 0,
            limit,
        };
        let outcome = self.solver.solve(assumed, &mut self.log, &mut tally);
        self.learned = tally.learned;
        Some(outcome)
    }

    // Adds a block, where it is over own variables.
    fn block(&mut self, block: &[Lit]) -> Result<bool, AllocError> {
        if !is_over(block, self.own) {
            return Ok(false);
        }
        self.solver.add_block(block)?;
        Ok(true)
    }

    // Whether the variable is an own one that is true.
    fn is_true(&self, variable: Var) -> bool {
        if is_own(variable, self.own) {
            self.solver.value(variable)
        } else {
            false
        }
    }
}

// What is answered under assumptions, where at most so many literals may be placed.
fn answer_text(
    alloc: Global,
    trial: &mut Trial<'_>,
    limit: u64,
    words: &str,
) -> Result<String, AllocError> {
    let assumed = literals(alloc, words)?;
    match trial.ask(limit, &assumed) {
        Some(outcome) => outcome_text(alloc, outcome),
        None => String::from_str(alloc, "no literals"),
    }
}

// Adds a block, and says whether it was added.
fn block_text(alloc: Global, trial: &mut Trial<'_>, words: &str) -> Result<String, AllocError> {
    let block = literals(alloc, words)?;
    let told = if trial.block(&block)? {
        "ok"
    } else {
        "no literals"
    };
    String::from_str(alloc, told)
}

// The first so many variables that are true.
fn values_text(alloc: Global, trial: &Trial<'_>, count: u32) -> Result<String, AllocError> {
    let mut text = String::new(alloc);
    for number in 0..count {
        if trial.is_true(Var(number)) {
            add_literals(alloc, &mut text, &[Lit::positive(Var(number))])?;
        }
    }
    Ok(text)
}

impl<'g> Machine for Trial<'g> {
    fn obey(&mut self, alloc: Global, command: &str) -> Result<String, AllocError> {
        let (word, rest) = parted(command);
        match word {
            "ask" => answer_text(alloc, self, AMPLE, rest),
            "within" => {
                let (limit, assumed) = parted(rest);
                answer_text(alloc, self, number(limit), assumed)
            }
            "block" => block_text(alloc, self, rest),
            "values" => values_text(alloc, self, rest.parse::<u32>().unwrap_or(0)),
            "clause" | "hints" => last_text(alloc, &self.log, word),
            "lines" => lines_text(alloc, &self.log),
            "learned" => learned_text(alloc, self.learned),
            _ => no_command(alloc),
        }
    }
}
