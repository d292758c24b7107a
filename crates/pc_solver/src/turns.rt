//! The turns of a search: propagation, and then analysis of a conflict or a decision.

ghost use Rattle.std.specs.Prelude.{◌≡◌, ◌<◌, ◌^◌, ◌+◌, OnErr, IfOk, Contains};
ghost use Rattle.pc_propagate.specs.Propagation.{IsFalsified};
ghost use Rattle.pc_propagate.specs.Quiet.{IsQuiet};
ghost use Rattle.pc_solver.specs.inside.Search.{IsUnderWay, Advances};
ghost use Rattle.pc_solver.specs.inside.Ends.{EndSays, LearntSays, Turns, ended_by, extra, unmarked};

use crate::decisions::Next;
use crate::learning::Learnt;
use crate::outcome::Outcome;
use crate::search::Search;
use pc_lits::{Lit, Tally};
use pc_log::Log;
use pc_propagate::{ClauseRef, Placed, Step};
use std::alloc::AllocError;

// How the turn ends that placed a literal last.
fn after_placing(placed: Placed) -> Option<Outcome>
    ensures { result ≡ ended_by placed }
{
    match placed {
        Placed::Done => None,
        Placed::Spent => Some(Outcome::Spent),
    }
}

impl<'g> Search<'g> {
    /// Searches until an assignment is found, none is left, the limit is reached, or memory is wanting.
    pub(crate) fn run(&mut self, assumed: &[Lit], log: &mut Log, tally: &mut Tally) -> Outcome
        requires under_way { IsUnderWay self.old assumed.now log.old }
        requires few { tally.old.learned + tally.old.limit < 2 ^ 127 }
        ensures advances { Advances self.old self.new tally.old tally.new log.old log.new
            (extra result) (unmarked result) }
        ensures says { EndSays self.new assumed.now log.new tally.new result }
    {
        match self.turns(assumed, log, tally) {
            Ok(outcome) => outcome,
            Err(_) => Outcome::Memory,
        }
    }

    // Takes turns until one ends the search.
    fn turns(
        &mut self,
        assumed: &[Lit],
        log: &mut Log,
        tally: &mut Tally,
    ) -> Result<Outcome, AllocError>
        requires under_way { IsUnderWay self.old assumed.now log.old }
        requires few { tally.old.learned + tally.old.limit < 2 ^ 127 }
        ensures ok { IfOk result (λ outcome. Advances self.old self.new tally.old tally.new log.old
            log.new (extra outcome) (unmarked outcome)) }
        ensures err { OnErr result (Advances self.old self.new tally.old tally.new log.old log.new 1
            0) }
        ensures says { IfOk result (λ outcome. EndSays self.new assumed.now log.new tally.new
            outcome) }
    {
        'turns: loop {
            match self.turn(assumed, log, tally)? {
                Some(outcome) => return Ok(outcome),
                None => {}
            }
        }
    }

    // One turn of the search: it ends the search, or places a literal.
    fn turn(
        &mut self,
        assumed: &[Lit],
        log: &mut Log,
        tally: &mut Tally,
    ) -> Result<Option<Outcome>, AllocError>
        requires under_way { IsUnderWay self.old assumed.now log.old }
        requires few { tally.old.learned < 2 ^ 127 }
        ensures ok { IfOk result (Turns self.old self.new assumed.now tally.old tally.new log.old
            log.new) }
        ensures err { OnErr result (Advances self.old self.new tally.old tally.new log.old log.new 1
            0) }
    {
        match self.propagate(tally) {
            Step::Spent => Ok(Some(Outcome::Spent)),
            Step::Conflict(conflict) => self.meet_conflict(conflict, assumed, log, tally),
            Step::Quiet => self.decide(assumed, log, tally),
        }
    }

    // Meets a false clause: at level 0 nothing is left to take back, and above it something is learned.
    fn meet_conflict(
        &mut self,
        conflict: ClauseRef,
        assumed: &[Lit],
        log: &mut Log,
        tally: &mut Tally,
    ) -> Result<Option<Outcome>, AllocError>
        requires attached { Contains self.old.trail.attached conflict }
        requires conflict { IsFalsified self.old.clauses.axioms self.old.clauses.more
            self.old.trail.entries conflict }
        requires under_way { IsUnderWay self.old assumed.now log.old }
        requires few { tally.old.learned < 2 ^ 127 }
        ensures ok { IfOk result (Turns self.old self.new assumed.now tally.old tally.new log.old
            log.new) }
        ensures err { OnErr result (Advances self.old self.new tally.old tally.new log.old log.new 1
            0) }
    {
        if self.level_of_conflict(conflict) > 0 {
            let learnt = self.learn(conflict, assumed, log, tally)?;
            return self.go_on(learnt, assumed, log, tally);
        }
        self.refute_conflict(conflict, assumed, log)
    }

    // Places a literal after a clause was learned.
    fn go_on(
        &mut self,
        learnt: Learnt,
        assumed: &[Lit],
        log: &mut Log,
        tally: &mut Tally,
    ) -> Result<Option<Outcome>, AllocError>
        requires under_way { IsUnderWay self.old assumed.now log.old }
        requires says { LearntSays self.old learnt }
        ensures ok { IfOk result (Turns self.old self.new assumed.now tally.old tally.new log.old
            log.new) }
        ensures err { OnErr result (Advances self.old self.new tally.old tally.new log.old log.new 1
            0) }
        ensures learned { tally.new.learned ≡ tally.old.learned }
    {
        match learnt {
            Learnt::Restarted => self.decide(assumed, log, tally),
            Learnt::Asserting { literal, number } => {
                Ok(after_placing(self.imply(literal, number, tally)))
            }
        }
    }

    // Decides where the trail is quiet.
    fn decide(
        &mut self,
        assumed: &[Lit],
        log: &mut Log,
        tally: &mut Tally,
    ) -> Result<Option<Outcome>, AllocError>
        requires under_way { IsUnderWay self.old assumed.now log.old }
        requires quiet { IsQuiet self.old.clauses.axioms self.old.clauses.more self.old.trail }
        ensures ok { IfOk result (Turns self.old self.new assumed.now tally.old tally.new log.old
            log.new) }
        ensures err { OnErr result (Advances self.old self.new tally.old tally.new log.old log.new 1
            0) }
        ensures learned { tally.new.learned ≡ tally.old.learned }
    {
        let next = self.next_decision(assumed);
        self.recall();
        match next {
            Next::Place(lit) => Ok(after_placing(self.place(lit, tally))),
            Next::Failed(lit) => self.refute_assumption(lit, assumed, log),
            Next::Done => Ok(Some(Outcome::Sat)),
        }
    }
}
