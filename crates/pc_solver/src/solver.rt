//! The solver.

ghost use Rattle.std.specs.Prelude.{◌≡◌, ◌≢◌, ◌<◌, ◌^◌, ℕ, List, [], ◌∷◌, ◌++◌, All, Contains, IfOk, OnOk, OnErr, length, slice_index_or};
ghost use Rattle.pc_lits.specs.declared.literal.Lit.{Lit};
ghost use Rattle.pc_log.specs.Lines.{LogLine};
ghost use Rattle.pc_propagate.specs.declared.clauses.ClauseRef.{ClauseRef};
ghost use Rattle.pc_propagate.specs.declared.clauses.ClauseRef.TheVariants.{Axiom};
ghost use Rattle.pc_propagate.specs.Attached.{IsBlank};
ghost use Rattle.pc_propagate.specs.Over.{IsOver};
ghost use Rattle.pc_solver.specs.Answers.{truth_in};
ghost use Rattle.pc_solver.specs.New.{ContainNone};
ghost use Rattle.pc_solver.specs.Banned.{AreAskable, AreLone, trues_of};
ghost use Rattle.pc_solver.specs.declared.outcome.Outcome.TheVariants.{Memory};
ghost use Rattle.pc_solver.specs.inside.Banning.{values_in};
ghost use Rattle.pc_solver.specs.Clauses.{IsOverOwn};
ghost use Rattle.pc_solver.specs.Solver.{SolverView, IsProblem, AreOwn, HasLog, SuspendedHasLog, AnswerSays, Spends};

use crate::Preferences;
use crate::clauses::Clauses;
use crate::decisions::{expect_again, note_answer};
use crate::outcome::Outcome;
use crate::search::Search;
use pc_lits::{ClauseStore, Lit, Tally, Values, Var};
use pc_log::Log;
use pc_log::laws::derivations_are_sound;
use pc_propagate::{ClauseRef, Trail};
use std::alloc::{AllocError, Global};
use std::marker::Model;

/// A search over borrowed axioms, blocks of its own, and what it has learned from them.
#[derive(Drop)]
pub struct Solver<'g> {
    search: Search<'g>,
}

impl<'g> Model for Solver<'g> {
    ghost use Rattle.pc_propagate.specs.Entries.{literals};
    ghost use Rattle.pc_solver.specs.Banned.{trues_of};
    ghost use Rattle.pc_solver.specs.Solver.{SolverView, seen_as};

    ghost Value = { SolverView };

    ghost view = { λ s. seen_as s.search.trail.variables s.search.clauses (trues_of s.search.clauses.own s.search.clauses.banned (literals s.search.trail.entries)) };
}

impl<'g> Solver<'g> {
    /// A solver over the axioms with the numbers `used`, which are borrowed and never copied. It gives values to the
    /// variables `own` alone. Where both rise, each is found by halving. All variables are below `variables`.
    pub fn new(
        alloc: Global,
        axioms: &'g ClauseStore,
        used: &'g [u32],
        own: &'g [Var],
        variables: u32,
    ) -> Result<Solver<'g>, AllocError>
        requires { IsProblem variables (record {
          axioms = axioms.now;
          used = used.now;
          own = own.now;
          banned = [];
        }) }
        ensures problem { IfOk result (λ s. s.problem ≡ record {
          axioms = axioms.now;
          used = used.now;
          own = own.now;
          banned = [];
        }) }
        ensures variables { IfOk result (λ s. s.variables ≡ variables) }
        ensures blocks { IfOk result (λ s. s.blocks ≡ []) }
        ensures trues { IfOk result (λ s. s.trues ≡ []) }
        ensures log { IfOk result (λ s. HasLog s []) }
    {
        let trail = Trail::new(alloc, variables)?;
        Solver::on(alloc, axioms, used, own, trail)
    }

    /// The same on a trail that may have served another solver; what it held is forgotten. Apart from that the solver takes
    /// memory and time by `used` and `own`, so that one trail serves many parts in turn. Without memory the trail is gone.
    pub fn on(
        alloc: Global,
        axioms: &'g ClauseStore,
        used: &'g [u32],
        own: &'g [Var],
        trail: Trail,
    ) -> Result<Solver<'g>, AllocError>
        requires { IsProblem trail.variables (record {
          axioms = axioms.now;
          used = used.now;
          own = own.now;
          banned = [];
        }) }
        ensures problem { IfOk result (λ s. s.problem ≡ record {
          axioms = axioms.now;
          used = used.now;
          own = own.now;
          banned = [];
        }) }
        ensures variables { IfOk result (λ s. s.variables ≡ trail.variables) }
        ensures blocks { IfOk result (λ s. s.blocks ≡ []) }
        ensures trues { IfOk result (λ s. s.trues ≡ []) }
        ensures log { IfOk result (λ s. HasLog s []) }
    {
        Solver::start(alloc, axioms, used, own, trail, None)
    }

    /// The same where no learned clause is to have a literal that `banned` makes true. Of a used clause's literals at most one may
    /// have a banned negation. A variable with a banned literal isn't decided, and where it has no value that literal is true.
    pub fn polar(
        alloc: Global,
        axioms: &'g ClauseStore,
        used: &'g [u32],
        own: &'g [Var],
        trail: Trail,
        banned: &'g Values,
    ) -> Result<Solver<'g>, AllocError>
        requires { IsProblem trail.variables (record {
          axioms = axioms.now;
          used = used.now;
          own = own.now;
          banned = banned.now;
        }) }
        ensures problem { IfOk result (λ s. s.problem ≡ record {
          axioms = axioms.now;
          used = used.now;
          own = own.now;
          banned = banned.now;
        }) }
        ensures variables { IfOk result (λ s. s.variables ≡ trail.variables) }
        ensures blocks { IfOk result (λ s. s.blocks ≡ []) }
        ensures trues { IfOk result (λ s. s.trues ≡ trues_of own.now banned.now []) }
        ensures log { IfOk result (λ s. HasLog s []) }
    {
        Solver::start(alloc, axioms, used, own, trail, Some(banned))
    }

    // A new solver, perhaps with banned literals.
    fn start(
        alloc: Global,
        axioms: &'g ClauseStore,
        used: &'g [u32],
        own: &'g [Var],
        trail: Trail,
        values: Option<&'g Values>,
    ) -> Result<Solver<'g>, AllocError>
        requires { IsProblem trail.variables (record {
          axioms = axioms.now;
          used = used.now;
          own = own.now;
          banned = values_in values;
        }) }
        ensures problem { IfOk result (λ s. s.problem ≡ record {
          axioms = axioms.now;
          used = used.now;
          own = own.now;
          banned = values_in values.entry;
        }) }
        ensures variables { IfOk result (λ s. s.variables ≡ trail.variables) }
        ensures blocks { IfOk result (λ s. s.blocks ≡ []) }
        ensures trues { IfOk result (λ s. s.trues ≡ trues_of own.now (values_in values.entry) []) }
        ensures log { IfOk result (λ s. HasLog s []) }
    {
        let clauses = Clauses::new(alloc, axioms, used, own, values)?;
        let mut preferences = Preferences::new(alloc, own)?;
        expect_again(&trail, own, clauses.banned(), &mut preferences);
        let mut trail = trail;
        trail.clear();
        attach_used(axioms, used, own, &mut trail)?;
        raise_used(axioms, used, own, &mut preferences);
        let search = Search {
            alloc,
            clauses,
            trail,
            preferences,
        };
        Ok(Solver { search })
    }

    /// The first `count` own variables are decided before the others, the most active one first; the others after them, in
    /// their order. It is for a new solver. Nothing that it answers is less right for it.
    pub fn prefer_first(&mut self, count: usize)
        ensures { self.new ≡ self.old }
    {
        self.search.prefer_first(count);
    }

    /// From now on no variable is decided true so that the answers show it. It is for a solver that isn't asked what can be true.
    /// Nothing that it answers is less right for it.
    pub fn show_nothing(&mut self)
        ensures { self.new ≡ self.old }
    {
        self.search.preferences.show_nothing();
    }

    /// The next assumptions are those of the set with this name, and perhaps others: values are decided true first that the
    /// answers for this set haven't shown.
    pub fn turn_to(&mut self, name: u64)
        ensures { self.new ≡ self.old }
    {
        self.search.preferences.turn_to(name);
    }

    /// Adds a clause of the solver's own. Without memory the solver stays as it is; also where one of the literals has a banned
    /// negation, for which there is no room in a block.
    pub fn add_block(&mut self, block: &[Lit]) -> Result<(), AllocError>
        requires { AreOwn self.old.problem.own block.now }
        ensures ok { OnOk result (self.new.blocks ≡ self.old.blocks ++ block.now ∷ []) }
        ensures err { OnErr result (self.new ≡ self.old) }
        ensures askable { OnOk result (AreAskable self.old.problem.banned block.now) }
        ensures problem { self.new.problem ≡ self.old.problem }
        ensures variables { self.new.variables ≡ self.old.variables }
        ensures trues { self.new.trues ≡ self.old.trues }
        ensures log { (log : List LogLine) → HasLog self.old log → HasLog self.new log }
    {
        if !self.search.allows(block) {
            return Err(AllocError);
        }
        self.search.add_block(block)
    }

    /// Searches for values that meet every used axiom, block and assumption. Assumptions are decided first, in their order,
    /// and then the most active variables without a value. Where the assumptions begin as those of the call
    /// before, and no block was added since, what was placed for these stays. The log gets the lines that a learned clause
    /// rests on, the learned clauses, which are marked, and at an `Unsat` one step more, whose clause lies within the
    /// negated assumptions. No clause is learned that contains a used axiom, a block or a clause learned before, nor one with
    /// a literal that unit propagation by the used axioms makes true before any decision, nor one with a banned literal. An
    /// assumption whose negation is banned can't be made: the answer is `Memory`.
    pub fn solve(&mut self, assumed: &[Lit], log: &mut Log, tally: &mut Tally) -> Outcome
        requires assumed { AreOwn self.old.problem.own assumed.now }
        requires log { HasLog self.old log.old }
        requires few_learned { tally.old.learned < 2 ^ 126 }
        requires few_calls { tally.old.calls < 2 ^ 126 }
        ensures answer { AnswerSays self.new assumed.now log.new tally.new result }
        ensures askable { result ≢ Memory → AreAskable self.old.problem.banned assumed.now }
        ensures log { HasLog self.new log.new }
        ensures no_block { ContainNone self.old.blocks (length log.old) log.new }
        ensures problem { self.new.problem ≡ self.old.problem }
        ensures variables { self.new.variables ≡ self.old.variables }
        ensures blocks { self.new.blocks ≡ self.old.blocks }
        ensures spends { Spends (length self.old.problem.own) tally.old tally.new log.old log.new }
    {
        derivations_are_sound();
        tally.calls += 1;
        // A clause is learned for at most each literal that is placed, so the count of learned clauses has room.
        prove!(tally.limit <= u64::MAX);
        if !self.search.allows(assumed) {
            return Outcome::Memory;
        }
        if let Err(_) = self.search.prepare(assumed) {
            return Outcome::Memory;
        }
        let outcome = self.search.run(assumed, log, tally);
        self.search.recall();
        outcome
    }

    /// The own variable's value. After `solve` has answered `Sat`, the values meet what it was asked.
    pub fn value(&self, v: Var) -> bool
        requires { Contains self.now.problem.own v }
        ensures { result ≡ truth_in self.now.trues v }
    {
        self.search.value(v)
    }

    /// Takes the solver's trail away, for another part, until the solver is resumed. What it has learned stays.
    #[tactic(auto, using(crate::proofs::SolverLemmas::is_aside))]
    pub fn suspend(self) -> (Suspended<'g>, Trail)
        ensures problem { result.0.problem ≡ self.entry.problem }
        ensures blocks { result.0.blocks ≡ self.entry.blocks }
        ensures log { (log : List LogLine) → HasLog self.entry log → SuspendedHasLog result.0 log }
        ensures variables { result.1.variables ≡ self.entry.variables }
    {
        let Solver { search } = self;
        let Search {
            alloc,
            clauses,
            trail,
            mut preferences,
        } = search;
        note_answer(&trail, clauses.own(), clauses.banned(), &mut preferences);
        let suspended = Suspended {
            alloc,
            clauses,
            preferences,
        };
        (suspended, trail)
    }

    /// Ends the solver, and gives its trail back, for another part.
    pub fn into_trail(self) -> Trail
        ensures { result.variables ≡ self.entry.variables }
    {
        let Solver { search } = self;
        let Search {
            alloc: _,
            clauses: _,
            trail,
            preferences: _,
        } = search;
        trail
    }
}

/// A solver without its trail, so that it takes memory by its part alone: solvers of many parts may live at once, and one trail
/// serves them in turn.
#[derive(Drop)]
pub struct Suspended<'g> {
    alloc: Global,
    clauses: Clauses<'g>,
    preferences: Preferences,
}

impl<'g> Model for Suspended<'g> {
    ghost use Rattle.pc_solver.specs.Solver.{SuspendedView, suspended_as};
    ghost use Rattle.pc_solver.specs.inside.Search.{IsAside};

    ghost Value = { SuspendedView };

    ghost view = { λ s. suspended_as s.clauses };

    ghost invariant = { λ s. IsAside s.clauses };
}

impl<'g> Suspended<'g> {
    /// The solver on a trail that may have served another one; what it held is forgotten. It takes time by the part's axioms,
    /// blocks and learned clauses. Without memory both are gone.
    pub fn resume(self, trail: Trail) -> Result<Solver<'g>, AllocError>
        requires { IsProblem trail.variables self.problem }
        ensures problem { IfOk result (λ s. s.problem ≡ self.entry.problem) }
        ensures variables { IfOk result (λ s. s.variables ≡ trail.variables) }
        ensures blocks { IfOk result (λ s. s.blocks ≡ self.entry.blocks) }
        ensures trues { IfOk result (λ s. s.trues ≡ trues_of self.entry.problem.own
            self.entry.problem.banned []) }
        ensures log { (log : List LogLine) → SuspendedHasLog self.entry log →
            IfOk result (λ s. HasLog s log) }
    {
        let Suspended {
            alloc,
            mut clauses,
            mut preferences,
        } = self;
        let mut trail = trail;
        trail.clear();
        clauses.forget_trail();
        attach_used(clauses.axioms(), clauses.used(), clauses.own(), &mut trail)?;
        preferences.put_all_back();
        let search = Search {
            alloc,
            clauses,
            trail,
            preferences,
        };
        Ok(Solver { search })
    }
}

// Raises the activities of the used axioms' variables.
fn raise_used(axioms: &ClauseStore, used: &[u32], own: &[Var], preferences: &mut Preferences)
    requires { All (λ n. n < length axioms.now) used.now }
{
    for number in used {
        preferences.raise_all(own, axioms.get(*number as usize));
    }
}

// Makes the used axioms known to the trail, which is new.
fn attach_used(
    axioms: &ClauseStore,
    used: &[u32],
    own: &[Var],
    trail: &mut Trail,
) -> Result<(), AllocError>
    requires used_in { All (λ n. n < length axioms.now) used.now }
    requires own_in { All (λ v. v.0 < trail.old.variables) own.now }
    requires over_own { All (λ n. IsOverOwn own.now (slice_index_or axioms.now n [])) used.now }
    requires blank { IsBlank trail.old }
    requires over { (more : List (List Lit)) → IsOver axioms.now more trail.old }
    ensures variables { trail.new.variables ≡ trail.old.variables }
    ensures entries { trail.new.entries ≡ [] }
    ensures over { (more : List (List Lit)) → IsOver axioms.now more trail.new }
    ensures attached { OnOk result ((n : ℕ) → Contains used.now n →
        Contains trail.new.attached (Axiom n)) }
    ensures known { (r : ClauseRef) → Contains trail.new.attached r → (n : ℕ) ×
        Contains used.now n × (r ≡ Axiom n) }
{
    let _own = own;
    for number in used {
        trail.attach(ClauseRef::Axiom(*number), axioms.get(*number as usize))?;
    }
    Ok(())
}
