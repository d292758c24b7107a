//! The literals that are true, oldest first, each with its reason.
//!
//! The trail of Marques-Silva and Sakallah's GRASP, as in MiniSat: each decision starts a level, each other literal
//! is there by a clause whose other literals were false before it.

ghost use Rattle.std.specs.Prelude.{◌≡◌, ◌≢◌, ◌+◌, ◌*◌, ◌/◌, ◌<◌, ◌≤◌, ℕ, List, [], ◌∷◌, ◌++◌, slice_set, slice_index_or, take, IfOk, OnOk, OnErr, IfSome, IfNone, IsTrue, ◌↔◌, Some, None, All, length, map, count_by, slice_get, if◌then◌else◌, Contains, not};
ghost use Rattle.std.specs.Bool.{OnTrue};
ghost use Rattle.pc_lits.specs.declared.literal.Lit.{Lit};
ghost use Rattle.pc_lits.specs.Literals.{negated};
ghost use Rattle.pc_lits.specs.Steps.{IsLastOpen};
ghost use Rattle.pc_propagate.specs.Listed.{no_literal, code_of, literal_of, watchers, AreListedIn, IsAdded, IsKnown, IsShifted};
ghost use Rattle.pc_propagate.specs.Entries.{literals, falses, HasValue, starts_level, AreEntries};
ghost use Rattle.pc_propagate.specs.Levels.{IsEntryOfVariable, IsLevelOf, IsReasonOf, IsBackTo, IsJustified};
ghost use Rattle.pc_propagate.specs.Refs.{clause_at, IsRef};
ghost use Rattle.pc_propagate.specs.Over.{IsOver, AreInRange};
ghost use Rattle.pc_propagate.specs.TrailView.{TrailView};
ghost use Rattle.pc_propagate.specs.inside.LeftOn.{IsLeftOn};
ghost use Rattle.pc_propagate.specs.Counts.{PlacesEntry};
ghost use Rattle.pc_propagate.specs.inside.Slots.{IsSlotOf};
ghost use Rattle.pc_propagate.specs.Attached.{IsAttached, IsBlank};
ghost use Rattle.pc_propagate.specs.Watching.{body_at, wait_at};
ghost use Rattle.pc_propagate.specs.Watched.{IsFalseAt, IsOfLastLevel};
ghost use Rattle.pc_propagate.specs.inside.Steady.{AreAllListed, IsBlocked, HasComeToWait, IsWoken};

use crate::clauses::ClauseRef;
use crate::lists::Lists;
use crate::{Watch, Watched};
use pc_lits::{Left, Lit, Tally, Values, Var, left_of};
use std::alloc::{AllocError, Global};
use std::marker::Model;

/// A literal that is true, and the clause that made it so.
#[derive(Clone, Copy)]
pub struct TrailEntry {
    pub literal: Lit,
    /// None for a decision, which starts a level.
    pub reason: Option<ClauseRef>,
}

impl TrailEntry {
    // How many levels it starts.
    fn levels(self) -> u32
        ensures { result ≡ (if starts_level self then 1 else 0) }
    {
        if self.reason.is_none() { 1 } else { 0 }
    }
}

/// Whether the limit allowed one more literal.
#[derive(Clone, Copy, PartialEq, Eq)]
pub enum Placed {
    Done,
    Spent,
}

// The place and the level of a variable's entry. They are read at random, so each takes half a word.
#[derive(Clone, Copy)]
struct Slot {
    place: u32,
    level: u32,
}

impl Slot {
    const BLANK: Slot = Slot { place: 0, level: 0 };
}

// The lists of the clauses that wait: of those at which the next propagation looks, and of those at which the present one goes
// on to look.
const NEXT: usize = 0;

const PRESENT: usize = 1;

/// The literals that are true, oldest first, and the clauses that propagation looks at.
#[derive(Drop)]
pub struct Trail {
    values: Values,
    entries: Vec<TrailEntry>,
    level: u32,
    slots: Vec<Slot>,
    attached: Vec<ClauseRef>,
    // The attached clauses, and which literals they watch.
    watched: Watched,
    // In which list each attached clause waits, if it waits.
    waiting: Lists,
    // How many entries are propagated.
    head: usize,
}

impl Model for Trail {
    ghost use Rattle.std.specs.Prelude.{◌≡◌, ◌*◌, length, vec_capacity};
    ghost use Rattle.pc_propagate.specs.TrailView.{TrailView};
    ghost use Rattle.pc_propagate.specs.inside.IsTrail.{IsTrail};
    ghost use Rattle.pc_propagate.specs.inside.Slots.{AreSlots};

    ghost Value = { TrailView };

    ghost view = { λ t. record { variables = length t.values; entries = t.entries.items; attached = t.attached.items; watching = record { watched = t.watched; waiting = t.waiting.list_of; head = t.head } } };

    ghost invariant = { λ t. IsTrail t.values t.entries.items t.level (vec_capacity t.entries) × AreSlots t.slots.items t.entries.items (length t.values) × (t.waiting.count ≡ 2) × (length t.watched.lists ≡ 2 * length t.values) };
}

impl Trail {
    /// No literal is true, and no clause is attached. The variables are those below `variables`.
    pub fn new(alloc: Global, variables: u32) -> Result<Trail, AllocError>
        ensures variables { IfOk result (λ t. t.variables ≡ variables) }
        ensures blank { IfOk result IsBlank }
        ensures over { IfOk result (λ t. (axioms more : List (List Lit)) → IsOver axioms more t) }
    {
        let entries = Vec::with_capacity(alloc, variables as usize)?;
        let values = Values::new(alloc, variables)?;
        let level = 0;
        let slots = vec![in alloc; Slot::BLANK; variables as usize]?;
        let attached = Vec::new(alloc);
        let watched = Watched::new(alloc, variables)?;
        let waiting = Lists::new(alloc, 2)?;
        let head = 0;
        Ok(Trail {
            values,
            entries,
            level,
            slots,
            attached,
            watched,
            waiting,
            head,
        })
    }

    /// Makes a clause known to the trail: `propagate` looks at it from now on. Without memory it isn't known.
    pub fn attach(&mut self, clause: ClauseRef, lits: &[Lit]) -> Result<(), AllocError>
        requires { AreInRange self.old.variables lits.now }
        ensures ok { OnOk result (IsAttached clause self.old self.new) }
        ensures err { OnErr result (self.new ≡ self.old) }
        ensures over { (axioms more : List (List Lit)) → IsOver axioms more self.old →
            IsRef axioms more clause → clause_at axioms more clause ≡ lits.now →
            IsOver axioms more self.new }
    {
        let first = self.best(lits);
        let second = self.best_after(lits, first);
        self.attached.reserve(1)?;
        add_waiting(&mut self.watched, &mut self.waiting, lits, first, second)?;
        self.attached.push(clause)?;
        Ok(())
    }

    /// The variable's value, if it has one.
    pub fn value(&self, variable: Var) -> Option<bool>
        requires { variable.0 < self.now.variables }
        ensures some { IfSome result (λ b. Contains (literals self.now.entries)
            (record { variable = variable; sign = b })) }
        ensures opposite { IfSome result
            (λ b. Contains (falses self.now.entries) (record {
              variable = variable;
              sign = not b;
            })) }
        ensures known { IfSome result (λ _. HasValue self.now.entries variable) }
        ensures none { IfNone result (¬ HasValue self.now.entries variable) }
    {
        self.values.get(variable)
    }

    /// How many levels there are: as many as decisions.
    pub fn level(&self) -> u32
        ensures { result ≡ count_by starts_level self.now.entries }
    {
        self.level
    }

    /// How many literals are true: at most one of each variable.
    pub fn len(&self) -> usize
        ensures count { result ≡ length self.now.entries }
        ensures entries { AreEntries self.now.variables self.now.entries }
    {
        self.entries.len()
    }

    /// Recalls that no variable has two entries.
    pub fn recall_entries(&self)
        ensures { AreEntries self.now.variables self.now.entries }
    {
        let _ = self.len();
    }

    /// The literal at this place, counted from the oldest.
    pub fn at(&self, place: usize) -> Lit
        requires { place < length self.now.entries }
        ensures literal { slice_get (literals self.now.entries) place ≡ Some result }
        ensures known { HasValue self.now.entries result.variable }
    {
        self.entries[place].literal
    }

    /// The place of the variable's literal.
    pub fn place_of(&self, variable: Var) -> usize
        requires { HasValue self.now.entries variable }
        ensures { IsEntryOfVariable self.now.entries variable result }
    {
        self.slot_of(variable).place as usize
    }

    /// The level of the variable's literal: how many decisions there are up to it.
    pub fn level_of(&self, variable: Var) -> u32
        requires { HasValue self.now.entries variable }
        ensures { IsLevelOf self.now.entries variable result }
    {
        self.slot_of(variable).level
    }

    /// The clause that gave the variable its value, and None for a decision.
    pub fn reason_of(&self, variable: Var) -> Option<ClauseRef>
        requires { HasValue self.now.entries variable }
        ensures { IsReasonOf self.now.entries variable result }
    {
        let place = self.slot_of(variable).place as usize;
        self.entries[place].reason
    }

    // The place and the level of the variable's literal.
    fn slot_of(&self, variable: Var) -> Slot
        requires { HasValue self.now.entries variable }
        ensures { IsSlotOf self.now.entries variable result }
    {
        self.slots[variable.0 as usize]
    }

    // Whether the literal is true.
    pub(crate) fn is_true(&self, lit: Lit) -> bool
        requires { lit.variable.0 < self.now.variables }
        ensures { IsTrue result ↔ Contains (falses self.now.entries) (negated lit) }
    {
        self.values.is_true(lit)
    }

    // Whether the literal is false.
    pub(crate) fn is_false(&self, lit: Lit) -> bool
        requires { lit.variable.0 < self.now.variables }
        ensures { IsTrue result ↔ Contains (falses self.now.entries) lit }
    {
        self.values.is_false(lit)
    }

    // What is left of the clause.
    pub(crate) fn left(&self, clause: &[Lit]) -> Left
        requires { AreInRange self.now.variables clause.now }
        ensures { IsLeftOn (falses self.now.entries) clause.now result }
    {
        left_of(clause, &self.values)
    }

    // How many clauses are attached.
    pub(crate) fn attached_count(&self) -> usize
        ensures { result ≡ length self.now.attached }
    {
        self.attached.len()
    }

    // The attached clause of this number.
    pub(crate) fn attached_at(&self, number: usize) -> ClauseRef
        requires { number < length self.now.attached }
        ensures { slice_get self.now.attached number ≡ Some result }
    {
        self.attached[number]
    }

    /// Starts a level with the literal, unless the limit is reached.
    pub fn place(&mut self, lit: Lit, tally: &mut Tally) -> Placed
        requires in_range { lit.variable.0 < self.old.variables }
        requires unset { ¬ HasValue self.old.entries lit.variable }
        ensures placed { PlacesEntry (record { literal = lit; reason = None }) self.old self.new
            tally.old tally.new result }
        ensures over { (axioms more : List (List Lit)) → IsOver axioms more self.old →
            IsOver axioms more self.new }
    {
        let entry = TrailEntry {
            literal: lit,
            reason: None,
        };
        self.place_entry(entry, tally)
    }

    /// Makes the literal true by the clause, whose other literals are false, unless the limit is reached.
    pub fn imply(&mut self, lit: Lit, reason: ClauseRef, tally: &mut Tally) -> Placed
        requires in_range { lit.variable.0 < self.old.variables }
        requires unset { ¬ HasValue self.old.entries lit.variable }
        ensures placed { PlacesEntry (record { literal = lit; reason = Some reason }) self.old
            self.new tally.old tally.new result }
        ensures over { (axioms more : List (List Lit)) → IsOver axioms more self.old →
            Contains self.old.attached reason →
            IsLastOpen negated (falses self.old.entries) (clause_at axioms more reason) lit →
            IsOver axioms more self.new }
    {
        let entry = TrailEntry {
            literal: lit,
            reason: Some(reason),
        };
        self.place_entry(entry, tally)
    }

    /// Gives the variable's literal, which is there by a clause, another one as its reason. It takes no memory.
    pub fn justify(&mut self, variable: Var, reason: ClauseRef)
        requires { (before : ClauseRef) × IsReasonOf self.old.entries variable (Some before) }
        ensures justified { IsJustified variable reason self.old self.new }
        ensures over { (axioms more : List (List Lit)) (place : ℕ)
            (is : IsEntryOfVariable self.old.entries variable place) → IsOver axioms more self.old →
            Contains self.old.attached reason →
            IsLastOpen negated (falses (take place self.old.entries)) (clause_at axioms more reason)
            is.entry.literal → IsOver axioms more self.new }
    {
        let place = self.slot_of(variable).place as usize;
        let literal = self.entries[place].literal;
        self.entries[place] = TrailEntry {
            literal,
            reason: Some(reason),
        };
    }

    // Adds an entry as the last one, unless the limit is reached.
    fn place_entry(&mut self, entry: TrailEntry, tally: &mut Tally) -> Placed
        requires in_range { entry.literal.variable.0 < self.old.variables }
        requires unset { ¬ HasValue self.old.entries entry.literal.variable }
        ensures placed { PlacesEntry entry self.old self.new tally.old tally.new result }
    {
        if tally.placed == tally.limit {
            return Placed::Spent;
        }
        tally.placed += 1;
        self.push(entry);
        Placed::Done
    }

    // Adds an entry as the last one.
    fn push(&mut self, entry: TrailEntry)
        requires in_range { entry.literal.variable.0 < self.old.variables }
        requires unset { ¬ HasValue self.old.entries entry.literal.variable }
        ensures pushed { self.new ≡ record self.old { entries = self.old.entries ++ entry ∷ [] } }
        ensures fits { length self.old.entries < self.old.variables }
    {
        let place = self.entries.len() as u32;
        self.values.assign(entry.literal);
        let _ = self.entries.push(entry);
        self.level += entry.levels();
        let level = self.level;
        self.slots[entry.literal.variable.0 as usize] = Slot { place, level };
    }

    /// Takes the levels after this one back, all their literals with them.
    pub fn back_to(&mut self, level: u32)
        ensures back { IsBackTo level self.old self.new }
        ensures over { (axioms more : List (List Lit)) → IsOver axioms more self.old →
            IsOver axioms more self.new }
    {
        self.pop_levels(level);
        self.head = self.head.min(self.entries.len());
    }

    // Takes the levels after this one back, and leaves alone how far propagation has come.
    fn pop_levels(&mut self, level: u32)
        ensures back { IsBackTo level self.old self.new }
        ensures watching { self.new.watching ≡ self.old.watching }
    {
        while self.level > level {
            let Some(entry) = self.entries.pop() else {
                return;
            };
            self.values.forget(entry.literal.variable);
            self.level -= entry.levels();
        }
    }

    /// Makes all entries and clauses unknown, as they were at first, so that the trail may serve another search. It takes no memory, and
    /// time by what there is to forget, not by the number of the variables.
    pub fn clear(&mut self)
        ensures variables { self.new.variables ≡ self.old.variables }
        ensures blank { IsBlank self.new }
        ensures over { (axioms more : List (List Lit)) → IsOver axioms more self.new }
    {
        self.pop_all();
        self.attached.clear();
        self.watched.clear();
        self.waiting.clear();
        self.head = 0;
    }

    // Takes all entries back.
    fn pop_all(&mut self)
        ensures { self.new ≡ record self.old { entries = [] } }
    {
        while let Some(entry) = self.entries.pop() {
            self.values.forget(entry.literal.variable);
            self.level -= entry.levels();
        }
    }
}

// Where propagation looks.
impl Trail {
    // Whether not all entries are propagated.
    pub(crate) fn lags(&self) -> bool
        ensures lags { IsTrue result ↔ self.now.watching.head < length self.now.entries }
        ensures fits { length self.now.entries ≤ self.now.variables }
    {
        self.head < self.entries.len()
    }

    // The literal that the first entry that isn't propagated made false.
    pub(crate) fn next_false(&self) -> Lit
        requires { self.now.watching.head < length self.now.entries }
        ensures at { IsFalseAt self.now.entries self.now.watching.head result }
        ensures in_range { result.variable.0 < self.now.variables }
    {
        self.entries[self.head].literal.negated()
    }

    // One more entry is propagated.
    pub(crate) fn advance(&mut self)
        requires { self.old.watching.head < length self.old.entries }
        ensures { self.new ≡
            record self.old {
              watching = record self.old.watching {
                head = self.old.watching.head +
                    1;
              };
            } }
    {
        self.head += 1;
    }

    // Whether the first entry that isn't propagated, which made the literal false, is of the last level.
    pub(crate) fn is_of_last_level(&self, lit: Lit) -> bool
        requires { IsFalseAt self.now.entries self.now.watching.head lit }
        ensures { OnTrue result (IsOfLastLevel self.now.entries self.now.watching.head) }
    {
        if self.level_of(lit.variable) < self.level() {
            return false;
        }
        true
    }

    // How many places watch the literal.
    pub(crate) fn watch_count(&self, lit: Lit) -> usize
        requires { lit.variable.0 < self.now.variables }
        ensures { result ≡ length (watchers self.now.watching.watched lit) }
    {
        self.watched.count(lit)
    }

    // One of the places that watch the literal, with its blocker.
    pub(crate) fn watch_at(&self, lit: Lit, index: usize) -> Watch
        requires in_range { lit.variable.0 < self.now.variables }
        requires index { index < length (watchers self.now.watching.watched lit) }
        ensures is { slice_get (watchers self.now.watching.watched lit) index ≡ Some result }
        ensures known { IsKnown self.now.watching.watched.bodies (code_of lit) result }
        ensures blocker { result.blocker.variable.0 < self.now.variables }
    {
        self.watched.recall();
        self.watched.at(lit, index)
    }

    // Recalls that each of the first two literals of a clause of two or more has the clause among its watches.
    pub(crate) fn recall_watches(&self)
        ensures { AreAllListed self.now.watching.watched }
    {
        self.watched.recall();
    }

    // The literals of the attached clause, as they stand.
    pub(crate) fn body(&self, number: usize) -> &[Lit]
        requires { number < length self.now.watching.watched.bodies }
        ensures is { result.now ≡ body_at self.now.watching number }
        ensures in_range { AreInRange self.now.variables result.now }
    {
        self.watched.recall();
        self.watched.get(number)
    }

    // Gives the watch another blocker.
    pub(crate) fn block(&mut self, lit: Lit, index: usize, watch: Watch, blocker: Lit)
        requires in_range { lit.variable.0 < self.old.variables }
        requires is { slice_get (watchers self.old.watching.watched lit) index ≡ Some watch }
        requires blocker { Contains (body_at self.old.watching (watch.place / 2)) blocker }
        ensures { IsBlocked lit index watch blocker self.old self.new }
    {
        self.watched.block(lit, index, watch, blocker);
    }

    // Lets the place of the watch take up another literal of its clause.
    pub(crate) fn shift(&mut self, lit: Lit, index: usize, watch: Watch, other: usize, blocker: Lit)
        requires in_range { lit.variable.0 < self.old.variables }
        requires is { slice_get (watchers self.old.watching.watched lit) index ≡ Some watch }
        requires own { literal_of self.old.watching.watched.bodies watch.place ≡ lit }
        requires unwatched { 2 ≤ other }
        requires within { other < length (body_at self.old.watching (watch.place / 2)) }
        requires blocker { Contains (body_at self.old.watching (watch.place / 2)) blocker }
        ensures shifted { IsShifted (code_of lit) index other watch blocker
            self.old.watching.watched self.new.watching.watched }
        ensures same { self.new ≡ record self.old {
          watching = record self.old.watching { watched = self.new.watching.watched };
        } }
    {
        self.watched.shift(lit, index, watch, other, blocker);
    }

    // Lets the next propagation look at the attached clause.
    pub(crate) fn let_wait(&mut self, number: usize)
        requires { number < length self.old.watching.waiting }
        ensures { HasComeToWait number self.old self.new }
    {
        if self.waiting.list_of(number).is_none() {
            self.waiting.put(number, NEXT);
        }
    }

    // Puts an attached clause that doesn't wait among those at which the next propagation looks.
    pub(crate) fn wait_again(&mut self, number: usize)
        requires within { number < length self.old.watching.waiting }
        requires free { wait_at self.old.watching number ≡ None }
        ensures { self.new ≡
            record self.old {
              watching = record self.old.watching {
                waiting = slice_set
                    self.old.watching.waiting number (Some 0);
              };
            } }
    {
        self.waiting.put(number, NEXT);
    }

    // Lets the present propagation look at all clauses at which the next one was to look.
    pub(crate) fn wake(&mut self)
        ensures woken { IsWoken self.old self.new }
        ensures none { (n : ℕ) → wait_at self.new.watching n ≢ Some 0 }
    {
        self.waiting.move_all(NEXT, PRESENT);
    }

    // Takes out the first clause at which the present propagation is still to look, if there is one.
    pub(crate) fn take_waiting(&mut self) -> Option<usize>
        ensures within { IfSome result (λ n. n < length self.old.watching.waiting) }
        ensures was { IfSome result (λ n. wait_at self.old.watching n ≡ Some 1) }
        ensures taken { IfSome result
            (λ n.
            self.new ≡
            record self.old {
              watching = record self.old.watching {
                waiting = slice_set
                    self.old.watching.waiting n None;
              };
            }) }
        ensures same { IfNone result (self.new ≡ self.old) }
        ensures none { IfNone result ((n : ℕ) → wait_at self.old.watching n ≢ Some 1) }
    {
        self.waiting.take_first(PRESENT)
    }
}

// Adds the literals of a clause, of which the ones at these places come to stand first, and which waits. Without memory there is
// nothing new.
fn add_waiting(
    watched: &mut Watched,
    waiting: &mut Lists,
    lits: &[Lit],
    first: usize,
    second: usize,
) -> Result<(), AllocError>
    requires in_range { AreListedIn (length watched.old.lists) lits.now }
    requires first { 2 ≤ length lits.now → first < length lits.now }
    requires second { 2 ≤ length lits.now → second < length lits.now }
    requires lists { waiting.old.count ≡ 2 }
    ensures added { OnOk result (IsAdded lits.now watched.old watched.new) }
    ensures waits { OnOk result
        (waiting.new ≡ record waiting.old {
          list_of = slice_set (waiting.old.list_of ++ None ∷ [])
              (length waiting.old.list_of) (Some 0);
        }) }
    ensures no_clause { OnErr result (watched.new ≡ watched.old) }
    ensures no_place { OnErr result (waiting.new ≡ waiting.old) }
{
    let number = waiting.count();
    waiting.add()?;
    match watched.add(lits, first, second) {
        Ok(()) => {
            waiting.put(number, NEXT);
            Ok(())
        }
        Err(error) => {
            waiting.drop_last();
            Err(error)
        }
    }
}
