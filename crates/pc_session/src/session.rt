//! Sessions.
ghost use Rattle.std.specs.Prelude.{◌≡◌, ◌≤◌, ◌<◌, ◌+◌, ◌*◌, ◌^◌, [], ℕ, Contains, Err, IfErr, IfOk, None, Ok, OnErr, OnOk, Some, length, option_map};
ghost use Rattle.pc_reason.specs.Fitting.{IsFitting};
ghost use Rattle.pc_components.specs.View.{AreComponentsOf};
ghost use Rattle.pc_cache.specs.Rows.{row_of};
ghost use Rattle.pc_justify_laws.specs.Edits.{HasNone, takes_none};
ghost use Rattle.pc_ground.specs.Grounded.{grounded};
ghost use Rattle.pc_books.specs.Edits.{also_entered, entered, is_rival, is_same_entry, without_cell, without_entry};
ghost use Rattle.pc_reason.specs.Reasons.{IsReasonFor, justification_of};
ghost use Rattle.pc_reason.specs.Targets.{IsTargetIn};
ghost use Rattle.pc_sheet.specs.Limits.{most_rules, most_weight};
ghost use Rattle.pc_sheet.specs.MaximalSets.{AreRulesConsistent};
ghost use Rattle.pc_sheet.specs.Sheet.{Statement, with_rule};
ghost use Rattle.pc_accept.specs.Asked.{asked};
ghost use Rattle.pc_ask.specs.Asking.{AreReadSizes, AskSays, AskStops, IsPartSearch};
ghost use Rattle.pc_repairs.specs.Searches.{IsWholeSearch};
ghost use Rattle.pc_sheet.specs.Views.{rule_of};
ghost use Rattle.pc_sheet.specs.Weight.{weight};
ghost use Rattle.pc_sheet.specs.WellFormed.{is_of_cell, IsEntryOf, IsWellFormed, IsWellFormedRule};
ghost use Rattle.pc_sheet.specs.declared.ids.Entry.{Entry};
ghost use Rattle.pc_session.specs.Answers.{AreSpare, AreUnused, HasPlaceFor, IsUnchanged, OthersStay, StandsAlone, Stay, Steps};
ghost use Rattle.pc_session.specs.Arena.{IsBounded, IsBoundedBySpent, IsWithinSpent};
ghost use Rattle.pc_session.specs.Causes.{IsEntryCause, IsLoadCause, IsRemovalCause};
ghost use Rattle.pc_session.specs.Rules.{IsAddCause, IsDropCause, IsDropped};
ghost use Rattle.pc_books.specs.RuleNames.{IsNewName};
ghost use Rattle.pc_session.specs.Views.{counts_of, none_spent, IsTallyOf};
ghost use Rattle.pc_session.specs.declared.refused.EditRefused.TheVariants.{DuplicateRule, NoEntry, NoRule};
ghost use Rattle.pc_theory.specs.Theories.{rules_alone};

use crate::choices::{chosen_cells, chosen_sets};
use crate::loading::load_state;
use crate::questions::ask_lent;
use crate::refused::{EditRefused, LoadRefused};
use crate::removing::remove;
use crate::state::State;
use crate::taken::Taken;
use crate::{entering, rules};
use pc_ask::{Answer, AskStop};
use pc_books::{Assignment, Book};
use pc_components::Components;
use pc_ground::Ground;
use pc_justify_laws::{clearing_edits, removing_edits};
use pc_lits::Tally;
use pc_log::Log;
use pc_reason::{Reason, Reasons};
use pc_sheet::{CellId, Entry, Rule, Target, ValueId};
use pc_world_list::{Choices, Worlds};
use std::alloc::{AllocError, Global};
use std::marker::Model;

/// A book under edits, with a reason for each implied target. It is seen as its sheet, the budget, the tally of the last
/// accepted edit or load, the parts, what is kept of each target, the bytes that the lines of this count for, and those of the
/// lines on which no reason rests.
#[derive(Drop)]
pub struct Session {
    alloc: Global,
    budget: u64,
    state: State,
}

impl Model for Session {
    ghost use Rattle.pc_session.specs.Codes.{coded_session};
    ghost use Rattle.pc_session.specs.inside.States.{viewed, IsKept};
    ghost use Rattle.pc_session.specs.Views.{SessionView};

    ghost Value = { SessionView };

    ghost coded = { coded_session };

    ghost view = { λ s. viewed s.budget s.state };

    ghost invariant = { λ s. IsKept s.state };
}

impl Session {
    // Making

    /// Loads a book: grounds its rules, divides them into parts, and finds the worlds of each part and the reason of each
    /// implied target.
    pub fn load(alloc: Global, book: Book, budget: u64) -> Result<Session, LoadRefused>
        requires at_least { 1 ≤ budget }
        requires at_most { budget ≤ 1000000000000 }
        ensures sheet { IfOk result (λ s. s.sheet ≡ book) }
        ensures budget { IfOk result (λ s. s.budget ≡ budget) }
        ensures light { IfOk result (λ _. weight book ≤ most_weight) }
        ensures consistent { IfOk result (λ _. AreRulesConsistent book) }
        ensures spends { IfOk result (λ s. IsTallyOf book None budget s.tally) }
        ensures steps { IfOk result (λ s. Steps [] s.rows s.tally) }
        ensures bytes { IfOk result (λ s. IsWithinSpent book None s.components s.tally 0 s.bytes) }
        ensures refused { IfErr result (IsLoadCause book budget) }
    {
        let state = load_state(alloc, book, budget)?;
        Ok(Session {
            alloc,
            budget,
            state,
        })
    }

    // Reading

    /// The tally of the last accepted edit or of the load. It takes no memory.
    pub fn tally(&self) -> Tally
        ensures { counts_of result ≡ self.now.tally }
    {
        self.state.tally
    }

    /// The parts of the book. It takes no memory.
    pub fn components(&self) -> &Components
        ensures exact { result.now ≡ self.now.components }
        ensures are { AreComponentsOf (rules_alone self.now.sheet) result.now }
    {
        self.state.theory.components()
    }

    /// An assignment that makes every rule true. It takes no memory.
    pub fn fitting(&self) -> &Assignment
        ensures { IsFitting self.now.sheet result.now }
    {
        self.state.theory.fitting()
    }

    /// The clauses of the rules, with the names of variables and axioms. It takes no memory.
    pub fn ground(&self) -> &Ground
        ensures { result.now ≡ grounded self.now.sheet }
    {
        self.state.theory.ground()
    }

    /// How many bytes the lines count for in which derivations are kept: 16 each, 4 for each literal and 8 for each hint. What
    /// else is kept isn't counted: the places of each row's lines, and the room in blocks for the places between. It takes no
    /// memory.
    pub fn arena_bytes(&self) -> u128
        ensures { result ≡ self.now.bytes }
    {
        self.state.cache.arena_bytes()
    }

    // The budget of edits

    /// The budget of the edits. It takes no memory.
    pub fn budget(&self) -> u64
        ensures { result ≡ self.now.budget }
    {
        self.budget
    }

    /// Sets the budget of the edits from now on. It takes no memory.
    pub fn set_budget(&mut self, budget: u64)
        requires at_least { 1 ≤ budget }
        requires at_most { budget ≤ 1000000000000 }
        ensures { self.new ≡ record self.old { budget = budget } }
    {
        self.budget = budget;
    }

    // Entries

    /// Enters a value: the cell's other entries go. Where it stands it keeps its place, else it becomes the newest. Where it
    /// stands alone nothing changes, no memory is taken, and the answer is always Ok.
    pub fn enter(&mut self, cell: CellId, value: ValueId) -> Result<(), EditRefused>
        requires { IsEntryOf self.old.sheet.universe (record { cell = cell; value = value }) }
        ensures sheet { OnOk result
            (self.new.sheet ≡ entered self.old.sheet (record { cell = cell; value = value })) }
        ensures budget { self.new.budget ≡ self.old.budget }
        ensures parts { self.new.components ≡ self.old.components }
        ensures refused { IfErr result
            (IsEntryCause (entered self.old.sheet (record { cell = cell; value = value })) cell
            self.old.budget) }
        ensures unchanged { OnErr result (IsUnchanged self.old self.new) }
        ensures standing { StandsAlone self.old.sheet.entries
            (record { cell = cell; value = value }) → (result ≡ Ok tt) ×
            (self.new ≡ record self.old { tally = none_spent self.old.budget }) }
        ensures spends { OnOk result
            (¬ StandsAlone self.old.sheet.entries (record { cell = cell; value = value }) →
            IsTallyOf self.new.sheet (Some cell) self.old.budget self.new.tally) }
        ensures stays { OnOk result (Stay (is_rival (record { cell = cell; value = value }))
            self.old.rows self.new.rows) }
        ensures others { OnOk result (OthersStay cell self.old.components self.old.rows
            self.new.rows) }
        ensures arena { OnOk result (IsBounded self.old.rows self.old.bytes self.new.rows
            self.new.bytes) }
        ensures bytes { OnOk result (IsBoundedBySpent self.old cell self.new) }
        ensures steps { OnOk result (Steps self.old.rows self.new.rows self.new.tally) }
    {
        entering::enter(
            self.alloc,
            &mut self.state,
            self.budget,
            Entry { cell, value },
        )
    }

    /// Enters a value beside the cell's others, as the newest. Where it stands nothing changes, no memory is taken, and the
    /// answer is always Ok.
    pub fn also(&mut self, cell: CellId, value: ValueId) -> Result<(), EditRefused>
        requires entry { IsEntryOf self.old.sheet.universe (record { cell = cell; value = value }) }
        requires place { HasPlaceFor self.old.sheet.entries
            (record { cell = cell; value = value }) }
        ensures sheet { OnOk result (self.new.sheet ≡ also_entered self.old.sheet
            (record { cell = cell; value = value })) }
        ensures budget { self.new.budget ≡ self.old.budget }
        ensures parts { self.new.components ≡ self.old.components }
        ensures refused { IfErr result
            (IsEntryCause (also_entered self.old.sheet (record { cell = cell; value = value })) cell
            self.old.budget) }
        ensures unchanged { OnErr result (IsUnchanged self.old self.new) }
        ensures standing { Contains self.old.sheet.entries (record { cell = cell; value = value }) →
            (result ≡ Ok tt) × (self.new ≡ record self.old { tally = none_spent self.old.budget }) }
        ensures spends { OnOk result
            (¬ Contains self.old.sheet.entries (record { cell = cell; value = value }) →
            IsTallyOf self.new.sheet (Some cell) self.old.budget self.new.tally) }
        ensures stays { OnOk result (Stay takes_none self.old.rows self.new.rows) }
        ensures others { OnOk result (OthersStay cell self.old.components self.old.rows
            self.new.rows) }
        ensures arena { OnOk result (IsBounded self.old.rows self.old.bytes self.new.rows
            self.new.bytes) }
        ensures bytes { OnOk result (IsBoundedBySpent self.old cell self.new) }
        ensures steps { OnOk result (Steps self.old.rows self.new.rows self.new.tally) }
    {
        entering::also(
            self.alloc,
            &mut self.state,
            self.budget,
            Entry { cell, value },
        )
    }

    /// Clears the cell: all its entries go. Where no reason rests on one of them it takes no memory, searches nothing and is
    /// always Ok.
    pub fn clear(&mut self, cell: CellId) -> Result<(), EditRefused>
        ensures no_entry { HasNone (is_of_cell cell) self.old.sheet.entries → result ≡ Err NoEntry }
        ensures sheet { OnOk result (self.new.sheet ≡ without_cell self.old.sheet cell) }
        ensures budget { self.new.budget ≡ self.old.budget }
        ensures parts { self.new.components ≡ self.old.components }
        ensures refused { IfErr result (IsRemovalCause (is_of_cell cell) self.old.sheet.entries
            (without_cell self.old.sheet cell) cell self.old.budget) }
        ensures unchanged { OnErr result (IsUnchanged self.old self.new) }
        ensures unused { (f : Entry) → Contains self.old.sheet.entries f → f.cell ≡ cell →
            AreUnused (is_of_cell cell) self.old.rows → (result ≡ Ok tt) ×
            (self.new ≡ record self.old {
              sheet = without_cell self.old.sheet cell;
              tally = none_spent self.old.budget;
            }) }
        ensures spare { (f : Entry) → Contains self.old.sheet.entries f → f.cell ≡ cell →
            AreSpare self.old.sheet (is_of_cell cell) → result ≡ Ok tt }
        ensures spends { OnOk result (¬ AreUnused (is_of_cell cell) self.old.rows →
            IsTallyOf self.new.sheet (Some cell) self.old.budget self.new.tally) }
        ensures stays { OnOk result (Stay (is_of_cell cell) self.old.rows self.new.rows) }
        ensures others { OnOk result (OthersStay cell self.old.components self.old.rows
            self.new.rows) }
        ensures arena { OnOk result (IsBounded self.old.rows self.old.bytes self.new.rows
            self.new.bytes) }
        ensures bytes { OnOk result (IsBoundedBySpent self.old cell self.new) }
        ensures steps { OnOk result (Steps self.old.rows self.new.rows self.new.tally) }
    {
        clearing_edits();
        remove(
            self.alloc,
            &mut self.state,
            self.budget,
            cell,
            Taken::Cell(cell),
        )
    }

    /// Clears one entry of the cell: its others stay. Where no reason rests on it it takes no memory, searches nothing and is
    /// always Ok.
    pub fn clear_one(&mut self, cell: CellId, value: ValueId) -> Result<(), EditRefused>
        ensures no_entry { ¬ Contains self.old.sheet.entries
            (record { cell = cell; value = value }) → result ≡ Err NoEntry }
        ensures sheet { OnOk result (self.new.sheet ≡ without_entry self.old.sheet
            (record { cell = cell; value = value })) }
        ensures budget { self.new.budget ≡ self.old.budget }
        ensures parts { self.new.components ≡ self.old.components }
        ensures refused { IfErr result
            (IsRemovalCause (is_same_entry (record { cell = cell; value = value }))
            self.old.sheet.entries
            (without_entry self.old.sheet (record { cell = cell; value = value })) cell
            self.old.budget) }
        ensures unchanged { OnErr result (IsUnchanged self.old self.new) }
        ensures unused { Contains self.old.sheet.entries (record { cell = cell; value = value }) →
            AreUnused (is_same_entry (record { cell = cell; value = value })) self.old.rows →
            (result ≡ Ok tt) ×
            (self.new ≡
            record self.old {
              sheet = without_entry self.old.sheet
                  (record { cell = cell; value = value });
              tally = none_spent self.old.budget;
            }) }
        ensures spare { Contains self.old.sheet.entries (record { cell = cell; value = value }) →
            AreSpare self.old.sheet (is_same_entry (record { cell = cell; value = value })) →
            result ≡ Ok tt }
        ensures spends { OnOk result
            (¬ AreUnused (is_same_entry (record { cell = cell; value = value })) self.old.rows →
            IsTallyOf self.new.sheet (Some cell) self.old.budget self.new.tally) }
        ensures stays { OnOk result (Stay (is_same_entry (record { cell = cell; value = value }))
            self.old.rows self.new.rows) }
        ensures others { OnOk result (OthersStay cell self.old.components self.old.rows
            self.new.rows) }
        ensures arena { OnOk result (IsBounded self.old.rows self.old.bytes self.new.rows
            self.new.bytes) }
        ensures bytes { OnOk result (IsBoundedBySpent self.old cell self.new) }
        ensures steps { OnOk result (Steps self.old.rows self.new.rows self.new.tally) }
    {
        removing_edits();
        let entry = Entry { cell, value };
        remove(
            self.alloc,
            &mut self.state,
            self.budget,
            cell,
            Taken::One(entry),
        )
    }

    // Questions

    /// The book with one more rule, as the last one: the asked book, where the rule denies a formula. It shares declarations
    /// and rules with the session's, which stays as it is.
    pub fn book_with(&mut self, rule: Rule) -> Result<Book, AllocError>
        requires { IsWellFormed (with_rule self.old.sheet (rule_of rule)) }
        ensures same { self.new ≡ self.old }
        ensures book { IfOk result (λ book. book ≡ with_rule self.old.sheet (rule_of rule)) }
    {
        self.state.book.with_rule(self.alloc, rule)
    }

    /// Whether the entries imply the formula that the last rule of the asked book denies: the asked book is the session's with
    /// that rule. Ok is the formula's least support with what a certificate of it is made of; `None` exactly where the formula
    /// isn't implied. The log is empty before. Whatever is answered, tally and log have what was done, and the session is as
    /// it was.
    pub fn ask(
        &mut self,
        book: &Book,
        log: &mut Log,
        tally: &mut Tally,
    ) -> Result<Option<Answer>, AskStop>
        requires asked { (f : Statement) × (book.now ≡ asked self.old.sheet f) }
        requires new_log { log.old ≡ [] }
        requires few_learned { tally.old.learned < 2 ^ 120 }
        requires few_calls { tally.old.calls < 2 ^ 120 }
        ensures same { self.new ≡ self.old }
        ensures says { (f : Statement) → book.now ≡ asked self.old.sheet f →
            IfOk result (AskSays self.old.sheet f log.new) }
        ensures large { IfOk result (λ _. weight book.now ≤ most_weight) }
        ensures stop { IfErr result (AskStops book.now tally.new) }
        ensures search { (f : Statement) (entries sets : ℕ) → book.now ≡ asked self.old.sheet f →
            AreReadSizes self.old.sheet f entries sets →
            IsWholeSearch book.now [] (sets * (entries + 2) + 1) tally.old tally.new log.new }
        ensures whole { (most : ℕ) × IsWholeSearch book.now [] most tally.old tally.new log.new }
        ensures part { (most : ℕ) × IsPartSearch book.now most tally.old tally.new log.new }
    {
        ask_lent(self.alloc, &mut self.state, book, log, tally)
    }

    // Rules

    /// Adds a rule as the last one. Everything is made anew, as by a load.
    pub fn add_rule(&mut self, rule: Rule) -> Result<(), EditRefused>
        requires rule { IsWellFormedRule self.old.sheet.universe (rule_of rule) }
        requires few { length self.old.sheet.rules < most_rules }
        ensures duplicate { ¬ IsNewName self.old.sheet.rules rule.name →
            result ≡ Err DuplicateRule }
        ensures sheet { OnOk result (self.new.sheet ≡ with_rule self.old.sheet (rule_of rule)) }
        ensures budget { self.new.budget ≡ self.old.budget }
        ensures light { OnOk result (weight self.new.sheet ≤ most_weight) }
        ensures consistent { OnOk result (AreRulesConsistent self.new.sheet) }
        ensures refused { IfErr result (IsAddCause self.old.sheet (rule_of rule) self.old.budget) }
        ensures unchanged { OnErr result (IsUnchanged self.old self.new) }
        ensures spends { OnOk result (IsTallyOf self.new.sheet None self.old.budget
            self.new.tally) }
        ensures steps { OnOk result (Steps [] self.new.rows self.new.tally) }
        ensures bytes { OnOk result (IsWithinSpent self.new.sheet None self.new.components
            self.new.tally 0 self.new.bytes) }
    {
        rules::add_rule(self.alloc, &mut self.state, self.budget, rule)
    }

    /// Drops the rule of that name. Everything is made anew, as by a load.
    pub fn drop_rule(&mut self, name: &str) -> Result<(), EditRefused>
        ensures no_rule { IsNewName self.old.sheet.rules name.now → result ≡ Err NoRule }
        ensures sheet { OnOk result (IsDropped self.old.sheet name.now self.new.sheet) }
        ensures budget { self.new.budget ≡ self.old.budget }
        ensures refused { IfErr result (IsDropCause self.old.sheet name.now self.old.budget) }
        ensures unchanged { OnErr result (IsUnchanged self.old self.new) }
        ensures spends { OnOk result (IsTallyOf self.new.sheet None self.old.budget
            self.new.tally) }
        ensures steps { OnOk result (Steps [] self.new.rows self.new.tally) }
        ensures bytes { OnOk result (IsWithinSpent self.new.sheet None self.new.components
            self.new.tally 0 self.new.bytes) }
    {
        rules::drop_rule(self.alloc, &mut self.state, self.budget, name)
    }
}

impl Reasons for Session {
    ghost sheet = { λ s. s.sheet };

    fn book(&self) -> &Book {
        &self.state.book
    }

    /// Why the target is implied; `None` exactly where it isn't. It is what is kept, line for line.
    fn reason(&self, target: Target) -> Option<Reason<'_>>
        requires { IsTargetIn self.now.sheet.universe target }
        ensures right { IsReasonFor self.now.sheet target result }
        ensures kept { option_map justification_of result ≡ row_of self.now.rows target }
    {
        self.state
            .cache
            .reason(self.state.theory.ground().names(), target)
    }
}

impl Choices for Session {
    ghost sheet = { λ s. s.sheet };

    fn book(&self) -> &Book {
        &self.state.book
    }

    fn fitting(&self) -> &Assignment {
        self.state.theory.fitting()
    }

    fn parts(&self) -> usize {
        self.state.chosen.len()
    }

    fn cells(&self, part: usize) -> &[CellId] {
        chosen_cells(&self.state, part)
    }

    fn sets(&self, part: usize) -> &Worlds {
        chosen_sets(&self.state, part)
    }
}
