//! Adding and dropping rules: everything is made anew, aside.
ghost use Rattle.std.specs.Prelude.{◌≡◌, ◌<◌, ℕ, Err, IfErr, IfNone, IfOk, IfSome, OnErr, OnOk, length, map};
ghost use Rattle.pc_sheet.specs.Limits.{most_rules};
ghost use Rattle.pc_sheet.specs.Sheet.{with_rule};
ghost use Rattle.pc_sheet.specs.Views.{rule_of};
ghost use Rattle.pc_sheet.specs.WellFormed.{IsWellFormedRule};
ghost use Rattle.pc_session.specs.Rules.{IsAddCause, IsDropCause, IsRuleCause};
ghost use Rattle.pc_books.specs.RuleNames.{IsNewName, IsRuleAt};
ghost use Rattle.pc_session.specs.inside.Loaded.{IsDroppedTo, IsLoaded};
ghost use Rattle.pc_session.specs.inside.States.{IsSame, IsState};
ghost use Rattle.pc_session.specs.declared.refused.EditRefused.TheVariants.{DuplicateRule, NoRule};

use crate::compaction::compact_if_due;
use crate::loading::load_state;
use crate::refused::{EditRefused, refused_edit};
use crate::state::State;
use pc_books::{Book, place_of_rule, well_formed};
use pc_sheet::Rule;
use std::alloc::Global;

// Loads the book that an edit of a rule makes, and puts what is found in place.
fn replace(alloc: Global, state: &mut State, budget: u64, book: Book) -> Result<(), EditRefused>
    ensures loaded { OnOk result (IsLoaded book budget state.new) }
    ensures refused { IfErr result (IsRuleCause book budget) }
    ensures kept { OnErr result (IsSame state.old state.new) }
{
    compact_if_due(&mut state.cache)?;
    match load_state(alloc, book, budget) {
        Ok(loaded) => {
            *state = loaded;
            Ok(())
        }
        Err(refused) => Err(refused_edit(refused)),
    }
}

// The book with the rule, whose name is new.
fn with_new_rule(alloc: Global, book: &mut Book, rule: Rule) -> Result<Book, EditRefused>
    requires rule { IsWellFormedRule book.old.universe (rule_of rule) }
    requires few { length book.old.rules < most_rules }
    ensures same { book.new ≡ book.old }
    ensures book { IfOk result (λ b. b ≡ with_rule book.old (rule_of rule)) }
    ensures new { IfOk result (λ _. IsNewName book.old.rules rule.name) }
    ensures duplicate { ¬ IsNewName book.old.rules rule.name → result ≡ Err DuplicateRule }
    ensures refused { (budget : ℕ) → IfErr result (IsAddCause book.old (rule_of rule) budget) }
{
    well_formed(book);
    match place_of_rule(book.rules(), rule.name.as_str()) {
        Some(_) => Err(EditRefused::DuplicateRule),
        None => Ok(book.with_rule(alloc, rule)?),
    }
}

/// Adds a rule as the last one.
pub(crate) fn add_rule(
    alloc: Global,
    state: &mut State,
    budget: u64,
    rule: Rule,
) -> Result<(), EditRefused>
    requires state { IsState state.old }
    requires rule { IsWellFormedRule state.old.book.universe (rule_of rule) }
    requires few { length state.old.book.rules < most_rules }
    ensures loaded { OnOk result (IsLoaded (with_rule state.old.book (rule_of rule)) budget
        state.new) }
    ensures duplicate { ¬ IsNewName state.old.book.rules rule.name → result ≡ Err DuplicateRule }
    ensures refused { IfErr result (IsAddCause state.old.book (rule_of rule) budget) }
    ensures kept { OnErr result (IsSame state.old state.new) }
{
    let book = with_new_rule(alloc, &mut state.book, rule)?;
    replace(alloc, state, budget, book)
}

/// Drops the rule of that name.
pub(crate) fn drop_rule(
    alloc: Global,
    state: &mut State,
    budget: u64,
    name: &str,
) -> Result<(), EditRefused>
    requires state { IsState state.old }
    ensures loaded { OnOk result (IsDroppedTo state.old.book name.now budget state.new) }
    ensures no_rule { IsNewName state.old.book.rules name.now → result ≡ Err NoRule }
    ensures refused { IfErr result (IsDropCause state.old.book name.now budget) }
    ensures kept { OnErr result (IsSame state.old state.new) }
{
    let Some(place) = place_of_rule(state.book.rules(), name) else {
        return Err(EditRefused::NoRule);
    };
    let book = state.book.without_rule(alloc, place)?;
    replace(alloc, state, budget, book)
}
