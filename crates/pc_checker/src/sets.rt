//! Sets of used entries: which lie within one another, and which entries aren't in one. A test of two sets marks the pairs of one
//! and looks at those of the other, so that it takes no more steps than both have entries.

ghost use Rattle.std.specs.Prelude.{◌≡◌, ◌<◌, ◌↔◌, ◌∷◌, [], All, Bool, Contains, IsTrue, List, OnOk, Option, length, map};
ghost use Rattle.pc_accept.specs.Sets.{block_of};
ghost use Rattle.pc_sheet.specs.declared.ids.Entry.{Entry as TheEntry};
ghost use Rattle.pc_cert.specs.Views.{said_of, set_of};
ghost use Rattle.pc_checker.specs.Drafts.{AreWritten};
ghost use Rattle.pc_checker.specs.Entered.{AreUsesMarked, HasPlace, HavePlaces, SetsHavePlaces, pair_place};
ghost use Rattle.pc_checker.specs.Made.{AreApartAt, AreFirstApart, entries_of};
ghost use Rattle.pc_checker.specs.Verdicts.{AreApart};
ghost use Rattle.pc_checker.specs.inside.Parts.{IsLineInSet};

use crate::draft::ClauseDraft;
use crate::entered::place_of;
use pc_cert::{Said, SaidSet};
use pc_lits::{Lit, Values, Var};
use pc_sheet::Entry;
use std::alloc::{AllocError, Global};

// What is made true to mark the entry.
fn mark_of(entry: Entry) -> Lit
    ensures { result ≡ record { variable = record { 0 = pair_place entry }; sign = Bool.true } }
{
    Lit::positive(Var(place_of(entry) as u32))
}

// Marks the used entries, and no other.
fn mark_uses(uses: &[Said], marks: &mut Values)
    requires { HavePlaces marks.old uses.now }
    ensures marked { AreUsesMarked (entries_of uses.now) marks.new }
    ensures room { length marks.new ≡ length marks.old }
{
    marks.clear();
    for said in uses {
        marks.assign(mark_of(said.entry));
    }
}

// Whether the entry is one of those that were marked.
fn is_used(marks: &Values, entry: Entry) -> bool
    requires { HasPlace marks.now entry }
    ensures { (entries : List TheEntry) → AreUsesMarked entries marks.now →
        (IsTrue result ↔ Contains entries entry) }
{
    marks.is_true(mark_of(entry))
}

// Whether each used entry is one of those that were marked.
fn are_used(marks: &Values, uses: &[Said]) -> bool
    requires { HavePlaces marks.now uses.now }
    ensures { (entries : List TheEntry) → AreUsesMarked entries marks.now →
        (IsTrue result ↔ All (λ e. Contains entries e.1) (map said_of uses.now)) }
{
    for said in uses {
        if !is_used(marks, said.entry) {
            return false;
        }
    }
    true
}

// Whether each used entry is one of the others.
fn is_within(uses: &[Said], others: &[Said], marks: &mut Values) -> bool
    requires uses { HavePlaces marks.old uses.now }
    requires others { HavePlaces marks.old others.now }
    ensures within { IsTrue result ↔
        All (λ e. Contains (entries_of others.now) e.1) (map said_of uses.now) }
    ensures room { length marks.new ≡ length marks.old }
{
    mark_uses(others, marks);
    are_used(marks, uses)
}

// Whether neither set lies within the other.
fn are_apart(set: &SaidSet, other: &SaidSet, marks: &mut Values) -> bool
    requires set { HavePlaces marks.old set.now.uses.items }
    requires other { HavePlaces marks.old other.now.uses.items }
    ensures apart { IsTrue result ↔ AreApart (set_of set.now) (set_of other.now) }
    ensures room { length marks.new ≡ length marks.old }
{
    if is_within(&set.uses, &other.uses, marks) {
        return false;
    }
    !is_within(&other.uses, &set.uses, marks)
}

// Whether the set of that place lies within none of those before, and none of them within it.
fn is_apart_from(sets: &[SaidSet], place: usize, marks: &mut Values) -> bool
    requires place { place < length sets.now }
    requires places { SetsHavePlaces marks.old sets.now }
    ensures apart { IsTrue result ↔ AreApartAt sets.now place }
    ensures room { length marks.new ≡ length marks.old }
{
    for earlier in 0..place {
        if !are_apart(&sets[earlier], &sets[place], marks) {
            return false;
        }
    }
    true
}

/// The line of the first set that lies within an earlier one, or in which an earlier one lies. So many of the first are known to be
/// apart from one another.
pub(crate) fn first_in_set(sets: &[SaidSet], apart: usize, marks: &mut Values) -> Option<u32>
    requires places { SetsHavePlaces marks.old sets.now }
    requires apart { AreFirstApart sets.now apart }
    ensures line { IsLineInSet (map set_of sets.now) result }
    ensures room { length marks.new ≡ length marks.old }
{
    for place in apart..sets.len() {
        if !is_apart_from(sets, place, marks) {
            return Some(sets[place].line);
        }
    }
    None
}

/// Writes that some entry stands that isn't among the used ones.
pub(crate) fn write_outside(
    alloc: Global,
    entries: &[Entry],
    uses: &[Said],
    draft: &mut ClauseDraft,
    marks: &mut Values,
) -> Result<(), AllocError>
    requires entries { All (HasPlace marks.old) entries.now }
    requires uses { HavePlaces marks.old uses.now }
    ensures written { OnOk result
        (AreWritten draft.old draft.new (block_of entries.now (entries_of uses.now))) }
    ensures room { length marks.new ≡ length marks.old }
{
    mark_uses(uses, marks);
    write_unmarked(alloc, entries, marks, draft)
}

// Writes that some entry stands that isn't marked.
fn write_unmarked(
    alloc: Global,
    entries: &[Entry],
    marks: &Values,
    draft: &mut ClauseDraft,
) -> Result<(), AllocError>
    requires { All (HasPlace marks.now) entries.now }
    ensures { (used : List TheEntry) → AreUsesMarked used marks.now →
        OnOk result (AreWritten draft.old draft.new (block_of entries.now used)) }
{
    for entry in entries {
        write_if_unmarked(alloc, *entry, marks, draft)?;
    }
    Ok(())
}

// Writes that the entry stands, if it isn't marked.
fn write_if_unmarked(
    alloc: Global,
    entry: Entry,
    marks: &Values,
    draft: &mut ClauseDraft,
) -> Result<(), AllocError>
    requires { HasPlace marks.now entry }
    ensures { (used : List TheEntry) → AreUsesMarked used marks.now →
        OnOk result (AreWritten draft.old draft.new (block_of (entry ∷ []) used)) }
{
    if is_used(marks, entry) {
        return Ok(());
    }
    draft.push_pair(alloc, entry.cell, entry.value, true)?;
    Ok(())
}
