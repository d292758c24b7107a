//! The tests of what a certificate shows: its used entries and its assignment, or its sets.

ghost use Rattle.std.specs.Prelude.{◌≡◌, ◌<◌, ◌≤◌, ◌↔◌, All, Contains, IsTrue, List, length, map};
ghost use Rattle.pc_sheet.specs.Limits.{most_rules};
ghost use Rattle.pc_sheet.specs.declared.ids.Entry.{Entry as TheEntry};
ghost use Rattle.pc_checker.specs.Entered.{ArePairsMarked, HasEachPair, HasPlace};
ghost use Rattle.pc_checker.specs.Made.{AreFirstApart, set_values};
ghost use Rattle.pc_checker.specs.inside.Parts.{BarredBy, IsFirstLine, IsLineOfValues, IsRuleBroken, IsClaimVerdict, IsShownFault, IsOneSetFault, IsFirstSetFault, IsSetsFault};
ghost use Rattle.pc_checker.specs.inside.Prepared.{AreSetsPrepared, IsClaimPrepared, IsShownPrepared};
ghost use Rattle.pc_checker.specs.Verdicts.{IsHeld};
ghost use Rattle.pc_cert.specs.Views.{reading_of, said_of, set_of};

use crate::entered::is_entered;
use crate::sets::first_in_set;
use crate::verdict::Verdict;
use pc_books::{Assignment, Book, has_target, well_formed};
use pc_cert::{Cert, Claim, Said, SaidSet};
use pc_lits::Values;
use pc_logic::eval;
use pc_sheet::{Target, ValueId};

// Used entries and an assignment: values as they are said, what a fault at their end is told by, and the values alone.
#[derive(Clone, Copy)]
struct Shown<'a> {
    uses: &'a [Said],
    values: &'a [Said],
    after: u32,
    assigned: &'a Assignment,
}

/// The verdict, if the used entries, the assignment or the sets don't stand. So many of the first sets are known to be apart.
pub(crate) fn claim_verdict(
    book: &Book,
    cert: &Cert,
    entered: &[bool],
    values: &Assignment,
    sets: &[Assignment],
    apart: usize,
    marks: &mut Values,
) -> Option<Verdict>
    requires prepared { IsClaimPrepared book.now cert.now entered.now values.now sets.now }
    requires apart { AreFirstApart cert.now.sets.items apart }
    requires marks { HasEachPair book.now marks.old }
    ensures verdict { IsClaimVerdict book.now (reading_of cert.now) result }
    ensures room { length marks.new ≡ length marks.old }
{
    match cert.claim {
        Claim::Implied(_) => fault_of_own(book, cert, entered, values, None),
        Claim::Inconsistent => None,
        Claim::Repairs => fault_of_sets(book, &cert.sets, entered, sets, None, apart, marks),
        Claim::Not(target) => {
            fault_of_sets(book, &cert.sets, entered, sets, Some(target), apart, marks)
        }
        Claim::Against(rule) => fault_of_own(book, cert, entered, values, Some(rule)),
    }
}

// Of the certificate's own entries and assignment.
fn fault_of_own(
    book: &Book,
    cert: &Cert,
    entered: &[bool],
    values: &Assignment,
    left_out: Option<u32>,
) -> Option<Verdict>
    requires { IsShownPrepared book.now cert.now.uses.items cert.now.values.items entered.now
        values.now }
    ensures { IsShownFault book.now left_out (map said_of cert.now.uses.items)
        (map said_of cert.now.values.items) cert.now.after result }
{
    let shown = Shown {
        uses: &cert.uses,
        values: &cert.values,
        after: cert.after,
        assigned: values,
    };
    fault_of(book, shown, entered, left_out)
}

// The first of the four tests that fails. A rule may be left out.
fn fault_of(
    book: &Book,
    shown: Shown<'_>,
    entered: &[bool],
    left_out: Option<u32>,
) -> Option<Verdict>
    requires { IsShownPrepared book.now shown.uses.now shown.values.now entered.now
        shown.assigned.now }
    ensures { IsShownFault book.now left_out (map said_of shown.entry.uses.now)
        (map said_of shown.entry.values.now) shown.entry.after result }
{
    well_formed(book);
    if let Some(line) = first_not_entered(entered, shown.uses) {
        return Some(Verdict::UseNotEntered { line });
    }
    if let Some(line) = fault_of_values(book.cells(), shown.values, shown.after) {
        return Some(Verdict::BadValues { line });
    }
    if let Some(line) = first_not_held(shown.assigned.values(), shown.uses) {
        return Some(Verdict::UseNotHeld { line });
    }
    if let Some(rule) = first_broken(book, shown.assigned, left_out) {
        return Some(Verdict::RuleBroken { rule });
    }
    None
}

// Set after set, and then the sets among one another. An assignment may not have the barred target.
fn fault_of_sets(
    book: &Book,
    sets: &[SaidSet],
    entered: &[bool],
    assigned: &[Assignment],
    barred: Option<Target>,
    apart: usize,
    marks: &mut Values,
) -> Option<Verdict>
    requires prepared { AreSetsPrepared book.now sets.now entered.now assigned.now }
    requires apart { AreFirstApart sets.now apart }
    requires marks { HasEachPair book.now marks.old }
    ensures fault { IsSetsFault book.now (BarredBy barred) (map set_of sets.now) result }
    ensures room { length marks.new ≡ length marks.old }
{
    well_formed(book);
    if let Some(verdict) = first_faulty_set(book, sets, entered, assigned, barred) {
        return Some(verdict);
    }
    if let Some(line) = first_in_set(sets, apart, marks) {
        return Some(Verdict::SetInSet { line });
    }
    None
}

// The verdict on the first set that doesn't stand by itself.
fn first_faulty_set(
    book: &Book,
    sets: &[SaidSet],
    entered: &[bool],
    assigned: &[Assignment],
    barred: Option<Target>,
) -> Option<Verdict>
    requires { AreSetsPrepared book.now sets.now entered.now assigned.now }
    ensures { IsFirstSetFault book.now (BarredBy barred) (map set_of sets.now) result }
{
    for (place, set) in sets.iter().enumerate() {
        if let Some(verdict) = fault_of_set(book, set, entered, &assigned[place], barred) {
            return Some(verdict);
        }
    }
    None
}

// The verdict on a set that doesn't stand by itself.
fn fault_of_set(
    book: &Book,
    set: &SaidSet,
    entered: &[bool],
    assigned: &Assignment,
    barred: Option<Target>,
) -> Option<Verdict>
    requires { IsShownPrepared book.now set.now.uses.items set.now.values.items entered.now
        assigned.now }
    ensures { IsOneSetFault book.now (BarredBy barred) (set_of set.now) result }
{
    let shown = Shown {
        uses: &set.uses,
        values: &set.values,
        after: set.after,
        assigned,
    };
    if let Some(verdict) = fault_of(book, shown, entered, None) {
        return Some(verdict);
    }
    if is_barred(assigned.values(), barred) {
        return Some(Verdict::HasValue { line: set.line });
    }
    None
}

// Whether the assignment has the barred target.
fn is_barred(values: &[ValueId], barred: Option<Target>) -> bool
    ensures { IsTrue result ↔ BarredBy barred values.now }
{
    match barred {
        None => false,
        Some(target) => has_target(values, target),
    }
}

// The line of the first used entry that isn't entered.
fn first_not_entered(entered: &[bool], uses: &[Said]) -> Option<u32>
    requires { All (λ s. HasPlace entered.now s.entry) uses.now }
    ensures { (entries : List TheEntry) → ArePairsMarked entries entered.now →
        IsFirstLine (λ e. Contains entries e.1) (map said_of uses.now) result }
{
    for said in uses {
        if !is_entered(entered, said.entry) {
            return Some(said.line);
        }
    }
    None
}

// The line of the first value that isn't of the cell whose turn it is, or the one at which a value is missing.
fn fault_of_values(cells: usize, values: &[Said], after: u32) -> Option<u32>
    ensures { IsLineOfValues cells (map said_of values.now) after result }
{
    for (place, said) in values.iter().enumerate() {
        if usize::from(said.entry.cell.0) != place {
            return Some(said.line);
        }
    }
    if values.len() < cells {
        Some(after)
    } else {
        None
    }
}

// The line of the first used entry that the assignment hasn't.
fn first_not_held(values: &[ValueId], uses: &[Said]) -> Option<u32>
    requires { All (λ s. s.entry.cell.0 < length values.now) uses.now }
    ensures { IsFirstLine (IsHeld values.now) (map said_of uses.now) result }
{
    for said in uses {
        if values[usize::from(said.entry.cell.0)].0 != said.entry.value.0 {
            return Some(said.line);
        }
    }
    None
}

// The first rule that the assignment makes false, but for the one that is left out.
fn first_broken(book: &Book, values: &Assignment, left_out: Option<u32>) -> Option<u32>
    requires { length book.now.rules ≤ most_rules }
    ensures { IsRuleBroken book.now left_out values.now result }
{
    let count = book.rules().len();
    for rule in 0..count {
        if left_out != Some(rule as u32) && !eval(book, rule, values) {
            return Some(rule as u32);
        }
    }
    None
}
