//! Asking a book's entries whether a formula is so.
ghost use Rattle.std.specs.Prelude.{◌≡◌, ◌<◌, ◌≤◌, ◌+◌, ◌*◌, ◌^◌, List, [], All, IfErr, IfOk, ℕ};
ghost use Rattle.pc_sheet.specs.Sheet.{Sheet, Statement};
ghost use Rattle.pc_sheet.specs.Limits.{most_weight};
ghost use Rattle.pc_sheet.specs.Weight.{weight};
ghost use Rattle.pc_accept.specs.Asked.{asked};
ghost use Rattle.pc_components.specs.View.{AreComponentsOf};
ghost use Rattle.pc_ground.specs.Grounded.{grounded};
ghost use Rattle.pc_log.specs.Lines.{LogLine};
ghost use Rattle.pc_problem.specs.Room.{HasRoom};
ghost use Rattle.pc_repairs.specs.Searches.{IsWholeSearch};
ghost use Rattle.pc_solver.specs.Spending.{StopSays};
ghost use Rattle.pc_ask.specs.Asking.{AreReadSizes, AskSays, AskStops, IsPartSearch};
ghost use Rattle.pc_ask.specs.inside.Answered.{IsSearchOf, SearchSays};
ghost use Rattle.pc_ask.specs.inside.Reading.{AreCandidates};

use crate::answer::{Answer, AskStop};
use crate::candidates::{Candidates, find_candidates};
use crate::finding::{Found, find};
use crate::narrowing::Choosing;
use crate::part::{AskTask, asked_part, axioms_over, part_solver};
use pc_books::{Book, few_entries, well_formed};
use pc_components::Components;
use pc_ground::Ground;
use pc_laws::different_sublists_are_ordered;
use pc_lits::Tally;
use pc_log::Log;
use pc_problem::laws::parts_are_searched;
use pc_solver::Stop;
use pc_world_list::Choices;
use std::alloc::{AllocError, Global};

/// A book in which something is asked by its last rule, and the parts of the book without that rule.
#[derive(Clone, Copy)]
pub struct Question<'a> {
    pub book: &'a Book,
    pub components: &'a Components,
}

// Searches the asked book by its ground for what is asked about: the part alone that has what is asked.
fn search_book<'a, 'b, C: Choices>(
    alloc: Global,
    view: &C,
    question: Question<'a>,
    ground: &'a Ground,
    chosen: &'a Candidates<'b>,
    log: &mut Log,
    tally: &mut Tally,
) -> Result<Option<Found>, Stop>
    requires ground { ground.now ≡ grounded question.book.now }
    requires literals { All (All (λ l. l.variable.0 < ground.now.variables)) ground.now.clauses }
    requires components { AreComponentsOf (C.sheet view.now) question.components.now }
    requires asked { (f : Statement) × (question.book.now ≡ asked (C.sheet view.now) f) }
    requires chosen { AreCandidates (C.sheet view.now) question.book.now
        chosen.now.entries.items chosen.now.fitting.now chosen.now.parts.items }
    requires new_log { log.old ≡ [] }
    requires counts { HasRoom 120 tally.old }
    ensures says { (f : Statement) → question.entry.book.now ≡ asked (C.sheet view.now) f →
        IfOk result (SearchSays (C.sheet view.now) f log.new) }
    ensures stop { IfErr result (StopSays tally.new) }
    ensures search { IsSearchOf (C.sheet view.now) question.entry.book.now tally.old tally.new
        log.new }
{
    different_sublists_are_ordered();
    parts_are_searched();
    let book = question.book;
    let own = view.book();
    well_formed(own);
    well_formed(book);
    few_entries(book);
    ground.few_axioms();
    let part = asked_part(alloc, book, ground, question.components)?;
    let axioms = axioms_over(alloc, book, ground, &part)?;
    let mut solver = part_solver(alloc, book, ground, &part, &axioms)?;
    let choosing = Choosing {
        task: AskTask {
            alloc,
            book,
            ground,
            variables: &part.variables,
        },
        entries: &chosen.entries,
        fitting: chosen.fitting,
        parts: &chosen.parts,
    };
    let found = find(choosing, &mut solver, log, tally)?;
    Ok(found)
}

// What is answered by what was found, with a copy of the ground's names.
fn answer_of(
    alloc: Global,
    ground: &Ground,
    found: Option<Found>,
) -> Result<Option<Answer>, AllocError>
    ensures { (sheet : Sheet) (f : Statement) (log : List LogLine) →
        ground.now ≡ grounded (asked sheet f) → SearchSays sheet f log found →
        IfOk result (AskSays sheet f log) }
{
    match found {
        None => Ok(None),
        Some(
            Found {
                support,
                shown,
                last,
            },
        ) => {
            let names = ground.names().copy(alloc)?;
            Ok(Some(Answer {
                support,
                shown,
                names,
                last,
            }))
        }
    }
}

// Answers by the ground of the asked book.
fn ask_grounded<C: Choices>(
    alloc: Global,
    view: &C,
    question: Question<'_>,
    ground: &Ground,
    log: &mut Log,
    tally: &mut Tally,
) -> Result<Option<Answer>, AskStop>
    requires ground { ground.now ≡ grounded question.book.now }
    requires small { weight question.book.now ≤ most_weight }
    requires literals { All (All (λ l. l.variable.0 < ground.now.variables)) ground.now.clauses }
    requires components { AreComponentsOf (C.sheet view.now) question.components.now }
    requires asked { (f : Statement) × (question.book.now ≡ asked (C.sheet view.now) f) }
    requires new_log { log.old ≡ [] }
    requires counts { HasRoom 120 tally.old }
    ensures says { (f : Statement) → question.entry.book.now ≡ asked (C.sheet view.now) f →
        IfOk result (AskSays (C.sheet view.now) f log.new) }
    ensures stop { IfErr result (AskStops question.entry.book.now tally.new) }
    ensures search { IsSearchOf (C.sheet view.now) question.entry.book.now tally.old tally.new
        log.new }
{
    let chosen = find_candidates(alloc, view, question.book, ground)?;
    let found = search_book(alloc, view, question, ground, &chosen, log, tally)?;
    let answer = answer_of(alloc, ground, found)?;
    Ok(answer)
}

/// Whether the view's entries imply the formula that the last rule of the asked book denies: the asked book is the view's
/// with that rule, and the parts are the view's. Ok is the formula's least support with what a certificate of it is made of;
/// `None` exactly where the formula isn't implied. Only the part with the last rule is searched, which ties the parts together
/// that the formula reads. The log is empty before. Whatever is answered, tally and log have what was done. The ground is the
/// view's: what the rule comes to is pushed on top of it, and taken away again.
pub fn ask<C: Choices>(
    alloc: Global,
    view: &C,
    question: Question<'_>,
    ground: &mut Ground,
    log: &mut Log,
    tally: &mut Tally,
) -> Result<Option<Answer>, AskStop>
    requires ground { ground.old ≡ grounded (C.sheet view.now) }
    requires components { AreComponentsOf (C.sheet view.now) question.components.now }
    requires asked { (f : Statement) × (question.book.now ≡ asked (C.sheet view.now) f) }
    requires new_log { log.old ≡ [] }
    requires few_learned { tally.old.learned < 2 ^ 120 }
    requires few_calls { tally.old.calls < 2 ^ 120 }
    ensures same { ground.new ≡ ground.old }
    ensures says { (f : Statement) → question.entry.book.now ≡ asked (C.sheet view.now) f →
        IfOk result (AskSays (C.sheet view.now) f log.new) }
    ensures large { IfOk result (λ _. weight question.entry.book.now ≤ most_weight) }
    ensures stop { IfErr result (AskStops question.entry.book.now tally.new) }
    ensures search { (f : Statement) (entries sets : ℕ) →
        question.entry.book.now ≡ asked (C.sheet view.now) f →
        AreReadSizes (C.sheet view.now) f entries sets →
        IsWholeSearch question.entry.book.now [] (sets * (entries + 2) + 1) tally.old tally.new
        log.new }
    ensures whole { (most : ℕ) × IsWholeSearch question.entry.book.now [] most tally.old tally.new
        log.new }
    ensures part { (most : ℕ) × IsPartSearch question.entry.book.now most tally.old tally.new
        log.new }
{
    let size = ground.size();
    ground.push_rule(alloc, question.book)?;
    let answer = ask_grounded(alloc, view, question, ground, log, tally);
    ground.pop_rule(size);
    answer
}
