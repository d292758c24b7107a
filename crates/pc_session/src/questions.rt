//! Asking by the ground that a session keeps.
//!
//! The ground is taken out of the theory while it has the rule that is asked, and put back without it. What may be kept together
//! is told by all else that is kept.
ghost use Rattle.std.specs.Prelude.{◌≡◌, ◌<◌, ◌≤◌, ◌+◌, ◌*◌, ◌^◌, [], ℕ, IfErr, IfOk};
ghost use Rattle.pc_sheet.specs.Limits.{most_weight};
ghost use Rattle.pc_sheet.specs.Sheet.{Statement};
ghost use Rattle.pc_sheet.specs.Weight.{weight};
ghost use Rattle.pc_accept.specs.Asked.{asked};
ghost use Rattle.pc_ask.specs.Asking.{AreReadSizes, AskSays, AskStops, IsPartSearch};
ghost use Rattle.pc_repairs.specs.Searches.{IsWholeSearch};
ghost use Rattle.pc_session.specs.inside.States.{IsKept};

use crate::choices::{chosen_cells, chosen_sets};
use crate::state::State;
use pc_ask::{Answer, AskStop, Question, ask};
use pc_books::{Assignment, Book};
use pc_lits::Tally;
use pc_log::Log;
use pc_sheet::CellId;
use pc_world_list::{Choices, Worlds};
use std::alloc::Global;
use std::marker::Model;

/// A state whose ground is lent away, seen as its sheet.
#[derive(Drop)]
struct Lent<'a> {
    state: &'a State,
}

impl<'a> Model for Lent<'a> {
    ghost use Rattle.pc_sheet.specs.Codes.{coded_sheet};
    ghost use Rattle.pc_sheet.specs.Sheet.{Sheet};
    ghost use Rattle.pc_session.specs.inside.Lent.{IsLent};

    ghost Value = { Sheet };

    ghost coded = { coded_sheet };

    ghost view = { λ l. l.state.now.book };

    ghost invariant = { λ l. IsLent l.state.now };
}

impl Choices for Lent<'_> {
    ghost sheet = { λ s. s };

    fn book(&self) -> &Book {
        &self.state.book
    }

    fn fitting(&self) -> &Assignment {
        self.state.theory.fitting()
    }

    fn parts(&self) -> usize {
        self.state.chosen.len()
    }

    fn cells(&self, part: usize) -> &[CellId] {
        chosen_cells(self.state, part)
    }

    fn sets(&self, part: usize) -> &Worlds {
        chosen_sets(self.state, part)
    }
}

/// Whether the entries imply the formula that the last rule of the asked book denies: what `ask` answers.
pub(crate) fn ask_lent(
    alloc: Global,
    state: &mut State,
    book: &Book,
    log: &mut Log,
    tally: &mut Tally,
) -> Result<Option<Answer>, AskStop>
    requires kept { IsKept state.old }
    requires asked { (f : Statement) × (book.now ≡ asked state.old.book f) }
    requires new_log { log.old ≡ [] }
    requires few_learned { tally.old.learned < 2 ^ 120 }
    requires few_calls { tally.old.calls < 2 ^ 120 }
    ensures same { state.new ≡ state.old }
    ensures says { (f : Statement) → book.now ≡ asked state.old.book f →
        IfOk result (AskSays state.old.book f log.new) }
    ensures large { IfOk result (λ _. weight book.now ≤ most_weight) }
    ensures stop { IfErr result (AskStops book.now tally.new) }
    ensures search { (f : Statement) (entries sets : ℕ) → book.now ≡ asked state.old.book f →
        AreReadSizes state.old.book f entries sets →
        IsWholeSearch book.now [] (sets * (entries + 2) + 1) tally.old tally.new log.new }
    ensures whole { (most : ℕ) × IsWholeSearch book.now [] most tally.old tally.new log.new }
    ensures part { (most : ℕ) × IsPartSearch book.now most tally.old tally.new log.new }
{
    let mut ground = state.theory.take_ground(alloc);
    let answer = {
        let lent = Lent { state: &*state };
        let question = Question {
            book,
            components: lent.state.theory.components(),
        };
        ask(alloc, &lent, question, &mut ground, log, tally)
    };
    state.theory.put_ground(ground);
    answer
}
