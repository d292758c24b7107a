//! The clauses that hints name by the numbers of lines.

ghost use Rattle.std.specs.Prelude.{◌≡◌, ◌<◌, ◌↔◌, ◌-◌, All, IsTrue, length, map};
ghost use Rattle.pc_lits.specs.Hints.{clauses_at};
ghost use Rattle.pc_checker.specs.inside.Numbers.{IsNumberUpTo, places_of};
ghost use Rattle.pc_checker.specs.inside.Parts.{places_meant};

use crate::line_clauses::LineClauses;
use pc_lits::{Hints, Lit};

/// The clauses of lines by their numbers, from 1, in the order of the numbers.
#[derive(Clone, Copy)]
pub(crate) struct HintsByNumber<'a> {
    pub clauses: &'a LineClauses,
    pub numbers: &'a [u64],
    ghost within: { All (IsNumberUpTo (length clauses.now)) numbers.now },
}

impl Hints for HintsByNumber<'_> {
    ghost clauses = { λ hints. clauses_at hints.clauses.now (places_of hints.numbers.now) };

    fn count(&self) -> usize {
        self.numbers.len()
    }

    fn clause(&self, place: usize) -> &[Lit] {
        let number = self.numbers[place];
        self.clauses.get((number - 1) as usize)
    }
}

/// Whether each number, counted from 1, is that of a line before this place, counted from 0.
pub(crate) fn are_earlier(numbers: &[u64], place: usize) -> bool
    ensures meant { IsTrue result ↔ All (λ h. h < place) (places_meant place numbers.now) }
    ensures numbers { IsTrue result ↔ All (IsNumberUpTo place) numbers.now }
{
    for number in numbers {
        if !is_number_up_to(*number, place as u64) {
            return false;
        }
    }
    true
}

fn is_number_up_to(number: u64, most: u64) -> bool
    ensures { IsTrue result ↔ IsNumberUpTo most number }
{
    1 <= number && number <= most
}
