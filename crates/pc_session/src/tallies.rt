//! Blank tallies.
ghost use Rattle.std.specs.Prelude.{◌≡◌, ◌≤◌};
ghost use Rattle.pc_sheet.specs.Limits.{most_cells};
ghost use Rattle.pc_session.specs.Views.{counts_of, none_spent};
ghost use Rattle.pc_theory.specs.Edits.{IsBlankOn};

use pc_lits::Tally;
use pc_theory::PartSpending;
use std::alloc::Global;

/// Nothing is spent.
pub(crate) fn blank_tally(limit: u64) -> Tally
    ensures { counts_of result ≡ none_spent limit }
{
    Tally {
        placed: 0,
        learned: 0,
        calls: 0,
        limit,
    }
}

/// Nothing is spent on the part of this number.
pub(crate) fn blank_place(alloc: Global, part: usize, limit: u64) -> PartSpending
    requires { part ≤ most_cells }
    ensures blank { IsBlankOn part result }
    ensures limit { result.tally.limit ≡ limit }
{
    PartSpending {
        part: part as u32,
        tally: blank_tally(limit),
        logs: Vec::new(alloc),
    }
}
