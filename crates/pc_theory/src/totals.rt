//! What was spent on several parts together.
ghost use Rattle.std.specs.Prelude.{◌≡◌, ◌≤◌, ◌∷◌, [], IfOk, Option, sum_by};
ghost use Rattle.pc_components.specs.View.{Kept, AreComponentsOf};
ghost use Rattle.pc_sheet.specs.Sheet.{Sheet};
ghost use Rattle.pc_sheet.specs.declared.ids.CellId.{CellId};
ghost use Rattle.pc_theory.specs.Theories.{rules_alone};
ghost use Rattle.pc_theory.specs.Spendings.{calls_of, learned_of, IsSpendingOf, IsSpentOn};

use crate::spending::{PartSpending, Spending};
use pc_lits::Tally;
use std::alloc::{AllocError, Global};

/// The spending of these parts, for which so many literals were placed of a budget. Counts of more than 128 bits, which no
/// search reaches, are taken for want of memory.
pub(crate) fn total(
    parts: Vec<PartSpending>,
    spent: u64,
    budget: u64,
) -> Result<Spending, AllocError>
    requires within { spent ≤ budget }
    ensures parts { IfOk result (λ s. s.parts ≡ parts) }
    ensures placed { IfOk result (λ s. s.tally.placed ≡ spent) }
    ensures limit { IfOk result (λ s. s.tally.limit ≡ budget) }
    ensures learned { IfOk result (λ s. s.tally.learned ≡ sum_by learned_of parts.items) }
    ensures calls { IfOk result (λ s. s.tally.calls ≡ sum_by calls_of parts.items) }
{
    let mut learned: u128 = 0;
    let mut calls: u128 = 0;
    for part in &parts {
        learned = learned.checked_add(part.tally.learned).ok_or(AllocError)?;
        calls = calls.checked_add(part.tally.calls).ok_or(AllocError)?;
    }
    Ok(Spending {
        tally: Tally {
            placed: spent,
            learned,
            calls,
            limit: budget,
        },
        parts,
    })
}

/// The spending of one part alone.
pub fn alone(alloc: Global, place: PartSpending) -> Result<Spending, AllocError>
    ensures tally { IfOk result (λ s. s.tally ≡ place.tally) }
    ensures parts { IfOk result (λ s. s.parts.items ≡ place ∷ []) }
    ensures spends { IfOk result (λ s. (sheet : Sheet) (touched : Option CellId) (kept : Kept) →
        AreComponentsOf (rules_alone sheet) kept → IsSpentOn sheet touched kept place →
        IsSpendingOf sheet touched s) }
{
    let tally = place.tally;
    let mut parts = Vec::new(alloc);
    parts.push(place)?;
    Ok(Spending { tally, parts })
}
