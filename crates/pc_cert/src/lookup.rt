// What the names in a line stand for in a book.
ghost use Rattle.std.specs.Prelude.{◌≡◌, ◌↔◌, ℕ, Some};
ghost use Rattle.std.specs.Option.{option_map};
ghost use Rattle.pc_formula.specs.Tree.{cell_of, value_of};
ghost use Rattle.pc_sheet.specs.declared.ids.Entry.{Entry};
ghost use Rattle.pc_sheet.specs.declared.ids.Target.{Target as TheTarget};
ghost use Rattle.pc_accept.specs.Accepts.{Claim as PlainClaim};
ghost use Rattle.pc_sheet.specs.declared.ids.CellId.{CellId};
ghost use Rattle.pc_sheet.specs.declared.ids.ValueId.{ValueId};
ghost use Rattle.pc_elaborate.specs.Elaboration.{IsCellNamed};
ghost use Rattle.pc_cert.specs.Meaning.{AreValuesNamed};
ghost use Rattle.pc_cert.specs.Claims.{IsPairNamed, IsRuleNamed, IsTargetNamed, IsClaimNamed, written_implied, written_unimplied, written_against};
ghost use Rattle.pc_cert.specs.Trees.{claim_of, pair_of};
ghost use Rattle.pc_cert.specs.Views.{claim_of as plain_claim};

use crate::cert::Claim;
use crate::tree::{ClaimTree, PairTree};
use pc_books::{Book, well_formed};
use pc_elaborate::{find_cell, find_value};
use pc_formula::{CellTree, Name, ValueTree};
use pc_sheet::{CellId, Entry, Target, ValueId};

/// The cell that is named.
pub fn named_cell(book: &Book, cell: &CellTree) -> Option<CellId>
    ensures { (id : CellId) → (result ≡ Some id) ↔ IsCellNamed book.now.universe (cell_of cell.now)
        id }
{
    let Ok(id) = find_cell(book, cell) else {
        return None;
    };
    Some(id)
}

/// The entry that is named.
pub fn named_entry(book: &Book, pair: &PairTree) -> Option<Entry>
    ensures { (e : Entry) → (result ≡ Some e) ↔ IsPairNamed book.now.universe (pair_of pair.now) e }
{
    let Ok(cell) = find_cell(book, &pair.cell) else {
        return None;
    };
    let Ok(value) = find_value(book, cell, &pair.value) else {
        return None;
    };
    Some(Entry { cell, value })
}

/// The cell and its two values that are named.
pub fn named_values(
    book: &Book,
    cell: &CellTree,
    first: &ValueTree,
    second: &ValueTree,
) -> Option<(CellId, ValueId, ValueId)>
    ensures { (id : CellId) (v w : ValueId) → (result ≡ Some (id, v, w)) ↔
        AreValuesNamed book.now.universe (cell_of cell.now) (value_of first.now)
        (value_of second.now) id v w }
{
    let Ok(id) = find_cell(book, cell) else {
        return None;
    };
    let Ok(v) = find_value(book, id, first) else {
        return None;
    };
    let Ok(w) = find_value(book, id, second) else {
        return None;
    };
    Some((id, v, w))
}

/// The number of the rule of that name.
pub fn named_rule(book: &Book, name: &Name) -> Option<u32>
    ensures { (r : ℕ) → (result ≡ Some r) ↔ IsRuleNamed book.now name.now r }
{
    well_formed(book);
    for (place, rule) in book.rules().iter().enumerate() {
        if rule.name == *name {
            return Some(place as u32);
        }
    }
    None
}

// The target that is named.
fn named_target(book: &Book, pair: &PairTree, holds: bool) -> Option<Target>
    ensures { (t : TheTarget) → (result ≡ Some t) ↔
        IsTargetNamed book.now.universe (pair_of pair.now) holds t }
{
    let Some(entry) = named_entry(book, pair) else {
        return None;
    };
    Some(Target {
        cell: entry.cell,
        value: entry.value,
        holds,
    })
}

// The claim that a target is implied.
fn implied_claim(book: &Book, pair: &PairTree, holds: bool) -> Option<Claim>
    ensures { (c : PlainClaim) → (option_map plain_claim result ≡ Some c) ↔
        IsClaimNamed book.now (written_implied (pair_of pair.now) holds) c }
{
    let Some(target) = named_target(book, pair, holds) else {
        return None;
    };
    Some(Claim::Implied(target))
}

// The claim that a target isn't implied.
fn unimplied_claim(book: &Book, pair: &PairTree) -> Option<Claim>
    ensures { (c : PlainClaim) → (option_map plain_claim result ≡ Some c) ↔
        IsClaimNamed book.now (written_unimplied (pair_of pair.now)) c }
{
    let Some(target) = named_target(book, pair, true) else {
        return None;
    };
    Some(Claim::Not(target))
}

// The claim against a rule.
fn against_claim(book: &Book, name: &Name) -> Option<Claim>
    ensures { (c : PlainClaim) → (option_map plain_claim result ≡ Some c) ↔
        IsClaimNamed book.now (written_against name.now) c }
{
    let Some(rule) = named_rule(book, name) else {
        return None;
    };
    Some(Claim::Against(rule))
}

/// The claim that is named.
pub fn named_claim(book: &Book, claim: &ClaimTree) -> Option<Claim>
    ensures { (c : PlainClaim) → (option_map plain_claim result ≡ Some c) ↔
        IsClaimNamed book.now (claim_of claim.now) c }
{
    match claim {
        ClaimTree::Implied(pair, holds) => implied_claim(book, pair, *holds),
        ClaimTree::Inconsistent => Some(Claim::Inconsistent),
        ClaimTree::Repairs => Some(Claim::Repairs),
        ClaimTree::Not(pair) => unimplied_claim(book, pair),
        ClaimTree::Against(name) => against_claim(book, name),
    }
}
