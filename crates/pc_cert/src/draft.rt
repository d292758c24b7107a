// What was read of a certificate so far.
ghost use Rattle.std.specs.Prelude.{◌≡◌, ◌+◌, ◌<◌, ◌^◌, ◌∷◌, ◌++◌, [], List, length, map, IfOk, MatchBool};
ghost use Rattle.pc_cert.specs.Gathered.{IsGathered, IsSaidNext, AddsLine};
ghost use Rattle.pc_cert.specs.Meaning.{IsSaidLine};
ghost use Rattle.pc_cert.specs.Claims.{IsPairNamed};
ghost use Rattle.pc_cert.specs.Order.{kind_of, sets_in};
ghost use Rattle.pc_cert.specs.Trees.{claim_of, pair_of, part_of, line_of};
ghost use Rattle.pc_sheet.specs.declared.ids.Entry.{Entry as TheEntry};
ghost use Rattle.pc_cert.specs.Written.{SaidLine, claims, begins, uses, assigns, derives};

use crate::cert::{CertLine, Claim, Said, SaidSet};
use crate::derived::named_part;
use crate::lookup::{named_claim, named_entry};
use crate::table::Table;
use crate::tree::{ClaimTree, LineTree, PairTree, PartTree};
use pc_books::Book;
use std::alloc::{AllocError, Global};

/// What lines said so far. An entry is the last set's, where a set began.
#[derive(Drop)]
pub struct Draft {
    pub claim: Option<Claim>,
    pub sets: Vec<SaidSet>,
    pub uses: Vec<Said>,
    pub values: Vec<Said>,
    pub after: u32,
    pub table: Table,
    pub lines: Vec<CertLine>,
}

// `claim`
fn say_claim(book: &Book, claim: &ClaimTree, number: u32, draft: &mut Draft) -> bool
    requires { number + 1 < 2 ^ 32 }
    ensures { (ls : List SaidLine) → IsGathered ls draft.old → number ≡ length ls + 1 →
        MatchBool result (AddsLine book.now (claims (claim_of claim.now)) ls draft.new)
        ((l : SaidLine) →
        IsSaidLine book.now (sets_in (map kind_of ls)) (claims (claim_of claim.now)) l → ⊥) }
{
    let Some(claim) = named_claim(book, claim) else {
        return false;
    };
    draft.claim = draft.claim.or(Some(claim));
    if draft.sets.is_empty() {
        draft.after = number + 1;
    }
    true
}

// `set`
fn say_set(alloc: Global, number: u32, draft: &mut Draft) -> Result<(), AllocError>
    requires { number + 1 < 2 ^ 32 }
    ensures { (ls : List SaidLine) → IsGathered ls draft.old → number ≡ length ls + 1 →
        IfOk result (λ _. IsGathered (ls ++ begins ∷ []) draft.new) }
{
    draft.sets.push(SaidSet {
        line: number,
        uses: Vec::new(alloc),
        values: Vec::new(alloc),
        after: number + 1,
    })?;
    Ok(())
}

// Adds the entry that is named to what such lines said.
fn push_said(
    book: &Book,
    pair: &PairTree,
    number: u32,
    said: &mut Vec<Said>,
) -> Result<bool, AllocError>
    ensures { IfOk result
        (λ b. MatchBool b (IsSaidNext book.now.universe (pair_of pair.now) number said.old.items
        said.new.items) ((e : TheEntry) → IsPairNamed book.now.universe (pair_of pair.now) e → ⊥)) }
{
    let Some(entry) = named_entry(book, pair) else {
        return Ok(false);
    };
    said.push(Said {
        line: number,
        entry,
    })?;
    Ok(true)
}

// `use`
fn say_use(book: &Book, pair: &PairTree, number: u32, draft: &mut Draft) -> Result<bool, AllocError>
    requires { number + 1 < 2 ^ 32 }
    ensures { (ls : List SaidLine) → IsGathered ls draft.old → number ≡ length ls + 1 →
        IfOk result (λ b. MatchBool b (AddsLine book.now (uses (pair_of pair.now)) ls draft.new)
        ((l : SaidLine) → IsSaidLine book.now (sets_in (map kind_of ls)) (uses (pair_of pair.now))
        l → ⊥)) }
{
    let Some(mut set) = draft.sets.pop() else {
        draft.after = number + 1;
        return push_said(book, pair, number, &mut draft.uses);
    };
    let named = push_said(book, pair, number, &mut set.uses)?;
    set.after = number + 1;
    draft.sets.push(set)?;
    Ok(named)
}

// `value`
fn say_value(
    book: &Book,
    pair: &PairTree,
    number: u32,
    draft: &mut Draft,
) -> Result<bool, AllocError>
    requires { number + 1 < 2 ^ 32 }
    ensures { (ls : List SaidLine) → IsGathered ls draft.old → number ≡ length ls + 1 →
        IfOk result (λ b. MatchBool b (AddsLine book.now (assigns (pair_of pair.now)) ls draft.new)
        ((l : SaidLine) →
        IsSaidLine book.now (sets_in (map kind_of ls)) (assigns (pair_of pair.now)) l → ⊥)) }
{
    let Some(mut set) = draft.sets.pop() else {
        draft.after = number + 1;
        return push_said(book, pair, number, &mut draft.values);
    };
    let named = push_said(book, pair, number, &mut set.values)?;
    set.after = number + 1;
    draft.sets.push(set)?;
    Ok(named)
}

// A line of the derivation.
fn say_part(
    alloc: Global,
    book: &Book,
    place: u64,
    part: &PartTree,
    number: u32,
    draft: &mut Draft,
) -> Result<bool, AllocError>
    ensures { (ls : List SaidLine) → IsGathered ls draft.old → number ≡ length ls + 1 →
        IfOk result
        (λ b. MatchBool b (AddsLine book.now (derives place (part_of part.now)) ls draft.new)
        ((l : SaidLine) →
        IsSaidLine book.now (sets_in (map kind_of ls)) (derives place (part_of part.now)) l → ⊥)) }
{
    let sets = draft.sets.len();
    let Some(part) = named_part(alloc, book, sets, part, &mut draft.table)? else {
        return Ok(false);
    };
    draft.lines.push(CertLine { line: number, part })?;
    Ok(true)
}

/// Adds what the line says, unless some name in it stands for nothing.
pub fn say(
    alloc: Global,
    book: &Book,
    line: &LineTree,
    number: u32,
    draft: &mut Draft,
) -> Result<bool, AllocError>
    requires { number + 1 < 2 ^ 32 }
    ensures { (ls : List SaidLine) → IsGathered ls draft.old → number ≡ length ls + 1 →
        IfOk result (λ b. MatchBool b (AddsLine book.now (line_of line.now) ls draft.new)
        ((l : SaidLine) → IsSaidLine book.now (sets_in (map kind_of ls)) (line_of line.now) l →
        ⊥)) }
{
    match line {
        LineTree::Nothing => Ok(true),
        LineTree::Heading => Ok(true),
        LineTree::Claims(claim) => Ok(say_claim(book, claim, number, draft)),
        LineTree::Begins => {
            say_set(alloc, number, draft)?;
            Ok(true)
        }
        LineTree::Uses(pair) => say_use(book, pair, number, draft),
        LineTree::Assigns(pair) => say_value(book, pair, number, draft),
        LineTree::Derives(place, part) => say_part(alloc, book, *place, part, number, draft),
        LineTree::Ends => Ok(true),
    }
}
