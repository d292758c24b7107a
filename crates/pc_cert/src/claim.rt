// The readers of claims.
ghost use Rattle.std.specs.Prelude.{◌≡◌, ◌↔◌, ◌∷◌, [], List, ℕ, IfOk, IsTrue, codes};
ghost use Rattle.pc_cert.specs.Claims.{WrittenClaim, WrittenPair, IsDenial, IsClaimForm};
ghost use Rattle.pc_cert.specs.Words.{SpellsThis, IsNameText};
ghost use Rattle.pc_cert.specs.Trees.{claim_of, seen};

use crate::part::is_word;
use crate::path::read_name;
use crate::spelled::{read_claim, read_denial};
use crate::tree::ClaimTree;
use pc_formula::{Name, Refusal};
use std::alloc::Global;

// Whether the texts are the one word.
fn is_one_word(texts: &[&[u8]], word: &str) -> bool
    ensures { IsTrue result ↔ (seen texts.now ≡ word.now ∷ []) }
{
    let [text] = texts else {
        return false;
    };
    is_word(text, word)
}

// The name behind `against`.
fn against_name(alloc: Global, rest: &[&[u8]]) -> Result<Name, Refusal>
    ensures told { IfOk result (λ n. (seen rest.now ≡ codes "against" ∷ n ∷ []) × IsNameText n) }
    ensures none { result ≡ Err Refusal.Syntax → (n : List ℕ) →
        seen rest.now ≡ codes "against" ∷ n ∷ [] → IsNameText n → ⊥ }
{
    let [word, name] = rest else {
        return Err(Refusal::Syntax);
    };
    if !is_word(word, "against") {
        return Err(Refusal::Syntax);
    }
    read_name(alloc, name)
}

// `not` with a cell and a value, or `against` with a rule's name.
fn denial_or_against(alloc: Global, line: &[u8], rest: &[&[u8]]) -> Result<ClaimTree, Refusal>
    ensures told { IfOk result (λ c. IsClaimForm line.now (codes "claim" ∷ seen rest.now)
        (claim_of c)) }
    ensures denial { result ≡ Err Refusal.Syntax → (p : WrittenPair) →
        SpellsThis IsDenial line.now p → ⊥ }
    ensures against { result ≡ Err Refusal.Syntax → (n : List ℕ) →
        seen rest.now ≡ codes "against" ∷ n ∷ [] → IsNameText n → ⊥ }
{
    match read_denial(alloc, line) {
        Ok(pair) => Ok(ClaimTree::Not(pair)),
        Err(Refusal::Memory) => Err(Refusal::Memory),
        Err(Refusal::Syntax) => {
            let name = against_name(alloc, rest)?;
            Ok(ClaimTree::Against(name))
        }
    }
}

/// What the line claims, whose texts behind `claim` are these.
pub fn read_claim_line(alloc: Global, line: &[u8], rest: &[&[u8]]) -> Result<ClaimTree, Refusal>
    ensures told { IfOk result (λ c. IsClaimForm line.now (codes "claim" ∷ seen rest.now)
        (claim_of c)) }
    ensures none { result ≡ Err Refusal.Syntax → (c : WrittenClaim) →
        IsClaimForm line.now (codes "claim" ∷ seen rest.now) c → ⊥ }
{
    if is_one_word(rest, "inconsistent") {
        return Ok(ClaimTree::Inconsistent);
    }
    if is_one_word(rest, "repairs") {
        return Ok(ClaimTree::Repairs);
    }
    match read_claim(alloc, line) {
        Ok((pair, holds)) => Ok(ClaimTree::Implied(pair, holds)),
        Err(Refusal::Memory) => Err(Refusal::Memory),
        Err(Refusal::Syntax) => denial_or_against(alloc, line, rest),
    }
}
