// The readers of the parts of a derivation.
ghost use Rattle.std.specs.Prelude.{◌≡◌, ◌≢◌, ◌↔◌, ◌∷◌, ◌++◌, [], List, ℕ, map, codes, IfOk, IsTrue, MatchOption};
ghost use Rattle.std.specs.List.{AllByRecursion};
ghost use Rattle.pc_cert.specs.Written.{WrittenPart};
ghost use Rattle.pc_cert.specs.Line.{part_word, FollowsPart, IsPartForm, IsPartStarting};
ghost use Rattle.pc_cert.specs.Trees.{part_of, seen};

use crate::literal::{read_literals, read_pairs};
use crate::number::read_number;
use crate::path::{read_name, read_numbers, read_path};
use crate::spelled::{read_cell_text, read_value_text};
use crate::tree::PartTree;
use pc_formula::Refusal;
use std::alloc::Global;

/// Whether the text is the word.
pub fn is_word(text: &[u8], word: &str) -> bool
    ensures { IsTrue result ↔ (text.now ≡ word.now) }
{
    text == word.as_bytes()
}

// CELL
fn some_part(alloc: Global, texts: &[&[u8]]) -> Result<PartTree, Refusal>
    ensures told { IfOk result (λ p. IsPartStarting (codes "some") (seen texts.now) (part_of p)) }
    ensures none { result ≡ Err Refusal.Syntax → (p : WrittenPart) →
        IsPartStarting (codes "some") (seen texts.now) p → ⊥ }
{
    let [text] = texts else {
        return Err(Refusal::Syntax);
    };
    let cell = read_cell_text(alloc, text)?;
    Ok(PartTree::Any(cell))
}

// CELL VALUE VALUE
fn one_part(alloc: Global, texts: &[&[u8]]) -> Result<PartTree, Refusal>
    ensures told { IfOk result (λ p. IsPartStarting (codes "one") (seen texts.now) (part_of p)) }
    ensures none { result ≡ Err Refusal.Syntax → (p : WrittenPart) →
        IsPartStarting (codes "one") (seen texts.now) p → ⊥ }
{
    let [cell, first, second] = texts else {
        return Err(Refusal::Syntax);
    };
    let cell = read_cell_text(alloc, cell)?;
    let first = read_value_text(alloc, first)?;
    let second = read_value_text(alloc, second)?;
    Ok(PartTree::One(cell, first, second))
}

// NAME
fn rule_part(alloc: Global, texts: &[&[u8]]) -> Result<PartTree, Refusal>
    ensures told { IfOk result (λ p. IsPartStarting (codes "rule") (seen texts.now) (part_of p)) }
    ensures none { result ≡ Err Refusal.Syntax → (p : WrittenPart) →
        IsPartStarting (codes "rule") (seen texts.now) p → ⊥ }
{
    let [text] = texts else {
        return Err(Refusal::Syntax);
    };
    let name = read_name(alloc, text)?;
    Ok(PartTree::Rule(name))
}

// PATH and the number of a clause
fn node_part(alloc: Global, texts: &[&[u8]]) -> Result<PartTree, Refusal>
    ensures told { IfOk result (λ p. IsPartStarting (codes "node") (seen texts.now) (part_of p)) }
    ensures none { result ≡ Err Refusal.Syntax → (p : WrittenPart) →
        IsPartStarting (codes "node") (seen texts.now) p → ⊥ }
{
    let [path, number] = texts else {
        return Err(Refusal::Syntax);
    };
    let path = read_path(alloc, path)?;
    let Some(number) = read_number(number) else {
        return Err(Refusal::Syntax);
    };
    if number > 4_294_967_295 {
        return Err(Refusal::Syntax);
    }
    Ok(PartTree::Node(path, number as u32))
}

// PATH { READ }
fn atom_part(alloc: Global, texts: &[&[u8]]) -> Result<PartTree, Refusal>
    ensures told { IfOk result (λ p. IsPartStarting (codes "atom") (seen texts.now) (part_of p)) }
    ensures none { result ≡ Err Refusal.Syntax → (p : WrittenPart) →
        IsPartStarting (codes "atom") (seen texts.now) p → ⊥ }
{
    let Some((path, reads)) = texts.split_first() else {
        return Err(Refusal::Syntax);
    };
    let path = read_path(alloc, path)?;
    let reads = read_pairs(alloc, reads)?;
    Ok(PartTree::Atom(path, reads))
}

// What stands before the first colon, and what stands behind it.
fn at_colon<'a>(texts: &'a [&'a [u8]]) -> Option<(&'a [&'a [u8]], &'a [&'a [u8]])>
    ensures { MatchOption result ((xs ys : List (List ℕ)) → seen texts.now ≡ xs ++ codes ":" ∷ ys →
        ⊥) (λ p. (seen texts.now ≡ seen p.0.now ++ codes ":" ∷ seen p.1.now) ×
        AllByRecursion (λ t. t ≢ codes ":") (seen p.0.now)) }
{
    for (i, text) in texts.iter().enumerate() {
        if is_word(text, ":") {
            return Some((&texts[..i], &texts[i + 1..]));
        }
    }
    None
}

// { LIT } `:` { H }
fn step_part(alloc: Global, texts: &[&[u8]]) -> Result<PartTree, Refusal>
    ensures told { IfOk result (λ p. IsPartStarting (codes "step") (seen texts.now) (part_of p)) }
    ensures none { result ≡ Err Refusal.Syntax → (p : WrittenPart) →
        IsPartStarting (codes "step") (seen texts.now) p → ⊥ }
{
    let Some((literals, numbers)) = at_colon(texts) else {
        return Err(Refusal::Syntax);
    };
    let clause = read_literals(alloc, literals)?;
    let hints = read_numbers(alloc, numbers)?;
    Ok(PartTree::Step { clause, hints })
}

// The number of a set
fn block_part(texts: &[&[u8]]) -> Result<PartTree, Refusal>
    ensures told { IfOk result (λ p. IsPartStarting (codes "block") (seen texts.now) (part_of p)) }
    ensures none { result ≡ Err Refusal.Syntax → (p : WrittenPart) →
        IsPartStarting (codes "block") (seen texts.now) p → ⊥ }
    ensures no_memory { result ≡ Err Refusal.Memory → ⊥ }
{
    let [number] = texts else {
        return Err(Refusal::Syntax);
    };
    match read_number(number) {
        Some(number) => Ok(PartTree::Block(number)),
        None => Err(Refusal::Syntax),
    }
}

/// The part of a derivation that the texts are.
pub fn read_part(alloc: Global, texts: &[&[u8]]) -> Result<PartTree, Refusal>
    ensures told { IfOk result (λ p. IsPartForm (seen texts.now) (part_of p)) }
    ensures none { result ≡ Err Refusal.Syntax → (p : WrittenPart) → IsPartForm (seen texts.now) p →
        ⊥ }
{
    let Some((word, rest)) = texts.split_first() else {
        return Err(Refusal::Syntax);
    };
    if is_word(word, "some") {
        return some_part(alloc, rest);
    }
    if is_word(word, "one") {
        return one_part(alloc, rest);
    }
    if is_word(word, "rule") {
        return rule_part(alloc, rest);
    }
    if is_word(word, "node") {
        return node_part(alloc, rest);
    }
    if is_word(word, "atom") {
        return atom_part(alloc, rest);
    }
    if is_word(word, "step") {
        return step_part(alloc, rest);
    }
    if is_word(word, "block") {
        return block_part(rest);
    }
    Err(Refusal::Syntax)
}
