// The readers of texts that are split into tokens: cells, values, and cells with values.
ghost use Rattle.std.specs.Prelude.{◌≡◌, Bool, IfOk};
ghost use Rattle.pc_formula.specs.Tree.{Cell, Value, cell_of, value_of};
ghost use Rattle.pc_cert.specs.Claims.{WrittenPair, IsWholePair, IsWordPair, IsClaim, IsDenial, SpellsPair};
ghost use Rattle.pc_cert.specs.Texts.{IsCellText, IsValueText, IsReadText};
ghost use Rattle.pc_cert.specs.Words.{SpellsThis};
ghost use Rattle.pc_cert.specs.Trees.{pair_of, claimed_of};

use crate::texts::Spelled;
use crate::tree::PairTree;
use pc_formula::{
    CellTree, Refusal, ValueTree, Words, read_equation, read_last_cell, read_last_value,
    read_question,
};
use pc_token::Kind;
use std::alloc::Global;

// Reads CELL = VALUE and the end.
fn whole_pair(alloc: Global, words: &mut Words<'_>) -> Result<PairTree, Refusal>
    ensures told { IfOk result (λ p. IsWholePair Kind.Equal words.old (pair_of p)) }
    ensures none { result ≡ Err Refusal.Syntax → (p : WrittenPair) →
        IsWholePair Kind.Equal words.old p → ⊥ }
{
    let (cell, value) = read_equation(alloc, words)?;
    Ok(PairTree { cell, value })
}

/// The cell that the text is.
pub fn read_cell_text(alloc: Global, text: &[u8]) -> Result<CellTree, Refusal>
    ensures told { IfOk result (λ c. IsCellText text.now (cell_of c)) }
    ensures none { result ≡ Err Refusal.Syntax → (c : Cell) → IsCellText text.now c → ⊥ }
{
    let spelled = Spelled::new(alloc, text)?;
    let mut words = spelled.words();
    read_last_cell(alloc, &mut words)
}

/// The value that the text is.
pub fn read_value_text(alloc: Global, text: &[u8]) -> Result<ValueTree, Refusal>
    ensures told { IfOk result (λ v. IsValueText text.now (value_of v)) }
    ensures none { result ≡ Err Refusal.Syntax → (v : Value) → IsValueText text.now v → ⊥ }
{
    let spelled = Spelled::new(alloc, text)?;
    let mut words = spelled.words();
    read_last_value(alloc, &mut words)
}

/// The cell with a value that the text is.
pub fn read_pair_text(alloc: Global, text: &[u8]) -> Result<PairTree, Refusal>
    ensures told { IfOk result (λ p. IsReadText text.now (pair_of p)) }
    ensures none { result ≡ Err Refusal.Syntax → (p : WrittenPair) → IsReadText text.now p → ⊥ }
{
    let spelled = Spelled::new(alloc, text)?;
    let mut words = spelled.words();
    whole_pair(alloc, &mut words)
}

// Reads the word, CELL = VALUE and the end.
fn word_pair(alloc: Global, words: &mut Words<'_>, word: &str) -> Result<PairTree, Refusal>
    ensures told { IfOk result (λ p. IsWordPair word.now Kind.Equal words.old (pair_of p)) }
    ensures none { result ≡ Err Refusal.Syntax → (p : WrittenPair) →
        IsWordPair word.now Kind.Equal words.old p → ⊥ }
{
    let Some(first) = words.take_name() else {
        return Err(Refusal::Syntax);
    };
    if first != word {
        return Err(Refusal::Syntax);
    }
    whole_pair(alloc, words)
}

// Reads `claim`, CELL = VALUE or CELL != VALUE and the end.
fn claim_words(alloc: Global, words: &mut Words<'_>) -> Result<(PairTree, bool), Refusal>
    ensures told { IfOk result (λ q. IsClaim words.old (claimed_of q)) }
    ensures none { result ≡ Err Refusal.Syntax → (q : WrittenPair × Bool) → IsClaim words.old q →
        ⊥ }
{
    let Some(first) = words.take_name() else {
        return Err(Refusal::Syntax);
    };
    if first != "claim" {
        return Err(Refusal::Syntax);
    }
    let (cell, value, holds) = read_question(alloc, words)?;
    Ok((PairTree { cell, value }, holds))
}

// Reads `claim`, `not`, CELL = VALUE and the end.
fn denial_words(alloc: Global, words: &mut Words<'_>) -> Result<PairTree, Refusal>
    ensures told { IfOk result (λ p. IsDenial words.old (pair_of p)) }
    ensures none { result ≡ Err Refusal.Syntax → (p : WrittenPair) → IsDenial words.old p → ⊥ }
{
    let Some(first) = words.take_name() else {
        return Err(Refusal::Syntax);
    };
    if first != "claim" {
        return Err(Refusal::Syntax);
    }
    let Some(second) = words.take_name() else {
        return Err(Refusal::Syntax);
    };
    if second != "not" {
        return Err(Refusal::Syntax);
    }
    whole_pair(alloc, words)
}

/// The cell with a value that stands behind the word that starts the line.
pub fn read_word_pair(alloc: Global, text: &[u8], word: &str) -> Result<PairTree, Refusal>
    ensures told { IfOk result (λ p. SpellsPair text.now word.now (pair_of p)) }
    ensures none { result ≡ Err Refusal.Syntax → (p : WrittenPair) →
        SpellsPair text.now word.now p → ⊥ }
{
    let spelled = Spelled::new(alloc, text)?;
    let mut words = spelled.words();
    word_pair(alloc, &mut words, word)
}

/// What the line claims of a cell and a value.
pub fn read_claim(alloc: Global, text: &[u8]) -> Result<(PairTree, bool), Refusal>
    ensures told { IfOk result (λ q. SpellsThis IsClaim text.now (claimed_of q)) }
    ensures none { result ≡ Err Refusal.Syntax → (q : WrittenPair × Bool) →
        SpellsThis IsClaim text.now q → ⊥ }
{
    let spelled = Spelled::new(alloc, text)?;
    let mut words = spelled.words();
    claim_words(alloc, &mut words)
}

/// The cell and the value of which the line claims that the cell needn't have it.
pub fn read_denial(alloc: Global, text: &[u8]) -> Result<PairTree, Refusal>
    ensures told { IfOk result (λ p. SpellsThis IsDenial text.now (pair_of p)) }
    ensures none { result ≡ Err Refusal.Syntax → (p : WrittenPair) →
        SpellsThis IsDenial text.now p → ⊥ }
{
    let spelled = Spelled::new(alloc, text)?;
    let mut words = spelled.words();
    denial_words(alloc, &mut words)
}
