// The readers of literals and of what they are about.
ghost use Rattle.std.specs.Prelude.{◌≡◌, List, map, IfOk};
ghost use Rattle.pc_cert.specs.Written.{WrittenSymbol, WrittenLiteral};
ghost use Rattle.pc_cert.specs.Claims.{WrittenPair};
ghost use Rattle.pc_cert.specs.Texts.{starts_with_byte, without_negation, IsSymbolText, IsLiteralText, IsReadText, AreAll};
ghost use Rattle.pc_cert.specs.Trees.{symbol_of, literal_of, pair_of, seen};

use crate::path::read_path;
use crate::spelled::read_pair_text;
use crate::tree::{LiteralTree, PairTree, SymbolTree};
use pc_formula::Refusal;
use std::alloc::Global;

fn starts_with(text: &[u8], byte: u8) -> bool
    ensures { result ≡ starts_with_byte byte text.now }
{
    match text.split_first() {
        None => false,
        Some((first, _)) => *first == byte,
    }
}

fn without_negation(text: &[u8]) -> &[u8]
    ensures { result.now ≡ without_negation text.now }
{
    if starts_with(text, b'~') {
        &text[1..]
    } else {
        text
    }
}

// What the text is about.
fn read_symbol(alloc: Global, text: &[u8]) -> Result<SymbolTree, Refusal>
    ensures told { IfOk result (λ s. IsSymbolText text.now (symbol_of s)) }
    ensures none { result ≡ Err Refusal.Syntax → (s : WrittenSymbol) → IsSymbolText text.now s → ⊥ }
{
    if starts_with(text, b'@') {
        let path = read_path(alloc, text)?;
        return Ok(SymbolTree::Node(path));
    }
    let pair = read_pair_text(alloc, text)?;
    Ok(SymbolTree::Pair(pair))
}

/// The literal that the text is.
pub fn read_literal(alloc: Global, text: &[u8]) -> Result<LiteralTree, Refusal>
    ensures told { IfOk result (λ l. IsLiteralText text.now (literal_of l)) }
    ensures none { result ≡ Err Refusal.Syntax → (l : WrittenLiteral) → IsLiteralText text.now l →
        ⊥ }
{
    let negated = starts_with(text, b'~');
    let what = read_symbol(alloc, without_negation(text))?;
    Ok(LiteralTree {
        what,
        sign: !negated,
    })
}

/// The literals that the texts are.
pub fn read_literals(alloc: Global, texts: &[&[u8]]) -> Result<Vec<LiteralTree>, Refusal>
    ensures told { IfOk result (λ v. AreAll IsLiteralText (seen texts.now)
        (map literal_of v.items)) }
    ensures none { result ≡ Err Refusal.Syntax → (ls : List WrittenLiteral) →
        AreAll IsLiteralText (seen texts.now) ls → ⊥ }
{
    let mut literals = Vec::new(alloc);
    for text in texts {
        let literal = read_literal(alloc, text)?;
        literals.push(literal)?;
    }
    Ok(literals)
}

/// The cells with values that the texts are.
pub fn read_pairs(alloc: Global, texts: &[&[u8]]) -> Result<Vec<PairTree>, Refusal>
    ensures told { IfOk result (λ v. AreAll IsReadText (seen texts.now) (map pair_of v.items)) }
    ensures none { result ≡ Err Refusal.Syntax → (ps : List WrittenPair) →
        AreAll IsReadText (seen texts.now) ps → ⊥ }
{
    let mut pairs = Vec::new(alloc);
    for text in texts {
        let pair = read_pair_text(alloc, text)?;
        pairs.push(pair)?;
    }
    Ok(pairs)
}
