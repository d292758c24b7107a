// The readers of declarations, each behind the word that starts its line.
ghost use Rattle.std.specs.Prelude.{◌≡◌, ℕ, ℤ, List, [], ◌∷◌, ◌++◌, map, codes, IfOk};
ghost use Rattle.pc_formula.specs.Word.{Word, name};
ghost use Rattle.pc_syntax.specs.Tree.{Declared, declared_of};
ghost use Rattle.pc_syntax.specs.Line.{AreBounds, IsDeclarationOf};

use crate::clause::{is_word, last_name, rule};
use crate::tree::Declaration;
use pc_formula::{
    Refusal, Words, read_end, read_equation, read_integer, read_name_arguments, read_names,
    read_values,
};
use pc_name::Name;
use pc_token::Kind;
use std::alloc::Global;

/// The declaration that starts with this word.
pub fn declaration(
    alloc: Global,
    start: &str,
    words: &mut Words<'_>,
) -> Result<Declaration, Refusal>
    ensures told { IfOk result (λ d. IsDeclarationOf start.now (declared_of d) words.old) }
    ensures none { result ≡ Err Refusal.Syntax → (d : Declared) →
        IsDeclarationOf start.now d words.old → ⊥ }
{
    if is_word(start, "sort") {
        return sort(alloc, words);
    }
    if is_word(start, "table") {
        return table(alloc, words);
    }
    if is_word(start, "row") {
        return row(alloc, words);
    }
    if is_word(start, "cell") {
        return family(alloc, words);
    }
    if is_word(start, "rule") {
        return named_rule(alloc, words);
    }
    if is_word(start, "enter") {
        return entry(alloc, words);
    }
    if is_word(start, "also") {
        return further_entry(alloc, words);
    }
    Err(Refusal::Syntax)
}

// Reads NAME = { NAME } or NAME = INT .. INT, and the end.
fn sort(alloc: Global, words: &mut Words<'_>) -> Result<Declaration, Refusal>
    ensures told { IfOk result (λ d. IsDeclarationOf (codes "sort") (declared_of d) words.old) }
    ensures none { result ≡ Err Refusal.Syntax → (d : Declared) →
        IsDeclarationOf (codes "sort") d words.old → ⊥ }
{
    let Some(text) = words.take_name() else {
        return Err(Refusal::Syntax);
    };
    if !words.take_sign(Kind::Equal) {
        return Err(Refusal::Syntax);
    }
    let name = Name::new(alloc, text)?;
    let values = names(alloc, words)?;
    if words.is_empty() {
        return Ok(Declaration::ListSort { name, values });
    }
    if !values.is_empty() {
        return Err(Refusal::Syntax);
    }
    let (low, high) = bounds(words)?;
    Ok(Declaration::RangeSort { name, low, high })
}

// Reads as many names as stand there.
fn names(alloc: Global, words: &mut Words<'_>) -> Result<Vec<Name>, Refusal>
    ensures told { IfOk result (λ found. words.old ≡ map name found.items ++ words.new) }
    ensures all { IfOk result (λ found. (text : List ℕ) (more : List Word) →
        words.new ≡ name text ∷ more → ⊥) }
    ensures none { result ≡ Err Refusal.Syntax → ⊥ }
{
    let mut found = Vec::new(alloc);
    'names: while let Some(text) = words.take_name() {
        let value = Name::new(alloc, text)?;
        found.push(value)?;
    }
    Ok(found)
}

// Reads INT .. INT and the end.
fn bounds(words: &mut Words<'_>) -> Result<(i64, i64), Refusal>
    ensures told { IfOk result (λ p. AreBounds words.old p.0 p.1) }
    ensures none { result ≡ Err Refusal.Syntax → (low high : ℤ) → AreBounds words.old low high → ⊥ }
    ensures no_memory { result ≡ Err Refusal.Memory → ⊥ }
{
    let Some(low) = read_integer(words) else {
        return Err(Refusal::Syntax);
    };
    if !words.take_sign(Kind::Range) {
        return Err(Refusal::Syntax);
    }
    let Some(high) = read_integer(words) else {
        return Err(Refusal::Syntax);
    };
    read_end(words)?;
    Ok((low, high))
}

// Reads NAME ( NAME { , NAME } ) and the end.
fn table(alloc: Global, words: &mut Words<'_>) -> Result<Declaration, Refusal>
    ensures told { IfOk result (λ d. IsDeclarationOf (codes "table") (declared_of d) words.old) }
    ensures none { result ≡ Err Refusal.Syntax → (d : Declared) →
        IsDeclarationOf (codes "table") d words.old → ⊥ }
{
    let Some(text) = words.take_name() else {
        return Err(Refusal::Syntax);
    };
    let sorts = read_names(alloc, words)?;
    read_end(words)?;
    let name = Name::new(alloc, text)?;
    Ok(Declaration::Table { name, sorts })
}

// Reads NAME ( VALUE { , VALUE } ) and the end.
fn row(alloc: Global, words: &mut Words<'_>) -> Result<Declaration, Refusal>
    ensures told { IfOk result (λ d. IsDeclarationOf (codes "row") (declared_of d) words.old) }
    ensures none { result ≡ Err Refusal.Syntax → (d : Declared) →
        IsDeclarationOf (codes "row") d words.old → ⊥ }
{
    let Some(text) = words.take_name() else {
        return Err(Refusal::Syntax);
    };
    let values = read_values(alloc, words)?;
    read_end(words)?;
    let table = Name::new(alloc, text)?;
    Ok(Declaration::Row { table, values })
}

// Reads NAME [ ( NAME { , NAME } ) ] : NAME and the end.
fn family(alloc: Global, words: &mut Words<'_>) -> Result<Declaration, Refusal>
    ensures told { IfOk result (λ d. IsDeclarationOf (codes "cell") (declared_of d) words.old) }
    ensures none { result ≡ Err Refusal.Syntax → (d : Declared) →
        IsDeclarationOf (codes "cell") d words.old → ⊥ }
{
    let Some(text) = words.take_name() else {
        return Err(Refusal::Syntax);
    };
    let sorts = read_name_arguments(alloc, words)?;
    if !words.take_sign(Kind::Colon) {
        return Err(Refusal::Syntax);
    }
    let result = last_name(alloc, words)?;
    let name = Name::new(alloc, text)?;
    Ok(Declaration::Cell {
        name,
        sorts,
        result,
    })
}

// Reads NAME : FORMULA and the end.
fn named_rule(alloc: Global, words: &mut Words<'_>) -> Result<Declaration, Refusal>
    ensures told { IfOk result (λ d. IsDeclarationOf (codes "rule") (declared_of d) words.old) }
    ensures none { result ≡ Err Refusal.Syntax → (d : Declared) →
        IsDeclarationOf (codes "rule") d words.old → ⊥ }
{
    Ok(Declaration::Rule(rule(alloc, words)?))
}

// Reads CELL = VALUE and the end, behind `enter`.
fn entry(alloc: Global, words: &mut Words<'_>) -> Result<Declaration, Refusal>
    ensures told { IfOk result (λ d. IsDeclarationOf (codes "enter") (declared_of d) words.old) }
    ensures none { result ≡ Err Refusal.Syntax → (d : Declared) →
        IsDeclarationOf (codes "enter") d words.old → ⊥ }
{
    let (cell, value) = read_equation(alloc, words)?;
    Ok(Declaration::Enter(cell, value))
}

// Reads CELL = VALUE and the end, behind `also`.
fn further_entry(alloc: Global, words: &mut Words<'_>) -> Result<Declaration, Refusal>
    ensures told { IfOk result (λ d. IsDeclarationOf (codes "also") (declared_of d) words.old) }
    ensures none { result ≡ Err Refusal.Syntax → (d : Declared) →
        IsDeclarationOf (codes "also") d words.old → ⊥ }
{
    let (cell, value) = read_equation(alloc, words)?;
    Ok(Declaration::Also(cell, value))
}
