// The readers of numbers, values, cells and lists in parentheses.
ghost use Rattle.std.specs.Prelude.{◌≡◌, ◌^◌, ◌<◌, ◌∷◌, if◌then◌else◌, map, length, IfSome, IfOk, OnOk, MatchOption};
ghost use Rattle.pc_formula.specs.Word.{sign, NotFirst};
ghost use Rattle.pc_formula.specs.Front.{Reads, ReadsNone};
ghost use Rattle.pc_formula.specs.Tree.{value_of, cell_of};
ghost use Rattle.pc_formula.specs.Value.{DerivesName, DerivesNumber, DerivesInt, DerivesValue, Listed, InParentheses, Arguments, DerivesCell};

use crate::refusal::Refusal;
use crate::tree::{CellTree, ValueTree};
use crate::words::Words;
use pc_name::Name;
use pc_token::Kind;
use std::alloc::Global;

/// Reads NUMBER, and gives its value.
pub fn read_number(words: &mut Words<'_>) -> Option<u64>
    ensures read { MatchOption result (ReadsNone DerivesNumber 0 words.old)
        (λ n. Reads DerivesNumber 0 words.old n words.new) }
    ensures small { IfSome result (λ n. n < 10 ^ 18) }
{
    let digits = words.take_number()?;
    let Ok(value) = digits.parse::<u64>() else {
        return None;
    };
    Some(value)
}

/// Reads INT = [ - ] NUMBER.
pub fn read_integer(words: &mut Words<'_>) -> Option<i64>
    ensures { MatchOption result (ReadsNone DerivesInt 0 words.old)
        (λ z. Reads DerivesInt 0 words.old z words.new) }
{
    if words.take_sign(Kind::Minus) {
        let size = read_number(words)?;
        return Some(-(size as i64));
    }
    let size = read_number(words)?;
    Some(size as i64)
}

/// Reads VALUE = NAME | INT.
pub fn read_value(alloc: Global, words: &mut Words<'_>) -> Result<ValueTree, Refusal>
    ensures ok { IfOk result (λ t. Reads DerivesValue 0 words.old (value_of t) words.new) }
    ensures shorter { OnOk result (length words.new < length words.old) }
    ensures err { result ≡ Err Refusal.Syntax → ReadsNone DerivesValue 0 words.old }
{
    if let Some(text) = words.take_name() {
        let name = Name::new(alloc, text)?;
        return Ok(ValueTree::Name(name));
    }
    match read_integer(words) {
        Some(value) => Ok(ValueTree::Number(value)),
        None => Err(Refusal::Syntax),
    }
}

/// Reads CELL = NAME [ ( VALUE { , VALUE } ) ].
pub fn read_cell(alloc: Global, words: &mut Words<'_>) -> Result<CellTree, Refusal>
    ensures ok { IfOk result (λ t. Reads DerivesCell 1 words.old (cell_of t) words.new) }
    ensures err { result ≡ Err Refusal.Syntax → ReadsNone DerivesCell 1 words.old }
{
    let Some(text) = words.take_name() else {
        return Err(Refusal::Syntax);
    };
    let args = value_arguments(alloc, words)?;
    let name = Name::new(alloc, text)?;
    Ok(CellTree { name, args })
}

// Reads [ ( VALUE { , VALUE } ) ].
fn value_arguments(alloc: Global, words: &mut Words<'_>) -> Result<Vec<ValueTree>, Refusal>
    ensures ok { IfOk result (λ v. Reads (Arguments DerivesValue) 1 words.old (map value_of v.items)
        words.new) }
    ensures err { result ≡ Err Refusal.Syntax → ReadsNone (Arguments DerivesValue) 1 words.old }
{
    if !words.take_sign(Kind::Open) {
        return Ok(Vec::new(alloc));
    }
    let values = listed_values(alloc, words)?;
    // A cell has its arguments once.
    if !words.stops_at(1) {
        return Err(Refusal::Syntax);
    }
    Ok(values)
}

/// Reads [ ( NAME { , NAME } ) ].
pub fn read_name_arguments(alloc: Global, words: &mut Words<'_>) -> Result<Vec<Name>, Refusal>
    ensures ok { IfOk result (λ v. Reads (Arguments DerivesName) 1 words.old v.items words.new) }
    ensures err { result ≡ Err Refusal.Syntax → ReadsNone (Arguments DerivesName) 1 words.old }
{
    if !words.take_sign(Kind::Open) {
        return Ok(Vec::new(alloc));
    }
    let names = listed_names(alloc, words)?;
    // A family has its sorts once.
    if !words.stops_at(1) {
        return Err(Refusal::Syntax);
    }
    Ok(names)
}

/// Reads ( VALUE { , VALUE } ).
pub fn read_values(alloc: Global, words: &mut Words<'_>) -> Result<Vec<ValueTree>, Refusal>
    ensures ok { IfOk result (λ v. Reads (InParentheses DerivesValue) 0 words.old
        (map value_of v.items) words.new) }
    ensures err { result ≡ Err Refusal.Syntax → ReadsNone (InParentheses DerivesValue) 0 words.old }
{
    if !words.take_sign(Kind::Open) {
        return Err(Refusal::Syntax);
    }
    listed_values(alloc, words)
}

/// Reads ( NAME { , NAME } ).
pub fn read_names(alloc: Global, words: &mut Words<'_>) -> Result<Vec<Name>, Refusal>
    ensures ok { IfOk result (λ v. Reads (InParentheses DerivesName) 0 words.old v.items
        words.new) }
    ensures err { result ≡ Err Refusal.Syntax → ReadsNone (InParentheses DerivesName) 0 words.old }
{
    if !words.take_sign(Kind::Open) {
        return Err(Refusal::Syntax);
    }
    listed_names(alloc, words)
}

// Reads VALUE { , VALUE } ).
fn listed_values(alloc: Global, words: &mut Words<'_>) -> Result<Vec<ValueTree>, Refusal>
    ensures ok { IfOk result (λ v. Reads (Listed DerivesValue) 0 words.old (map value_of v.items)
        words.new) }
    ensures err { result ≡ Err Refusal.Syntax → ReadsNone (Listed DerivesValue) 0 words.old }
{
    let mut values = Vec::new(alloc);
    'values: loop {
        let value = read_value(alloc, words)?;
        values.push(value)?;
        if !goes_on(words)? {
            return Ok(values);
        }
    }
}

// Reads NAME { , NAME } ).
fn listed_names(alloc: Global, words: &mut Words<'_>) -> Result<Vec<Name>, Refusal>
    ensures ok { IfOk result (λ v. Reads (Listed DerivesName) 0 words.old v.items words.new) }
    ensures err { result ≡ Err Refusal.Syntax → ReadsNone (Listed DerivesName) 0 words.old }
{
    let mut names = Vec::new(alloc);
    'names: loop {
        let name = read_name(alloc, words)?;
        names.push(name)?;
        if !goes_on(words)? {
            return Ok(names);
        }
    }
}

// Reads NAME.
fn read_name(alloc: Global, words: &mut Words<'_>) -> Result<Name, Refusal>
    ensures ok { IfOk result (λ n. Reads DerivesName 0 words.old n words.new) }
    ensures shorter { OnOk result (length words.new < length words.old) }
    ensures err { result ≡ Err Refusal.Syntax → ReadsNone DerivesName 0 words.old }
{
    let Some(text) = words.take_name() else {
        return Err(Refusal::Syntax);
    };
    Ok(Name::new(alloc, text)?)
}

/// Takes `,`, behind which a list goes on, or the `)` that ends it.
pub fn goes_on(words: &mut Words<'_>) -> Result<bool, Refusal>
    ensures ok { IfOk result (λ more. words.old ≡ sign (if more then Kind.Comma else Kind.Close) ∷
        words.new) }
    ensures err { result ≡ Err Refusal.Syntax → NotFirst Kind.Comma words.old ×
        NotFirst Kind.Close words.old }
    ensures no_memory { result ≡ Err Refusal.Memory → ⊥ }
{
    if words.take_sign(Kind::Comma) {
        return Ok(true);
    }
    if words.take_sign(Kind::Close) {
        return Ok(false);
    }
    Err(Refusal::Syntax)
}
