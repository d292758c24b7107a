// The readers of what ends the words: nothing, a cell, a value, and a cell with `=` or `!=` and a value.
ghost use Rattle.std.specs.Prelude.{◌≡◌, Bool, [], ◌∷◌, IfOk, OnOk, MatchOption};
ghost use Rattle.pc_formula.specs.Word.{sign, NotFirst};
ghost use Rattle.pc_formula.specs.Tree.{Cell, Value, cell_of, value_of};
ghost use Rattle.pc_formula.specs.Value.{DerivesValue, DerivesCell};
ghost use Rattle.pc_formula.specs.Equation.{equality, IsEquation};

use crate::refusal::Refusal;
use crate::tree::{CellTree, ValueTree};
use crate::values::{read_cell, read_value};
use crate::words::Words;
use pc_token::Kind;
use std::alloc::Global;

/// Reads the end of the words, and takes no memory.
pub fn read_end(words: &mut Words<'_>) -> Result<(), Refusal>
    ensures told { OnOk result (words.old ≡ []) }
    ensures none { result ≡ Err Refusal.Syntax → words.old ≡ [] → ⊥ }
    ensures no_memory { result ≡ Err Refusal.Memory → ⊥ }
{
    if words.is_empty() {
        Ok(())
    } else {
        Err(Refusal::Syntax)
    }
}

/// Reads CELL and the end.
pub fn read_last_cell(alloc: Global, words: &mut Words<'_>) -> Result<CellTree, Refusal>
    ensures told { IfOk result (λ c. DerivesCell words.old (cell_of c) []) }
    ensures none { result ≡ Err Refusal.Syntax → (c : Cell) → DerivesCell words.old c [] → ⊥ }
{
    let cell = read_cell(alloc, words)?;
    read_end(words)?;
    Ok(cell)
}

/// Reads VALUE and the end.
pub fn read_last_value(alloc: Global, words: &mut Words<'_>) -> Result<ValueTree, Refusal>
    ensures told { IfOk result (λ v. DerivesValue words.old (value_of v) []) }
    ensures none { result ≡ Err Refusal.Syntax → (v : Value) → DerivesValue words.old v [] → ⊥ }
{
    let value = read_value(alloc, words)?;
    read_end(words)?;
    Ok(value)
}

/// Reads CELL = VALUE and the end.
pub fn read_equation(alloc: Global, words: &mut Words<'_>) -> Result<(CellTree, ValueTree), Refusal>
    ensures told { IfOk result (λ p. IsEquation words.old Kind.Equal (cell_of p.0) (value_of p.1)) }
    ensures none { result ≡ Err Refusal.Syntax → (c : Cell) (v : Value) →
        IsEquation words.old Kind.Equal c v → ⊥ }
{
    let cell = read_cell(alloc, words)?;
    if !words.take_sign(Kind::Equal) {
        return Err(Refusal::Syntax);
    }
    let value = read_last_value(alloc, words)?;
    Ok((cell, value))
}

/// Reads CELL = VALUE or CELL != VALUE and the end, and tells whether the sign is `=`.
pub fn read_question(
    alloc: Global,
    words: &mut Words<'_>,
) -> Result<(CellTree, ValueTree, bool), Refusal>
    ensures told { IfOk result (λ q. IsEquation words.old (equality q.2) (cell_of q.0)
        (value_of q.1)) }
    ensures none { result ≡ Err Refusal.Syntax → (c : Cell) (v : Value) (holds : Bool) →
        IsEquation words.old (equality holds) c v → ⊥ }
{
    let cell = read_cell(alloc, words)?;
    let Some(holds) = take_equality(words) else {
        return Err(Refusal::Syntax);
    };
    let value = read_last_value(alloc, words)?;
    Ok((cell, value, holds))
}

// Takes `=` or `!=`, where it is the first word.
fn take_equality(words: &mut Words<'_>) -> Option<bool>
    ensures { MatchOption result ((holds : Bool) → NotFirst (equality holds) words.old) (λ holds.
        words.old ≡ sign (equality holds) ∷ words.new) }
{
    if words.take_sign(Kind::Equal) {
        return Some(true);
    }
    if words.take_sign(Kind::NotEqual) {
        return Some(false);
    }
    None
}
