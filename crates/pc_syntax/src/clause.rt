// The readers of what stands behind the word that starts a line, where sheets and commands share it.
ghost use Rattle.std.specs.Prelude.{◌≡◌, ◌↔◌, ℕ, List, [], ◌∷◌, IfOk, IsTrue};
ghost use Rattle.pc_formula.specs.Word.{name};
ghost use Rattle.pc_formula.specs.Tree.{Formula, formula_of};
ghost use Rattle.pc_formula.specs.Grammar.{IsFormula};
ghost use Rattle.pc_formula.specs.Value.{DerivesNumber};
ghost use Rattle.pc_syntax.specs.Clause.{IsRule};

use crate::tree::RuleTree;
use pc_formula::{FormulaTree, Refusal, Words, read_end, read_formula, read_number};
use pc_name::Name;
use pc_token::Kind;
use std::alloc::Global;

/// Whether the two texts are one.
pub fn is_word(text: &str, word: &str) -> bool
    ensures { IsTrue result ↔ (text.now ≡ word.now) }
{
    text == word
}

/// Reads NUMBER and the end.
pub fn number(words: &mut Words<'_>) -> Result<u64, Refusal>
    ensures told { IfOk result (λ n. DerivesNumber words.old n []) }
    ensures none { result ≡ Err Refusal.Syntax → (n : ℕ) → DerivesNumber words.old n [] → ⊥ }
    ensures no_memory { result ≡ Err Refusal.Memory → ⊥ }
{
    let Some(value) = read_number(words) else {
        return Err(Refusal::Syntax);
    };
    read_end(words)?;
    Ok(value)
}

/// Reads NAME and the end.
pub fn last_name(alloc: Global, words: &mut Words<'_>) -> Result<Name, Refusal>
    ensures told { IfOk result (λ n. words.old ≡ name n ∷ []) }
    ensures none { result ≡ Err Refusal.Syntax → (n : List ℕ) → words.old ≡ name n ∷ [] → ⊥ }
{
    let Some(text) = words.take_name() else {
        return Err(Refusal::Syntax);
    };
    read_end(words)?;
    Ok(Name::new(alloc, text)?)
}

/// Reads FORMULA and the end.
pub fn last_formula(alloc: Global, words: &mut Words<'_>) -> Result<FormulaTree, Refusal>
    ensures told { IfOk result (λ t. IsFormula words.old (formula_of t)) }
    ensures none { result ≡ Err Refusal.Syntax → (f : Formula) → IsFormula words.old f → ⊥ }
{
    let formula = read_formula(alloc, words)?;
    read_end(words)?;
    Ok(formula)
}

/// Reads NAME : FORMULA and the end.
pub fn rule(alloc: Global, words: &mut Words<'_>) -> Result<RuleTree, Refusal>
    ensures told { IfOk result (λ t. IsRule words.old t.name (formula_of t.formula)) }
    ensures none { result ≡ Err Refusal.Syntax → (n : List ℕ) (f : Formula) → IsRule words.old n f →
        ⊥ }
{
    let Some(text) = words.take_name() else {
        return Err(Refusal::Syntax);
    };
    if !words.take_sign(Kind::Colon) {
        return Err(Refusal::Syntax);
    }
    let formula = last_formula(alloc, words)?;
    let name = Name::new(alloc, text)?;
    Ok(RuleTree { name, formula })
}
