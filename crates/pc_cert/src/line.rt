// The reader of a line.
ghost use Rattle.std.specs.Prelude.{◌≡◌, ◌∷◌, List, ℕ, IfOk, codes};
ghost use Rattle.pc_cert.specs.Written.{WrittenLine, WrittenPart};
ghost use Rattle.pc_cert.specs.Line.{IsCertificateForm, IsCertificateLine, IsDerivationForm};
ghost use Rattle.pc_cert.specs.Trees.{line_of, seen};

use crate::claim::read_claim_line;
use crate::number::read_number;
use crate::part::{is_word, read_part};
use crate::spelled::read_word_pair;
use crate::texts::texts;
use crate::tree::LineTree;
use pc_formula::Refusal;
use std::alloc::Global;

// `certificate` and the number 1
fn heading_line(rest: &[&[u8]]) -> Result<LineTree, Refusal>
    ensures told { IfOk result (λ t. (l : List ℕ) →
        IsCertificateForm l (codes "certificate" ∷ seen rest.now) (line_of t)) }
    ensures none { result ≡ Err Refusal.Syntax → (l : List ℕ) (f : WrittenLine) →
        IsCertificateForm l (codes "certificate" ∷ seen rest.now) f → ⊥ }
    ensures no_memory { result ≡ Err Refusal.Memory → ⊥ }
{
    let [version] = rest else {
        return Err(Refusal::Syntax);
    };
    match read_number(version) {
        Some(1) => Ok(LineTree::Heading),
        _ => Err(Refusal::Syntax),
    }
}

// `end`
fn end_line(rest: &[&[u8]]) -> Result<LineTree, Refusal>
    ensures told { IfOk result (λ t. (l : List ℕ) →
        IsCertificateForm l (codes "end" ∷ seen rest.now) (line_of t)) }
    ensures none { result ≡ Err Refusal.Syntax → (l : List ℕ) (f : WrittenLine) →
        IsCertificateForm l (codes "end" ∷ seen rest.now) f → ⊥ }
    ensures no_memory { result ≡ Err Refusal.Memory → ⊥ }
{
    if rest.is_empty() {
        Ok(LineTree::Ends)
    } else {
        Err(Refusal::Syntax)
    }
}

// `claim`
fn claim_line(alloc: Global, line: &[u8], rest: &[&[u8]]) -> Result<LineTree, Refusal>
    ensures told { IfOk result (λ t. IsCertificateForm line.now (codes "claim" ∷ seen rest.now)
        (line_of t)) }
    ensures none { result ≡ Err Refusal.Syntax → (f : WrittenLine) →
        IsCertificateForm line.now (codes "claim" ∷ seen rest.now) f → ⊥ }
{
    let claim = read_claim_line(alloc, line, rest)?;
    Ok(LineTree::Claims(claim))
}

// `set`
fn set_line(rest: &[&[u8]]) -> Result<LineTree, Refusal>
    ensures told { IfOk result (λ t. (l : List ℕ) →
        IsCertificateForm l (codes "set" ∷ seen rest.now) (line_of t)) }
    ensures none { result ≡ Err Refusal.Syntax → (l : List ℕ) (f : WrittenLine) →
        IsCertificateForm l (codes "set" ∷ seen rest.now) f → ⊥ }
    ensures no_memory { result ≡ Err Refusal.Memory → ⊥ }
{
    if rest.is_empty() {
        Ok(LineTree::Begins)
    } else {
        Err(Refusal::Syntax)
    }
}

// `use`
fn use_line(alloc: Global, line: &[u8], rest: &[&[u8]]) -> Result<LineTree, Refusal>
    ensures told { IfOk result (λ t. IsCertificateForm line.now (codes "use" ∷ seen rest.now)
        (line_of t)) }
    ensures none { result ≡ Err Refusal.Syntax → (f : WrittenLine) →
        IsCertificateForm line.now (codes "use" ∷ seen rest.now) f → ⊥ }
{
    let pair = read_word_pair(alloc, line, "use")?;
    Ok(LineTree::Uses(pair))
}

// `value`
fn value_line(alloc: Global, line: &[u8], rest: &[&[u8]]) -> Result<LineTree, Refusal>
    ensures told { IfOk result (λ t. IsCertificateForm line.now (codes "value" ∷ seen rest.now)
        (line_of t)) }
    ensures none { result ≡ Err Refusal.Syntax → (f : WrittenLine) →
        IsCertificateForm line.now (codes "value" ∷ seen rest.now) f → ⊥ }
{
    let pair = read_word_pair(alloc, line, "value")?;
    Ok(LineTree::Assigns(pair))
}

// A number and a part of the derivation.
fn derivation_line(alloc: Global, texts: &[&[u8]]) -> Result<LineTree, Refusal>
    ensures told { IfOk result (λ t. (l : List ℕ) →
        IsCertificateForm l (seen texts.now) (line_of t)) }
    ensures none { result ≡ Err Refusal.Syntax → (n : ℕ) (p : WrittenPart) →
        IsDerivationForm (seen texts.now) n p → ⊥ }
{
    let Some((first, rest)) = texts.split_first() else {
        return Err(Refusal::Syntax);
    };
    let Some(number) = read_number(first) else {
        return Err(Refusal::Syntax);
    };
    let part = read_part(alloc, rest)?;
    Ok(LineTree::Derives(number, part))
}

/// The form of the line.
pub fn read_line(alloc: Global, line: &[u8]) -> Result<LineTree, Refusal>
    ensures told { IfOk result (λ t. IsCertificateLine line.now (line_of t)) }
    ensures none { result ≡ Err Refusal.Syntax → (f : WrittenLine) → IsCertificateLine line.now f →
        ⊥ }
{
    let found = texts(alloc, line)?;
    let Some((first, rest)) = found.split_first() else {
        return Ok(LineTree::Nothing);
    };
    if is_word(first, "certificate") {
        return heading_line(rest);
    }
    if is_word(first, "claim") {
        return claim_line(alloc, line, rest);
    }
    if is_word(first, "set") {
        return set_line(rest);
    }
    if is_word(first, "use") {
        return use_line(alloc, line, rest);
    }
    if is_word(first, "value") {
        return value_line(alloc, line, rest);
    }
    if is_word(first, "end") {
        return end_line(rest);
    }
    derivation_line(alloc, found.as_slice())
}
