// The readers of names and paths.
ghost use Rattle.std.specs.Prelude.{◌≡◌, ◌++◌, ◌==◌, ℕ, List, IfOk, codes};
ghost use Rattle.pc_cert.specs.Written.{WrittenPath};
ghost use Rattle.pc_cert.specs.Texts.{IsNumberText, IsPathText, AreAll, pieces_of};
ghost use Rattle.pc_cert.specs.Words.{IsNameText};
ghost use Rattle.pc_cert.specs.Trees.{path_of, seen};

use crate::number::read_number;
use crate::tree::PathTree;
use pc_formula::{Name, Refusal};
use pc_name::is_name;
use std::alloc::{AllocError, Global};
use std::str;

/// The name that the text is.
pub fn read_name(alloc: Global, text: &[u8]) -> Result<Name, Refusal>
    ensures told { IfOk result (λ n. (n ≡ text.now) × IsNameText text.now) }
    ensures none { result ≡ Err Refusal.Syntax → IsNameText text.now → ⊥ }
{
    let Ok(name) = str::from_utf8(text) else {
        return Err(Refusal::Syntax);
    };
    if !is_name(name) {
        return Err(Refusal::Syntax);
    }
    Ok(Name::new(alloc, name)?)
}

// The name behind `@`.
fn marked_name(alloc: Global, piece: &[u8]) -> Result<Name, Refusal>
    ensures told { IfOk result (λ n. (piece.now ≡ codes "@" ++ n) × IsNameText n) }
    ensures none { result ≡ Err Refusal.Syntax → (n : List ℕ) → piece.now ≡ codes "@" ++ n →
        IsNameText n → ⊥ }
{
    let Some((mark, text)) = piece.split_first() else {
        return Err(Refusal::Syntax);
    };
    if *mark != b'@' {
        return Err(Refusal::Syntax);
    }
    read_name(alloc, text)
}

// The pieces of the text between slashes.
fn pieces<'a>(alloc: Global, text: &'a [u8]) -> Result<Vec<&'a [u8]>, AllocError>
    ensures { IfOk result (λ found. seen found.items ≡ pieces_of text.now) }
{
    text.split(|byte| *byte == b'/').collect(alloc)
}

/// The numbers that the texts are.
pub fn read_numbers(alloc: Global, texts: &[&[u8]]) -> Result<Vec<u64>, Refusal>
    ensures told { IfOk result (λ v. AreAll IsNumberText (seen texts.now) v.items) }
    ensures none { result ≡ Err Refusal.Syntax → (ns : List ℕ) →
        AreAll IsNumberText (seen texts.now) ns → ⊥ }
{
    let mut numbers = Vec::new(alloc);
    for text in texts {
        let Some(number) = read_number(text) else {
            return Err(Refusal::Syntax);
        };
        numbers.push(number)?;
    }
    Ok(numbers)
}

/// The path that the text is.
pub fn read_path(alloc: Global, text: &[u8]) -> Result<PathTree, Refusal>
    ensures told { IfOk result (λ p. IsPathText text.now (path_of p)) }
    ensures none { result ≡ Err Refusal.Syntax → (p : WrittenPath) → IsPathText text.now p → ⊥ }
{
    let pieces = pieces(alloc, text)?;
    let Some((first, numbers)) = pieces.split_first() else {
        return Err(Refusal::Syntax);
    };
    let rule = marked_name(alloc, first)?;
    let steps = read_numbers(alloc, numbers)?;
    Ok(PathTree { rule, steps })
}
