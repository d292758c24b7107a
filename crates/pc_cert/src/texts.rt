// The texts of a line, and how a text splits into tokens.
ghost use Rattle.std.specs.Prelude.{◌≡◌, List, IfOk, MatchOption};
ghost use Rattle.std.specs.Str.{IsUtf8};
ghost use Rattle.std.specs.List.{AllByRecursion};
ghost use Rattle.pc_token.specs.Token.{IsTokenOf};
ghost use Rattle.pc_formula.specs.Word.{Word, words_of, HasWords, HasShortNames};
ghost use Rattle.pc_cert.specs.Words.{texts_of, SpellsWords};
ghost use Rattle.pc_cert.specs.Trees.{seen};

use pc_formula::{Refusal, Words, has_short_names};
use pc_token::{Token, TokenFault, tokens};
use std::alloc::{AllocError, Global};
use std::marker::Model;
use std::str;

/// What stands between the blanks of a line.
pub fn texts<'a>(alloc: Global, line: &'a [u8]) -> Result<Vec<&'a [u8]>, AllocError>
    ensures { IfOk result (λ found. seen found.items ≡ texts_of line.now) }
{
    line.split(|byte| *byte == b' ' || *byte == b'\t')
        .filter(|text| !text.is_empty())
        .collect(alloc)
}

/// A text with its tokens, in which each name is no longer than a name may be, seen as its words.
#[derive(Drop)]
pub struct Spelled<'a> {
    line: &'a str,
    tokens: Vec<Token>,
}

impl<'a> Model for Spelled<'a> {
    ghost use Rattle.std.specs.Prelude.{List};
    ghost use Rattle.std.specs.List.{AllByRecursion};
    ghost use Rattle.pc_token.specs.Token.{IsTokenOf};
    ghost use Rattle.pc_formula.specs.Word.{Word, words_of, HasShortNames};

    ghost Value = { List Word };

    ghost view = { λ s. words_of s.line.now s.tokens.items };

    ghost invariant = { λ s. AllByRecursion (IsTokenOf s.line.now) s.tokens.items × HasShortNames (words_of s.line.now s.tokens.items) };
}

impl<'a> Spelled<'a> {
    /// Splits the text.
    pub fn new(alloc: Global, text: &'a [u8]) -> Result<Spelled<'a>, Refusal>
        ensures told { IfOk result (SpellsWords text.now) }
        ensures none { result ≡ Err Refusal.Syntax → (ws : List Word) → SpellsWords text.now ws →
            ⊥ }
    {
        let Some(line) = utf8(text) else {
            return Err(Refusal::Syntax);
        };
        let tokens = split(alloc, line)?;
        Ok(Spelled { line, tokens })
    }

    /// The words, of which none is read yet.
    pub fn words(&self) -> Words<'_>
        ensures { result ≡ self.now }
    {
        Words::new(self.line, self.tokens.as_slice())
    }
}

// The text, where it is UTF-8.
fn utf8(text: &[u8]) -> Option<&str>
    ensures { MatchOption result ((ws : List Word) → SpellsWords text.now ws →
        ⊥) (λ s. (s.now ≡ text.now) × IsUtf8 text.now) }
{
    str::from_utf8(text).ok()
}

// The tokens of the text, where each name in it is no longer than a name may be.
fn split(alloc: Global, text: &str) -> Result<Vec<Token>, Refusal>
    ensures each { IfOk result (λ found. AllByRecursion (IsTokenOf text.now) found.items) }
    ensures told { IfOk result (λ found. HasWords text.now (words_of text.now found.items)) }
    ensures short { IfOk result (λ found. HasShortNames (words_of text.now found.items)) }
    ensures none { result ≡ Err Refusal.Syntax → (ws : List Word) → HasWords text.now ws →
        HasShortNames ws → ⊥ }
{
    let found = match tokens(alloc, text) {
        Ok(found) => found,
        Err(TokenFault::BadCharacter { .. }) => return Err(Refusal::Syntax),
        Err(TokenFault::NumberTooLong { .. }) => return Err(Refusal::Syntax),
        Err(TokenFault::Memory) => return Err(Refusal::Memory),
    };
    if !has_short_names(text, found.as_slice()) {
        return Err(Refusal::Syntax);
    }
    Ok(found)
}
