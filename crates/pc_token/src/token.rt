ghost use Rattle.std.specs.Prelude.{◌≡◌, ℕ, ◌<◌, ◌≤◌, length, IfOk, IsErrOf};
ghost use Rattle.std.specs.Str.{IsCharBoundary};
ghost use Rattle.std.specs.List.{AllByRecursion};
ghost use Rattle.pc_token.specs.Told.{TellsReading};
ghost use Rattle.pc_token.specs.Piece.{IsPieceAt};
ghost use Rattle.pc_token.specs.Token.{IsTokenOf, is_blank, IsDigitRun, Splits, HasBadCharacter, HasLongNumber, LineReading, IsReadingOf};

use crate::name::name_end;
use crate::sign::{sign_at, sign_len};
use std::alloc::{AllocFailed, Global};
use thiserror::Error;

/// What a token is. The signs stand in the order in which the format lists them.
#[derive(Clone, Copy, PartialEq, Eq)]
pub enum Kind {
    Name,
    Number,
    Equal,
    NotEqual,
    Less,
    LessEqual,
    Greater,
    GreaterEqual,
    Not,
    And,
    Or,
    Arrow,
    DoubleArrow,
    Open,
    Close,
    Comma,
    Colon,
    Dot,
    Range,
    Plus,
    Minus,
}

/// A token of a line: the bytes from `start` up to `end`.
#[derive(Clone, Copy, PartialEq, Eq)]
pub struct Token {
    pub kind: Kind,
    pub start: usize,
    pub end: usize,
}

/// Why a line has no tokens.
#[derive(Debug, Drop, Error)]
pub enum TokenFault {
    #[error("no token starts at byte {at}")]
    BadCharacter { at: usize },
    #[error("the number at byte {at} has more than 18 digits")]
    NumberTooLong { at: usize },
    #[error("out of memory")]
    Memory,
}

impl<T: Drop> From<AllocFailed<T>> for TokenFault {
    ghost use Rattle.pc_token.specs.declared.token.TokenFault.TheVariants.{Memory};

    ghost from_gives = { λ _ e. e ≡ Memory };

    fn from(_: AllocFailed<T>) -> Self {
        TokenFault::Memory
    }
}

// What stands at a place of a line.
#[derive(Drop)]
pub enum Piece {
    Blank,
    Token(Token),
    LongNumber,
    NoToken,
}

/// The most digits that a number may have.
const MOST_DIGITS: usize = 18;

pub fn is_blank(byte: u8) -> bool
    ensures { result ≡ is_blank byte }
{
    byte == b' ' || byte == b'\t'
}

// Where the run of digits at `start` ends.
fn digits_end(bytes: &[u8], start: usize) -> usize
    requires { start ≤ length bytes.now }
    ensures within { result ≤ length bytes.now }
    ensures run { IsDigitRun bytes.now start result }
{
    let mut end = start;
    while end < bytes.len() && bytes[end].is_ascii_digit() {
        end += 1;
    }
    end
}

// What stands at `at`: a blank, the longest token, or a fault.
pub fn piece_at(line: &str, at: usize) -> Piece
    requires in_range { at < length line.now }
    requires boundary { IsCharBoundary line.now at }
    ensures { IsPieceAt line.now at result }
{
    let bytes = line.as_bytes();
    if is_blank(bytes[at]) {
        return Piece::Blank;
    }
    let digits = digits_end(bytes, at);
    if digits > at {
        if digits - at > MOST_DIGITS {
            return Piece::LongNumber;
        }
        return Piece::Token(Token {
            kind: Kind::Number,
            start: at,
            end: digits,
        });
    }
    if let Some(kind) = sign_at(bytes, at) {
        return Piece::Token(Token {
            kind,
            start: at,
            end: at + sign_len(kind),
        });
    }
    let end = name_end(line, at);
    if end == at {
        Piece::NoToken
    } else {
        Piece::Token(Token {
            kind: Kind::Name,
            start: at,
            end,
        })
    }
}

/// The tokens of the line.
pub fn tokens(alloc: Global, line: &str) -> Result<Vec<Token>, TokenFault>
    ensures split { IfOk result (λ found. Splits line.now found.items) }
    ensures each { IfOk result (λ found. AllByRecursion (IsTokenOf line.now) found.items) }
    ensures bad { (at : ℕ) → IsErrOf result (TokenFault.BadCharacter at) →
        HasBadCharacter line.now at }
    ensures only { (r : LineReading) → IsReadingOf line.now r → TellsReading result r }
    ensures long { (at : ℕ) → IsErrOf result (TokenFault.NumberTooLong at) →
        HasLongNumber line.now at }
{
    let mut found = Vec::new(alloc);
    let mut at = 0;
    while at < line.len() {
        match piece_at(line, at) {
            Piece::Blank => at += 1,
            Piece::Token(token) => {
                found.push(token)?;
                at = token.end;
            }
            Piece::LongNumber => return Err(TokenFault::NumberTooLong { at }),
            Piece::NoToken => return Err(TokenFault::BadCharacter { at }),
        }
    }
    Ok(found)
}
