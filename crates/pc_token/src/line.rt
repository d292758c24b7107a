// What a line is before its tokens are made: no function here takes memory.
ghost use Rattle.std.specs.Prelude.{◌≡◌, ◌↔◌, ◌≤◌, [], ◌∷◌, length, slice_range, IsTrue, MatchOption};
ghost use Rattle.pc_token.specs.declared.token.Token.{Token};
ghost use Rattle.pc_token.specs.Token.{IsTokenOf, Splits};
ghost use Rattle.pc_token.specs.Line.{IsBlankRun, IsBlankLine, IsComment, IsOneName};

use crate::token::{Kind, Piece, Token, is_blank, piece_at};

// Where the run of blanks at `start` ends.
fn blanks_end(line: &[u8], start: usize) -> usize
    requires { start ≤ length line.now }
    ensures within { result ≤ length line.now }
    ensures run { IsBlankRun line.now start result }
{
    let mut end = start;
    while end < line.len() && is_blank(line[end]) {
        end += 1;
    }
    end
}

/// Whether the line has no other characters than blanks.
pub fn is_blank_line(line: &str) -> bool
    ensures { IsTrue result ↔ IsBlankLine line.now }
{
    blanks_end(line.as_bytes(), 0) == line.len()
}

/// Whether the line's first character that is no blank is `;`.
pub fn is_comment(line: &str) -> bool
    ensures { IsTrue result ↔ IsComment line.now }
{
    let bytes = line.as_bytes();
    let start = blanks_end(bytes, 0);
    start < bytes.len() && bytes[start] == b';'
}

/// Whether the line's one token is the name.
pub fn is_one_name(line: &str, name: &str) -> bool
    ensures { IsTrue result ↔ IsOneName line.now name.now }
{
    match one_token(line) {
        Some(token) => is_name(line, token, name),
        None => false,
    }
}

// Whether the token is the name.
fn is_name(line: &str, token: Token, name: &str) -> bool
    requires { IsTokenOf line.now token }
    ensures { IsTrue result ↔
        ((token.kind ≡ Kind.Name) × (slice_range line.now token.start token.end ≡ name.now)) }
{
    token.kind == Kind::Name && &line[token.start..token.end] == name
}

// The line's token, where it has one token alone.
fn one_token(line: &str) -> Option<Token>
    ensures { MatchOption result ((t : Token) → Splits line.now (t ∷ []) →
        ⊥) (λ t. Splits line.now (t ∷ [])) }
{
    let bytes = line.as_bytes();
    let start = blanks_end(bytes, 0);
    if start == bytes.len() {
        return None;
    }
    let Piece::Token(token) = piece_at(line, start) else {
        return None;
    };
    if blanks_end(bytes, token.end) < bytes.len() {
        return None;
    }
    Some(token)
}
