ghost use Rattle.std.specs.Prelude.{◌≡◌, ◌<◌, length, MatchOption, slice_index};
ghost use Rattle.pc_token.specs.Piece.{sign_of};
ghost use Rattle.pc_token.specs.Token.{sign_text, IsSignAt, StartsNoSign};

use crate::token::Kind;

// The longest sign that these three bytes begin with.
fn sign_of(first: u8, second: u8, third: u8) -> Option<Kind>
    ensures { result ≡ sign_of first second third }
{
    let kind = match first {
        b'=' => Kind::Equal,
        b'!' if second == b'=' => Kind::NotEqual,
        b'!' => Kind::Not,
        b'<' if second == b'=' => Kind::LessEqual,
        b'<' if second == b'-' && third == b'>' => Kind::DoubleArrow,
        b'<' => Kind::Less,
        b'>' if second == b'=' => Kind::GreaterEqual,
        b'>' => Kind::Greater,
        b'&' => Kind::And,
        b'|' => Kind::Or,
        b'-' if second == b'>' => Kind::Arrow,
        b'-' => Kind::Minus,
        b'(' => Kind::Open,
        b')' => Kind::Close,
        b',' => Kind::Comma,
        b':' => Kind::Colon,
        b'.' if second == b'.' => Kind::Range,
        b'.' => Kind::Dot,
        b'+' => Kind::Plus,
        _ => return None,
    };
    Some(kind)
}

// The byte at `at`, or 0 past the end.
fn byte_at(bytes: &[u8], at: usize) -> u8
    ensures { result ≡ slice_index bytes.now at }
{
    bytes.get(at).copied().unwrap_or(0)
}

/// The longest sign that stands at `at`.
pub fn sign_at(bytes: &[u8], at: usize) -> Option<Kind>
    requires { at < length bytes.now }
    ensures { MatchOption result (StartsNoSign bytes.now at) (IsSignAt bytes.now at) }
{
    sign_of(bytes[at], byte_at(bytes, at + 1), byte_at(bytes, at + 2))
}

/// How many bytes a sign has, or 0 at a name or a number.
pub fn sign_len(kind: Kind) -> usize
    ensures { result ≡ length (sign_text kind) }
{
    match kind {
        Kind::Name | Kind::Number => 0,
        Kind::DoubleArrow => 3,
        Kind::NotEqual | Kind::LessEqual | Kind::GreaterEqual | Kind::Arrow | Kind::Range => 2,
        _ => 1,
    }
}
