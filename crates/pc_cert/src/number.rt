// The reader of a number.
ghost use Rattle.std.specs.Prelude.{◌≡◌, ◌↔◌, true, ℕ, IsTrue, EachIndex, slice_index, MatchOption};
ghost use Rattle.std.specs.Char.{is_ascii_digit};
ghost use Rattle.std.specs.Str.Parse.{IsNumeral};
ghost use Rattle.pc_cert.specs.Texts.{IsNumberText};

use std::str;

/// The most digits that a number may have.
const MOST_DIGITS: usize = 18;

fn has_digits_alone(text: &[u8]) -> bool
    ensures { IsTrue result ↔
        EachIndex text.now (λ k. is_ascii_digit (slice_index text.now k) ≡ true) }
{
    text.iter().all(|byte| byte.is_ascii_digit())
}

fn is_numeral(text: &[u8]) -> bool
    ensures { IsTrue result ↔ IsNumeral 10 text.now }
{
    !text.is_empty() && has_digits_alone(text)
}

/// The number that the text is.
pub fn read_number(text: &[u8]) -> Option<u64>
    ensures { MatchOption result ((n : ℕ) → IsNumberText text.now n → ⊥) (IsNumberText text.now) }
{
    if text.len() > MOST_DIGITS || !is_numeral(text) {
        return None;
    }
    let Ok(digits) = str::from_utf8(text) else {
        return None;
    };
    let Ok(value) = digits.parse::<u64>() else {
        return None;
    };
    Some(value)
}
