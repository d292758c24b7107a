// Single words.
ghost use Rattle.std.specs.Prelude.{◌≡◌, ◌≤◌, ◌↔◌, true, ℕ, IsTrue, EachIndex, slice_index, length};
ghost use Rattle.std.specs.Char.{is_ascii_digit};
ghost use Rattle.std.specs.Str.{all_ascii_digits};
ghost use Rattle.pc_words.specs.inside.Parts.{is_option, is_file_name, number_of, within};

/// Whether the word starts with `-`.
pub fn is_option(word: &str) -> bool
    ensures { result ≡ is_option word.now }
{
    match word.as_bytes() {
        [] => false,
        [first, ..] => *first == b'-',
    }
}

/// Whether the word names a file: an option doesn't, nor does an empty word.
pub fn is_file_name(word: &str) -> bool
    ensures { result ≡ is_file_name word.now }
{
    match word.as_bytes() {
        [] => false,
        [first, ..] => *first != b'-',
    }
}

fn are_digits(bytes: &[u8]) -> bool
    ensures { IsTrue result ↔
        EachIndex bytes.now (λ k. is_ascii_digit (slice_index bytes.now k) ≡ true) }
{
    bytes.iter().all(|byte| byte.is_ascii_digit())
}

// Whether the word is of digits alone.
fn has_digits_alone(word: &str) -> bool
    ensures { result ≡ all_ascii_digits word.now }
{
    are_digits(word.as_bytes())
}

// The number where it is from 1 to `most`.
fn within(value: u64, most: u64) -> Option<u64>
    ensures { result ≡ within most value }
{
    if 1 <= value && value <= most {
        Some(value)
    } else {
        None
    }
}

/// The number that the word writes in decimal, in `digits` digits at most, where it is from 1 to `most`.
pub fn number_of(word: &str, digits: usize, most: u64) -> Option<u64>
    requires { digits ≤ 19 }
    ensures { result ≡ number_of digits most word.now }
{
    if word.is_empty() || !has_digits_alone(word) || word.len() > digits {
        return None;
    }
    match word.parse::<u64>() {
        Ok(value) => within(value, most),
        Err(_) => None,
    }
}
