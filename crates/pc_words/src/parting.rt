// The parts of words. Nothing here takes memory.
ghost use Rattle.std.specs.Prelude.{◌≡◌, ◌++◌, List, Some, map, option_map, string_bytes};
ghost use Rattle.pc_words.specs.inside.Parts.{option_parts, option_place, parts_of, plain_parts, valued_parts};
ghost use Rattle.pc_words.specs.inside.Seen.{seen};

use crate::word::is_option;

/// What stands for the mode, for its word and for the budget.
#[derive(Clone, Copy)]
pub struct Parts<'a> {
    pub mode: &'a str,
    pub word: Option<&'a str>,
    pub budget: Option<&'a str>,
}

// Where the first word stands that starts with `-`; the number of words where there is none.
fn option_place(words: &[String]) -> usize
    ensures { result ≡ option_place (map string_bytes words.now) }
{
    for (i, word) in words.iter().enumerate() {
        if is_option(word.as_str()) {
            return i;
        }
    }
    words.len()
}

// One or two words beside the option, which stands between them, before them or behind them.
fn plain_parts<'a>(
    before: &'a [String],
    after: &'a [String],
    budget: Option<&'a str>,
) -> Option<Parts<'a>>
    ensures { option_map seen result ≡ plain_parts (map string_bytes before.now ++
        map string_bytes after.now) (option_map (λ w. w.now) budget.entry) }
{
    match (before, after) {
        ([mode], []) => Some(Parts {
            mode: mode.as_str(),
            word: None,
            budget,
        }),
        ([], [mode]) => Some(Parts {
            mode: mode.as_str(),
            word: None,
            budget,
        }),
        ([mode, word], []) => Some(Parts {
            mode: mode.as_str(),
            word: Some(word.as_str()),
            budget,
        }),
        ([mode], [word]) => Some(Parts {
            mode: mode.as_str(),
            word: Some(word.as_str()),
            budget,
        }),
        ([], [mode, word]) => Some(Parts {
            mode: mode.as_str(),
            word: Some(word.as_str()),
            budget,
        }),
        _ => None,
    }
}

// The parts where the option's value is a word of its own.
fn valued_parts<'a>(before: &'a [String], rest: &'a [String]) -> Option<Parts<'a>>
    ensures { option_map seen result ≡ valued_parts (map string_bytes before.now)
        (map string_bytes rest.now) }
{
    match rest {
        [] => None,
        [value, after @ ..] => plain_parts(before, after, Some(value.as_str())),
    }
}

// The parts, where `rest` is empty or begins with the option.
fn option_parts<'a>(before: &'a [String], rest: &'a [String]) -> Option<Parts<'a>>
    ensures { option_map seen result ≡ option_parts (map string_bytes before.now)
        (map string_bytes rest.now) }
{
    match rest {
        [] => plain_parts(before, rest, None),
        [option, after @ ..] => {
            if option.as_str() == "--budget" {
                return valued_parts(before, after);
            }
            match option.as_str().strip_prefix("--budget=") {
                Some(number) => plain_parts(before, after, Some(number)),
                None => None,
            }
        }
    }
}

/// The parts of the words, or `None` where they can't be parted.
pub fn parts_of(words: &[String]) -> Option<Parts<'_>>
    ensures { option_map seen result ≡ parts_of (map string_bytes words.now) }
{
    let (before, rest) = words.split_at(option_place(words));
    option_parts(before, rest)
}
