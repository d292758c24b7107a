// What the parts of words ask for. Nothing here takes memory.
ghost use Rattle.std.specs.Prelude.{◌≡◌, if◌then◌else◌, None, Some, option_map};
ghost use Rattle.pc_words.specs.View.{mode_of, request_of};
ghost use Rattle.pc_words.specs.inside.Parts.{demo_of, is_file_name, lone_mode, mode_from, mode_with, request_from, takes_budget, with_budget, with_number};
ghost use Rattle.pc_words.specs.inside.Seen.{seen};

use crate::asked::{Mode, Request};
use crate::parting::Parts;
use crate::word::{is_file_name, number_of};

/// The budget where the words don't say.
const USUAL_BUDGET: u64 = 100_000_000;

/// The most digits of a budget, and the largest.
const BUDGET_DIGITS: usize = 13;

const LARGEST_BUDGET: u64 = 1_000_000_000_000;

/// The most digits of a number of blocks, and the largest.
const BLOCK_DIGITS: usize = 3;

const MOST_BLOCKS: u64 = 256;

fn lone_mode(mode: &str) -> Option<Mode<'static>>
    ensures { option_map mode_of result ≡ lone_mode mode.now }
{
    if mode == "replay" {
        Some(Mode::Replay)
    } else {
        None
    }
}

fn demo_of(word: &str) -> Option<Mode<'static>>
    ensures { option_map mode_of result ≡ demo_of word.now }
{
    match number_of(word, BLOCK_DIGITS, MOST_BLOCKS) {
        Some(count) => Some(Mode::Demo(count as u32)),
        None => None,
    }
}

// The mode, where the word names a file.
fn if_file<'a>(word: &str, mode: Mode<'a>) -> Option<Mode<'a>>
    ensures { option_map mode_of result ≡ (if is_file_name word.now then Some (mode_of mode.entry)
        else None) }
{
    if is_file_name(word) { Some(mode) } else { None }
}

fn mode_with<'a>(mode: &str, word: &'a str) -> Option<Mode<'a>>
    ensures { option_map mode_of result ≡ mode_with mode.now word.now }
{
    match mode {
        "edit" => if_file(word, Mode::Edit(word)),
        "check" => if_file(word, Mode::Check(word)),
        "merge" => if_file(word, Mode::Merge(word)),
        "posts" => if_file(word, Mode::Posts(word)),
        "demo" => demo_of(word),
        _ => None,
    }
}

// The mode that a word stands for, alone or with another word behind it.
fn mode_from<'a>(mode: &str, word: Option<&'a str>) -> Option<Mode<'a>>
    ensures { option_map mode_of result ≡ mode_from mode.now (option_map (λ w. w.now) word.entry) }
{
    match word {
        None => lone_mode(mode),
        Some(word) => mode_with(mode, word),
    }
}

fn takes_budget(mode: &Mode<'_>) -> bool
    ensures { result ≡ takes_budget (mode_of mode.now) }
{
    match *mode {
        Mode::Check(_) => false,
        Mode::Merge(_) => false,
        Mode::Posts(_) => true,
        Mode::Replay => true,
        Mode::Edit(_) => true,
        Mode::Demo(_) => true,
    }
}

fn with_number<'a>(mode: Mode<'a>, number: &str) -> Option<Request<'a>>
    ensures { option_map request_of result ≡ with_number (mode_of mode.entry) number.now }
{
    match number_of(number, BUDGET_DIGITS, LARGEST_BUDGET) {
        Some(budget) => Some(Request { mode, budget }),
        None => None,
    }
}

fn with_budget<'a>(mode: Mode<'a>, budget: Option<&str>) -> Option<Request<'a>>
    ensures { option_map request_of result ≡ with_budget (option_map (λ w. w.now) budget.entry)
        (mode_of mode.entry) }
{
    match budget {
        None => Some(Request {
            mode,
            budget: USUAL_BUDGET,
        }),
        Some(number) => {
            if takes_budget(&mode) {
                with_number(mode, number)
            } else {
                None
            }
        }
    }
}

/// What the parts ask for, or `None` where they are no row of the table of words.
pub fn request_from(parts: Parts<'_>) -> Option<Request<'_>>
    ensures { option_map request_of result ≡ request_from (seen parts.entry) }
{
    match mode_from(parts.mode, parts.word) {
        Some(mode) => with_budget(mode, parts.budget),
        None => None,
    }
}
