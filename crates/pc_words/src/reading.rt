// The reading of words.
ghost use Rattle.std.specs.Prelude.{◌≡◌, ◌↔◌, IfOk, IsErrOf, IsTrue, map, string_bytes};
ghost use Rattle.pc_words.specs.View.{request_of};
ghost use Rattle.pc_words.specs.Words.{FitSomething, FitOnly, FitNothing};

use crate::asked::{Request, WordsFault};
use crate::asking::request_from;
use crate::parse::matches;
use crate::parting::{Parts, parts_of};
use clap::error::ErrorKind;
use std::alloc::Global;

// Whether the words fit.
fn fit(words: &[String]) -> bool
    ensures { IsTrue result ↔ FitSomething (map string_bytes words.now) }
{
    match parts_of(words) {
        Some(parts) => request_from(parts).is_some(),
        None => false,
    }
}

/// What the words behind the program's own name ask for: `replay`, `edit FILE`, `check FILE`, `merge FILE`, `posts FILE`, or
/// `demo N` with N from 1 to 256, and at any place, but not with `check` and `merge`, at most once `--budget K` or `--budget=K` with K from 1 to 1,000,000,000,000.
/// Without the option the budget is 100,000,000.
///
/// FILE isn't empty and doesn't start with `-`, N has at most three digits and K at most 13. `Usage` comes exactly where the
/// words aren't so, and takes no memory. Words that fit are read by clap, which may want some.
pub fn read<'a>(alloc: Global, words: &'a [String]) -> Result<Request<'a>, WordsFault>
    ensures ok { IfOk result (λ found. FitOnly (map string_bytes words.entry.now)
        (request_of found)) }
    ensures usage { IsErrOf result WordsFault.Usage ↔
        FitNothing (map string_bytes words.entry.now) }
{
    if !fit(words) {
        return Err(WordsFault::Usage);
    }
    match matches(alloc, words) {
        Ok(found) => {
            let parts = Parts {
                mode: found.get_str("mode").unwrap(),
                word: found.get_str("word"),
                budget: found.get_str("budget"),
            };
            Ok(request_from(parts).unwrap())
        }
        Err(error) => {
            let is_memory = matches!(error.kind(), ErrorKind::OutOfMemory);
            prove!(is_memory);
            Err(WordsFault::Memory)
        }
    }
}
