// What clap finds in words that fit.
ghost use Rattle.std.specs.Prelude.{◌≡◌, IfOk, IfErr, Some, map, string_bytes};
ghost use Rattle.clap.specs.Words.{kind_of};
ghost use Rattle.pc_words.specs.Words.{FitSomething};
ghost use Rattle.pc_words.specs.inside.Parts.{Parts, parts_of};
ghost use Rattle.pc_words.specs.inside.Parse.{HasParts};

use clap::error::ErrorKind;
use clap::{Arg, ArgMatches, Command, Error};
use std::alloc::Global;

/// The matches of the one command: a required word, an optional word, and the option `--budget`. Words that fit are refused
/// for want of memory alone.
pub fn matches<'a>(alloc: Global, words: &'a [String]) -> Result<ArgMatches<'a>, Error>
    requires { FitSomething (map string_bytes words.now) }
    ensures ok { (p : Parts) → parts_of (map string_bytes words.entry.now) ≡ Some p →
        IfOk result (λ m. HasParts m p) }
    ensures err { IfErr result (λ e. kind_of e ≡ ErrorKind.OutOfMemory) }
{
    let mode = Arg::new(alloc, "mode").required(true);
    let word = Arg::new(alloc, "word");
    let budget = Arg::new(alloc, "budget").long("budget");
    let command = Command::new(alloc, "predicalc")
        .no_binary_name(true)
        .disable_help_flag(true)
        .arg(mode)?
        .arg(word)?
        .arg(budget)?;
    command.try_get_matches_from(words)
}
