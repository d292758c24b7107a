// The top call, with the theorem as its contract.
ghost use Rattle.std.specs.Prelude.{map, string_bytes};
ghost use Rattle.pc_theorem.specs.Run.{IsRunOf};

use crate::law::runs_keep_their_word;
use pc_port::{Shelf, Sink, Source};
use pc_replay::{Spendings, Status};
use pc_run_laws::faults_end_runs;
use std::alloc::Global;

/// Runs the words as `pc_replay` does, and says all that it says. What that is worth, in the words of sheets alone, its one clause
/// has first: `word` is `specs/Theorem.antt`, `journals` says it of `merge` and `posts`, and `demo` of demonstrations.
pub fn run<I: Source, H: Shelf, O: Sink>(
    alloc: Global,
    words: &[String],
    input: &mut I,
    shelf: &mut H,
    out: &mut O,
    spent: &mut Spendings,
) -> Status
    ensures { IsRunOf H.Shelf I.Source O.Sink shelf.old shelf.new input.old input.new out.old
        out.new (map string_bytes words.now) result spent.old spent.new }
{
    runs_keep_their_word();
    faults_end_runs();
    pc_replay::run(alloc, words, input, shelf, out, spent)
}
