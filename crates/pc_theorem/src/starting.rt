// The program's call, from what came of reading its words.
ghost use Rattle.std.specs.Prelude.{◌≡◌, ◌⊎◌, IfOk, map, string_bytes};
ghost use Rattle.std.specs.IoError.{error_kind};
ghost use Rattle.std.specs.Vec.Iter.{into_iter_items};
ghost use Rattle.pc_theorem.specs.Run.{IsRunOf};
ghost use Rattle.pc_theorem.specs.Starting.{IsWithoutWords, StartsSo, behind_name, words_read};

use crate::top::run;
use pc_port::{Shelf, Sink, Source};
use pc_refusals::tell_no_memory;
use pc_replay::{Spendings, Status};
use std::alloc::{AllocError, Global};
use std::env::Args;
use std::io;

// The words behind the program's own name.
fn words_behind_name(alloc: Global, mut args: Args) -> Result<Vec<String>, AllocError>
    ensures { IfOk result (λ words. map string_bytes words.items ≡
        behind_name (map string_bytes (into_iter_items args))) }
{
    let mut words = Vec::new(alloc);
    args.next();
    while let Some(word) = args.next() {
        words.push(word)?;
    }
    Ok(words)
}

// Tells that memory was wanting for the words. All but the output is lent to say that it stays as it was.
fn tell_lacking<I: Source, H: Shelf, O: Sink>(
    input: &mut I,
    shelf: &mut H,
    out: &mut O,
    spent: &mut Spendings,
) -> Status
    ensures { IsWithoutWords H.Shelf I.Source O.Sink shelf.old
        shelf.new input.old input.new out.old out.new result spent.old spent.new }
{
    tell_no_memory(out)
}

// Runs the words behind the program's own name.
fn run_args<I: Source, H: Shelf, O: Sink>(
    alloc: Global,
    args: Args,
    input: &mut I,
    shelf: &mut H,
    out: &mut O,
    spent: &mut Spendings,
) -> Status
    ensures { IsRunOf H.Shelf I.Source O.Sink shelf.old shelf.new input.old input.new out.old
        out.new (behind_name (map string_bytes (into_iter_items args))) result spent.old spent.new ⊎
        IsWithoutWords H.Shelf I.Source O.Sink shelf.old shelf.new input.old input.new out.old
        out.new result spent.old spent.new }
{
    match words_behind_name(alloc, args) {
        Ok(words) => run(alloc, &words, input, shelf, out, spent),
        Err(_) => tell_lacking(input, shelf, out, spent),
    }
}

/// Does what the program is for, with what came of reading its words, the first of which is its own name: runs those behind it.
/// Where they can't be read, as where one isn't UTF-8, it runs without words, which prints the usage line; where memory was
/// wanting for them, that is told.
pub fn start<I: Source, H: Shelf, O: Sink>(
    alloc: Global,
    args: io::Result<Args>,
    input: &mut I,
    shelf: &mut H,
    out: &mut O,
    spent: &mut Spendings,
) -> Status
    ensures { StartsSo H.Shelf I.Source O.Sink shelf.old shelf.new
        input.old input.new out.old out.new
        (words_read (λ read. map string_bytes (into_iter_items read)) error_kind args) result
        spent.old spent.new }
{
    match args {
        Ok(args) => run_args(alloc, args, input, shelf, out, spent),
        Err(error) => match error.kind() {
            io::ErrorKind::OutOfMemory => tell_lacking(input, shelf, out, spent),
            _ => run(alloc, &[], input, shelf, out, spent),
        },
    }
}
