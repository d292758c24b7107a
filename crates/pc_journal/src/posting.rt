//! The posts of the input's journal as commands on a file's sheet, from the file's name to the status.
ghost use Rattle.std.specs.Prelude.{◌≡◌, ◌≢◌, ◌≤◌, ℕ, List, Option, length};
ghost use Rattle.pc_port.specs.Port.{Rose};
ghost use Rattle.pc_collab.specs.Journal.{IsJournal};
ghost use Rattle.pc_lines.specs.Files.{AsksOnce, FailsToRead};
ghost use Rattle.pc_refusals.specs.Events.{outside_of, streams, streams_of};
ghost use Rattle.pc_refusals.specs.Runs.{Ran};
ghost use Rattle.pc_journal.specs.Course.{AnswersPosts, FromInput, PostText, Posts};
ghost use Rattle.pc_refusals.specs.Did.{Did};

use crate::taking::{take_journal, tell_stop};
use pc_collab::Journal;
use pc_lines::{SHEET_LIMIT, take_file};
use pc_port::{Failed, Shelf, Sink, Source};
use pc_refusals::{NO_MEMORY_FOR_SHEET, Status, tell_file_stop};
use pc_transcript::{Answering, Machine, Resources, tell_stop as tell_load_stop};
use std::alloc::Global;

// Answers the text of each post, and then a line `show`.
fn answer_posts<M: Machine, O: Sink>(
    alloc: Global,
    journal: &Journal,
    machine: &mut M,
    notes: &mut M::Notes,
    out: &mut O,
) -> Status
    requires { IsJournal journal.now }
    ensures did { (l : Option (List ℕ)) (n : ℕ) →
        Did (AnswersPosts M.Allows (machine.old, notes.old) journal.now) result
        (machine.new, notes.new) (streams l n (O.given out.old) (O.faults out.old))
        (streams l n (O.given out.new) (O.faults out.new)) }
    ensures read { result ≢ Status.ReadFault }
{
    let mut answering = Answering::new(alloc);
    for i in 0..journal.len() {
        match answering.serve(machine, notes, journal.text(i), out) {
            Ok(()) => {}
            Err(Failed) => return Status::WriteFault,
        }
    }
    match answering.serve(machine, notes, b"show", out) {
        Ok(()) => answering.marks.status(),
        Err(Failed) => Status::WriteFault,
    }
}

// Answers the posts of the input's journal.
fn answer_input<M: Machine, I: Source, O: Sink>(
    alloc: Global,
    machine: &mut M,
    notes: &mut M::Notes,
    input: &mut I,
    out: &mut O,
) -> Status
    ensures did { Did (FromInput (AnswersPosts M.Allows (machine.old, notes.old))
        (machine.old, notes.old)) result (machine.new, notes.new)
        (streams_of I.Source O.Sink input.old out.old)
        (streams_of I.Source O.Sink input.new out.new) }
    ensures read_fault { result ≡ Status.ReadFault →
        Rose (I.faults input.old) (I.faults input.new) }
{
    match take_journal(alloc, input) {
        Ok(journal) => answer_posts(alloc, &journal, machine, notes, out),
        Err(stop) => tell_stop(stop, out),
    }
}

// Reads the sheet of a file's text, and answers the posts of the input's journal on it.
fn post_text<M: Machine, I: Source, O: Sink>(
    resources: Resources,
    text: &[u8],
    input: &mut I,
    out: &mut O,
    notes: &mut M::Notes,
) -> Status
    requires { length text.now ≤ SHEET_LIMIT }
    ensures did { Did (PostText (M.IsSheet resources.budget) (M.RefusesText resources.budget)
        M.Allows notes.old text.now) result notes.new
        (streams_of I.Source O.Sink input.old out.old)
        (streams_of I.Source O.Sink input.new out.new) }
    ensures read_fault { result ≡ Status.ReadFault →
        Rose (I.faults input.old) (I.faults input.new) }
{
    match M::load(resources.alloc, text, resources.budget, notes) {
        Ok(mut machine) => answer_input(resources.alloc, &mut machine, notes, input, out),
        Err(stop) => tell_load_stop::<M, O>(resources.alloc, &stop, out),
    }
}

/// Answers the posts of the journal that the input has, each as a command line, and then a line `show`, on the sheet in the
/// shelf's file of that name.
///
/// The file's bytes come first and their number, then the sheet, each search of which may do as many propagations as the
/// budget says; then the input's bytes, up to its end, and their number, and the journal's text. What is printed, how much of the
/// input was taken, and what was noted, the clause `ran` says.
pub fn post_file<M: Machine, I: Source, H: Shelf, O: Sink>(
    resources: Resources,
    file: &str,
    input: &mut I,
    shelf: &mut H,
    out: &mut O,
    notes: &mut M::Notes,
) -> Status
    ensures ran { Ran (Posts (M.IsSheet resources.budget) (M.RefusesText resources.budget) M.Allows
        file.now notes.old) 0 result notes.new (outside_of H.Shelf I.Source O.Sink shelf.old
        input.old out.old) (outside_of H.Shelf I.Source O.Sink shelf.new input.new out.new) }
    ensures asked { AsksOnce file.now (H.asked shelf.old) (H.asked shelf.new) }

    // A read fault is the shelf's, before the input is read, or the input's, after the shelf gave its file.
    ensures read_fault { result ≡ Status.ReadFault →
        FailsToRead I.faults input.old input.new (H.faults shelf.old) (H.faults shelf.new) }
{
    match take_file(resources.alloc, file, shelf) {
        Ok(text) => post_text::<M, I, O>(resources, &text, input, out, notes),
        Err(stop) => tell_file_stop(stop, NO_MEMORY_FOR_SHEET, out),
    }
}
