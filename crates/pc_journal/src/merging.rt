//! The merge of a file's journal and the input's, from the file's name to the status.
ghost use Rattle.std.specs.Prelude.{◌≡◌, ◌≢◌, ◌≤◌, [], length};
ghost use Rattle.pc_port.specs.Port.{HasCause, Rose, WriteGives};
ghost use Rattle.pc_collab.specs.Text.{journal_text};
ghost use Rattle.pc_collab.specs.declared.TheConstants.{JOURNAL_LIMIT};
ghost use Rattle.pc_refusals.specs.Endings.{TellsAtEnd};
ghost use Rattle.pc_lines.specs.Files.{AsksOnce, FailsToRead};
ghost use Rattle.pc_refusals.specs.Events.{outside_of, streams_of};
ghost use Rattle.pc_refusals.specs.Runs.{Ran};
ghost use Rattle.pc_journal.specs.Course.{FromInput, Merge, MergeBoth, MergeText};
ghost use Rattle.pc_refusals.specs.Did.{Did, Ends};

use crate::taking::{take_journal, tell_stop};
use crate::told::{tell_differ, tell_fault};
use pc_collab::{Journal, MergeFault, merge, read_journal, write_journal};
use pc_lines::take_file;
use pc_port::{Failed, Shelf, Sink, Source};
use pc_refusals::{NO_MEMORY, Status, tell_file_stop, tell_no_memory};
use pc_transcript::take_room;
use std::alloc::Global;

// Writes a journal's text: in one piece where there is room for it, and else piece by piece.
fn write_gathered<O: Sink>(alloc: Global, journal: &Journal, out: &mut O) -> Result<(), Failed>
    ensures bytes { WriteGives (O.given out.old) (O.given out.new) result
        (journal_text journal.now) }
    ensures cause { HasCause (O.faults out.old) (O.faults out.new) result }
{
    let mut room = take_room(alloc);
    match write_journal(journal, &mut room) {
        Ok(()) => room.pass_on(out),
        Err(Failed) => write_journal(journal, out),
    }
}

// Ends a run by a journal's text.
fn tell_journal<O: Sink>(alloc: Global, journal: &Journal, out: &mut O) -> Status
    ensures told { TellsAtEnd Status.Done (journal_text journal.now) result (O.given out.old)
        (O.given out.new) }
    ensures fault { result ≡ Status.WriteFault → Rose (O.faults out.old) (O.faults out.new) }
    ensures no_fault { result ≢ Status.WriteFault → O.faults out.new ≡ O.faults out.old }
{
    match write_gathered(alloc, journal, out) {
        Ok(()) => Status::Done,
        Err(Failed) => Status::WriteFault,
    }
}

// Merges two journals.
fn merge_both<O: Sink>(alloc: Global, a: &Journal, b: &Journal, out: &mut O) -> Status
    ensures ends { Ends (MergeBoth a.now b.now) [] result tt (O.given out.old) (O.given out.new) }
    ensures fault { result ≡ Status.WriteFault → Rose (O.faults out.old) (O.faults out.new) }
    ensures no_fault { result ≢ Status.WriteFault → O.faults out.new ≡ O.faults out.old }
{
    match merge(alloc, a, b) {
        Ok(merged) => tell_journal(alloc, &merged, out),
        Err(MergeFault::Differ { author, number }) => tell_differ(author, number, out),
        Err(MergeFault::Memory) => tell_no_memory(out),
    }
}

// Merges a journal with the input's.
fn merge_input<I: Source, O: Sink>(alloc: Global, a: &Journal, input: &mut I, out: &mut O) -> Status
    ensures did { Did (FromInput (MergeBoth a.now) tt) result tt
        (streams_of I.Source O.Sink input.old out.old)
        (streams_of I.Source O.Sink input.new out.new) }
    ensures read_fault { result ≡ Status.ReadFault →
        Rose (I.faults input.old) (I.faults input.new) }
{
    match take_journal(alloc, input) {
        Ok(b) => merge_both(alloc, a, &b, out),
        Err(stop) => tell_stop(stop, out),
    }
}

// Merges the journal of a file's text with the input's.
fn merge_text<I: Source, O: Sink>(alloc: Global, text: &[u8], input: &mut I, out: &mut O) -> Status
    requires { length text.now ≤ JOURNAL_LIMIT }
    ensures did { Did (MergeText text.now) result tt
        (streams_of I.Source O.Sink input.old out.old)
        (streams_of I.Source O.Sink input.new out.new) }
    ensures read_fault { result ≡ Status.ReadFault →
        Rose (I.faults input.old) (I.faults input.new) }
{
    match read_journal(alloc, text) {
        Ok(a) => merge_input(alloc, &a, input, out),
        Err(fault) => tell_fault(b"file", fault, out),
    }
}

/// Merges the journal in the shelf's file of that name with the one that the input has, and prints the merge.
///
/// The file's bytes come first and their number, then its text; then the input's bytes, up to its end, and their number, and its
/// text; and then the merge. What is printed, and how much of the input was taken, the clause `ran` says.
pub fn merge_file<I: Source, H: Shelf, O: Sink>(
    alloc: Global,
    file: &str,
    input: &mut I,
    shelf: &mut H,
    out: &mut O,
) -> Status
    ensures ran { Ran (Merge file.now) 0 result tt (outside_of H.Shelf I.Source O.Sink shelf.old
        input.old out.old) (outside_of H.Shelf I.Source O.Sink shelf.new input.new out.new) }
    ensures asked { AsksOnce file.now (H.asked shelf.old) (H.asked shelf.new) }

    // A read fault is the shelf's, before the input is read, or the input's, after the shelf gave its file.
    ensures read_fault { result ≡ Status.ReadFault →
        FailsToRead I.faults input.old input.new (H.faults shelf.old) (H.faults shelf.new) }
{
    match take_file(alloc, file, shelf) {
        Ok(text) => merge_text(alloc, &text, input, out),
        Err(stop) => tell_file_stop(stop, NO_MEMORY, out),
    }
}
