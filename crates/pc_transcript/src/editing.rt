// The sheet of a file and commands on it, from the file's name to the status.
ghost use Rattle.std.specs.Prelude.{◌≡◌, ◌≤◌, []};
ghost use Rattle.pc_lines.specs.Files.{AsksOnce, FailsToRead};
ghost use Rattle.pc_port.specs.declared.TheConstants.{CHUNK};
ghost use Rattle.pc_refusals.specs.Events.{outside_of};
ghost use Rattle.pc_refusals.specs.Runs.{Ran};
ghost use Rattle.pc_transcript.specs.Course.{Edit};

use crate::LINE_LIMIT;
use crate::machine::Machine;
use crate::resources::Resources;
use crate::run::open;
use pc_lines::{LineReader, take_file};
use pc_port::{Shelf, Sink, Source};
use pc_refusals::{NO_MEMORY_FOR_SHEET, Status, tell_file_stop, tell_no_memory_for_sheet};

/// Runs the commands on the input, on the sheet in the shelf's file of that name.
///
/// The file's bytes come first and their number, then the sheet, each search of which may do as many propagations as the
/// budget says; then each command line is answered before the input is read on. Up to the commands the input is left as it
/// was. What is printed, how much of the input was taken, and what was noted, the clause `ran` says.
pub fn edit<M: Machine, I: Source, H: Shelf, O: Sink>(
    resources: Resources,
    file: &str,
    input: &mut I,
    shelf: &mut H,
    out: &mut O,
    notes: &mut M::Notes,
) -> Status
    ensures ran { Ran (Edit (M.IsSheet resources.budget) (M.RefusesText resources.budget) M.Allows
        file.now notes.old) CHUNK result notes.new (outside_of H.Shelf I.Source O.Sink shelf.old
        input.old out.old) (outside_of H.Shelf I.Source O.Sink shelf.new input.new out.new) }
    ensures asked { AsksOnce file.now (H.asked shelf.old) (H.asked shelf.new) }

    // A read fault is the shelf's, before the input is read, or the input's, after the shelf gave its file.
    ensures read_fault { result ≡ Status.ReadFault →
        FailsToRead I.faults input.old input.new (H.faults shelf.old) (H.faults shelf.new) }
{
    let Ok(mut reader) = LineReader::new(resources.alloc, LINE_LIMIT) else {
        return tell_no_memory_for_sheet(out);
    };
    edit_from::<M, I, H, O>(resources, file, &mut reader, input, shelf, out, notes)
}

// Takes the shelf's file, and goes on from there. The reader is lent, so that no way out has to let it go.
fn edit_from<M: Machine, I: Source, H: Shelf, O: Sink>(
    resources: Resources,
    file: &str,
    reader: &mut LineReader,
    input: &mut I,
    shelf: &mut H,
    out: &mut O,
    notes: &mut M::Notes,
) -> Status
    requires held { reader.old.held ≡ [] }
    requires longest { LINE_LIMIT ≤ reader.old.longest }
    ensures ran { Ran (Edit (M.IsSheet resources.budget) (M.RefusesText resources.budget) M.Allows
        file.now notes.old) CHUNK result notes.new (outside_of H.Shelf I.Source O.Sink shelf.old
        input.old out.old) (outside_of H.Shelf I.Source O.Sink shelf.new input.new out.new) }
    ensures asked { AsksOnce file.now (H.asked shelf.old) (H.asked shelf.new) }
    ensures read_fault { result ≡ Status.ReadFault →
        FailsToRead I.faults input.old input.new (H.faults shelf.old) (H.faults shelf.new) }
{
    match take_file(resources.alloc, file, shelf) {
        Ok(sheet) => open::<M, I, O>(resources, &sheet, reader, notes, input, out),
        Err(stop) => tell_file_stop(stop, NO_MEMORY_FOR_SHEET, out),
    }
}
