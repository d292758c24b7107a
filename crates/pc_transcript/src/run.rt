// A sheet and its commands, from the first byte to the status.
ghost use Rattle.std.specs.Prelude.{◌≡◌, ◌≤◌, length};
ghost use Rattle.pc_port.specs.Port.{Rose};
ghost use Rattle.pc_lines.specs.Reader.{coming};
ghost use Rattle.pc_port.specs.declared.TheConstants.{CHUNK};
ghost use Rattle.pc_refusals.specs.Events.{Outside, around, streams_of};
ghost use Rattle.pc_refusals.specs.Runs.{Ran};
ghost use Rattle.pc_transcript.specs.Course.{FromSheet, Replay};
ghost use Rattle.pc_transcript.specs.inside.SoFar.{GoesOn};

use crate::LINE_LIMIT;
use crate::commands::answer_all;
use crate::machine::Machine;
use crate::resources::Resources;
use crate::sheet::take_sheet;
use crate::showing::tell_stop;
use pc_lines::{LineReader, SHEET_LIMIT, SheetStop};
use pc_port::{Sink, Source};
use pc_refusals::{Status, tell_no_memory_for_sheet, tell_too_long};

/// Reads the sheet, and then answers each command line that is still to come.
pub(crate) fn open<M: Machine, I: Source, O: Sink>(
    resources: Resources,
    sheet: &[u8],
    reader: &mut LineReader,
    notes: &mut M::Notes,
    input: &mut I,
    out: &mut O,
) -> Status
    requires longest { LINE_LIMIT ≤ reader.old.longest }
    requires small { length sheet.now ≤ SHEET_LIMIT }
    ensures goes_on { GoesOn
        (FromSheet (M.IsSheet resources.budget) (M.RefusesText resources.budget) M.Allows sheet.now
        notes.old) result notes.new (coming reader.old (I.left input.old))
        (streams_of I.Source O.Sink input.old out.old)
        (streams_of I.Source O.Sink input.new out.new) }
    ensures read_fault { result ≡ Status.ReadFault →
        Rose (I.faults input.old) (I.faults input.new) }
{
    match M::load(resources.alloc, sheet, resources.budget, notes) {
        Ok(mut machine) => answer_all(resources.alloc, reader, &mut machine, notes, input, out),
        Err(stop) => tell_stop::<M, O>(resources.alloc, &stop, out),
    }
}

// Takes the sheet's part of the input, and goes on from there.
fn replay_from<M: Machine, I: Source, O: Sink>(
    resources: Resources,
    reader: &mut LineReader,
    notes: &mut M::Notes,
    input: &mut I,
    out: &mut O,
) -> Status
    requires longest { reader.old.longest ≡ SHEET_LIMIT }
    ensures ran { (o : Outside) →
        Ran (Replay (M.IsSheet resources.budget) (M.RefusesText resources.budget) M.Allows
        notes.old) CHUNK result notes.new
        (around o
        (record (streams_of I.Source O.Sink input.old out.old) {
          input = coming reader.old
              (I.left input.old);
        })) (around o (streams_of I.Source O.Sink input.new out.new)) }
    ensures read_fault { result ≡ Status.ReadFault →
        Rose (I.faults input.old) (I.faults input.new) }
{
    match take_sheet(resources.alloc, reader, input) {
        Ok(sheet) => open::<M, I, O>(resources, &sheet, reader, notes, input, out),
        Err(SheetStop::Failed) => Status::ReadFault,
        Err(SheetStop::TooLong) => tell_too_long(out),
        Err(SheetStop::Memory) => tell_no_memory_for_sheet(out),
    }
}

/// Runs a sheet and its commands, both on the input.
///
/// It takes the sheet, up to its `begin` line, each search of which may do as many propagations as the budget says, and
/// then answers each command line before it reads on. What is printed, how much of the input was taken, and what was noted,
/// the clause `ran` says.
pub fn replay<M: Machine, I: Source, O: Sink>(
    resources: Resources,
    input: &mut I,
    out: &mut O,
    notes: &mut M::Notes,
) -> Status
    ensures ran { (o : Outside) →
        Ran (Replay (M.IsSheet resources.budget) (M.RefusesText resources.budget) M.Allows
        notes.old) CHUNK result notes.new
        (around o (streams_of I.Source O.Sink input.old out.old))
        (around o (streams_of I.Source O.Sink input.new out.new)) }

    // A failed read is told only where the input was at fault.
    ensures read_fault { result ≡ Status.ReadFault →
        Rose (I.faults input.old) (I.faults input.new) }
{
    let Ok(mut reader) = LineReader::new(resources.alloc, SHEET_LIMIT) else {
        return tell_no_memory_for_sheet(out);
    };
    replay_from::<M, I, O>(resources, &mut reader, notes, input, out)
}
