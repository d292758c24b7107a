//! How a run ends at journals that are at fault.
ghost use Rattle.std.specs.Prelude.{◌≡◌, ◌≢◌, ◌++◌, codes, decimal};
ghost use Rattle.pc_port.specs.Port.{Rose};
ghost use Rattle.pc_writer.specs.Writes.{Writes};
ghost use Rattle.pc_refusals.specs.Endings.{TellsAtEnd};
ghost use Rattle.pc_journal.specs.Told.{TellsFault, differ_text};

use pc_collab::JournalFault;
use pc_port::{Failed, Sink};
use pc_refusals::{Status, tell_no_memory, write_number};
use pc_writer::write_text;

// Writes what a line of a text from there is at fault for.
fn write_fault<O: Sink>(words: &[u8], place: &[u8], line: u32, out: &mut O) -> Result<(), Failed>
    ensures { Writes O.given O.faults out.old out.new result
        (words.now ++ (place.now ++ ((codes " line " ++ decimal line) ++ codes "\n"))) }
{
    write_text(words, out)?;
    write_text(place, out)?;
    write_number(b" line ", line, out)?;
    write_text(b"\n", out)
}

// Writes of which author and number two journals have different posts.
fn write_differ<O: Sink>(author: u32, number: u32, out: &mut O) -> Result<(), Failed>
    ensures { Writes O.given O.faults out.old out.new result (differ_text author number) }
{
    write_number(b"journal refused 25 differ author ", author, out)?;
    write_number(b" number ", number, out)?;
    write_text(b"\n", out)
}

// Ends a run at a line at fault.
fn tell_line<O: Sink>(words: &[u8], place: &[u8], line: u32, out: &mut O) -> Status
    ensures told { TellsAtEnd Status.SheetRefused
        (words.now ++ (place.now ++ ((codes " line " ++ decimal line) ++ codes "\n"))) result
        (O.given out.old) (O.given out.new) }
    ensures fault { result ≡ Status.WriteFault → Rose (O.faults out.old) (O.faults out.new) }
    ensures no_fault { result ≢ Status.WriteFault → O.faults out.new ≡ O.faults out.old }
{
    match write_fault(words, place, line, out) {
        Ok(()) => Status::SheetRefused,
        Err(Failed) => Status::WriteFault,
    }
}

/// Ends a run at the first line at fault of a text from there, or where memory was wanted to read it.
pub(crate) fn tell_fault<O: Sink>(place: &[u8], fault: JournalFault, out: &mut O) -> Status
    ensures told { TellsFault place.now fault result (O.given out.old) (O.given out.new) }
    ensures fault { result ≡ Status.WriteFault → Rose (O.faults out.old) (O.faults out.new) }
    ensures no_fault { result ≢ Status.WriteFault → O.faults out.new ≡ O.faults out.old }
{
    match fault {
        JournalFault::BadLine { line } => tell_line(
            b"journal refused 22 bad-line ",
            place,
            line,
            out,
        ),
        JournalFault::Gap { line } => tell_line(b"journal refused 23 gap ", place, line, out),
        JournalFault::OutOfOrder { line } => tell_line(
            b"journal refused 24 out-of-order ",
            place,
            line,
            out,
        ),
        JournalFault::Memory => tell_no_memory(out),
    }
}

/// Ends a run at two journals that have different posts of this author and number.
pub(crate) fn tell_differ<O: Sink>(author: u16, number: u32, out: &mut O) -> Status
    ensures told { TellsAtEnd Status.SheetRefused (differ_text author number) result
        (O.given out.old) (O.given out.new) }
    ensures fault { result ≡ Status.WriteFault → Rose (O.faults out.old) (O.faults out.new) }
    ensures no_fault { result ≢ Status.WriteFault → O.faults out.new ≡ O.faults out.old }
{
    match write_differ(u32::from(author), number, out) {
        Ok(()) => Status::SheetRefused,
        Err(Failed) => Status::WriteFault,
    }
}
