//! How a run ends by one line.
ghost use Rattle.std.specs.Prelude.{◌≡◌, ◌≢◌, ◌↔◌};
ghost use Rattle.pc_port.specs.Port.{Rose};
ghost use Rattle.pc_refusals.specs.Refusals.{sheet_refusal_text};
ghost use Rattle.pc_refusals.specs.Endings.{TellsAtEnd, memory_text, sheet_memory_text, too_long_text};
ghost use Rattle.pc_refusals.specs.Files.{TellsFileStop};
ghost use Rattle.pc_refusals.specs.Inputs.{TellsInputStop};

use crate::Status;
use crate::input::InputStop;
use crate::refusal::{SHEET_REFUSED, SheetRefusal, write_refusal};
use pc_lines::SheetStop;
use pc_port::{Failed, Sink};

/// What a run ends by that wanted memory where no sheet is read.
pub const NO_MEMORY: &[u8] = b"refused 15 memory\n";

/// What a run ends by that wanted memory for its sheet.
pub const NO_MEMORY_FOR_SHEET: &[u8] = b"sheet refused 15 memory\n";

/// Ends a run by a line, at the status, or at a failed write.
pub fn end_with<O: Sink>(status: Status, line: &[u8], out: &mut O) -> Status
    requires { status ≢ Status.WriteFault }
    ensures told { TellsAtEnd status line.now result (O.given out.old) (O.given out.new) }
    ensures fault { result ≡ Status.WriteFault → Rose (O.faults out.old) (O.faults out.new) }
    ensures no_fault { result ≢ Status.WriteFault → O.faults out.new ≡ O.faults out.old }
{
    match out.write(line) {
        Ok(()) => status,
        Err(Failed) => Status::WriteFault,
    }
}

/// Ends a run by the refusal of its sheet.
pub fn refuse<O: Sink>(refused: SheetRefusal, out: &mut O) -> Status
    ensures told { TellsAtEnd Status.SheetRefused (sheet_refusal_text refused) result
        (O.given out.old) (O.given out.new) }
    ensures fault { result ≡ Status.WriteFault → Rose (O.faults out.old) (O.faults out.new) }
    ensures no_fault { result ≢ Status.WriteFault → O.faults out.new ≡ O.faults out.old }
{
    match write_refusal(SHEET_REFUSED, refused.refusal, refused.line, out) {
        Ok(()) => Status::SheetRefused,
        Err(Failed) => Status::WriteFault,
    }
}

/// Ends a run that passed a limit.
pub fn tell_too_long<O: Sink>(out: &mut O) -> Status
    ensures told { TellsAtEnd Status.TooLong too_long_text result (O.given out.old)
        (O.given out.new) }
    ensures fault { result ≡ Status.WriteFault → Rose (O.faults out.old) (O.faults out.new) }
    ensures no_fault { result ≢ Status.WriteFault → O.faults out.new ≡ O.faults out.old }
{
    end_with(Status::TooLong, b"refused 19 too-long\n", out)
}

/// Ends a run that wanted memory where no sheet is read.
pub fn tell_no_memory<O: Sink>(out: &mut O) -> Status
    ensures told { TellsAtEnd Status.Memory memory_text result (O.given out.old) (O.given out.new) }
    ensures fault { result ≡ Status.WriteFault → Rose (O.faults out.old) (O.faults out.new) }
    ensures no_fault { result ≢ Status.WriteFault → O.faults out.new ≡ O.faults out.old }
{
    end_with(Status::Memory, NO_MEMORY, out)
}

/// Ends a run that wanted memory for its sheet.
pub fn tell_no_memory_for_sheet<O: Sink>(out: &mut O) -> Status
    ensures told { TellsAtEnd Status.Memory sheet_memory_text result (O.given out.old)
        (O.given out.new) }
    ensures fault { result ≡ Status.WriteFault → Rose (O.faults out.old) (O.faults out.new) }
    ensures no_fault { result ≢ Status.WriteFault → O.faults out.new ≡ O.faults out.old }
{
    end_with(Status::Memory, NO_MEMORY_FOR_SHEET, out)
}

/// Ends a run whose shelf gives no sheet's text, by this line where memory was wanting. A failed read is told by the status
/// alone.
pub fn tell_file_stop<O: Sink>(stop: SheetStop, lack: &[u8], out: &mut O) -> Status
    ensures told { TellsFileStop lack.now stop result (O.given out.old) (O.given out.new) }
    ensures read { result ≡ Status.ReadFault ↔ stop ≡ SheetStop.Failed }
    ensures fault { result ≡ Status.WriteFault → Rose (O.faults out.old) (O.faults out.new) }
    ensures no_fault { result ≢ Status.WriteFault → O.faults out.new ≡ O.faults out.old }
{
    match stop {
        SheetStop::Failed => Status::ReadFault,
        SheetStop::TooLong => tell_too_long(out),
        SheetStop::Memory => end_with(Status::Memory, lack, out),
    }
}

/// Ends a run whose input isn't read to its end. A failed read is told by the status alone.
pub fn tell_input_stop<O: Sink>(stop: InputStop, out: &mut O) -> Status
    ensures told { TellsInputStop stop result (O.given out.old) (O.given out.new) }
    ensures read { result ≡ Status.ReadFault ↔ stop ≡ InputStop.Failed }
    ensures fault { result ≡ Status.WriteFault → Rose (O.faults out.old) (O.faults out.new) }
    ensures no_fault { result ≢ Status.WriteFault → O.faults out.new ≡ O.faults out.old }
{
    match stop {
        InputStop::Failed => Status::ReadFault,
        InputStop::TooLong => tell_too_long(out),
        InputStop::Memory => tell_no_memory(out),
    }
}
