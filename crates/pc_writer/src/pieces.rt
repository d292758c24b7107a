// Pieces of a text, written one after another.
ghost use Rattle.std.specs.Prelude.{codes};
ghost use Rattle.pc_writer.specs.Separator.{separator_at};
ghost use Rattle.pc_writer.specs.Writes.{Writes};

use pc_port::{Failed, Sink};

/// Writes a piece as it is.
pub fn write_text<O: Sink>(piece: &[u8], out: &mut O) -> Result<(), Failed>
    ensures { Writes O.given O.faults out.old out.new result piece.now }
{
    out.write(piece)
}

/// Writes what stands before the piece of that number in a list: the separator, but nothing before the first one.
pub(crate) fn write_between<O: Sink>(
    separator: &[u8],
    place: usize,
    out: &mut O,
) -> Result<(), Failed>
    ensures { Writes O.given O.faults out.old out.new result (separator_at separator.now place) }
{
    if place == 0 {
        return Ok(());
    }
    write_text(separator, out)
}

/// Writes what stands before the piece of that number in a list: a comma, but nothing before the first one.
pub(crate) fn write_separator<O: Sink>(place: usize, out: &mut O) -> Result<(), Failed>
    ensures { Writes O.given O.faults out.old out.new result (separator_at (codes ", ") place) }
{
    write_between(b", ", place, out)
}
