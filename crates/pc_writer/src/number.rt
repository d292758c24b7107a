// Whole numbers in decimal.
ghost use Rattle.std.specs.Fmt.{signed_decimal};
ghost use Rattle.pc_writer.specs.Writes.{Writes};

use crate::pieces::write_text;
use itoa::Buffer;
use pc_port::{Failed, Sink};

/// Writes a number in decimal, with a minus before a negative one.
pub fn write_integer<O: Sink>(number: i64, out: &mut O) -> Result<(), Failed>
    ensures { Writes O.given O.faults out.old out.new result (signed_decimal number) }
{
    let mut buffer = Buffer::new();
    write_text(buffer.format(number).as_bytes(), out)
}

/// Writes a number of a sheet.
pub(crate) fn write_number<O: Sink>(number: i32, out: &mut O) -> Result<(), Failed>
    ensures { Writes O.given O.faults out.old out.new result (signed_decimal number) }
{
    write_integer(i64::from(number), out)
}
