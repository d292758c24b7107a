// Numbers in decimal.
ghost use Rattle.pc_writer.specs.Writes.{Writes};
ghost use Rattle.pc_cert_text.specs.CertificateText.{number_text};

use itoa::Buffer;
use pc_port::{Failed, Sink};
use pc_writer::write_text;

/// Writes a number in decimal.
pub(crate) fn write_number<O: Sink>(number: u64, out: &mut O) -> Result<(), Failed>
    ensures { Writes O.given O.faults out.old out.new result (number_text number) }
{
    let mut buffer = Buffer::new();
    write_text(buffer.format(number).as_bytes(), out)
}
