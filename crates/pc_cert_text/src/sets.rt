// The lines of sets.
ghost use Rattle.std.specs.Prelude.{All, map};
ghost use Rattle.pc_sheet.specs.WellFormed.{IsEntryOf};
ghost use Rattle.pc_accept.specs.Writable.{IsSetOf};
ghost use Rattle.pc_world_list.specs.SetCertificates.{given_of};
ghost use Rattle.pc_reason.specs.Derivation.{entries_from};
ghost use Rattle.pc_writer.specs.Writes.{Writes};
ghost use Rattle.pc_cert_text.specs.CertificateText.{set_text, sets_text};

use crate::entries::{write_uses, write_values};
use pc_books::Book;
use pc_port::{Failed, Sink};
use pc_sheet::{Entry, ValueId};
use pc_world_list::Worlds;
use pc_writer::write_text;

/// Writes the lines of each set: `set`, its entries as uses, and the value of each cell.
pub(crate) fn write_worlds<O: Sink>(book: &Book, sets: &Worlds, out: &mut O) -> Result<(), Failed>
    requires { All (IsSetOf book.now) (map given_of sets.now) }
    ensures { Writes O.given O.faults out.old out.new result
        (sets_text book.now.universe (map given_of sets.now)) }
{
    for i in 0..sets.len() {
        write_set(book, sets.entries(i), sets.shown(i).values(), out)?;
    }
    Ok(())
}

fn write_set<O: Sink>(
    book: &Book,
    entries: &[Entry],
    values: &[ValueId],
    out: &mut O,
) -> Result<(), Failed>
    requires uses { All (IsEntryOf book.now.universe) entries.now }
    requires values { All (IsEntryOf book.now.universe) (entries_from 0 values.now) }
    ensures { Writes O.given O.faults out.old out.new result
        (set_text book.now.universe (record {
          uses = entries.now;
          values = entries_from 0 values.now;
        })) }
{
    write_text(b"set\n", out)?;
    write_uses(book, entries, out)?;
    write_values(book, values, out)
}
