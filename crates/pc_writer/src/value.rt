// Values of a sort.
ghost use Rattle.std.specs.Prelude.{◌<◌};
ghost use Rattle.pc_sheet.specs.Sizes.{size_of};
ghost use Rattle.pc_writer.specs.Spelling.{value_text};
ghost use Rattle.pc_writer.specs.Writes.{Writes};

use crate::number::write_integer;
use crate::pieces::write_text;
use pc_books::Book;
use pc_port::{Failed, Sink};
use pc_sheet::{SortId, ValueId};

/// Writes a value of the sort: a listed one by its name, one of a range by its number.
pub fn write_value<O: Sink>(
    book: &Book,
    sort: SortId,
    value: ValueId,
    out: &mut O,
) -> Result<(), Failed>
    requires { value.0 < size_of book.now.universe sort }
    ensures { Writes O.given O.faults out.old out.new result
        (value_text book.now.universe sort value) }
{
    match book.range_of(sort) {
        Some((low, _)) => write_integer(i64::from(low) + i64::from(value.0), out),
        None => match book.value_name(sort, value) {
            Some(name) => write_text(name.as_bytes(), out),
            None => unreachable!(),
        },
    }
}
