// The lines of a sheet, without their ends.
ghost use Rattle.std.specs.Prelude.{◌≡◌, ◌<◌, codes, length, map, None, if◌then◌else◌};
ghost use Rattle.std.specs.List.{flat_map};
ghost use Rattle.pc_sheet.specs.Entailment.{AreWithin};
ghost use Rattle.pc_sheet.specs.Sheet.{range};
ghost use Rattle.pc_sheet.specs.Sizes.{size_of, values_at};
ghost use Rattle.pc_sheet.specs.Views.{rule_of};
ghost use Rattle.pc_sheet.specs.WellFormed.{IsEntryOf, IsWellFormedRule, IsWellFormedUniverse};
ghost use Rattle.pc_sheet.specs.WellSorted.{names_of_values};
ghost use Rattle.pc_books.specs.Named.{bounds_of};
ghost use Rattle.pc_writer.specs.FormulaText.{family_at, sort_at, table_at};
ghost use Rattle.pc_writer.specs.SheetText.{also_line, enter_line, family_line, row_line, rule_line, sort_line, spaced, table_line, values_text};
ghost use Rattle.pc_writer.specs.Spelling.{joined, value_texts};
ghost use Rattle.pc_writer.specs.Writes.{Writes};

use crate::declared::{write_argument_sorts, write_family_name, write_sort_name, write_table_name};
use crate::entry::write_entry;
use crate::formula::write_formula;
use crate::number::write_number;
use crate::pieces::{write_separator, write_text};
use crate::value::write_value;
use pc_books::Book;
use pc_port::{Failed, Sink};
use pc_sheet::{Entry, FamilyId, Rule, SortId, TableId, ValueId};

fn write_range<O: Sink>(low: i32, high: i32, out: &mut O) -> Result<(), Failed>
    ensures { Writes O.given O.faults out.old out.new result (values_text (range low high)) }
{
    write_text(b" ", out)?;
    write_number(low, out)?;
    write_text(b" .. ", out)?;
    write_number(high, out)
}

/// Writes the names of a listed sort's values, each behind a space.
fn write_names<O: Sink>(book: &Book, sort: SortId, out: &mut O) -> Result<(), Failed>
    requires formed { IsWellFormedUniverse book.now.universe }
    requires sort { sort.0 < length book.now.universe.sorts }
    requires listed { bounds_of (values_at book.now.universe sort) ≡ None }
    ensures { Writes O.given O.faults out.old out.new result
        (flat_map spaced (names_of_values (values_at book.now.universe sort))) }
{
    for i in 0..book.size_of(sort) {
        write_text(b" ", out)?;
        write_value(book, sort, ValueId(i as u16), out)?;
    }
    Ok(())
}

/// Writes a sort's values, as they stand behind its `=`.
fn write_values<O: Sink>(book: &Book, sort: SortId, out: &mut O) -> Result<(), Failed>
    requires formed { IsWellFormedUniverse book.now.universe }
    requires sort { sort.0 < length book.now.universe.sorts }
    ensures { Writes O.given O.faults out.old out.new result
        (values_text (values_at book.now.universe sort)) }
{
    match book.range_of(sort) {
        Some((low, high)) => write_range(low, high, out),
        None => write_names(book, sort, out),
    }
}

pub(crate) fn write_sort<O: Sink>(book: &Book, sort: SortId, out: &mut O) -> Result<(), Failed>
    requires formed { IsWellFormedUniverse book.now.universe }
    requires sort { sort.0 < length book.now.universe.sorts }
    ensures { Writes O.given O.faults out.old out.new result
        (sort_line (sort_at book.now.universe sort)) }
{
    write_text(b"sort ", out)?;
    write_sort_name(book, sort, out)?;
    write_text(b" =", out)?;
    write_values(book, sort, out)
}

pub(crate) fn write_table<O: Sink>(book: &Book, table: TableId, out: &mut O) -> Result<(), Failed>
    requires formed { IsWellFormedUniverse book.now.universe }
    requires table { table.0 < length book.now.universe.tables }
    ensures { Writes O.given O.faults out.old out.new result
        (table_line book.now.universe (table_at book.now.universe table)) }
{
    write_text(b"table ", out)?;
    write_table_name(book, table, out)?;
    write_argument_sorts(book, book.table_sorts(table), out)
}

/// Writes the values of a row with a comma and a space between each two.
fn write_row_values<O: Sink>(
    book: &Book,
    sorts: &[SortId],
    row: &[ValueId],
    out: &mut O,
) -> Result<(), Failed>
    requires { AreWithin (map (size_of book.now.universe) sorts.now) row.now }
    ensures { Writes O.given O.faults out.old out.new result
        (joined (codes ", ") (value_texts book.now.universe sorts.now row.now)) }
{
    for (i, sort) in sorts.iter().enumerate() {
        write_separator(i, out)?;
        write_value(book, *sort, row[i], out)?;
    }
    Ok(())
}

pub(crate) fn write_row<O: Sink>(
    book: &Book,
    table: TableId,
    row: &[ValueId],
    out: &mut O,
) -> Result<(), Failed>
    requires table { table.0 < length book.now.universe.tables }
    requires row { AreWithin
        (map (size_of book.now.universe) (table_at book.now.universe table).sorts) row.now }
    ensures { Writes O.given O.faults out.old out.new result
        (row_line book.now.universe (table_at book.now.universe table) row.now) }
{
    write_text(b"row ", out)?;
    write_table_name(book, table, out)?;
    write_text(b"(", out)?;
    write_row_values(book, book.table_sorts(table), row, out)?;
    write_text(b")", out)
}

pub(crate) fn write_family<O: Sink>(
    book: &Book,
    family: FamilyId,
    out: &mut O,
) -> Result<(), Failed>
    requires formed { IsWellFormedUniverse book.now.universe }
    requires family { family.0 < length book.now.universe.families }
    ensures { Writes O.given O.faults out.old out.new result
        (family_line book.now.universe (family_at book.now.universe family)) }
{
    write_text(b"cell ", out)?;
    write_family_name(book, family, out)?;
    write_argument_sorts(book, book.family_sorts(family), out)?;
    write_text(b" : ", out)?;
    write_sort_name(book, book.result_sort(family), out)
}

pub(crate) fn write_rule<O: Sink>(book: &Book, rule: &Rule, out: &mut O) -> Result<(), Failed>
    requires { IsWellFormedRule book.now.universe (rule_of rule.now) }
    ensures { Writes O.given O.faults out.old out.new result
        (rule_line book.now.universe (rule_of rule.now)) }
{
    write_text(b"rule ", out)?;
    write_text(rule.name.as_str().as_bytes(), out)?;
    write_text(b" : ", out)?;
    write_formula(book, &[], &rule.formula, out)
}

fn write_enter<O: Sink>(book: &Book, entry: Entry, out: &mut O) -> Result<(), Failed>
    requires { IsEntryOf book.now.universe entry }
    ensures { Writes O.given O.faults out.old out.new result (enter_line book.now.universe entry) }
{
    write_text(b"enter ", out)?;
    write_entry(book, entry, out)
}

fn write_also<O: Sink>(book: &Book, entry: Entry, out: &mut O) -> Result<(), Failed>
    requires { IsEntryOf book.now.universe entry }
    ensures { Writes O.given O.faults out.old out.new result (also_line book.now.universe entry) }
{
    write_text(b"also ", out)?;
    write_entry(book, entry, out)
}

/// Writes the line of an entry that is the first of its cell, or of a later one.
pub(crate) fn write_entry_line<O: Sink>(
    book: &Book,
    later: bool,
    entry: Entry,
    out: &mut O,
) -> Result<(), Failed>
    requires { IsEntryOf book.now.universe entry }
    ensures { Writes O.given O.faults out.old out.new result (if later
        then also_line book.now.universe entry else enter_line book.now.universe entry) }
{
    if later {
        return write_also(book, entry, out);
    }
    write_enter(book, entry, out)
}
