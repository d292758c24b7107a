// Whole sheets, in canonical form.
ghost use Rattle.std.specs.Prelude.{◌≡◌, ◌<◌, [], length, map};
ghost use Rattle.std.specs.List.{flat_map};
ghost use Rattle.pc_sheet.specs.WellFormed.{IsWellFormed};
ghost use Rattle.pc_writer.specs.FormulaText.{table_at};
ghost use Rattle.pc_writer.specs.SheetText.{ended, entry_lines, family_line, heading_line, lines_text, needs_second, row_lines, rule_line, sheet_text, sort_line, table_line, universe_lines};
ghost use Rattle.pc_writer.specs.Writes.{Writes};

use crate::counted::has_counting;
use crate::later::{has_several, note};
use crate::lines::{
    write_entry_line, write_family, write_row, write_rule, write_sort, write_table,
};
use crate::pieces::write_text;
use pc_books::{Book, well_formed};
use pc_port::{Failed, Sink};
use pc_sheet::{FamilyId, MOST_CELLS, SortId, TableId};

fn write_sorts<O: Sink>(book: &Book, out: &mut O) -> Result<(), Failed>
    requires { IsWellFormed book.now }
    ensures { Writes O.given O.faults out.old out.new result
        (lines_text (map sort_line book.now.universe.sorts)) }
{
    for i in 0..book.sorts() {
        write_sort(book, SortId(i as u16), out)?;
        write_text(b"\n", out)?;
    }
    Ok(())
}

fn write_tables<O: Sink>(book: &Book, out: &mut O) -> Result<(), Failed>
    requires { IsWellFormed book.now }
    ensures { Writes O.given O.faults out.old out.new result
        (lines_text (map (table_line book.now.universe) book.now.universe.tables)) }
{
    for i in 0..book.tables() {
        write_table(book, TableId(i as u16), out)?;
        write_text(b"\n", out)?;
    }
    Ok(())
}

/// Writes the rows of one table, in the order in which they were added.
fn write_rows_of<O: Sink>(book: &Book, table: TableId, out: &mut O) -> Result<(), Failed>
    requires formed { IsWellFormed book.now }
    requires table { table.0 < length book.now.universe.tables }
    ensures { Writes O.given O.faults out.old out.new result
        (lines_text (row_lines book.now.universe (table_at book.now.universe table))) }
{
    for i in 0..book.rows(table) {
        write_row(book, table, book.row(table, i), out)?;
        write_text(b"\n", out)?;
    }
    Ok(())
}

fn write_rows<O: Sink>(book: &Book, out: &mut O) -> Result<(), Failed>
    requires { IsWellFormed book.now }
    ensures { Writes O.given O.faults out.old out.new result
        (lines_text (flat_map (row_lines book.now.universe) book.now.universe.tables)) }
{
    for i in 0..book.tables() {
        write_rows_of(book, TableId(i as u16), out)?;
    }
    Ok(())
}

fn write_families<O: Sink>(book: &Book, out: &mut O) -> Result<(), Failed>
    requires { IsWellFormed book.now }
    ensures { Writes O.given O.faults out.old out.new result
        (lines_text (map (family_line book.now.universe) book.now.universe.families)) }
{
    for i in 0..book.families() {
        write_family(book, FamilyId(i as u16), out)?;
        write_text(b"\n", out)?;
    }
    Ok(())
}

fn write_rules<O: Sink>(book: &Book, out: &mut O) -> Result<(), Failed>
    requires { IsWellFormed book.now }
    ensures { Writes O.given O.faults out.old out.new result
        (lines_text (map (rule_line book.now.universe) book.now.rules)) }
{
    for rule in book.rules() {
        write_rule(book, rule, out)?;
        write_text(b"\n", out)?;
    }
    Ok(())
}

/// Writes the entries, the oldest first.
fn write_entry_lines<O: Sink>(book: &Book, out: &mut O) -> Result<(), Failed>
    requires { IsWellFormed book.now }
    ensures { Writes O.given O.faults out.old out.new result
        (lines_text (entry_lines book.now.universe book.now.entries)) }
{
    let mut noted = [false; MOST_CELLS];
    for entry in book.entries() {
        let later = note(&mut noted, entry.cell);
        write_entry_line(book, later, *entry, out)?;
        write_text(b"\n", out)?;
    }
    Ok(())
}

/// Whether the first version of the format lacks something that the book has: a second entry of a cell, or a rule that counts.
fn needs_second(book: &Book) -> bool
    requires { IsWellFormed book.now }
    ensures { result ≡ needs_second book.now }
{
    has_several(book) || has_counting(book)
}

/// Writes the first line: the version.
fn write_heading<O: Sink>(book: &Book, out: &mut O) -> Result<(), Failed>
    requires { IsWellFormed book.now }
    ensures { Writes O.given O.faults out.old out.new result (ended (heading_line book.now)) }
{
    if needs_second(book) {
        return write_text(b"sheet 2\n", out);
    }
    write_text(b"sheet 1\n", out)
}

/// Writes the declarations of the universe.
fn write_universe<O: Sink>(book: &Book, out: &mut O) -> Result<(), Failed>
    requires { IsWellFormed book.now }
    ensures { Writes O.given O.faults out.old out.new result
        (lines_text (universe_lines book.now.universe)) }
{
    write_sorts(book, out)?;
    write_tables(book, out)?;
    write_rows(book, out)?;
    write_families(book, out)
}

/// Writes the canonical text of a book: the version, all sorts, all tables, the rows table by table, all families, all
/// rules, all entries with the oldest first, and `begin`. It takes no memory, and goes over rules and entries twice.
pub fn write_sheet<O: Sink>(book: &Book, out: &mut O) -> Result<(), Failed>
    ensures { Writes O.given O.faults out.old out.new result (sheet_text book.now) }
{
    well_formed(book);
    write_heading(book, out)?;
    write_universe(book, out)?;
    write_rules(book, out)?;
    write_entry_lines(book, out)?;
    write_text(b"begin\n", out)
}
