// How many columns the texts of a sheet take in a terminal.
//
// A text stands in no single slice. Its pieces are measured one by one, since a parenthesis or a comma ends each sequence
// of characters that is not as wide as its parts.
ghost use Rattle.std.specs.Prelude.{◌≡◌, ◌<◌, ◌≤◌, IfSome, codes, length, map, slice_get};
ghost use Rattle.std.specs.Fmt.{signed_decimal};
ghost use Rattle.pc_sheet.specs.Cells.{cells};
ghost use Rattle.pc_sheet.specs.Entailment.{cell_sizes};
ghost use Rattle.pc_sheet.specs.Limits.{most_entries};
ghost use Rattle.pc_sheet.specs.Sizes.{argument_sorts, size_of};
ghost use Rattle.pc_sheet.specs.WellFormed.{IsWellFormed};
ghost use Rattle.pc_writer.specs.Separator.{separator_at};
ghost use Rattle.pc_writer.specs.Spelling.{application_of, arguments_text, cell_text, family_of, joined, sort_of, value_text, value_texts};
ghost use Rattle.pc_display.specs.Show.{cells_below, entered_text, entered_texts};
ghost use Rattle.pc_display.specs.Grid.{columns, entry_column, widest};
ghost use Rattle.pc_display.specs.inside.Entered.{HaveValuesOf};
ghost use Rattle.pc_display.specs.inside.Names.{IsNamedSo, IsAsWide};

use crate::cell_entries::entries_of;
use itoa::Buffer;
use pc_books::Book;
use pc_sheet::{CellId, Entry, FamilyId, SortId, ValueId};
use pc_writer::sort_of;
use unicode_width::UnicodeWidthStr;

fn number_columns(number: i64) -> usize
    ensures exact { result ≡ columns (signed_decimal number) }
    ensures few { result ≤ 80 }
{
    let mut buffer = Buffer::new();
    buffer.format(number).width()
}

fn value_columns(book: &Book, sort: SortId, value: ValueId) -> usize
    requires formed { IsWellFormed book.now }
    requires value { value.0 < size_of book.now.universe sort }
    ensures exact { result ≡ columns (value_text book.now.universe sort value) }
    ensures few { result ≤ 8388608 }
{
    match book.range_of(sort) {
        Some((low, _)) => number_columns(i64::from(low) + i64::from(value.0)),
        None => match book.value_name(sort, value) {
            Some(name) => name.width(),
            None => unreachable!(),
        },
    }
}

/// The columns of what stands before the argument of that number.
fn separator_columns(place: usize) -> usize
    ensures exact { result ≡ columns (separator_at (codes ", ") place) }
    ensures few { result ≤ 2 }
{
    if place == 0 { 0 } else { 2 }
}

/// The columns of the arguments and what stands between them.
fn list_columns(book: &Book, cell: CellId, sorts: &[SortId]) -> usize
    requires formed { IsWellFormed book.now }
    requires cell { cell.0 < length (cell_sizes book.now.universe) }
    requires sorts { sorts.now ≡ argument_sorts (family_of book.now.universe cell) }
    ensures exact { result ≡
        columns
        (joined (codes ", ")
        (value_texts book.now.universe sorts.now
        (application_of book.now.universe cell).arguments)) }
    ensures few { result ≤ 33554440 }
{
    let mut total = 0;
    for (i, sort) in sorts.iter().enumerate() {
        let value = book.cell_arg(cell, i);
        total += separator_columns(i) + value_columns(book, *sort, value);
    }
    total
}

fn arguments_columns(book: &Book, cell: CellId, sorts: &[SortId]) -> usize
    requires formed { IsWellFormed book.now }
    requires cell { cell.0 < length (cell_sizes book.now.universe) }
    requires sorts { sorts.now ≡ argument_sorts (family_of book.now.universe cell) }
    ensures exact { result ≡
        columns (arguments_text book.now.universe sorts.now
        (application_of book.now.universe cell).arguments) }
    ensures few { result ≤ 33554442 }
{
    if sorts.is_empty() {
        0
    } else {
        list_columns(book, cell, sorts) + 2
    }
}

/// A family, and how many columns its name takes.
#[derive(Clone, Copy)]
pub(crate) struct NameColumns {
    pub(crate) family: FamilyId,
    pub(crate) columns: usize,
}

// Measures the family's name.
fn measured(book: &Book, family: FamilyId) -> NameColumns
    requires formed { IsWellFormed book.now }
    requires family { family.0 < length book.now.universe.families }
    ensures family { result.family ≡ family }
    ensures columns { IsNamedSo book.now.universe result }
{
    NameColumns {
        family,
        columns: book.family_name(family).width(),
    }
}

/// How many columns the name of the cell's family takes. It is measured unless it was before, so a family's name is measured once
/// where its cells come one after the other.
pub(crate) fn name_columns(book: &Book, cell: CellId, before: Option<NameColumns>) -> NameColumns
    requires formed { IsWellFormed book.now }
    requires cell { cell.0 < length (cell_sizes book.now.universe) }
    requires before { IfSome before (IsNamedSo book.now.universe) }
    ensures family { IsAsWide (family_of book.now.universe cell) result.columns }
    ensures columns { IsNamedSo book.now.universe result }
{
    let family = book.cell_family(cell);
    match before {
        None => measured(book, family),
        Some(name) => {
            if name.family.0 == family.0 {
                name
            } else {
                measured(book, family)
            }
        }
    }
}

/// How many columns a cell's text takes, where the name of its family takes so many.
pub(crate) fn cell_columns(book: &Book, cell: CellId, name: usize) -> usize
    requires formed { IsWellFormed book.now }
    requires cell { cell.0 < length (cell_sizes book.now.universe) }
    requires name { IsAsWide (family_of book.now.universe cell) name }
    ensures { result ≡ columns (cell_text book.now.universe cell) }
{
    let family = book.cell_family(cell);
    name + arguments_columns(book, cell, book.family_sorts(family))
}

/// The columns of the values of entries and the commas between them.
fn values_columns(book: &Book, sort: SortId, entries: &[Entry]) -> usize
    requires formed { IsWellFormed book.now }
    requires few { length entries.now ≤ most_entries }
    requires values { HaveValuesOf book.now.universe sort entries.now }
    ensures { result ≡
        columns (joined (codes ", ") (entered_texts book.now.universe sort entries.now)) }
{
    let mut total = 0;
    for (i, entry) in entries.iter().enumerate() {
        total += separator_columns(i) + value_columns(book, sort, entry.value);
    }
    total
}

/// How many columns the values of the cell's entries take, or a dash.
pub(crate) fn entered_columns(book: &Book, cell: CellId, entries: &[Entry]) -> usize
    requires formed { IsWellFormed book.now }
    requires cell { cell.0 < length (cell_sizes book.now.universe) }
    requires few { length entries.now ≤ most_entries }
    requires values { HaveValuesOf book.now.universe (sort_of book.now.universe cell) entries.now }
    ensures { result ≡ columns (entered_text book.now.universe (sort_of book.now.universe cell)
        entries.now) }
{
    if entries.is_empty() {
        1
    } else {
        values_columns(book, sort_of(book, cell), entries)
    }
}

/// How many columns the cell's entry column takes by itself.
fn entry_columns(book: &Book, cell: CellId) -> usize
    requires { cell.0 < length (cell_sizes book.now.universe) }
    ensures exact { result ≡ columns (entry_column book.now cell) }
    ensures formed { IsWellFormed book.now }
{
    let found = entries_of(book, cell);
    entered_columns(book, cell, found.as_slice())
}

/// How many columns the cells take, and how many their entries.
#[derive(Clone, Copy)]
pub(crate) struct Widths {
    pub(crate) cell: usize,
    pub(crate) entry: usize,
}

/// The most columns that a cell's text takes, and that the values of a cell's entries take, or a dash.
pub(crate) fn widths_of(book: &Book) -> Widths
    ensures cell { result.cell ≡
        widest
        (map (cell_text book.now.universe) (cells_below (length (cells book.now.universe)))) }
    ensures entry { result.entry ≡
        widest (map (entry_column book.now) (cells_below (length (cells book.now.universe)))) }
{
    let mut widths = Widths { cell: 0, entry: 0 };
    let mut before = None;
    for number in 0..book.cells() {
        let cell = CellId(number as u16);
        let entered = entry_columns(book, cell);
        let name = name_columns(book, cell, before);
        widths.cell = widths.cell.max(cell_columns(book, cell, name.columns));
        widths.entry = widths.entry.max(entered);
        before = Some(name);
    }
    widths
}
