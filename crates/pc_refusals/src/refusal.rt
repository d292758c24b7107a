//! Why texts are refused, and how that is told.
ghost use Rattle.std.specs.Prelude.{◌≡◌, ◌++◌, codes};
ghost use Rattle.pc_writer.specs.Writes.{Writes};
ghost use Rattle.pc_refusals.specs.Refusals.{counts_text, further_text, limit_word_of, refused_line_text, told_text, words_of};

use itoa::{Buffer, Integer};
use pc_port::{Failed, Sink};
use pc_sheet::Limited;
use pc_writer::{write_integer, write_text};

/// How the line begins that tells the refusal of a command.
pub const COMMAND_REFUSED: &[u8] = b"refused ";

/// How the line begins that tells the refusal of a sheet.
pub const SHEET_REFUSED: &[u8] = b"sheet refused ";

/// What a search has spent.
#[derive(Clone, Copy, PartialEq, Eq)]
pub struct Counts {
    /// How many literals were placed.
    pub placed: u64,
    /// How many clauses were learned.
    pub learned: u128,
    /// How many calls of a solver were made.
    pub calls: u128,
}

/// Why a sheet or a command is refused.
#[derive(Clone, Copy, PartialEq, Eq)]
pub enum Refusal {
    /// The line isn't UTF-8.
    NotUtf8,
    /// The line has none of the forms that may stand there.
    Syntax,
    /// The sheet has no `begin` line.
    NoBegin,
    /// The sheet is of another version of the format.
    WrongVersion,
    /// Nothing has a name that stands there.
    UnknownName,
    /// A name is taken.
    DuplicateName,
    /// There are more or fewer arguments than the table or family takes.
    WrongArity,
    /// A thing of another kind or sort stands there.
    WrongSort,
    /// A whole number isn't in the range.
    NotAValue,
    /// The sort has no value.
    EmptySort,
    /// A limit is passed.
    Limit(Limited),
    /// There are more maximal sets than a certificate may have.
    TooManySets,
    /// The sheet weighs too much, or would with that rule.
    TooLarge,
    /// No assignment makes every rule true, or would with that rule.
    Inconsistent,
    /// The budget ran out.
    Spent(Counts),
    /// The cell has no entry.
    NoEntry,
    /// A rule has that name.
    DuplicateRule,
    /// No rule has that name.
    NoRule,
    /// The line nests too deep.
    TooDeep,
}

/// Why a sheet is refused, and at which of its lines, the first having the number 1, where it is for a line.
#[derive(Clone, Copy, PartialEq, Eq)]
pub struct SheetRefusal {
    pub refusal: Refusal,
    pub line: Option<u32>,
}

/// Why a text gives no sheet.
#[derive(Clone, Copy, PartialEq, Eq)]
pub enum LoadFault {
    /// The text is refused.
    Refused(SheetRefusal),
    /// Memory was wanted.
    Memory,
}

impl Refusal {
    // The number and the word.
    fn words(self) -> &'static [u8]
        ensures { result.now ≡ words_of self }
    {
        match self {
            Refusal::NotUtf8 => b"1 not-utf8",
            Refusal::Syntax => b"2 syntax",
            Refusal::NoBegin => b"3 no-begin",
            Refusal::WrongVersion => b"4 wrong-version",
            Refusal::UnknownName => b"5 unknown-name",
            Refusal::DuplicateName => b"6 duplicate-name",
            Refusal::WrongArity => b"7 wrong-arity",
            Refusal::WrongSort => b"8 wrong-sort",
            Refusal::NotAValue => b"9 not-a-value",
            Refusal::EmptySort => b"10 empty-sort",
            Refusal::Limit(_) => b"11 limit",
            Refusal::TooManySets => b"11 limit",
            Refusal::TooLarge => b"12 too-large",
            Refusal::Inconsistent => b"13 inconsistent",
            Refusal::Spent(_) => b"14 spent",
            Refusal::NoEntry => b"16 no-entry",
            Refusal::DuplicateRule => b"17 duplicate-rule",
            Refusal::NoRule => b"18 no-rule",
            Refusal::TooDeep => b"21 too-deep",
        }
    }
}

// Writes where a sheet's refusal stands.
fn write_line<O: Sink>(line: Option<u32>, out: &mut O) -> Result<(), Failed>
    ensures { Writes O.given O.faults out.old out.new result (refused_line_text line) }
{
    let Some(number) = line else {
        return Ok(());
    };
    write_text(b" line ", out)?;
    write_integer(i64::from(number), out)
}

/// Writes a number behind its word.
pub fn write_number<N: Integer, O: Sink>(word: &[u8], number: N, out: &mut O) -> Result<(), Failed>
    ensures { Writes O.given O.faults out.old out.new result (word.now ++ N.text number) }
{
    write_text(word, out)?;
    let mut buffer = Buffer::new();
    write_text(buffer.format(number).as_bytes(), out)
}

// Writes what was spent.
fn write_counts<O: Sink>(counts: Counts, out: &mut O) -> Result<(), Failed>
    ensures { Writes O.given O.faults out.old out.new result (counts_text counts) }
{
    write_number(b" placed=", counts.placed, out)?;
    write_number(b" learned=", counts.learned, out)?;
    write_number(b" calls=", counts.calls, out)
}

// The word for what a limit is put on.
fn limit_word(limited: Limited) -> &'static [u8]
    ensures { result.now ≡ limit_word_of limited }
{
    match limited {
        Limited::Sorts => b"sorts",
        Limited::Values => b"values",
        Limited::Number => b"number",
        Limited::Tables => b"tables",
        Limited::Families => b"families",
        Limited::Arity => b"arity",
        Limited::Cells => b"cells",
        Limited::Rows => b"rows",
        Limited::Rules => b"rules",
        Limited::Count => b"count",
        Limited::Depth => b"depth",
        Limited::Reads => b"reads",
        Limited::Entries => b"entries",
        Limited::Budget => b"budget",
    }
}

// Writes the word of a limit.
fn write_limit<O: Sink>(limited: Limited, out: &mut O) -> Result<(), Failed>
    ensures { Writes O.given O.faults out.old out.new result (codes " " ++ limit_word_of limited) }
{
    write_text(b" ", out)?;
    write_text(limit_word(limited), out)
}

// Writes what is told further of a refusal.
fn write_further<O: Sink>(refusal: Refusal, out: &mut O) -> Result<(), Failed>
    ensures { Writes O.given O.faults out.old out.new result (further_text refusal) }
{
    match refusal {
        Refusal::Limit(limited) => write_limit(limited, out),
        Refusal::TooManySets => write_text(b" sets", out),
        Refusal::Spent(counts) => write_counts(counts, out),
        _ => Ok(()),
    }
}

// Tells a refusal in a line that begins so.
pub fn write_refusal<O: Sink>(
    beginning: &[u8],
    refusal: Refusal,
    line: Option<u32>,
    out: &mut O,
) -> Result<(), Failed>
    ensures { Writes O.given O.faults out.old out.new result
        (told_text beginning.now refusal line) }
{
    write_text(beginning, out)?;
    write_text(refusal.words(), out)?;
    write_line(line, out)?;
    write_further(refusal, out)?;
    write_text(b"\n", out)
}
