// The lines of a derivation.
ghost use Rattle.std.specs.Prelude.{◌+◌, ◌<◌, ◌^◌, ◌++◌, All, length, map};
ghost use Rattle.std.specs.List.{flat_map};
ghost use Rattle.pc_accept.specs.Accepts.{blocked};
ghost use Rattle.pc_lits.specs.declared.literal.Lit.{Lit};
ghost use Rattle.pc_log.specs.declared.log.StepId.{StepId};
ghost use Rattle.pc_log.specs.Shown.{shown_line};
ghost use Rattle.pc_reason.specs.Derivation.{line_named};
ghost use Rattle.pc_writer.specs.Writes.{Writes};
ghost use Rattle.pc_cert_text.specs.CertificateText.{behind_blank, derivation_line_text, derivation_lines_text, number_text};
ghost use Rattle.pc_writer.specs.SheetText.{ended};
ghost use Rattle.pc_cert_text.specs.inside.Steps.{AreKept, AreNamedAndOfSheet, CanBeWritten, HasNumber, IsLiteralOf, lines_in, logged_text, spaced_literal_text, step_text};

use crate::axiom::write_axiom;
use crate::hint::write_hints;
use crate::lines::Lines;
use crate::literal::write_literal;
use crate::number::write_number;
use pc_axiom_names::Names;
use pc_books::Book;
use pc_lits::Lit;
use pc_log::{Line, StepId};
use pc_port::{Failed, Sink};
use pc_writer::write_text;

/// Writes the lines of a derivation, numbered from 1, their hints as these numbers.
pub(crate) fn write_lines<O: Sink>(
    book: &Book,
    names: &Names,
    lines: Lines<'_>,
    out: &mut O,
) -> Result<(), Failed>
    requires kept { AreKept lines }
    requires lines { AreNamedAndOfSheet book.now names.now (lines_in lines) }
    ensures { Writes O.given O.faults out.old out.new result
        (derivation_lines_text book.now 1 (map (line_named names.now) (lines_in lines.entry))) }
{
    let mut from = 0;
    for index in 0..lines.len() {
        let (line, next) = lines.next(index, from);
        write_ended_line(book, names, line, lines, index as u64 + 1, out)?;
        from = next;
    }
    Ok(())
}

// Writes a numbered line with its end.
fn write_ended_line<O: Sink>(
    book: &Book,
    names: &Names,
    line: Line<'_>,
    lines: Lines<'_>,
    number: u64,
    out: &mut O,
) -> Result<(), Failed>
    requires { CanBeWritten book.now names.now lines (shown_line line) }
    ensures { Writes O.given O.faults out.old out.new result
        (ended (number_text number ++
        behind_blank (logged_text book.now names.now lines.entry (shown_line line.entry)))) }
{
    write_numbered_line(book, names, line, lines, number, out)?;
    write_text(b"\n", out)
}

fn write_numbered_line<O: Sink>(
    book: &Book,
    names: &Names,
    line: Line<'_>,
    lines: Lines<'_>,
    number: u64,
    out: &mut O,
) -> Result<(), Failed>
    requires { CanBeWritten book.now names.now lines (shown_line line) }
    ensures { Writes O.given O.faults out.old out.new result (number_text number ++
        behind_blank (logged_text book.now names.now lines.entry (shown_line line.entry))) }
{
    write_number(number, out)?;
    write_text(b" ", out)?;
    write_line(book, names, line, lines, out)
}

// Writes a line with the numbers of its hints.
fn write_line<O: Sink>(
    book: &Book,
    names: &Names,
    line: Line<'_>,
    lines: Lines<'_>,
    out: &mut O,
) -> Result<(), Failed>
    requires { CanBeWritten book.now names.now lines (shown_line line) }
    ensures { Writes O.given O.faults out.old out.new result
        (logged_text book.now names.now lines.entry (shown_line line.entry)) }
{
    match line {
        Line::Axiom(number) => write_axiom(book, names.axiom(number), out),
        Line::Block { number, .. } => write_block(book, number, out),
        Line::Step { clause, hints, .. } => {
            write_step_line(book, names, clause, hints, lines, out)
        }
    }
}

// Writes the number of a set, counted from 1, whose clause the line has.
fn write_block<O: Sink>(book: &Book, number: usize, out: &mut O) -> Result<(), Failed>
    requires { number + 1 < 2 ^ 64 }
    ensures { Writes O.given O.faults out.old out.new result
        (derivation_line_text book.now (blocked number)) }
{
    write_text(b"block ", out)?;
    write_number((number + 1) as u64, out)
}

fn write_step_line<O: Sink>(
    book: &Book,
    names: &Names,
    clause: &[Lit],
    hints: &[StepId],
    lines: Lines<'_>,
    out: &mut O,
) -> Result<(), Failed>
    requires clause { All (IsLiteralOf book.now names.now) clause.now }
    requires hints { All (λ h. HasNumber lines h.0) hints.now }
    ensures { Writes O.given O.faults out.old out.new result
        (step_text book.now names.now lines.entry clause.now hints.now) }
{
    write_text(b"step", out)?;
    write_literals(book, names, clause, out)?;
    write_text(b" :", out)?;
    write_hints(hints, lines, out)
}

fn write_literals<O: Sink>(
    book: &Book,
    names: &Names,
    clause: &[Lit],
    out: &mut O,
) -> Result<(), Failed>
    requires { All (IsLiteralOf book.now names.now) clause.now }
    ensures { Writes O.given O.faults out.old out.new result
        (flat_map (spaced_literal_text book.now names.now) clause.now) }
{
    for literal in clause {
        write_spaced_literal(book, names, *literal, out)?;
    }
    Ok(())
}

fn write_spaced_literal<O: Sink>(
    book: &Book,
    names: &Names,
    literal: Lit,
    out: &mut O,
) -> Result<(), Failed>
    requires { IsLiteralOf book.now names.now literal }
    ensures { Writes O.given O.faults out.old out.new result
        (spaced_literal_text book.now names.now literal) }
{
    write_text(b" ", out)?;
    write_literal(book, names, literal, out)
}
