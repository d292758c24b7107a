// Axioms.
ghost use Rattle.std.specs.Prelude.{◌<◌, ◌^◌, ◌++◌, All, codes, length};
ghost use Rattle.std.specs.List.{flat_map};
ghost use Rattle.pc_sheet.specs.Entailment.{cell_sizes};
ghost use Rattle.pc_sheet.specs.WellFormed.{IsEntryOf};
ghost use Rattle.pc_accept.specs.Axioms.{axiom_some, axiom_one, axiom_rule, axiom_node, axiom_atom};
ghost use Rattle.pc_axiom_names.specs.Shown.{axiom_shown};
ghost use Rattle.pc_writer.specs.Spelling.{sort_of, value_text};
ghost use Rattle.pc_writer.specs.Writes.{Writes};
ghost use Rattle.pc_cert_text.specs.CertificateText.{axiom_text, behind_blank, number_text, read_text};
ghost use Rattle.pc_accept.specs.Writable.{IsAxiomOf, IsPathOf};

use crate::number::write_number;
use crate::path::{write_path, write_rule_name};
use crate::tight::{write_read, write_tight_cell};
use pc_axiom_names::AxiomRef;
use pc_books::Book;
use pc_port::{Failed, Sink};
use pc_sheet::{CellId, Entry, NodePath, ValueId};
use pc_writer::{sort_of, write_text, write_value};

/// Writes an axiom.
pub(crate) fn write_axiom<O: Sink>(
    book: &Book,
    name: AxiomRef<'_>,
    out: &mut O,
) -> Result<(), Failed>
    requires { IsAxiomOf book.now (axiom_shown name) }
    ensures { Writes O.given O.faults out.old out.new result
        (axiom_text book.now (axiom_shown name.entry)) }
{
    match name {
        AxiomRef::Any(cell) => write_some(book, cell, out),
        AxiomRef::One(cell, value, other) => write_one(book, cell, value, other, out),
        AxiomRef::Rule(rule) => write_rule(book, rule, out),
        AxiomRef::Node(path, number) => write_node(book, path, number, out),
        AxiomRef::Atom(path, reads) => write_atom(book, path, reads, out),
    }
}

fn write_some<O: Sink>(book: &Book, cell: CellId, out: &mut O) -> Result<(), Failed>
    requires { cell.0 < length (cell_sizes book.now.universe) }
    ensures { Writes O.given O.faults out.old out.new result
        (axiom_text book.now (axiom_some cell)) }
{
    write_text(b"some ", out)?;
    write_tight_cell(book, cell, out)
}

fn write_one<O: Sink>(
    book: &Book,
    cell: CellId,
    value: ValueId,
    other: ValueId,
    out: &mut O,
) -> Result<(), Failed>
    requires value { IsEntryOf book.now.universe (record { cell = cell; value = value }) }
    requires other { IsEntryOf book.now.universe (record { cell = cell; value = other }) }
    ensures { Writes O.given O.faults out.old out.new result
        (axiom_text book.now (axiom_one cell value other)) }
{
    write_text(b"one ", out)?;
    write_tight_cell(book, cell, out)?;
    write_next_value(book, cell, value, out)?;
    write_next_value(book, cell, other, out)
}

// Writes a value of a cell behind a blank.
fn write_next_value<O: Sink>(
    book: &Book,
    cell: CellId,
    value: ValueId,
    out: &mut O,
) -> Result<(), Failed>
    requires { IsEntryOf book.now.universe (record { cell = cell; value = value }) }
    ensures { Writes O.given O.faults out.old out.new result
        (behind_blank (value_text book.now.universe (sort_of book.now.universe cell) value)) }
{
    write_text(b" ", out)?;
    write_value(book, sort_of(book, cell), value, out)
}

fn write_rule<O: Sink>(book: &Book, rule: u32, out: &mut O) -> Result<(), Failed>
    requires { rule < length book.now.rules }
    ensures { Writes O.given O.faults out.old out.new result
        (axiom_text book.now (axiom_rule rule)) }
{
    write_text(b"rule ", out)?;
    write_rule_name(book, rule, out)
}

fn write_node<O: Sink>(book: &Book, path: &NodePath, number: u32, out: &mut O) -> Result<(), Failed>
    requires { IsPathOf book.now path.now.rule path.now.steps.items }
    ensures { Writes O.given O.faults out.old out.new result
        (axiom_text book.now (axiom_node path.now.rule path.now.steps.items number)) }
{
    write_text(b"node ", out)?;
    write_path(book, path.rule, &path.steps, out)?;
    write_text(b" ", out)?;
    write_number(u64::from(number), out)
}

fn write_atom<O: Sink>(
    book: &Book,
    path: &NodePath,
    reads: &[Entry],
    out: &mut O,
) -> Result<(), Failed>
    requires path { IsPathOf book.now path.now.rule path.now.steps.items }
    requires reads { All (IsEntryOf book.now.universe) reads.now }
    ensures { Writes O.given O.faults out.old out.new result
        (axiom_text book.now (axiom_atom path.now.rule path.now.steps.items reads.now)) }
{
    write_text(b"atom ", out)?;
    write_path(book, path.rule, &path.steps, out)?;
    write_reads(book, reads, out)
}

fn write_reads<O: Sink>(book: &Book, reads: &[Entry], out: &mut O) -> Result<(), Failed>
    requires { All (IsEntryOf book.now.universe) reads.now }
    ensures { Writes O.given O.faults out.old out.new result
        (flat_map (λ e. behind_blank (read_text book.now.universe e)) reads.now) }
{
    for read in reads {
        write_next_read(book, *read, out)?;
    }
    Ok(())
}

// Writes a cell with a value behind a blank.
fn write_next_read<O: Sink>(book: &Book, read: Entry, out: &mut O) -> Result<(), Failed>
    requires { IsEntryOf book.now.universe read }
    ensures { Writes O.given O.faults out.old out.new result
        (behind_blank (read_text book.now.universe read)) }
{
    write_text(b" ", out)?;
    write_read(book, read, out)
}
