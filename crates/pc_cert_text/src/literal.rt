// Literals, by the names of their variables.
ghost use Rattle.std.specs.Prelude.{◌<◌, length};
ghost use Rattle.pc_accept.specs.Literals.{Symbol};
ghost use Rattle.pc_axiom_names.specs.Shown.{symbol_shown};
ghost use Rattle.pc_reason.specs.Derivation.{literal_named, symbol_named};
ghost use Rattle.pc_writer.specs.Writes.{Writes};
ghost use Rattle.pc_cert_text.specs.CertificateText.{literal_text, claim_sign_text, symbol_text};
ghost use Rattle.pc_accept.specs.Writable.{IsSymbolOf};

use crate::path::write_path;
use crate::tight::write_read;
use pc_axiom_names::{Names, VarName};
use pc_books::Book;
use pc_lits::Lit;
use pc_port::{Failed, Sink};
use pc_sheet::Entry;
use pc_writer::write_text;

/// Writes a literal by the name of its variable.
pub(crate) fn write_literal<O: Sink>(
    book: &Book,
    names: &Names,
    literal: Lit,
    out: &mut O,
) -> Result<(), Failed>
    requires named { literal.variable.0 < length names.now.variables }
    requires symbol { IsSymbolOf book.now (symbol_named names.now literal.variable.0) }
    ensures { Writes O.given O.faults out.old out.new result
        (literal_text book.now (literal_named names.now literal)) }
{
    write_sign(literal.sign, out)?;
    write_symbol(book, names.variable(literal.variable), out)
}

fn write_sign<O: Sink>(sign: bool, out: &mut O) -> Result<(), Failed>
    ensures { Writes O.given O.faults out.old out.new result (claim_sign_text sign) }
{
    if sign { Ok(()) } else { write_text(b"~", out) }
}

fn write_symbol<O: Sink>(book: &Book, name: VarName<'_>, out: &mut O) -> Result<(), Failed>
    requires { IsSymbolOf book.now (symbol_shown name) }
    ensures { Writes O.given O.faults out.old out.new result
        (symbol_text book.now (symbol_shown name.entry)) }
{
    match name {
        VarName::Pair(cell, value) => write_read(book, Entry { cell, value }, out),
        VarName::Node(path) => write_path(book, path.rule, &path.steps, out),
    }
}
