// Items of a comparison and arguments, under the names of the enclosing variables.
ghost use Rattle.std.specs.Prelude.{◌≡◌, codes, length, map};
ghost use Rattle.pc_sheet.specs.Views.{item_of, items_of};
ghost use Rattle.pc_writer.specs.FormulaText.{in_parentheses, item_text, item_texts};
ghost use Rattle.pc_writer.specs.inside.Scope.{variables_of};
ghost use Rattle.pc_writer.specs.inside.Writable.{AreWritable, IsWritable};
ghost use Rattle.pc_writer.specs.Spelling.{joined};
ghost use Rattle.pc_writer.specs.Writes.{Writes};

use crate::declared::write_family_name;
use crate::number::write_number;
use crate::pieces::{write_separator, write_text};
use crate::scope::Variable;
use crate::value::write_value;
use pc_books::Book;
use pc_port::{Failed, Sink};
use pc_sheet::Term;

/// Writes an item: a variable by its quantifier's name, a value or a number as such, an application with its arguments.
#[cycle(term)]
pub(crate) fn write_term<O: Sink>(
    book: &Book,
    variables: &[Variable<'_>],
    term: &Term,
    out: &mut O,
) -> Result<(), Failed>
    requires { IsWritable book.now.universe (length variables.now) (item_of term.now) }
    ensures { Writes O.given O.faults out.old out.new result
        (item_text book.now.universe (variables_of variables.now) (item_of term.now)) }
{
    match term {
        Term::Variable(k) => write_text(variables[usize::from(*k)].name.as_bytes(), out),
        Term::Value(sort, value) => write_value(book, *sort, *value, out),
        Term::Number(n) => write_number(*n, out),
        Term::Cell { family, args } => {
            write_family_name(book, *family, out)?;
            write_arguments(book, variables, args, out)
        }
    }
}

/// Writes the arguments in parentheses, if there are any.
#[cycle(term)]
pub(crate) fn write_arguments<O: Sink>(
    book: &Book,
    variables: &[Variable<'_>],
    terms: &[Term],
    out: &mut O,
) -> Result<(), Failed>
    requires { AreWritable book.now.universe (length variables.now)
        (items_of (map item_of terms.now)) }
    ensures { Writes O.given O.faults out.old out.new result
        (in_parentheses (item_texts book.now.universe (variables_of variables.now)
        (items_of (map item_of terms.now)))) }
{
    if terms.is_empty() {
        return Ok(());
    }
    write_text(b"(", out)?;
    write_terms(book, variables, terms, out)?;
    write_text(b")", out)
}

/// Writes items with a comma and a space between each two.
#[cycle(term)]
fn write_terms<O: Sink>(
    book: &Book,
    variables: &[Variable<'_>],
    terms: &[Term],
    out: &mut O,
) -> Result<(), Failed>
    requires { AreWritable book.now.universe (length variables.now)
        (items_of (map item_of terms.now)) }
    ensures { Writes O.given O.faults out.old out.new result
        (joined (codes ", ") (item_texts book.now.universe (variables_of variables.now)
        (items_of (map item_of terms.now)))) }
{
    for (i, term) in terms.iter().enumerate() {
        write_separator(i, out)?;
        write_term(book, variables, term, out)?;
    }
    Ok(())
}
