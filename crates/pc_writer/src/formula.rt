// Statements, with parentheses exactly where the grammar needs them.
ghost use Rattle.std.specs.Prelude.{◌≡◌, ◌<◌, ◌++◌, ◌∷◌, [], All, length, map};
ghost use Rattle.std.specs.List.{flat_map};
ghost use Rattle.pc_sheet.specs.Nesting.{tightness};
ghost use Rattle.pc_sheet.specs.Views.{added_of, counting_of, item_of, items_of, statement_of, statements_of, sum_of};
ghost use Rattle.pc_sheet.specs.WellSorted.{AreWellSorted, IsNewVariable, IsWellSorted};
ghost use Rattle.pc_writer.specs.FormulaText.{added_text, count_text, count_word, in_parentheses, item_texts, op_text, part_text, part_texts, quantifier_text, sign_text, statement_text, sum_text, table_at};
ghost use Rattle.pc_writer.specs.inside.Scope.{variables_of};
ghost use Rattle.pc_writer.specs.Spelling.{joined};
ghost use Rattle.pc_writer.specs.inside.Writable.{AreWritable, IsWritablePart, IsWritableSum};
ghost use Rattle.pc_writer.specs.Writes.{Writes};

use crate::declared::{write_sort_name, write_table_name};
use crate::number::write_number;
use crate::pieces::{write_between, write_text};
use crate::scope::{Variable, extended};
use crate::term::{write_arguments, write_term};
use pc_books::Book;
use pc_port::{Failed, Sink};
use pc_sheet::{Formula, Name, Op, Side, Sign, SortId, TableId, Term};

// How tightly a statement binds: a quantifier least, and what needs no parentheses most.
const QUANTIFIED: u8 = 0;

const IFF: u8 = 1;

const IMPLIES: u8 = 2;

const OR: u8 = 3;

const AND: u8 = 4;

const UNARY: u8 = 5;

fn tightness(formula: &Formula) -> u8
    ensures { result ≡ tightness (statement_of formula.now) }
{
    match formula {
        Formula::Compare { .. } | Formula::InTable { .. } | Formula::Not(_) => UNARY,
        Formula::And(_) => AND,
        Formula::Or(_) => OR,
        Formula::Implies(_, _) => IMPLIES,
        Formula::Iff(_, _) => IFF,
        Formula::ForAll { .. } | Formula::Exists { .. } | Formula::Count { .. } => QUANTIFIED,
    }
}

fn op_text(op: Op) -> &'static str
    ensures { result.now ≡ op_text op }
{
    match op {
        Op::Eq => " = ",
        Op::Ne => " != ",
        Op::Lt => " < ",
        Op::Le => " <= ",
        Op::Gt => " > ",
        Op::Ge => " >= ",
    }
}

fn sign_text(sign: Sign) -> &'static str
    ensures { result.now ≡ sign_text sign }
{
    match sign {
        Sign::Plus => " + ",
        Sign::Minus => " - ",
    }
}

fn count_word(at_most: bool) -> &'static str
    ensures { result.now ≡ count_word at_most }
{
    if at_most { "atmost " } else { "atleast " }
}

/// Writes what is added and subtracted.
fn write_rest<O: Sink>(
    book: &Book,
    variables: &[Variable<'_>],
    rest: &[(Sign, Term)],
    out: &mut O,
) -> Result<(), Failed>
    requires { All (IsWritablePart book.now.universe (length variables.now))
        (map added_of rest.now) }
    ensures { Writes O.given O.faults out.old out.new result
        (flat_map (added_text book.now.universe (variables_of variables.now))
        (map added_of rest.now)) }
{
    for (sign, term) in rest {
        write_text(sign_text(*sign).as_bytes(), out)?;
        write_term(book, variables, term, out)?;
    }
    Ok(())
}

/// Writes a side of a comparison.
fn write_side<O: Sink>(
    book: &Book,
    variables: &[Variable<'_>],
    side: &Side,
    out: &mut O,
) -> Result<(), Failed>
    requires { IsWritableSum book.now.universe (length variables.now) (sum_of side.now) }
    ensures { Writes O.given O.faults out.old out.new result
        (sum_text book.now.universe (variables_of variables.now) (sum_of side.now)) }
{
    write_term(book, variables, &side.first, out)?;
    write_rest(book, variables, &side.rest, out)
}

fn write_comparison<O: Sink>(
    book: &Book,
    variables: &[Variable<'_>],
    left: &Side,
    op: Op,
    right: &Side,
    out: &mut O,
) -> Result<(), Failed>
    requires left { IsWritableSum book.now.universe (length variables.now) (sum_of left.now) }
    requires right { IsWritableSum book.now.universe (length variables.now) (sum_of right.now) }
    ensures { Writes O.given O.faults out.old out.new result
        (sum_text book.now.universe (variables_of variables.now) (sum_of left.now) ++
        (op_text op ++ sum_text book.now.universe (variables_of variables.now)
        (sum_of right.now))) }
{
    write_side(book, variables, left, out)?;
    write_text(op_text(op).as_bytes(), out)?;
    write_side(book, variables, right, out)
}

fn write_in_table<O: Sink>(
    book: &Book,
    variables: &[Variable<'_>],
    table: TableId,
    args: &[Term],
    out: &mut O,
) -> Result<(), Failed>
    requires table { table.0 < length book.now.universe.tables }
    requires args { AreWritable book.now.universe (length variables.now)
        (items_of (map item_of args.now)) }
    ensures { Writes O.given O.faults out.old out.new result
        ((table_at book.now.universe table).name ++
        in_parentheses (item_texts book.now.universe (variables_of variables.now)
        (items_of (map item_of args.now)))) }
{
    write_table_name(book, table, out)?;
    write_arguments(book, variables, args, out)
}

/// Writes what stands before a quantifier's body.
fn write_quantifier<O: Sink>(
    book: &Book,
    word: &[u8],
    name: &Name,
    sort: SortId,
    out: &mut O,
) -> Result<(), Failed>
    requires { sort.0 < length book.now.universe.sorts }
    ensures { Writes O.given O.faults out.old out.new result
        (quantifier_text book.now.universe word.now name.now sort) }
{
    write_text(word, out)?;
    write_text(name.as_str().as_bytes(), out)?;
    write_text(b":", out)?;
    write_sort_name(book, sort, out)?;
    write_text(b" . ", out)
}

/// Writes what stands before the body of a quantifier that counts.
fn write_count<O: Sink>(
    book: &Book,
    at_most: bool,
    bound: u16,
    name: &Name,
    sort: SortId,
    out: &mut O,
) -> Result<(), Failed>
    requires { sort.0 < length book.now.universe.sorts }
    ensures { Writes O.given O.faults out.old out.new result
        (count_text book.now.universe (counting_of at_most bound) name.now sort) }
{
    write_text(count_word(at_most).as_bytes(), out)?;
    write_number(i32::from(bound), out)?;
    write_quantifier(book, b" ", name, sort, out)
}

/// Writes a statement.
#[cycle(formula)]
pub(crate) fn write_formula<'a, O: Sink>(
    book: &Book,
    variables: &[Variable<'a>],
    formula: &'a Formula,
    out: &mut O,
) -> Result<(), Failed>
    requires { IsWellSorted book.now.universe (variables_of variables.now)
        (statement_of formula.now) }
    ensures { Writes O.given O.faults out.old out.new result
        (statement_text book.now.universe (variables_of variables.now) (statement_of formula.now)) }
{
    match formula {
        Formula::Compare { left, op, right } => {
            write_comparison(book, variables, left, *op, right, out)
        }
        Formula::InTable { table, args } => write_in_table(book, variables, *table, args, out),
        Formula::Not(part) => {
            write_text(b"!", out)?;
            write_part(book, variables, UNARY, part, out)
        }
        Formula::And(parts) => write_parts(book, variables, b" & ", UNARY, parts, out),
        Formula::Or(parts) => write_parts(book, variables, b" | ", AND, parts, out),
        Formula::Implies(left, right) => {
            write_part(book, variables, OR, left, out)?;
            write_text(b" -> ", out)?;
            write_part(book, variables, IMPLIES, right, out)
        }
        Formula::Iff(left, right) => {
            write_part(book, variables, IMPLIES, left, out)?;
            write_text(b" <-> ", out)?;
            write_part(book, variables, IMPLIES, right, out)
        }
        Formula::ForAll { name, sort, body } => {
            write_quantifier(book, b"forall ", name, *sort, out)?;
            write_body(book, variables, name, *sort, body, out)
        }
        Formula::Exists { name, sort, body } => {
            write_quantifier(book, b"exists ", name, *sort, out)?;
            write_body(book, variables, name, *sort, body, out)
        }
        Formula::Count {
            at_most,
            bound,
            name,
            sort,
            body,
        } => {
            write_count(book, *at_most, *bound, name, *sort, out)?;
            write_body(book, variables, name, *sort, body, out)
        }
    }
}

/// Writes a quantifier's body, in which its variable has a name.
#[cycle(formula)]
fn write_body<'a, O: Sink>(
    book: &Book,
    variables: &[Variable<'a>],
    name: &'a Name,
    sort: SortId,
    body: &'a Formula,
    out: &mut O,
) -> Result<(), Failed>
    requires variable { IsNewVariable book.now.universe (variables_of variables.now) name.now sort }
    requires body { IsWellSorted book.now.universe (variables_of variables.now ++ (name.now, sort) ∷
        []) (statement_of body.now) }
    ensures { Writes O.given O.faults out.old out.new result
        (statement_text book.now.universe (variables_of variables.now ++ (name.now, sort) ∷ [])
        (statement_of body.now)) }
{
    let inner = extended(variables, name, sort);
    write_formula(book, &inner[..variables.len() + 1], body, out)
}

/// Writes a part, in parentheses where it binds less tightly than its place asks.
#[cycle(formula)]
fn write_part<'a, O: Sink>(
    book: &Book,
    variables: &[Variable<'a>],
    asked: u8,
    part: &'a Formula,
    out: &mut O,
) -> Result<(), Failed>
    requires { IsWellSorted book.now.universe (variables_of variables.now) (statement_of part.now) }
    ensures { Writes O.given O.faults out.old out.new result
        (part_text book.now.universe (variables_of variables.now) asked (statement_of part.now)) }
{
    if tightness(part) >= asked {
        return write_formula(book, variables, part, out);
    }
    write_text(b"(", out)?;
    write_formula(book, variables, part, out)?;
    write_text(b")", out)
}

/// Writes the parts of an `&` or an `|`, with the separator between each two.
#[cycle(formula)]
fn write_parts<'a, O: Sink>(
    book: &Book,
    variables: &[Variable<'a>],
    separator: &[u8],
    asked: u8,
    parts: &'a [Formula],
    out: &mut O,
) -> Result<(), Failed>
    requires { AreWellSorted book.now.universe (variables_of variables.now)
        (statements_of (map statement_of parts.now)) }
    ensures { Writes O.given O.faults out.old out.new result
        (joined separator.now (part_texts book.now.universe (variables_of variables.now) asked
        (statements_of (map statement_of parts.now)))) }
{
    for (i, part) in parts.iter().enumerate() {
        write_between(separator, i, out)?;
        write_part(book, variables, asked, part, out)?;
    }
    Ok(())
}
