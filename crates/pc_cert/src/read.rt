// The reading of a certificate's text.
ghost use Rattle.std.specs.Prelude.{◌≡◌, ◌+◌, ◌<◌, ◌≤◌, ◌^◌, [], ℕ, List, length, map, IfOk, IfErr, MatchResult};
ghost use Rattle.std.specs.Str.Lines.{lines};
ghost use Rattle.pc_sheet.specs.Sheet.{Sheet};
ghost use Rattle.pc_cert.specs.Gathered.{IsGathered};
ghost use Rattle.pc_cert.specs.Line.{IsCertificateLine};
ghost use Rattle.pc_cert.specs.Order.{kind_of};
ghost use Rattle.pc_cert.specs.Standing.{order_of};
ghost use Rattle.pc_cert.specs.inside.Taken.{IsFormless, IsLineFault, IsTaken, AreTaken};
ghost use Rattle.pc_cert.specs.Trees.{line_of};
ghost use Rattle.pc_cert.specs.Views.{IsCertTold};
ghost use Rattle.pc_cert.specs.Written.{SaidLine};

use crate::CERT_LIMIT;
use crate::cert::{Cert, CertFault};
use crate::draft::{Draft, say};
use crate::line::read_line;
use crate::order::{Order, behind, nothing_yet, stands};
use crate::table::Table;
use crate::tree::LineTree;
use pc_books::Book;
use pc_formula::Refusal;
use pc_lines::next_line;
use std::alloc::Global;

// The form of the line of that number.
fn form_of(alloc: Global, line: &[u8], number: u32) -> Result<LineTree, CertFault>
    ensures told { IfOk result (λ t. IsCertificateLine line.now (line_of t)) }
    ensures fault { IfErr result (IsFormless line.now number) }
{
    match read_line(alloc, line) {
        Ok(tree) => Ok(tree),
        Err(Refusal::Syntax) => Err(CertFault::Syntax { line: number }),
        Err(Refusal::Memory) => Err(CertFault::Memory),
    }
}

// Takes the line of that form and number.
fn take_form(
    alloc: Global,
    book: &Book,
    tree: &LineTree,
    number: u32,
    order: &mut Order,
    draft: &mut Draft,
) -> Result<(), CertFault>
    requires { number + 1 < 2 ^ 32 }
    ensures { (ls : List SaidLine) (line : List ℕ) → IsCertificateLine line (line_of tree.now) →
        IsGathered ls draft.old → order.old ≡ order_of (map kind_of ls) → number ≡ length ls + 1 →
        MatchResult result (λ _. IsTaken book.now ls line order.new draft.new)
        (IsLineFault book.now (map kind_of ls) line number) }
{
    if !stands(order, tree) {
        return Err(CertFault::Syntax { line: number });
    }
    let said = say(alloc, book, tree, number, draft)?;
    if !said {
        return Err(CertFault::UnknownName { line: number });
    }
    *order = behind(order, tree);
    Ok(())
}

// Reads the line of that number.
fn take_line(
    alloc: Global,
    book: &Book,
    line: &[u8],
    number: u32,
    order: &mut Order,
    draft: &mut Draft,
) -> Result<(), CertFault>
    requires { number + 1 < 2 ^ 32 }
    ensures { (ls : List SaidLine) → IsGathered ls draft.old →
        order.old ≡ order_of (map kind_of ls) → number ≡ length ls + 1 →
        MatchResult result (λ _. IsTaken book.now ls line.now order.new draft.new)
        (IsLineFault book.now (map kind_of ls) line.now number) }
{
    match form_of(alloc, line, number) {
        Ok(tree) => take_form(alloc, book, &tree, number, order, draft),
        Err(fault) => Err(fault),
    }
}

// Nothing read.
fn empty_draft(alloc: Global) -> Draft
    ensures { IsGathered [] result }
{
    Draft {
        claim: None,
        sets: Vec::new(alloc),
        uses: Vec::new(alloc),
        values: Vec::new(alloc),
        after: 0,
        table: Table::new(alloc),
        lines: Vec::new(alloc),
    }
}

// What was read, once no line follows; the next one would have this number.
fn finish(order: &Order, draft: Draft, number: u32) -> Result<Cert, CertFault>
    ensures { (sheet : Sheet) (text rest : List ℕ) →
        AreTaken sheet text rest order.now draft number → lines rest ≡ [] →
        IsCertTold sheet text result }
{
    let Draft {
        claim,
        sets,
        uses,
        values,
        after,
        table,
        lines,
    } = draft;
    if !order.end {
        return Err(CertFault::Syntax { line: number });
    }
    let Some(claim) = claim else {
        return Err(CertFault::Syntax { line: number });
    };
    let symbols = table.into_symbols();
    Ok(Cert {
        claim,
        sets,
        uses,
        values,
        after,
        symbols,
        lines,
    })
}

/// Reads the text of a certificate for the book. A fault names the first line at fault; for a text without its `end` that is
/// the line behind the last one. Where memory is there, each answer comes exactly where the text is so: by the law
/// `certificates_have_one_reading` of `pc_cert` a text is read as one thing at most.
pub fn read_cert(alloc: Global, book: &Book, bytes: &[u8]) -> Result<Cert, CertFault>
    requires small { length bytes.now ≤ CERT_LIMIT }
    ensures { IsCertTold book.now bytes.now result }
{
    let mut order = nothing_yet();
    let mut draft = empty_draft(alloc);
    let mut number: u32 = 1;
    let mut rest = bytes;
    'lines: while let Some((line, after)) = next_line(rest) {
        take_line(alloc, book, line, number, &mut order, &mut draft)?;
        number += 1;
        rest = after;
    }
    finish(&order, draft, number)
}
