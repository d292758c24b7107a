//! All that a check needs of memory.

ghost use Rattle.std.specs.Prelude.{◌≡◌, ◌<◌, [], IfOk, IfSome, IfNone, OnOk, All, length, map};
ghost use Rattle.pc_accept.specs.Axioms.{negated_entry};
ghost use Rattle.pc_cert.specs.Text.{entry_said};
ghost use Rattle.pc_cert.specs.Views.{reading_of, said_of, symbol_of, AreSymbolsDistinct};
ghost use Rattle.pc_checker.specs.Drafts.{AreWritten};
ghost use Rattle.pc_checker.specs.Entered.{HasEachPair};
ghost use Rattle.pc_checker.specs.Made.{IsMadeFor, blocks_said, set_values, value_said};
ghost use Rattle.pc_cert.specs.ReadFor.{IsPartOver, IsReadFor, IsSetSaidOf};
ghost use Rattle.pc_checker.specs.inside.Prepared.{ArePrepared, AreValuesPrepared, IsDerivationPrepared, IsLinePrepared, IsRepeated, IsStepInRange};
ghost use Rattle.pc_checker.specs.Verdicts.{allowed_in};
ghost use Rattle.pc_checker.specs.inside.Written.{IsBlockWritten};

use crate::alike::first_apart;
use crate::draft::ClauseDraft;
use crate::entered::entered_pairs;
use crate::line_clauses::LineClauses;
use crate::once::each_once;
use crate::scratch::Scratch;
use crate::sets::write_outside;
use crate::shared::Shared;
use crate::taken::write_axiom;
use pc_books::{Assignment, Book, well_formed};
use pc_cert::{Cert, CertLine, CertPart, Claim, Numbering, Said, SaidSet, Symbol};
use pc_lits::{Lit, Values};
use pc_sheet::MOST_VALUES;
use std::alloc::{AllocError, Global};

// A line's part, the certificate's sets, an earlier line that takes the same axiom or set, if there is one, and what was answered
// for the earlier lines.
#[derive(Clone, Copy)]
struct Place<'a> {
    sets: &'a [SaidSet],
    part: &'a CertPart,
    earlier: Option<usize>,
    axioms: &'a [bool],
}

// Marks by which clauses are made: one for each pair of a cell and a value, and one for each symbol of the certificate.
#[derive(Drop)]
struct Marks {
    pairs: Values,
    symbols: Values,
}

/// Takes all memory for the check of a certificate that was read for this book.
pub fn room_for(alloc: Global, book: &Book, cert: &Cert) -> Result<Scratch, AllocError>
    requires { IsReadFor book.now cert.now }
    ensures { IfOk result (IsMadeFor book.now cert.now) }
{
    let (clauses, axioms, allowed, values) = room_for_derivation(alloc, book, cert)?;
    let (entered, assignment, sets, pairs, apart) = room_for_values(alloc, book, cert)?;
    Ok(Scratch {
        entered,
        assignment,
        sets,
        pairs,
        apart,
        clauses,
        axioms,
        allowed,
        values,
    })
}

// The clause of each line, which lines may be taken as axioms, the literals that the last clause may have, and room for the truth
// values of all symbols.
fn room_for_derivation(
    alloc: Global,
    book: &Book,
    cert: &Cert,
) -> Result<(LineClauses, Vec<bool>, Vec<Lit>, Values), AllocError>
    requires { IsReadFor book.now cert.now }
    ensures { IfOk result (λ r. IsDerivationPrepared book.now cert.now r.0 r.1.items r.2.items
        (length r.3)) }
{
    let names = number_symbols(alloc, &cert.symbols)?;
    let mut draft = ClauseDraft::new(alloc, names);
    let mut clauses = LineClauses::new(alloc);
    let mut axioms = Vec::new(alloc);
    prepare_lines(
        alloc,
        book,
        &cert.sets,
        &cert.lines,
        &mut draft,
        &mut clauses,
        &mut axioms,
    )?;
    draft.begin();
    write_allowed(alloc, cert, &mut draft)?;
    let allowed = Vec::from_slice(alloc, draft.literals())?;
    let values = Values::new(alloc, draft.symbols())?;
    Ok((clauses, axioms, allowed, values))
}

// Which pairs are entered, the values of the certificate and of its sets, room for a mark of each pair, and how many of the first sets
// are apart.
fn room_for_values(
    alloc: Global,
    book: &Book,
    cert: &Cert,
) -> Result<(Vec<bool>, Assignment, Vec<Assignment>, Values, usize), AllocError>
    ensures { IfOk result (λ r. AreValuesPrepared book.now cert.now r.0.items r.1 r.2.items r.3
        r.4) }
{
    let entered = entered_pairs(alloc, book)?;
    let assignment = assignment_of(alloc, &cert.values)?;
    let sets = assignments_of(alloc, &cert.sets)?;
    let pairs = room_for_pairs(alloc, book)?;
    let apart = first_apart(alloc, &cert.sets)?;
    Ok((entered, assignment, sets, pairs, apart))
}

// Room for a mark of each pair of a cell and a value.
fn room_for_pairs(alloc: Global, book: &Book) -> Result<Values, AllocError>
    ensures { IfOk result (HasEachPair book.now) }
{
    Values::new(alloc, (book.cells() * MOST_VALUES) as u32)
}

// Gives the certificate's symbols their places as numbers.
fn number_symbols(alloc: Global, symbols: &[Symbol]) -> Result<Numbering, AllocError>
    requires { AreSymbolsDistinct (map symbol_of symbols.now) }
    ensures { IfOk result (λ names. names ≡ map symbol_of symbols.now) }
{
    let mut names = Numbering::new(alloc);
    for symbol in symbols {
        names.number_symbol(alloc, symbol)?;
    }
    Ok(names)
}

// Stores the clause of each line, and marks which of them may be taken as axioms.
fn prepare_lines(
    alloc: Global,
    book: &Book,
    sets: &[SaidSet],
    lines: &[CertLine],
    draft: &mut ClauseDraft,
    clauses: &mut LineClauses,
    axioms: &mut Vec<bool>,
) -> Result<(), AllocError>
    requires over { All (λ l. IsPartOver book.now draft.old.symbols l.part) lines.now }
    requires sets { All (IsSetSaidOf book.now) sets.now }
    requires no_clauses { clauses.old ≡ [] }
    requires no_marks { axioms.old.items ≡ [] }
    ensures { OnOk result (ArePrepared book.now (blocks_said book.now sets.now) lines.now
        (length lines.now) draft.old.symbols draft.new.symbols clauses.new axioms.new.items) }
{
    let mut marks = Marks {
        pairs: room_for_pairs(alloc, book)?,
        symbols: Values::new(alloc, draft.symbols())?,
    };
    let mut shared = Shared::new(alloc);
    for (place, line) in lines.iter().enumerate() {
        let earlier = shared.earlier(alloc, lines, place)?;
        let given = Place {
            sets,
            part: &line.part,
            earlier,
            axioms: axioms.as_slice(),
        };
        let good = prepare_place(alloc, book, given, draft, clauses, &mut marks)?;
        axioms.push(good)?;
    }
    Ok(())
}

// Stores the clause of a part, or takes that of an earlier line and what was answered for it.
fn prepare_place(
    alloc: Global,
    book: &Book,
    place: Place<'_>,
    draft: &mut ClauseDraft,
    clauses: &mut LineClauses,
    marks: &mut Marks,
) -> Result<bool, AllocError>
    requires over { IsPartOver book.now draft.old.symbols place.part.now }
    requires sets { All (IsSetSaidOf book.now) place.sets.now }
    requires pairs { HasEachPair book.now marks.old.pairs }
    requires symbols { IsStepInRange marks.old.symbols place.part.now }
    requires earlier { IfSome place.earlier (λ j. (j < length clauses.old) ×
        (j < length place.axioms.now)) }
    ensures pairs { length marks.new.pairs ≡ length marks.old.pairs }
    ensures symbols { length marks.new.symbols ≡ length marks.old.symbols }
    ensures by_itself { IfNone place.entry.earlier
        (IfOk result (IsLinePrepared book.now (blocks_said book.now place.entry.sets.now)
        place.entry.part.now draft.old.symbols draft.new.symbols clauses.old clauses.new)) }
    ensures repeated { IfSome place.entry.earlier
        (λ j. IfOk result (IsRepeated j place.entry.axioms.now draft.old.symbols draft.new.symbols
        clauses.old clauses.new)) }
{
    match place.earlier {
        None => prepare_line(alloc, book, place.sets, place.part, draft, clauses, marks),
        Some(first) => {
            clauses.repeat(first)?;
            Ok(place.axioms[first])
        }
    }
}

// Stores the clause of a part, and answers whether it may be taken as an axiom.
fn prepare_line(
    alloc: Global,
    book: &Book,
    sets: &[SaidSet],
    part: &CertPart,
    draft: &mut ClauseDraft,
    clauses: &mut LineClauses,
    marks: &mut Marks,
) -> Result<bool, AllocError>
    requires over { IsPartOver book.now draft.old.symbols part.now }
    requires sets { All (IsSetSaidOf book.now) sets.now }
    requires pairs { HasEachPair book.now marks.old.pairs }
    requires symbols { IsStepInRange marks.old.symbols part.now }
    ensures pairs { length marks.new.pairs ≡ length marks.old.pairs }
    ensures symbols { length marks.new.symbols ≡ length marks.old.symbols }
    ensures prepared { IfOk result (IsLinePrepared book.now (blocks_said book.now sets.now) part.now
        draft.old.symbols draft.new.symbols clauses.old clauses.new) }
{
    match part {
        CertPart::Axiom(axiom) => {
            draft.begin();
            let good = write_axiom(alloc, book, axiom, draft, &mut marks.pairs)?;
            clauses.push(draft.literals())?;
            Ok(good)
        }
        CertPart::Step { clause, .. } => {
            let once = each_once(alloc, clause, &mut marks.symbols)?;
            clauses.push(&once)?;
            Ok(false)
        }
        CertPart::Block(place) => {
            draft.begin();
            let good = write_block(alloc, book, sets, *place, draft, &mut marks.pairs)?;
            clauses.push(draft.literals())?;
            Ok(good)
        }
    }
}

// Writes the clause of the set of that place, and answers whether there is one.
fn write_block(
    alloc: Global,
    book: &Book,
    sets: &[SaidSet],
    place: usize,
    draft: &mut ClauseDraft,
    marks: &mut Values,
) -> Result<bool, AllocError>
    requires blank { draft.old.clause ≡ [] }
    requires sets { All (IsSetSaidOf book.now) sets.now }
    requires marks { HasEachPair book.now marks.old }
    ensures written { IfOk result (IsBlockWritten (blocks_said book.now sets.now) place draft.old
        draft.new) }
    ensures room { length marks.new ≡ length marks.old }
{
    if place >= sets.len() {
        return Ok(false);
    }
    well_formed(book);
    write_outside(alloc, book.entries(), &sets[place].uses, draft, marks)?;
    Ok(true)
}

// Writes the literals that the last clause may have.
fn write_allowed(alloc: Global, cert: &Cert, draft: &mut ClauseDraft) -> Result<(), AllocError>
    ensures { OnOk result (AreWritten draft.old draft.new (allowed_in (reading_of cert.now))) }
{
    match cert.claim {
        Claim::Implied(target) => {
            write_uses(alloc, &cert.uses, draft)?;
            draft.push_pair(alloc, target.cell, target.value, target.holds)?;
            Ok(())
        }
        Claim::Against(_) => write_uses(alloc, &cert.uses, draft),
        Claim::Inconsistent => Ok(()),
        Claim::Repairs => Ok(()),
        Claim::Not(_) => Ok(()),
    }
}

// Writes that some used entry doesn't hold.
fn write_uses(alloc: Global, uses: &[Said], draft: &mut ClauseDraft) -> Result<(), AllocError>
    ensures { OnOk result
        (AreWritten draft.old draft.new
        (map negated_entry (map entry_said (map said_of uses.now)))) }
{
    for said in uses {
        draft.push_pair(alloc, said.entry.cell, said.entry.value, false)?;
    }
    Ok(())
}

// The values, one after the other.
fn assignment_of(alloc: Global, values: &[Said]) -> Result<Assignment, AllocError>
    ensures { IfOk result (λ a. a ≡ map value_said values.now) }
{
    let mut assigned = Vec::new(alloc);
    for said in values {
        assigned.push(said.entry.value)?;
    }
    Ok(Assignment::new(assigned))
}

// The values of each set, one after the other.
fn assignments_of(alloc: Global, sets: &[SaidSet]) -> Result<Vec<Assignment>, AllocError>
    ensures { IfOk result (λ v. v.items ≡ map set_values sets.now) }
{
    let mut assigned = Vec::new(alloc);
    for set in sets {
        let values = assignment_of(alloc, &set.values)?;
        assigned.push(values)?;
    }
    Ok(assigned)
}
