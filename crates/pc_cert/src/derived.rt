// The parts of a derivation, with what their names stand for.
ghost use Rattle.std.specs.Prelude.{◌≡◌, ◌↔◌, ◌+◌, ◌<◌, ℕ, List, Some, map, IfOk, MatchOption};
ghost use Rattle.pc_accept.specs.Literals.{Literal};
ghost use Rattle.pc_cert.specs.Meaning.{IsPartNamed};
ghost use Rattle.pc_cert.specs.Numbered.{AreSymbolNumbers, IsNoClause, IsPartTaken};
ghost use Rattle.pc_cert.specs.declared.cert.CertPart.TheVariants.{Block};
ghost use Rattle.pc_cert.specs.Trees.{literal_of, part_of};
ghost use Rattle.pc_cert.specs.Written.{CertificatePart, derived, written_step};

use crate::axiom::named_axiom;
use crate::cert::CertPart;
use crate::table::{Table, number_literals};
use crate::tree::{LiteralTree, PartTree};
use pc_books::Book;
use std::alloc::{AllocError, Global};

// A clause with its hints.
fn hinted_clause(
    alloc: Global,
    book: &Book,
    clause: &[LiteralTree],
    hints: &[u64],
    table: &mut Table,
) -> Result<Option<CertPart>, AllocError>
    ensures kept { IfOk result (λ o. AreSymbolNumbers table.old → AreSymbolNumbers table.new) }
    ensures told { (sets : ℕ) →
        IfOk result (λ o. MatchOption o ((ls : List Literal) (ns : List ℕ) →
        IsPartNamed book.now sets (written_step (map literal_of clause.now) hints.now)
        (derived ls ns) →
        ⊥) (IsPartTaken book.now sets (written_step (map literal_of clause.now) hints.now)
        table.old.names table.new.names)) }
{
    let Some(clause) = number_literals(alloc, book, clause, table)? else {
        return Ok(None);
    };
    let hints = Vec::from_slice(alloc, hints)?;
    Ok(Some(CertPart::Step { clause, hints }))
}

// The place of the set of that number, from 1, of so many.
fn named_set(sets: usize, number: u64) -> Option<usize>
    ensures { (k : ℕ) → (result ≡ Some k) ↔ ((number ≡ k + 1) × (k < sets)) }
{
    if number == 0 || number > sets as u64 {
        return None;
    }
    Some((number - 1) as usize)
}

// The clause of a set.
fn set_clause(sets: usize, number: u64) -> Option<CertPart>
    ensures { MatchOption result ((k : ℕ) → number ≡ k + 1 → k < sets → ⊥) (λ p. (k : ℕ) ×
        (p ≡ Block k) × (number ≡ k + 1) × (k < sets)) }
{
    let Some(place) = named_set(sets, number) else {
        return None;
    };
    Some(CertPart::Block(place))
}

// The clause with its hints, or the clause of a set, that the part is.
fn named_step(
    alloc: Global,
    book: &Book,
    sets: usize,
    part: &PartTree,
    table: &mut Table,
) -> Result<Option<CertPart>, AllocError>
    ensures kept { IfOk result (λ o. AreSymbolNumbers table.old → AreSymbolNumbers table.new) }
    ensures told { IfOk result (λ o. MatchOption o (IsNoClause book.now sets (part_of part.now))
        (IsPartTaken book.now sets (part_of part.now) table.old.names table.new.names)) }
{
    match part {
        PartTree::Any(_) => Ok(None),
        PartTree::One(_, _, _) => Ok(None),
        PartTree::Rule(_) => Ok(None),
        PartTree::Node(_, _) => Ok(None),
        PartTree::Atom(_, _) => Ok(None),
        PartTree::Step { clause, hints } => {
            hinted_clause(alloc, book, clause.as_slice(), hints.as_slice(), table)
        }
        PartTree::Block(number) => Ok(set_clause(sets, *number)),
    }
}

/// The part that is named behind so many sets, its literals by number.
pub fn named_part(
    alloc: Global,
    book: &Book,
    sets: usize,
    part: &PartTree,
    table: &mut Table,
) -> Result<Option<CertPart>, AllocError>
    ensures kept { IfOk result (λ o. AreSymbolNumbers table.old → AreSymbolNumbers table.new) }
    ensures told { IfOk result (λ o. MatchOption o ((p : CertificatePart) →
        IsPartNamed book.now sets (part_of part.now) p →
        ⊥) (IsPartTaken book.now sets (part_of part.now) table.old.names table.new.names)) }
{
    let Some(axiom) = named_axiom(alloc, book, part)? else {
        return named_step(alloc, book, sets, part, table);
    };
    Ok(Some(CertPart::Axiom(axiom)))
}
