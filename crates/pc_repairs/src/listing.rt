//! What could be kept together, part by part, as text.
ghost use Rattle.std.specs.Prelude.{◌≡◌, ◌++◌, ◌<◌, ◌≢◌, All, Err, IfOk, length, List, ℕ};
ghost use Rattle.std.specs.List.{flat_map};
ghost use Rattle.pc_sheet.specs.Entailment.{cell_sizes};
ghost use Rattle.pc_sheet.specs.WellFormed.{IsEntryOf};
ghost use Rattle.pc_parts.specs.Parts.{Part};
ghost use Rattle.pc_writer.specs.Writes.{Writes};
ghost use Rattle.pc_world_list.specs.Choices.{IsChosen};
ghost use Rattle.pc_repairs.specs.Listed.{IsListedPart, keep_line, keep_text, listing_text, part_lines};
ghost use Rattle.pc_repairs.specs.ListedSheet.{IsListed, IsListing};
ghost use Rattle.pc_repairs.specs.Listings.{aged_set, listed_in, part_listed};
ghost use Rattle.pc_repairs.specs.inside.Joining.{IsPartSets};
ghost use Rattle.pc_repairs.specs.declared.listing.ListFault.TheVariants.{Memory};

use crate::ordering::{Aged, in_order};
use crate::part_sets::{PartSets, sets_by_part};
use pc_books::{Book, well_formed};
use pc_port::{Failed, Sink};
use pc_sheet::{CellId, Entry};
use pc_world_list::Choices;
use pc_writer::{write_cell, write_entries, write_text};
use std::alloc::{AllocError, Global};

// A part that has an entry on its cells: its first cell, and its maximal sets in their order.
#[derive(Drop)]
struct ListingPart<'a> {
    cell: CellId,
    sets: Vec<Aged<'a>>,
}

/// What could be kept together: each part that has an entry on its cells, with its maximal sets. Of two sets the one that has
/// the oldest entry on which they differ comes first. The sets are lent.
#[derive(Drop)]
pub struct Listing<'a> {
    parts: Vec<ListingPart<'a>>,
}

/// Why a listing ended early.
#[derive(Clone, Copy, Drop)]
pub enum ListFault {
    /// The sink failed.
    Failed,
    /// Memory was wanting, before anything was written.
    Memory,
}

// The entries of a set, or that there are none.
fn write_kept<O: Sink>(book: &Book, set: &[Entry], out: &mut O) -> Result<(), Failed>
    requires { All (IsEntryOf book.now.universe) set.now }
    ensures { Writes O.given O.faults out.old out.new result (keep_text book.now.universe set.now) }
{
    if set.is_empty() {
        return write_text(b"nothing", out);
    }
    write_entries(book, set, out)
}

fn write_set<O: Sink>(book: &Book, set: &[Entry], out: &mut O) -> Result<(), Failed>
    requires { All (IsEntryOf book.now.universe) set.now }
    ensures { Writes O.given O.faults out.old out.new result (keep_line book.now.universe set.now) }
{
    write_text(b"  keep ", out)?;
    write_kept(book, set, out)?;
    write_text(b"\n", out)
}

fn write_sets<O: Sink>(book: &Book, sets: &[Aged<'_>], out: &mut O) -> Result<(), Failed>
    requires { All (λ a. All (IsEntryOf book.now.universe) (aged_set a)) sets.now }
    ensures { Writes O.given O.faults out.old out.new result
        (flat_map (λ a. keep_line book.now.universe (aged_set a)) sets.now) }
{
    for aged in sets {
        write_set(book, aged.entries, out)?;
    }
    Ok(())
}

fn write_part<O: Sink>(book: &Book, part: &ListingPart<'_>, out: &mut O) -> Result<(), Failed>
    requires cell { part.now.cell.0 < length (cell_sizes book.now.universe) }
    requires sets { All (λ a. All (IsEntryOf book.now.universe) (aged_set a)) part.now.sets.items }
    ensures { Writes O.given O.faults out.old out.new result
        (part_lines book.now.universe (part_listed part.now)) }
{
    write_text(b"part ", out)?;
    write_cell(book, part.cell, out)?;
    write_text(b"\n", out)?;
    write_sets(book, &part.sets, out)
}

// A part with its sets in their order; it has a cell, since it has an entry.
fn listing_part<'a>(
    alloc: Global,
    book: &Book,
    part: PartSets<'a>,
) -> Result<ListingPart<'a>, AllocError>
    requires { (p : Part) × (k : ℕ) × IsChosen book.now k p × IsPartSets book.now p part }
    ensures { (p : Part) (k : ℕ) → IsChosen book.now k p → IsPartSets book.now p part.entry →
        IfOk result (λ listed. IsListedPart book.now p (part_listed listed)) }
{
    well_formed(book);
    let sets = in_order(alloc, book.entries(), part.sets)?;
    Ok(ListingPart {
        cell: part.cells[0],
        sets,
    })
}

impl<'a> Listing<'a> {
    /// Lists the sets of each part that has an entry on its cells, in their order. An error is want of memory.
    pub fn new<C: Choices>(alloc: Global, view: &'a C) -> Result<Listing<'a>, AllocError>
        ensures { IfOk result (λ listing. IsListing (C.sheet view.now) (listed_in listing)) }
    {
        let book = view.book();
        let lent = sets_by_part(alloc, view)?;
        let mut parts = Vec::new(alloc);
        for part in lent.iter() {
            let listed = listing_part(alloc, book, *part)?;
            parts.push(listed)?;
        }
        Ok(Listing { parts })
    }

    /// Writes what is listed of the book. It takes no memory, and fails only where the sink does: it has then written a front.
    pub fn write<O: Sink>(&self, book: &Book, out: &mut O) -> Result<(), Failed>
        requires { IsListing book.now (listed_in self.now) }
        ensures { Writes O.given O.faults out.old out.new result
            (listing_text book.now.universe (listed_in self.now)) }
    {
        well_formed(book);
        for part in self.parts.iter() {
            write_part(book, part, out)?;
        }
        Ok(())
    }
}

/// Writes what could be kept together: a line `part CELL` for each part that has an entry on its cells, with its first cell,
/// and then for each of its maximal sets a line `  keep ENTRIES`, or `  keep nothing`. Memory is wanted before anything is
/// written alone; the sink's failure leaves a front written.
pub fn list<C: Choices, O: Sink>(alloc: Global, view: &C, out: &mut O) -> Result<(), ListFault>
    ensures memory { result ≡ Err Memory → out.new ≡ out.old }
    ensures listed { result ≢ Err Memory → (text : List ℕ) × IsListed (C.sheet view.now) text ×
        Writes O.given O.faults out.old out.new result text }
{
    let Ok(listing) = Listing::new(alloc, view) else {
        return Err(ListFault::Memory);
    };
    match listing.write(view.book(), out) {
        Ok(()) => Ok(()),
        Err(Failed) => Err(ListFault::Failed),
    }
}
