//! The parts of a book with the axioms that a search takes.
ghost use Rattle.std.specs.Prelude.{◌≡◌, ℕ, ◌<◌, ◌^◌, [], All, Contains, IfOk, List, length, sum};
ghost use Rattle.std.specs.List.{AllZip};
ghost use Rattle.pc_sheet.specs.Entailment.{cell_sizes};
ghost use Rattle.pc_ground.specs.Grounded.{grounded};
ghost use Rattle.pc_components.specs.View.{AreComponentsOf};
ghost use Rattle.pc_kept.specs.Components.{AreKeptOf};
ghost use Rattle.pc_kept.specs.Stored.{AreKeptStored, AreUnnamedStored};
ghost use Rattle.pc_kept.specs.inside.Checks.{IsRoom};
ghost use Rattle.pc_kept.specs.inside.Signs.{IsStored};

use crate::fewer::polar_axioms;
use crate::keeping::kept_axioms;
use crate::laws::kept_by_what_is_stored;
use crate::polarity::Polarity;
use crate::trial::{Stored, Trial};
use crate::unnamed::are_unnamed;
use pc_books::{Book, few_cells};
use pc_components::Components;
use pc_ground::Ground;
use pc_lits::{Rows, Values};
use pc_sheet::CellId;
use std::alloc::{AllocError, Global};

// How many pairs of a cell and a value there are.
fn count_of_pairs(book: &Book) -> u32
    ensures { result ≡ sum (cell_sizes book.now.universe) }
{
    few_cells(book);
    let mut count: u32 = 0;
    for cell in 0..book.cells() {
        count += book.values_of(CellId(cell as u16)) as u32;
    }
    count
}

fn numbers_of(alloc: Global, row: &[u32]) -> Result<Vec<usize>, AllocError>
    ensures { IfOk result (λ numbers. numbers.items ≡ row.now) }
{
    let mut numbers = Vec::new(alloc);
    for number in row {
        numbers.push(*number as usize)?;
    }
    Ok(numbers)
}

// Part by part the axioms that a search takes.
fn kept_rows(
    alloc: Global,
    stored: Stored<'_>,
    whole: &Components,
    constants: &mut Values,
    trial: &mut Trial,
) -> Result<Rows<usize>, AllocError>
    requires values { IsRoom trial.old.values stored.store.now }
    requires constants { IsRoom constants.old stored.store.now }
    requires named { IsRoom trial.old.named stored.store.now }
    requires few { length stored.store.now < 2 ^ 32 }
    requires names { length stored.names.now.axioms ≡ length stored.store.now }
    requires many { length whole.now.axioms ≡ length whole.now.cells }
    requires within { All (All (λ k. k < length stored.store.now)) whole.now.axioms }
    ensures { IfOk result
        (AllZip (AreKeptStored stored.entry.pairs stored.entry.store.now stored.entry.names.now [])
        whole.now.axioms) }
{
    let mut rows = Rows::new(alloc);
    for i in 0..whole.len() {
        let used = numbers_of(alloc, whole.part(i).axioms)?;
        let kept = kept_axioms(alloc, stored, &used, constants, trial)?;
        rows.push(&kept)?;
    }
    Ok(rows)
}

// The same by polarity, and what is banned then.
fn polar_rows(
    alloc: Global,
    stored: Stored<'_>,
    whole: &Components,
    constants: &mut Values,
    trial: &mut Trial,
    polarity: &mut Polarity,
) -> Result<Rows<usize>, AllocError>
    requires stored { IsStored stored.store.now stored.names.now }
    requires values { length stored.names.now.variables ≡ length trial.old.values }
    requires constants { length stored.names.now.variables ≡ length constants.old }
    requires named { length stored.names.now.variables ≡ length trial.old.named }
    requires yes { length stored.names.now.variables ≡ length polarity.old.yes }
    requires no { length stored.names.now.variables ≡ length polarity.old.no }
    requires banned { length stored.names.now.variables ≡ length polarity.old.banned }
    requires many { length whole.now.axioms ≡ length whole.now.cells }
    requires within { All (All (λ k. k < length stored.store.now)) whole.now.axioms }
    ensures kept { IfOk result
        (AllZip (AreKeptStored stored.entry.pairs stored.entry.store.now stored.entry.names.now
        polarity.new.banned) whole.now.axioms) }
    ensures values { length trial.new.values ≡ length trial.old.values }
    ensures constants { length constants.new ≡ length constants.old }
    ensures named { length trial.new.named ≡ length trial.old.named }
    ensures yes { length polarity.new.yes ≡ length polarity.old.yes }
    ensures no { length polarity.new.no ≡ length polarity.old.no }
    ensures banned { length polarity.new.banned ≡ length polarity.old.banned }
{
    let mut rows = Rows::new(alloc);
    for i in 0..whole.len() {
        let used = numbers_of(alloc, whole.part(i).axioms)?;
        let taken = polar_axioms(alloc, stored, &used, constants, trial, polarity)?;
        rows.push(&taken)?;
    }
    Ok(rows)
}

/// Part by part the axioms that a search takes, and what is banned.
#[derive(Drop)]
struct Choice {
    rows: Rows<usize>,
    banned: Values,
}

// By polarity, unless a kept axiom names what that asks not to be named: then with nothing banned.
fn chosen(
    alloc: Global,
    stored: Stored<'_>,
    whole: &Components,
    variables: u32,
) -> Result<Choice, AllocError>
    requires stored { IsStored stored.store.now stored.names.now }
    requires variables { length stored.names.now.variables ≡ variables }
    requires many { length whole.now.axioms ≡ length whole.now.cells }
    requires within { All (All (λ k. k < length stored.store.now)) whole.now.axioms }
    ensures kept { IfOk result
        (λ c.
        AllZip (AreKeptStored stored.entry.pairs stored.entry.store.now stored.entry.names.now
        c.banned) whole.now.axioms c.rows) }
    ensures unnamed { IfOk result
        (λ c.
        (kept : List ℕ) → Contains c.rows kept → AreUnnamedStored stored.entry.store.now
        stored.entry.names.now c.banned kept) }
{
    let mut constants = Values::new(alloc, variables)?;
    let mut trial = Trial {
        values: Values::new(alloc, variables)?,
        reasons: vec![in alloc; 0; variables as usize]?,
        named: Values::new(alloc, variables)?,
    };
    let mut polarity = Polarity::new(alloc, variables)?;
    let rows = polar_rows(
        alloc,
        stored,
        whole,
        &mut constants,
        &mut trial,
        &mut polarity,
    )?;
    if are_unnamed(stored, &rows, &mut polarity, variables) {
        let banned = polarity.into_banned();
        return Ok(Choice { rows, banned });
    }
    let rows = kept_rows(alloc, stored, whole, &mut constants, &mut trial)?;
    let banned = Values::new(alloc, 0)?;
    Ok(Choice { rows, banned })
}

/// The parts of a book, each with those of its axioms that a search takes, with the variables that these name, and with what is
/// banned; in time linear in the parts' axioms. An error is want of memory.
pub fn kept_components(
    alloc: Global,
    book: &Book,
    ground: &Ground,
    whole: &Components,
) -> Result<Components, AllocError>
    requires ground { ground.now ≡ grounded book.now }
    requires few { length ground.now.clauses < 2 ^ 32 }
    requires whole { AreComponentsOf book.now whole.now }
    ensures { IfOk result (AreKeptOf book.now whole.now) }
{
    kept_by_what_is_stored();
    let variables = ground.variables();
    let stored = Stored {
        store: ground.store(),
        names: ground.names(),
        pairs: count_of_pairs(book),
    };
    let Choice { rows, banned } = chosen(alloc, stored, whole, variables)?;
    let kept = whole.with_axioms(alloc, book, ground, &rows, banned)?;
    Ok(kept)
}
