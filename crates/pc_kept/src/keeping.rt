//! Which axioms of a part a search takes.
ghost use Rattle.std.specs.Prelude.{◌≡◌, ℕ, ◌<◌, ◌^◌, List, [], All, length, IfOk, IfSome, OnOk};
ghost use Rattle.pc_kept.specs.Stored.{AreKeptStored, AreMeaningsStored};
ghost use Rattle.pc_kept.specs.inside.Checks.{IsRoom, AreRight, AreNamed};

use crate::checking::{are_fine, mark_missing, meanings_of, numbers_marked};
use crate::forcing::{force_back, force_on, name_all};
use crate::guessing::guess;
use crate::trial::{Stored, Trial};
use pc_axiom_names::Names;
use pc_lits::{ClauseStore, Values};
use std::alloc::{AllocError, Global};

/// What these clauses force, and what they name.
pub(crate) fn look_at(store: &ClauseStore, kept: &[usize], values: &mut Values, named: &mut Values)
    requires values { IsRoom values.old store.now }
    requires named { IsRoom named.old store.now }
    requires within { All (λ k. k < length store.now) kept.now }
    ensures right { AreRight store.now kept.now values.new }
    ensures named { AreNamed store.now kept.now named.new }
    ensures values { length values.new ≡ length values.old }
    ensures names { length named.new ≡ length named.old }
{
    values.clear();
    force_back(store, kept, values);
    force_on(store, kept, values);
    named.clear();
    name_all(store, kept, named);
}

/// What is true whatever values the cells have, by what nodes mean.
fn look_at_meanings(
    alloc: Global,
    store: &ClauseStore,
    names: &Names,
    used: &[usize],
    constants: &mut Values,
) -> Result<(), AllocError>
    requires constants { IsRoom constants.old store.now }
    requires few { length store.now < 2 ^ 32 }
    requires names { length names.now.axioms ≡ length store.now }
    requires within { All (λ k. k < length store.now) used.now }
    ensures right { OnOk result ((meanings : List ℕ) × AreMeaningsStored names.now.axioms meanings ×
        AreRight store.now meanings constants.new) }
    ensures room { length constants.new ≡ length constants.old }
{
    let meanings = meanings_of(alloc, names, used)?;
    force_constants(store, &meanings, constants);
    Ok(())
}

fn force_constants(store: &ClauseStore, meanings: &[usize], constants: &mut Values)
    requires room { IsRoom constants.old store.now }
    requires within { All (λ k. k < length store.now) meanings.now }
    ensures right { AreRight store.now meanings.now constants.new }
    ensures room { length constants.new ≡ length constants.old }
{
    constants.clear();
    force_back(store, meanings, constants);
}

/// The marked ones, where each other one may be left out; else marks what is missing.
fn try_marks(
    alloc: Global,
    stored: Stored<'_>,
    used: &[usize],
    constants: &Values,
    trial: &mut Trial,
    marks: &mut Vec<bool>,
) -> Result<Option<Vec<usize>>, AllocError>
    requires values { IsRoom trial.old.values stored.store.now }
    requires constants { IsRoom constants.now stored.store.now }
    requires named { IsRoom trial.old.named stored.store.now }
    requires few { length stored.store.now < 2 ^ 32 }
    requires names { length stored.names.now.axioms ≡ length stored.store.now }
    requires within { All (λ k. k < length stored.store.now) used.now }
    requires right { (meanings : List ℕ) × AreMeaningsStored stored.names.now.axioms meanings ×
        AreRight stored.store.now meanings constants.now }
    requires marks { length marks.old.items ≡ length used.now }
    ensures kept { IfOk result
        (λ o.
        IfSome o (λ kept. AreKeptStored stored.entry.pairs stored.entry.store.now
        stored.entry.names.now [] used.now kept.items)) }
    ensures values { length trial.new.values ≡ length trial.old.values }
    ensures named { length trial.new.named ≡ length trial.old.named }
    ensures marks { length marks.new.items ≡ length marks.old.items }
{
    let kept = numbers_marked(alloc, used, marks)?;
    look_at(stored.store, &kept, &mut trial.values, &mut trial.named);
    if are_fine(stored, used, constants, trial, marks) {
        return Ok(Some(kept));
    }
    mark_missing(stored, used, constants, trial, marks);
    Ok(None)
}

fn copied(alloc: Global, used: &[usize]) -> Result<Vec<usize>, AllocError>
    ensures { IfOk result (λ all. all.items ≡ used.now) }
{
    let mut all = Vec::new(alloc);
    all.extend_from_slice(used)?;
    Ok(all)
}

/// The numbers of those among a part's axioms that a search takes. After sixteen trials it takes all of them.
pub(crate) fn kept_axioms(
    alloc: Global,
    stored: Stored<'_>,
    used: &[usize],
    constants: &mut Values,
    trial: &mut Trial,
) -> Result<Vec<usize>, AllocError>
    requires values { IsRoom trial.old.values stored.store.now }
    requires constants { IsRoom constants.old stored.store.now }
    requires named { IsRoom trial.old.named stored.store.now }
    requires few { length stored.store.now < 2 ^ 32 }
    requires names { length stored.names.now.axioms ≡ length stored.store.now }
    requires within { All (λ k. k < length stored.store.now) used.now }
    ensures kept { IfOk result (λ kept. AreKeptStored stored.entry.pairs stored.entry.store.now
        stored.entry.names.now [] used.now kept.items) }
    ensures right { OnOk result ((meanings : List ℕ) ×
        AreMeaningsStored stored.entry.names.now.axioms meanings ×
        AreRight stored.entry.store.now meanings constants.new) }
    ensures values { length trial.new.values ≡ length trial.old.values }
    ensures constants { length constants.new ≡ length constants.old }
    ensures named { length trial.new.named ≡ length trial.old.named }
{
    look_at_meanings(alloc, stored.store, stored.names, used, constants)?;
    let mut marks = vec![in alloc; false; used.len()]?;
    guess(stored, used, constants, trial, &mut marks);
    'trials: for _ in 0..16 {
        if let Some(kept) = try_marks(alloc, stored, used, constants, trial, &mut marks)? {
            return Ok(kept);
        }
    }
    let all = copied(alloc, used)?;
    Ok(all)
}
