//! Fewer of a part's axioms, by polarity.
ghost use Rattle.std.specs.Prelude.{◌≡◌, ℕ, ◌<◌, All, List, IfOk, IfSome, length};
ghost use Rattle.std.specs.Bool.{OnTrue};
ghost use Rattle.pc_lits.specs.declared.literal.Lit.{Lit as Literal};
ghost use Rattle.pc_lits.specs.Values.{MakesTrue};
ghost use Rattle.pc_kept.specs.Stored.{AreKeptStored, AreMeaningsStored};
ghost use Rattle.pc_kept.specs.inside.Checks.{IsRoom, AreRight};
ghost use Rattle.pc_kept.specs.inside.Signs.{IsStored, MayGo, MayAllGo};

use crate::checking::{is_fine, numbers_marked};
use crate::keeping::{kept_axioms, look_at};
use crate::leaving::{guess_stays, marks_of};
use crate::polarity::{Polarity, own_of};
use crate::trial::{Stored, Trial};
use pc_lits::Values;
use std::alloc::{AllocError, Global};

/// Bans the own literals of those kept axioms that don't stay.
fn ban_left(stored: Stored<'_>, kept: &[usize], stays: &[bool], polarity: &mut Polarity)
    requires stored { IsStored stored.store.now stored.names.now }
    requires within { All (λ k. k < length stored.store.now) kept.now }
    requires stays { length stays.now ≡ length kept.now }
    requires banned { length stored.names.now.variables ≡ length polarity.old.banned }
    ensures yes { polarity.new.yes ≡ polarity.old.yes }
    ensures no { polarity.new.no ≡ polarity.old.no }
    ensures more { (m : Literal) → MakesTrue polarity.old.banned m →
        MakesTrue polarity.new.banned m }
    ensures banned { length polarity.new.banned ≡ length polarity.old.banned }
{
    for i in 0..kept.len() {
        if !stays[i] {
            if let Some(own) = own_of(stored, kept[i]) {
                polarity.ban(own);
            }
        }
    }
}

/// Whether the axiom may be left out, by polarity or anyway.
fn may_go(
    stored: Stored<'_>,
    constants: &Values,
    trial: &Trial,
    polarity: &Polarity,
    number: usize,
) -> bool
    requires stored { IsStored stored.store.now stored.names.now }
    requires values { IsRoom trial.now.values stored.store.now }
    requires constants { IsRoom constants.now stored.store.now }
    requires named { IsRoom trial.now.named stored.store.now }
    requires banned { length stored.names.now.variables ≡ length polarity.now.banned }
    requires within { number < length stored.store.now }
    ensures { OnTrue result (MayGo stored.entry.pairs stored.entry.store.now stored.entry.names.now
        trial.now.values constants.now trial.now.named polarity.now.banned number) }
{
    if polarity.is_banned_out(stored, number) {
        return true;
    }
    is_fine(stored, constants, trial, number)
}

/// Whether each axiom without a mark may be left out.
fn may_all_go(
    stored: Stored<'_>,
    used: &[usize],
    constants: &Values,
    trial: &Trial,
    polarity: &Polarity,
    marks: &[bool],
) -> bool
    requires stored { IsStored stored.store.now stored.names.now }
    requires values { IsRoom trial.now.values stored.store.now }
    requires constants { IsRoom constants.now stored.store.now }
    requires named { IsRoom trial.now.named stored.store.now }
    requires banned { length stored.names.now.variables ≡ length polarity.now.banned }
    requires within { All (λ k. k < length stored.store.now) used.now }
    requires marks { length marks.now ≡ length used.now }
    ensures { OnTrue result (MayAllGo stored.entry.pairs stored.entry.store.now
        stored.entry.names.now trial.now.values constants.now trial.now.named polarity.now.banned
        used.now marks.now) }
{
    for i in 0..used.len() {
        if !marks[i] && !may_go(stored, constants, trial, polarity, used[i]) {
            return false;
        }
    }
    true
}

/// The marked ones, where each other one may be left out.
fn try_fewer(
    alloc: Global,
    stored: Stored<'_>,
    used: &[usize],
    constants: &Values,
    trial: &mut Trial,
    polarity: &Polarity,
    marks: &[bool],
) -> Result<Option<Vec<usize>>, AllocError>
    requires stored { IsStored stored.store.now stored.names.now }
    requires values { IsRoom trial.old.values stored.store.now }
    requires constants { IsRoom constants.now stored.store.now }
    requires named { IsRoom trial.old.named stored.store.now }
    requires banned { length stored.names.now.variables ≡ length polarity.now.banned }
    requires within { All (λ k. k < length stored.store.now) used.now }
    requires right { (meanings : List ℕ) × AreMeaningsStored stored.names.now.axioms meanings ×
        AreRight stored.store.now meanings constants.now }
    requires marks { length marks.now ≡ length used.now }
    ensures kept { IfOk result
        (λ o.
        IfSome o (λ kept. AreKeptStored stored.entry.pairs stored.entry.store.now
        stored.entry.names.now polarity.now.banned used.now kept.items)) }
    ensures values { length trial.new.values ≡ length trial.old.values }
    ensures named { length trial.new.named ≡ length trial.old.named }
{
    let kept = numbers_marked(alloc, used, marks)?;
    look_at(stored.store, &kept, &mut trial.values, &mut trial.named);
    if may_all_go(stored, used, constants, trial, polarity, marks) {
        return Ok(Some(kept));
    }
    Ok(None)
}

/// The numbers of those among a part's axioms that a search takes: of the kept ones those that stay by polarity, where they are
/// few. What is left out by that is banned.
pub(crate) fn polar_axioms(
    alloc: Global,
    stored: Stored<'_>,
    used: &[usize],
    constants: &mut Values,
    trial: &mut Trial,
    polarity: &mut Polarity,
) -> Result<Vec<usize>, AllocError>
    requires stored { IsStored stored.store.now stored.names.now }
    requires values { length stored.names.now.variables ≡ length trial.old.values }
    requires constants { length stored.names.now.variables ≡ length constants.old }
    requires named { length stored.names.now.variables ≡ length trial.old.named }
    requires yes { length stored.names.now.variables ≡ length polarity.old.yes }
    requires no { length stored.names.now.variables ≡ length polarity.old.no }
    requires banned { length stored.names.now.variables ≡ length polarity.old.banned }
    requires within { All (λ k. k < length stored.store.now) used.now }
    ensures kept { IfOk result (λ kept. AreKeptStored stored.entry.pairs stored.entry.store.now
        stored.entry.names.now polarity.new.banned used.now kept.items) }
    ensures more { (m : Literal) → MakesTrue polarity.old.banned m →
        MakesTrue polarity.new.banned m }
    ensures values { length trial.new.values ≡ length trial.old.values }
    ensures constants { length constants.new ≡ length constants.old }
    ensures named { length trial.new.named ≡ length trial.old.named }
    ensures yes { length polarity.new.yes ≡ length polarity.old.yes }
    ensures no { length polarity.new.no ≡ length polarity.old.no }
    ensures banned { length polarity.new.banned ≡ length polarity.old.banned }
{
    let kept = kept_axioms(alloc, stored, used, constants, trial)?;
    let mut stays = vec![in alloc; false; kept.len()]?;
    if !guess_stays(stored, &kept, trial, polarity, &mut stays) {
        return Ok(kept);
    }
    ban_left(stored, &kept, &stays, polarity);
    let marks = marks_of(alloc, used, &kept, &stays)?;
    match try_fewer(alloc, stored, used, constants, trial, polarity, &marks)? {
        Some(fewer) => Ok(fewer),
        None => Ok(kept),
    }
}
