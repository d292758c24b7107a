//! A guess of the axioms that stay where a part goes by polarity. Nothing rests on it.
ghost use Rattle.std.specs.Prelude.{◌≡◌, ◌<◌, All, IfOk, length};
ghost use Rattle.pc_kept.specs.inside.Checks.{IsRoom};
ghost use Rattle.pc_kept.specs.inside.Signs.{IsStored};

use crate::checking::is_of_node;
use crate::guessing::force_twice;
use crate::polarity::{Polarity, own_of};
use crate::trial::{Stored, Trial};
use pc_lits::{Lit, Values};
use std::alloc::{AllocError, Global};

/// Whether the clause of that place is the reason of a value.
fn is_reason(clause: &[Lit], place: usize, values: &Values, reasons: &[usize]) -> bool
    requires { All (λ l. l.variable.0 < length values.now) clause.now }
{
    for i in 0..clause.len() {
        let x = clause[i].variable.0 as usize;
        if values.is_true(clause[i]) && x < reasons.len() && reasons[x] == place {
            return true;
        }
    }
    false
}

/// Whether it stays whatever others name: it has no literal of its own, or the others force something by it.
fn is_asked(stored: Stored<'_>, number: usize, place: usize, trial: &Trial) -> bool
    requires stored { IsStored stored.store.now stored.names.now }
    requires values { IsRoom trial.now.values stored.store.now }
    requires within { number < length stored.store.now }
{
    if !is_of_node(stored.names, number) || own_of(stored, number).is_none() {
        return true;
    }
    is_reason(
        stored.store.get(number),
        place,
        &trial.values,
        &trial.reasons,
    )
}

/// An axiom stays, and what it names is named.
fn stay(
    stored: Stored<'_>,
    number: usize,
    place: usize,
    polarity: &mut Polarity,
    stays: &mut Vec<bool>,
)
    requires stored { IsStored stored.store.now stored.names.now }
    requires within { number < length stored.store.now }
    requires place { place < length stays.old.items }
    requires yes { length stored.names.now.variables ≡ length polarity.old.yes }
    requires no { length stored.names.now.variables ≡ length polarity.old.no }
    ensures yes { length polarity.new.yes ≡ length polarity.old.yes }
    ensures no { length polarity.new.no ≡ length polarity.old.no }
    ensures banned { polarity.new.banned ≡ polarity.old.banned }
    ensures stays { length stays.new.items ≡ length stays.old.items }
{
    stays[place] = true;
    polarity.name_others(stored, number);
}

/// An axiom stays where the opposite of its own literal is named. Whether it is so anew.
fn stay_if_named(
    stored: Stored<'_>,
    number: usize,
    place: usize,
    polarity: &mut Polarity,
    stays: &mut Vec<bool>,
) -> bool
    requires stored { IsStored stored.store.now stored.names.now }
    requires within { number < length stored.store.now }
    requires place { place < length stays.old.items }
    requires yes { length stored.names.now.variables ≡ length polarity.old.yes }
    requires no { length stored.names.now.variables ≡ length polarity.old.no }
    ensures yes { length polarity.new.yes ≡ length polarity.old.yes }
    ensures no { length polarity.new.no ≡ length polarity.old.no }
    ensures banned { polarity.new.banned ≡ polarity.old.banned }
    ensures stays { length stays.new.items ≡ length stays.old.items }
{
    if stays[place] {
        return false;
    }
    match own_of(stored, number) {
        Some(own) => {
            let is_named = polarity.has(own.negated());
            if is_named {
                stay(stored, number, place, polarity, stays);
            }
            is_named
        }
        None => false,
    }
}

/// An axiom stays where one that doesn't has the opposite of its own literal: the two can't both be banned. Whether it is so.
fn stay_if_left(
    stored: Stored<'_>,
    number: usize,
    place: usize,
    left: &mut Values,
    polarity: &mut Polarity,
    stays: &mut Vec<bool>,
) -> bool
    requires stored { IsStored stored.store.now stored.names.now }
    requires within { number < length stored.store.now }
    requires place { place < length stays.old.items }
    requires left { length stored.names.now.variables ≡ length left.old }
    requires yes { length stored.names.now.variables ≡ length polarity.old.yes }
    requires no { length stored.names.now.variables ≡ length polarity.old.no }
    ensures left { length left.new ≡ length left.old }
    ensures yes { length polarity.new.yes ≡ length polarity.old.yes }
    ensures no { length polarity.new.no ≡ length polarity.old.no }
    ensures banned { polarity.new.banned ≡ polarity.old.banned }
    ensures stays { length stays.new.items ≡ length stays.old.items }
{
    if stays[place] {
        return false;
    }
    match own_of(stored, number) {
        Some(own) => {
            let is_left = left.is_false(own);
            if is_left {
                stay(stored, number, place, polarity, stays);
            } else {
                left.assign(own);
            }
            is_left
        }
        None => false,
    }
}

/// Goes over all axioms, back and on. Whether one stays anew.
fn stay_named(
    stored: Stored<'_>,
    kept: &[usize],
    polarity: &mut Polarity,
    stays: &mut Vec<bool>,
) -> bool
    requires stored { IsStored stored.store.now stored.names.now }
    requires within { All (λ k. k < length stored.store.now) kept.now }
    requires stays { length stays.old.items ≡ length kept.now }
    requires yes { length stored.names.now.variables ≡ length polarity.old.yes }
    requires no { length stored.names.now.variables ≡ length polarity.old.no }
    ensures yes { length polarity.new.yes ≡ length polarity.old.yes }
    ensures no { length polarity.new.no ≡ length polarity.old.no }
    ensures banned { polarity.new.banned ≡ polarity.old.banned }
    ensures stays { length stays.new.items ≡ length stays.old.items }
{
    let mut is_new = false;
    for place in 0..kept.len() {
        if stay_if_named(stored, kept[place], place, polarity, stays) {
            is_new = true;
        }
    }
    for i in 0..kept.len() {
        let place = kept.len() - 1 - i;
        if stay_if_named(stored, kept[place], place, polarity, stays) {
            is_new = true;
        }
    }
    is_new
}

/// The same of those that can't be left out beside others.
fn stay_left(
    stored: Stored<'_>,
    kept: &[usize],
    left: &mut Values,
    polarity: &mut Polarity,
    stays: &mut Vec<bool>,
) -> bool
    requires stored { IsStored stored.store.now stored.names.now }
    requires within { All (λ k. k < length stored.store.now) kept.now }
    requires stays { length stays.old.items ≡ length kept.now }
    requires left { length stored.names.now.variables ≡ length left.old }
    requires yes { length stored.names.now.variables ≡ length polarity.old.yes }
    requires no { length stored.names.now.variables ≡ length polarity.old.no }
    ensures left { length left.new ≡ length left.old }
    ensures yes { length polarity.new.yes ≡ length polarity.old.yes }
    ensures no { length polarity.new.no ≡ length polarity.old.no }
    ensures banned { polarity.new.banned ≡ polarity.old.banned }
    ensures stays { length stays.new.items ≡ length stays.old.items }
{
    left.clear();
    let mut is_new = false;
    for place in 0..kept.len() {
        if stay_if_left(stored, kept[place], place, left, polarity, stays) {
            is_new = true;
        }
    }
    is_new
}

/// What stays whatever others name.
fn stay_asked(
    stored: Stored<'_>,
    kept: &[usize],
    trial: &Trial,
    polarity: &mut Polarity,
    stays: &mut Vec<bool>,
)
    requires stored { IsStored stored.store.now stored.names.now }
    requires values { IsRoom trial.now.values stored.store.now }
    requires within { All (λ k. k < length stored.store.now) kept.now }
    requires stays { length stays.old.items ≡ length kept.now }
    requires yes { length stored.names.now.variables ≡ length polarity.old.yes }
    requires no { length stored.names.now.variables ≡ length polarity.old.no }
    ensures yes { length polarity.new.yes ≡ length polarity.old.yes }
    ensures no { length polarity.new.no ≡ length polarity.old.no }
    ensures banned { polarity.new.banned ≡ polarity.old.banned }
    ensures stays { length stays.new.items ≡ length stays.old.items }
{
    for place in 0..kept.len() {
        if is_asked(stored, kept[place], place, trial) {
            stay(stored, kept[place], place, polarity, stays);
        }
    }
}

/// Adds what has to stay beside what does. Whether no more is missing after sixteen rounds.
fn stay_all(
    stored: Stored<'_>,
    kept: &[usize],
    left: &mut Values,
    polarity: &mut Polarity,
    stays: &mut Vec<bool>,
) -> bool
    requires stored { IsStored stored.store.now stored.names.now }
    requires within { All (λ k. k < length stored.store.now) kept.now }
    requires stays { length stays.old.items ≡ length kept.now }
    requires left { length stored.names.now.variables ≡ length left.old }
    requires yes { length stored.names.now.variables ≡ length polarity.old.yes }
    requires no { length stored.names.now.variables ≡ length polarity.old.no }
    ensures left { length left.new ≡ length left.old }
    ensures yes { length polarity.new.yes ≡ length polarity.old.yes }
    ensures no { length polarity.new.no ≡ length polarity.old.no }
    ensures banned { polarity.new.banned ≡ polarity.old.banned }
    ensures stays { length stays.new.items ≡ length stays.old.items }
{
    'rounds: for _ in 0..16 {
        if !stay_named(stored, kept, polarity, stays)
            && !stay_left(stored, kept, left, polarity, stays)
        {
            return true;
        }
    }
    false
}

/// How many of these there are.
fn count(stays: &[bool]) -> usize {
    let mut count = 0;
    for stay in stays {
        if *stay {
            count += 1;
        }
    }
    count
}

/// Those of the kept axioms that stay by polarity. Whether they are few enough: at most a third.
pub(crate) fn guess_stays(
    stored: Stored<'_>,
    kept: &[usize],
    trial: &mut Trial,
    polarity: &mut Polarity,
    stays: &mut Vec<bool>,
) -> bool
    requires stored { IsStored stored.store.now stored.names.now }
    requires values { IsRoom trial.old.values stored.store.now }
    requires named { length stored.names.now.variables ≡ length trial.old.named }
    requires within { All (λ k. k < length stored.store.now) kept.now }
    requires stays { length stays.old.items ≡ length kept.now }
    requires yes { length stored.names.now.variables ≡ length polarity.old.yes }
    requires no { length stored.names.now.variables ≡ length polarity.old.no }
    ensures values { length trial.new.values ≡ length trial.old.values }
    ensures named { length trial.new.named ≡ length trial.old.named }
    ensures yes { length polarity.new.yes ≡ length polarity.old.yes }
    ensures no { length polarity.new.no ≡ length polarity.old.no }
    ensures banned { polarity.new.banned ≡ polarity.old.banned }
    ensures stays { length stays.new.items ≡ length stays.old.items }
{
    polarity.forget_names();
    trial.values.clear();
    force_twice(stored.store, kept, &mut trial.values, &mut trial.reasons);
    stay_asked(stored, kept, trial, polarity, stays);
    if !stay_all(stored, kept, &mut trial.named, polarity, stays) {
        return false;
    }
    count(stays) <= kept.len() / 3
}

/// The marks of all used axioms, where these of them stay. Both are in order.
pub(crate) fn marks_of(
    alloc: Global,
    used: &[usize],
    kept: &[usize],
    stays: &[bool],
) -> Result<Vec<bool>, AllocError>
    ensures { IfOk result (λ marks. length marks.items ≡ length used.now) }
{
    let mut marks = vec![in alloc; false; used.len()]?;
    let mut place = 0;
    for i in 0..used.len() {
        if place < kept.len() && place < stays.len() && kept[place] == used[i] {
            marks[i] = stays[place];
            place += 1;
        }
    }
    Ok(marks)
}
