// What a search prefers.

use crate::literals::{literal, literals};
use crate::rows::{Machine, judge_rows, no_command, number, parted};
use crate::texts::{number_text, truth_text};
use pc_lits::{Lit, Var};
use pc_solver::Preferences;
use std::alloc::{AllocError, Global};

/// Preferences among own variables.
#[derive(Drop)]
struct Preferring {
    own: Vec<Var>,
    preferences: Preferences,
}

// The variables of the literals.
fn variables_of(alloc: Global, lits: &[Lit]) -> Result<Vec<Var>, AllocError> {
    let mut variables = Vec::new(alloc);
    for lit in lits {
        variables.push(lit.variable)?;
    }
    Ok(variables)
}

// A place among the own variables, counted from 1.
fn place_text(alloc: Global, place: Option<usize>) -> Result<String, AllocError> {
    match place {
        Some(place) => number_text(alloc, place.wrapping_add(1) as u64),
        None => String::from_str(alloc, "none"),
    }
}

// After how many conflicts, of so many, the search is to begin anew.
fn run(preferences: &mut Preferences, most: u64) -> u64 {
    for count in 1..most {
        if preferences.note_conflict() {
            return count;
        }
    }
    most
}

// Whether there was such a change.
fn change_text(alloc: Global, is_made: bool) -> Result<String, AllocError> {
    if is_made {
        String::from_str(alloc, "ok")
    } else {
        no_command(alloc)
    }
}

impl Preferring {
    // Makes a change, and says whether there is such a one.
    fn change(&mut self, word: &str, lit: Lit) -> bool {
        match word {
            "raise" => self.preferences.raise(&self.own, lit.variable),
            "put_back" => self.preferences.put_back(&self.own, lit),
            "put_all_back" => self.preferences.put_all_back(),
            "take" => self.preferences.drop_first(),
            "begin" => self.preferences.begin(),
            "show_nothing" => self.preferences.show_nothing(),
            "drop_wanted" => self.preferences.drop_wanted(),
            "forget_last" => self.preferences.forget_last(),
            "see" => self.preferences.see(&self.own, lit.variable),
            "settle" => self.preferences.settle(),
            _ => return false,
        }
        true
    }
}

impl Machine for Preferring {
    fn obey(&mut self, alloc: Global, command: &str) -> Result<String, AllocError> {
        let (word, rest) = parted(command);
        match word {
            "first" => place_text(alloc, self.preferences.first()),
            "wanted" => place_text(alloc, self.preferences.wanted()),
            "next" => number_text(alloc, self.preferences.next() as u64),
            "sign" => truth_text(
                alloc,
                self.preferences.sign(&self.own, literal(rest).variable),
            ),
            "prefer" => {
                self.preferences.prefer_first(number(rest) as usize);
                String::from_str(alloc, "ok")
            }
            "set_next" => {
                self.preferences.set_next(number(rest) as usize);
                String::from_str(alloc, "ok")
            }
            "run" => number_text(alloc, run(&mut self.preferences, 2048)),
            _ => change_text(alloc, self.change(word, literal(rest))),
        }
    }
}

/// Judges the rows of preferences among these variables. How many there are.
pub(crate) fn judge_preferences(
    alloc: Global,
    text: &str,
    rows: &str,
    wrong: &mut String,
) -> Result<u64, AllocError> {
    let lits = literals(alloc, text)?;
    let own = variables_of(alloc, &lits)?;
    let preferences = Preferences::new(alloc, &own)?;
    let mut preferring = Preferring { own, preferences };
    judge_rows(alloc, &mut preferring, rows, wrong)
}
