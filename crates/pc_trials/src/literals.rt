// Literals and clauses from texts.

use crate::texts::add_number;
use pc_lits::{ClauseStore, Lit, Var};
use std::alloc::{AllocError, Global};

/// The literal of a variable, counted from 1; behind `-` its negation.
pub(crate) fn literal(word: &str) -> Lit {
    let number = word.trim_start_matches('-').parse::<u32>().unwrap_or(0);
    Lit {
        variable: Var(number.wrapping_sub(1)),
        sign: !word.starts_with('-'),
    }
}

/// The literals, parted by spaces.
pub(crate) fn literals(alloc: Global, words: &str) -> Result<Vec<Lit>, AllocError> {
    let mut lits = Vec::new(alloc);
    for word in words.split_whitespace() {
        lits.push(literal(word))?;
    }
    Ok(lits)
}

// Adds a clause.
fn push_clause(alloc: Global, store: &mut ClauseStore, words: &str) -> Result<(), AllocError> {
    let clause = literals(alloc, words)?;
    store.push(&clause)?;
    Ok(())
}

/// The clauses, a line each.
pub(crate) fn store_of(alloc: Global, lines: &str) -> Result<ClauseStore, AllocError> {
    let mut store = ClauseStore::new(alloc);
    for line in lines.lines() {
        push_clause(alloc, &mut store, line)?;
    }
    Ok(store)
}

/// Adds the literals as they are read, each behind a space.
pub(crate) fn add_literals(
    alloc: Global,
    text: &mut String,
    lits: &[Lit],
) -> Result<(), AllocError> {
    for lit in lits {
        let sign = if lit.sign { " " } else { " -" };
        add_number(alloc, text, sign, u64::from(lit.variable.0) + 1)?;
    }
    Ok(())
}

/// The variables that have numbers below this one.
pub(crate) fn variables(alloc: Global, count: u32) -> Result<Vec<Var>, AllocError> {
    let mut variables = Vec::new(alloc);
    for number in 0..count {
        variables.push(Var(number))?;
    }
    Ok(variables)
}
