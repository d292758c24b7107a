//! The literals of a clause, each once. A hint is read literal by literal each time that it is named, so a step that has a literal
//! very often would otherwise take that long for each line that names it.

ghost use Rattle.std.specs.Prelude.{◌≡◌, ◌∷◌, ◌++◌, [], All, IfOk, List, OnOk, length};
ghost use Rattle.pc_lits.specs.declared.literal.Lit.{Lit as TheLit};
ghost use Rattle.pc_lits.specs.Values.{IsInRange};
ghost use Rattle.pc_checker.specs.LineClauses.{HasSame};
ghost use Rattle.pc_checker.specs.inside.Once.{AreAdded, AreGathered};

use pc_lits::{Lit, Values};
use std::alloc::{AllocError, Global};

/// The clause with each of its literals once. A variable has one mark, so each sign has its turn.
pub(crate) fn each_once(
    alloc: Global,
    clause: &[Lit],
    marks: &mut Values,
) -> Result<Vec<Lit>, AllocError>
    requires { All (IsInRange marks.old) clause.now }
    ensures room { length marks.new ≡ length marks.old }
    ensures same { IfOk result (λ once. HasSame once.items clause.now) }
{
    let mut once = Vec::new(alloc);
    add_those_of(true, clause, marks, &mut once)?;
    add_those_of(false, clause, marks, &mut once)?;
    Ok(once)
}

// Adds the clause's literals of that sign, each once.
fn add_those_of(
    sign: bool,
    clause: &[Lit],
    marks: &mut Values,
    once: &mut Vec<Lit>,
) -> Result<(), AllocError>
    requires { All (IsInRange marks.old) clause.now }
    ensures room { length marks.new ≡ length marks.old }
    ensures added { OnOk result (AreAdded sign clause.now once.old.items once.new.items) }
{
    marks.clear();
    for lit in clause {
        add_unmarked(sign, *lit, marks, once)?;
    }
    Ok(())
}

// Adds the literal and marks it, where it is of that sign and isn't marked yet.
fn add_unmarked(
    sign: bool,
    lit: Lit,
    marks: &mut Values,
    once: &mut Vec<Lit>,
) -> Result<(), AllocError>
    requires { IsInRange marks.old lit }
    ensures room { length marks.new ≡ length marks.old }
    ensures added { OnOk result ((before lits : List TheLit) →
        AreGathered sign before lits marks.old once.old.items →
        AreGathered sign before (lits ++ lit ∷ []) marks.new once.new.items) }
{
    if lit.is_positive() != sign {
        return Ok(());
    }
    if marks.is_true(lit) {
        return Ok(());
    }
    once.push(lit)?;
    marks.assign(lit);
    Ok(())
}
