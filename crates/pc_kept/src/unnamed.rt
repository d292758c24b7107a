//! Whether no kept axiom names the opposite of what is banned.
ghost use Rattle.std.specs.Prelude.{◌≡◌, ℕ, ◌<◌, All, Contains, List, Some, length, slice_get};
ghost use Rattle.std.specs.Bool.{OnTrue};
ghost use Rattle.pc_accept.specs.Literals.{Symbol};
ghost use Rattle.pc_lits.specs.declared.literal.Lit.{Lit as Literal};
ghost use Rattle.pc_kept.specs.Kept.{IsNode};
ghost use Rattle.pc_kept.specs.Stored.{IsNamedStored, AreUnnamedStored};
ghost use Rattle.pc_kept.specs.inside.Signs.{IsStored, IsSigned, IsUnnamedAt};

use crate::polarity::Polarity;
use crate::trial::Stored;
use pc_axiom_names::{Names, VarName};
use pc_lits::{Lit, Rows, Var};

/// Whether the variable stands for a node.
fn is_node(names: &Names, variable: Var) -> bool
    requires { variable.0 < length names.now.variables }
    ensures { OnTrue result ((s : Symbol) → slice_get names.now.variables variable.0 ≡ Some s →
        IsNode s) }
{
    match names.variable(variable) {
        VarName::Pair(_, _) => false,
        VarName::Node(_) => true,
    }
}

/// Whether the variable has no banned literal, or is a node and the opposite of that isn't named.
fn is_unnamed(names: &Names, polarity: &Polarity, variable: Var) -> bool
    requires variable { variable.0 < length names.now.variables }
    requires yes { length names.now.variables ≡ length polarity.now.yes }
    requires no { length names.now.variables ≡ length polarity.now.no }
    requires banned { length names.now.variables ≡ length polarity.now.banned }
    ensures { OnTrue result (IsUnnamedAt names.now polarity.now.yes polarity.now.no
        polarity.now.banned variable.0) }
{
    match polarity.banned_sign(variable) {
        None => true,
        Some(sign) => {
            let opposite = Lit {
                variable,
                sign: !sign,
            };
            is_node(names, variable) && !polarity.has(opposite)
        }
    }
}

fn all_unnamed(names: &Names, polarity: &Polarity, variables: u32) -> bool
    requires variables { length names.now.variables ≡ variables }
    requires yes { length names.now.variables ≡ length polarity.now.yes }
    requires no { length names.now.variables ≡ length polarity.now.no }
    requires banned { length names.now.variables ≡ length polarity.now.banned }
    ensures { OnTrue result ((x : ℕ) → x < length names.now.variables →
        IsUnnamedAt names.now polarity.now.yes polarity.now.no polarity.now.banned x) }
{
    for x in 0..variables {
        if !is_unnamed(names, polarity, Var(x)) {
            return false;
        }
    }
    true
}

/// Names what the axioms of all rows name.
fn name_rows(stored: Stored<'_>, rows: &Rows<usize>, polarity: &mut Polarity)
    requires stored { IsStored stored.store.now stored.names.now }
    requires within { All (All (λ k. k < length stored.store.now)) rows.now }
    requires yes { length stored.names.now.variables ≡ length polarity.old.yes }
    requires no { length stored.names.now.variables ≡ length polarity.old.no }
    ensures each { (kept : List ℕ) (m : Literal) → Contains rows.now kept →
        IsNamedStored stored.entry.store.now stored.entry.names.now kept m →
        IsSigned polarity.new.yes polarity.new.no m }
    ensures yes { length polarity.new.yes ≡ length polarity.old.yes }
    ensures no { length polarity.new.no ≡ length polarity.old.no }
    ensures banned { polarity.new.banned ≡ polarity.old.banned }
{
    for i in 0..rows.len() {
        polarity.name_all(stored, rows.get(i));
    }
}

/// Whether what is banned is of nodes, and no axiom of these rows names its opposite.
pub(crate) fn are_unnamed(
    stored: Stored<'_>,
    rows: &Rows<usize>,
    polarity: &mut Polarity,
    variables: u32,
) -> bool
    requires stored { IsStored stored.store.now stored.names.now }
    requires variables { length stored.names.now.variables ≡ variables }
    requires within { All (All (λ k. k < length stored.store.now)) rows.now }
    requires yes { length stored.names.now.variables ≡ length polarity.old.yes }
    requires no { length stored.names.now.variables ≡ length polarity.old.no }
    requires banned { length stored.names.now.variables ≡ length polarity.old.banned }
    ensures unnamed { OnTrue result ((kept : List ℕ) → Contains rows.now kept →
        AreUnnamedStored stored.entry.store.now stored.entry.names.now polarity.new.banned kept) }
    ensures banned { polarity.new.banned ≡ polarity.old.banned }
{
    polarity.forget_names();
    name_rows(stored, rows, polarity);
    all_unnamed(stored.names, polarity, variables)
}
