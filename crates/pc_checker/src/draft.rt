//! A clause that is being written.

ghost use Rattle.std.specs.Prelude.{◌≡◌, ◌∷◌, ◌++◌, [], All, IfOk, OnOk, length, map};
ghost use Rattle.pc_accept.specs.Literals.{pair, node};
ghost use Rattle.pc_accept.specs.Axioms.{child_of, each_below};
ghost use Rattle.pc_cert.specs.Views.{literal_of, AreSymbolsDistinct};
ghost use Rattle.pc_checker.specs.Drafts.{lit_of, AreWritten, IsLiteralWritten};
ghost use Rattle.pc_cert.specs.Keys.{IsKey, symbol_by};
ghost use Rattle.pc_cert.specs.ReadFor.{IsNamedIn};

use pc_cert::Numbering;
use pc_lits::{Lit, Var};
use pc_sheet::{CellId, NodePath, ValueId};
use std::alloc::{AllocError, Global};
use std::marker::Model;

/// Symbols with their numbers, and the literals of a clause so far.
#[derive(Drop)]
pub(crate) struct ClauseDraft {
    names: Numbering,
    lits: Vec<Lit>,
}

impl Model for ClauseDraft {
    ghost use Rattle.pc_cert.specs.Views.{literal_of};
    ghost use Rattle.pc_checker.specs.Drafts.{Draft};
    ghost use Rattle.pc_cert.specs.ReadFor.{IsNamedIn};
    ghost use Rattle.std.specs.Prelude.{All, map};

    ghost Value = { Draft };

    ghost view = { λ d. record { symbols = d.names; clause = map (literal_of d.names) d.lits.items } };

    ghost invariant = { λ d. All (IsNamedIn d.names) d.lits.items };
}

impl ClauseDraft {
    /// No literals yet, with these symbols.
    pub(crate) fn new(alloc: Global, names: Numbering) -> Self
        ensures symbols { result.symbols ≡ names }
        ensures clause { result.clause ≡ [] }
    {
        ClauseDraft {
            names,
            lits: Vec::new(alloc),
        }
    }

    /// How many symbols have numbers.
    pub(crate) fn symbols(&self) -> u32
        ensures count { result ≡ length self.now.symbols }
        ensures distinct { AreSymbolsDistinct self.now.symbols }
    {
        self.names.len()
    }

    /// The literals by number.
    pub(crate) fn literals(&self) -> &[Lit]
        ensures clause { map (literal_of self.now.symbols) result.now ≡ self.now.clause }
        ensures within { All (IsNamedIn self.now.symbols) result.now }
    {
        self.lits.as_slice()
    }

    /// Begins a clause. The symbols keep their numbers.
    pub(crate) fn begin(&mut self)
        ensures symbols { self.new.symbols ≡ self.old.symbols }
        ensures clause { self.new.clause ≡ [] }
    {
        self.lits.clear();
    }

    /// Adds that the cell has the value, or hasn't it.
    pub(crate) fn push_pair(
        &mut self,
        alloc: Global,
        cell: CellId,
        value: ValueId,
        sign: bool,
    ) -> Result<(), AllocError>
        ensures { OnOk result (IsLiteralWritten self.old self.new (record {
          what = pair cell value;
          sign = sign;
        })) }
    {
        self.push(alloc, &[0, u32::from(cell.0), u32::from(value.0)], sign)
    }

    /// Adds that the node is true, or that it isn't.
    pub(crate) fn push_node(
        &mut self,
        alloc: Global,
        rule: u32,
        steps: &[u32],
        sign: bool,
    ) -> Result<(), AllocError>
        ensures { OnOk result
            (IsLiteralWritten self.old self.new (record {
              what = node rule steps.now;
              sign = sign;
            })) }
    {
        let mut key = Vec::new(alloc);
        key.push(1)?;
        key.push(rule)?;
        key.extend_from_slice(steps)?;
        self.push(alloc, &key, sign)
    }

    /// Adds that the child of that number is true, or that it isn't.
    pub(crate) fn push_child(
        &mut self,
        alloc: Global,
        parent: &NodePath,
        child: u32,
        sign: bool,
    ) -> Result<(), AllocError>
        ensures { OnOk result
            (IsLiteralWritten self.old self.new
            (record {
              what = child_of parent.now.rule parent.now.steps.items child;
              sign = sign;
            })) }
    {
        let mut steps = Vec::from_slice(alloc, &parent.steps)?;
        steps.push(child)?;
        self.push_node(alloc, parent.rule, &steps, sign)
    }

    /// Adds each of so many children of a node, the first ones, with this sign.
    pub(crate) fn push_children(
        &mut self,
        alloc: Global,
        parent: &NodePath,
        count: u32,
        sign: bool,
    ) -> Result<(), AllocError>
        ensures { OnOk result
            (AreWritten self.old self.new
            (each_below count (λ k. record {
              what = child_of parent.now.rule parent.now.steps.items k;
              sign = sign;
            }))) }
    {
        let numbers = self.names.number_children(alloc, parent, count)?;
        let lits = signed(alloc, &numbers, sign)?;
        self.lits.extend_from_slice(&lits)?;
        Ok(())
    }

    // Adds a literal by its symbol's key.
    fn push(&mut self, alloc: Global, key: &[u32], sign: bool) -> Result<(), AllocError>
        requires { IsKey key.now }
        ensures { OnOk result
            (IsLiteralWritten self.old self.new (record {
              what = symbol_by key.now;
              sign = sign;
            })) }
    {
        let number = self.names.number(alloc, key)?;
        self.lits.push(Lit {
            variable: Var(number),
            sign,
        })?;
        Ok(())
    }
}

// The literals of that sign on the variables of these numbers.
fn signed(alloc: Global, numbers: &[u32], sign: bool) -> Result<Vec<Lit>, AllocError>
    ensures { IfOk result (λ lits. lits.items ≡ map (lit_of sign) numbers.now) }
{
    let mut lits = Vec::new(alloc);
    for number in numbers {
        lits.push(Lit {
            variable: Var(*number),
            sign,
        })?;
    }
    Ok(lits)
}
