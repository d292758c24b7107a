//! A partial assignment of truth values to variables.

ghost use Rattle.std.specs.Prelude.{◌≡◌, ◌<◌, length, IfOk, Some, None, slice_index_or, slice_set, replicate, IsTrue, ◌↔◌, not};
ghost use Rattle.pc_lits.specs.Values.{MakesTrue, MakesFalse};

use crate::{Lit, Var};
use std::alloc::{AllocError, Global};
use std::marker::Model;

// A value counts only while its stamp is the present one. It is small, since searches read values at random.
#[derive(Clone, Copy)]
struct Cell {
    stamp: u16,
    value: bool,
}

impl Cell {
    const BLANK: Cell = Cell {
        stamp: 0,
        value: false,
    };
}

/// A partial assignment: for each variable a truth value or none. Clearing takes constant time, but for one time in 65,535.
#[derive(Drop)]
pub struct Values {
    cells: Vec<Cell>,
    present: u16,
}

impl Model for Values {
    ghost use Rattle.std.specs.Prelude.{List, Option, Bool};
    ghost use Rattle.pc_lits.specs.Stamped.{shown, AreStamped};

    ghost Value = { List (Option Bool) };

    ghost view = { λ v. shown v.present v.cells.items };

    ghost invariant = { λ v. AreStamped v.present v.cells.items };
}

impl Values {
    /// No values yet, with room for the variables below `variables`.
    pub fn new(alloc: Global, variables: u32) -> Result<Values, AllocError>
        ensures { IfOk result (λ v. v ≡ replicate variables None) }
    {
        let cells = vec![in alloc; Cell::BLANK; variables as usize]?;
        let present = 1;
        Ok(Values { cells, present })
    }

    /// The number of variables that there is room for.
    pub fn len(&self) -> usize
        ensures { result ≡ length self.now }
    {
        self.cells.len()
    }

    /// The variable's value.
    pub fn get(&self, variable: Var) -> Option<bool>
        requires { variable.0 < length self.now }
        ensures { result ≡ slice_index_or self.now variable.0 None }
    {
        let cell = self.cells[variable.0 as usize];
        if cell.stamp == self.present {
            Some(cell.value)
        } else {
            None
        }
    }

    /// Whether the literal is false, which one without a value isn't.
    pub fn is_false(&self, lit: Lit) -> bool
        requires { lit.variable.0 < length self.now }
        ensures { IsTrue result ↔ MakesFalse self.now lit }
    {
        match self.get(lit.variable) {
            Some(value) => value != lit.sign,
            None => false,
        }
    }

    /// Whether the literal is true.
    pub fn is_true(&self, lit: Lit) -> bool
        requires { lit.variable.0 < length self.now }
        ensures { IsTrue result ↔ MakesTrue self.now lit }
    {
        match self.get(lit.variable) {
            Some(value) => value == lit.sign,
            None => false,
        }
    }

    /// Makes the literal false.
    pub fn deny(&mut self, lit: Lit)
        requires { lit.variable.0 < length self.old }
        ensures { self.new ≡ slice_set self.old lit.variable.0 (Some (not lit.sign)) }
    {
        self.assign(lit.negated());
    }

    /// Makes the literal true.
    pub fn assign(&mut self, lit: Lit)
        requires { lit.variable.0 < length self.old }
        ensures { self.new ≡ slice_set self.old lit.variable.0 (Some lit.sign) }
    {
        self.cells[lit.variable.0 as usize] = Cell {
            stamp: self.present,
            value: lit.sign,
        };
    }

    /// Takes the variable's value back.
    pub fn forget(&mut self, variable: Var)
        requires { variable.0 < length self.old }
        ensures { self.new ≡ slice_set self.old variable.0 None }
    {
        self.cells[variable.0 as usize] = Cell::BLANK;
    }

    /// Takes all values back, by making every stamp an old one.
    pub fn clear(&mut self)
        ensures { self.new ≡ replicate (length self.old) None }
    {
        if self.present == u16::MAX {
            self.cells.fill(Cell::BLANK);
            self.present = 1;
        } else {
            self.present += 1;
        }
    }
}
