//! The names of variables and of axioms, by their numbers.
ghost use Rattle.std.specs.Prelude.{◌≡◌, ◌<◌, IfOk, OnErr, OnOk, Some, length, slice_get};
ghost use Rattle.pc_accept.specs.Literals.{pair, node};
ghost use Rattle.pc_axiom_names.specs.Listed.{first_names, no_names, with_variable, with_axiom};
ghost use Rattle.pc_axiom_names.specs.Shown.{axiom_shown, symbol_shown};

use crate::axiom_name::AxiomRef;
use crate::kept::{
    KeptName, Stands, copied_paths, copied_rows, kept_for_all, kept_of, name_shown, paths_for_all,
    place_of, variable_shown,
};
use pc_lits::{Rows, Var};
use pc_sheet::{CellId, Entry, NodePath, ValueId};
use std::alloc::{AllocError, Global};
use std::marker::Model;

/// What a variable stands for: a cell's having a value, or a node's truth.
pub enum VarName<'a> {
    Pair(CellId, ValueId),
    Node(&'a NodePath),
}

/// The name of each variable and of each axiom, both numbered from 0 in the order in which they were added. Names of one
/// node that are added one after another share its path. More than 2^32 paths, or as many atoms' axioms, are answered with
/// want of memory.
#[derive(Drop)]
pub struct Names {
    paths: Vec<NodePath>,
    reads: Rows<Entry>,
    variables: Vec<Stands>,
    axioms: Vec<KeptName>,
}

impl Model for Names {
    ghost use Rattle.pc_axiom_names.specs.Listed.{NameLists};
    ghost use Rattle.pc_axiom_names.specs.Keeping.{AreNamesWithin, ArePlacesRising, names_in};

    ghost Value = { NameLists };

    ghost view = { λ n. names_in n.paths.items n.reads n.variables.items n.axioms.items };

    ghost invariant = { λ n. AreNamesWithin n.paths.items n.reads n.variables.items n.axioms.items
        × ArePlacesRising n.variables.items n.axioms.items };
}

impl Names {
    /// No names. It takes no memory.
    pub fn new(alloc: Global) -> Names
        ensures { result ≡ no_names }
    {
        Names {
            paths: Vec::new(alloc),
            reads: Rows::new(alloc),
            variables: Vec::new(alloc),
            axioms: Vec::new(alloc),
        }
    }

    /// Names the next variable by a cell and a value. Without memory the names stay as they are.
    pub fn add_pair(&mut self, cell: CellId, value: ValueId) -> Result<(), AllocError>
        ensures ok { OnOk result (self.new ≡ with_variable self.old (pair cell value)) }
        ensures err { OnErr result (self.new ≡ self.old) }
    {
        self.variables.push(Stands::Pair(cell, value))?;
        Ok(())
    }

    /// Names the next variable by a node. Without memory the names stay as they are.
    pub fn add_node(&mut self, path: NodePath) -> Result<(), AllocError>
        ensures ok { OnOk result
            (self.new ≡ with_variable self.old (node path.rule path.steps.items)) }
        ensures err { OnErr result (self.new ≡ self.old) }
    {
        let place = place_of(&mut self.paths, path)?;
        self.variables.push(Stands::Node(place))?;
        Ok(())
    }

    /// Names the next axiom. Without memory the names stay as they are.
    pub fn add_axiom(&mut self, name: AxiomRef<'_>) -> Result<(), AllocError>
        ensures ok { OnOk result (self.new ≡ with_axiom self.old (axiom_shown name.entry)) }
        ensures err { OnErr result (self.new ≡ self.old) }
    {
        let kept = kept_of(&mut self.paths, &mut self.reads, name)?;
        self.axioms.push(kept)?;
        Ok(())
    }

    /// How many variables there are.
    pub fn variables(&self) -> usize
        ensures { result ≡ length self.now.variables }
    {
        self.variables.len()
    }

    /// How many axioms there are.
    pub fn axioms(&self) -> usize
        ensures { result ≡ length self.now.axioms }
    {
        self.axioms.len()
    }

    /// Keeps the names of the first variables and axioms alone, with the paths and reads that these have. From the end, what
    /// is kept is looked at down to the last node and the last atom's axiom. It takes no memory.
    pub fn truncate(&mut self, variables: usize, axioms: usize)
        ensures { self.new ≡ first_names variables axioms self.old }
    {
        self.variables.truncate(variables);
        self.axioms.truncate(axioms);
        let own = paths_for_all(&self.variables);
        let (paths, rows) = kept_for_all(own, &self.axioms);
        self.paths.truncate(paths);
        if rows < self.reads.len() {
            self.reads.truncate(rows);
        }
    }

    /// The same names.
    pub fn copy(&self, alloc: Global) -> Result<Names, AllocError>
        ensures { IfOk result (λ copy. copy ≡ self.now) }
    {
        let paths = copied_paths(alloc, &self.paths)?;
        let reads = copied_rows(alloc, &self.reads)?;
        let variables = Vec::from_slice(alloc, &self.variables)?;
        let axioms = Vec::from_slice(alloc, &self.axioms)?;
        Ok(Names {
            paths,
            reads,
            variables,
            axioms,
        })
    }

    /// What the variable of that number stands for.
    pub fn variable(&self, variable: Var) -> VarName<'_>
        requires { variable.0 < length self.now.variables }
        ensures { slice_get self.now.variables variable.0 ≡ Some (symbol_shown result) }
    {
        variable_shown(&self.paths, &self.variables[variable.0 as usize])
    }

    /// The name of the axiom of that number.
    pub fn axiom(&self, id: u32) -> AxiomRef<'_>
        requires { id < length self.now.axioms }
        ensures { slice_get self.now.axioms id ≡ Some (axiom_shown result) }
    {
        name_shown(&self.paths, &self.reads, &self.axioms[id as usize])
    }
}
