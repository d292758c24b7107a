//! What is known of a book's rules.
ghost use Rattle.std.specs.Prelude.{◌≡◌, ◌<◌, ◌≤◌, All, Contains, length, map, Some, slice_get};
ghost use Rattle.pc_components.specs.View.{number_of};
ghost use Rattle.pc_ground.specs.Grounded.{no_ground};
ghost use Rattle.pc_parts.specs.Parts.{Part};
ghost use Rattle.pc_sheet.specs.Limits.{most_cells};
ghost use Rattle.pc_sheet.specs.Entailment.{cell_sizes};
ghost use Rattle.pc_theory.specs.Theories.{rules_alone, with_ground, IsPartNumbered, IsTheory};

use pc_books::{Assignment, Book, few_cells};
use pc_components::Components;
use pc_ground::Ground;
use pc_sheet::CellId;
use std::alloc::Global;
use std::marker::Model;
use std::mem::replace;

/// What is known of a book's consistent rules: their clauses, their parts, the axioms of each part that searches take, and an
/// assignment that fits.
#[derive(Drop)]
pub struct Theory {
    pub(crate) ground: Ground,
    pub(crate) components: Components,
    pub(crate) searched: Components,
    pub(crate) base: Assignment,
}

impl Model for Theory {
    ghost use Rattle.pc_theory.specs.Theories.{TheoryView};

    ghost Value = { TheoryView };

    ghost view = { λ t. record { ground = t.ground; components = t.components; searched = t.searched; base = t.base } };
}

impl Theory {
    /// The clauses of the rules, with the names of variables and axioms. It takes no memory.
    pub fn ground(&self) -> &Ground
        ensures { result.now ≡ self.now.ground }
    {
        &self.ground
    }

    /// Takes the clauses of the rules away, to be given back: none are left. It takes no memory.
    pub fn take_ground(&mut self, alloc: Global) -> Ground
        ensures ground { result ≡ self.old.ground }
        ensures rest { self.new ≡ with_ground no_ground self.old }
    {
        replace(&mut self.ground, Ground::none(alloc))
    }

    /// Gives the clauses of the rules back. It takes no memory.
    pub fn put_ground(&mut self, back: Ground)
        ensures { self.new ≡ with_ground back self.old }
    {
        self.ground = back;
    }

    /// The parts. It takes no memory.
    pub fn components(&self) -> &Components
        ensures { result.now ≡ self.now.components }
    {
        &self.components
    }

    /// An assignment that fits. It takes no memory.
    pub fn fitting(&self) -> &Assignment
        ensures { result.now ≡ self.now.base }
    {
        &self.base
    }

    /// The number of the cell's part in a book of these rules. It takes no memory.
    pub fn part_of(&self, book: &Book, cell: CellId) -> usize
        requires theory { IsTheory (rules_alone book.now) self.now }
        requires cell { cell.0 < length (cell_sizes book.now.universe) }
        ensures within { result < length self.now.components.cells }
        ensures few { result ≤ most_cells }
        ensures has { (p : Part) × IsPartNumbered (rules_alone book.now) result p ×
            Contains p.cells cell.0 }
    {
        few_cells(book);
        self.components.of(cell)
    }

    /// The cells of the part in a book of these rules. It takes no memory.
    pub fn cells(&self, book: &Book, part: usize) -> &[CellId]
        requires theory { IsTheory (rules_alone book.now) self.now }
        requires part { part < length self.now.components.cells }
        ensures at { slice_get self.now.components.cells part ≡ Some result.now }
        ensures are { (p : Part) → IsPartNumbered (rules_alone book.now) part p →
            p.cells ≡ map number_of result.now }
        ensures below { All (λ c. c.0 < length (cell_sizes book.now.universe)) result.now }
    {
        let _book = book;
        self.components.part(part).cells
    }
}
