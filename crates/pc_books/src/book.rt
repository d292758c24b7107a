//! Books, seen as a universe, rules and entries.
ghost use Rattle.std.specs.Prelude.{◌≡◌, ◌↔◌, ◌<◌, ◌≤◌, Contains, IsNone, IfSome, Some, IfOk, OnErr, OnOk, length, map, slice_get};
ghost use Rattle.std.specs.Option.{SomeIff};
ghost use Rattle.pc_sheet.specs.Limits.{most_cells, most_values};
ghost use Rattle.pc_sheet.specs.Cells.{IsApplication};
ghost use Rattle.pc_sheet.specs.Sizes.{cell_number};
ghost use Rattle.pc_sheet.specs.Entailment.{cell_sizes};
ghost use Rattle.pc_sheet.specs.Sheet.{empty_sheet, Sheet, with_rule};
ghost use Rattle.pc_sheet.specs.Views.{rule_of};
ghost use Rattle.pc_sheet.specs.WellFormed.{IsEntryOf, IsWellFormed, IsWellFormedUniverse};
ghost use Rattle.pc_sheet.specs.WellSorted.{declared_names};
ghost use Rattle.pc_books.specs.Named.{IsNameOf};
ghost use Rattle.pc_books.specs.SchemeView.{universe_of};
ghost use Rattle.pc_books.specs.Sound.{IsSound};
ghost use Rattle.pc_books.specs.declared.names.Named.{Named};
ghost use Rattle.pc_books.specs.Edits.{also_entered, entered, family_from, listed_sort, range_sort, table_from, with_family, with_row, with_sort, with_table, without_entry, without_rule};

use crate::assignment::Assignment;
use crate::declarations::Declarations;
use crate::entries::{add, enter, remove};
use crate::laws::well_formed;
use crate::names::Named;
use crate::scheme::{self, Scheme};
use crate::shared_rules::SharedRules;
use pc_sheet::{
    CellId, Entry, FamilyId, Formula, Name, NodeKind, NodePath, Rule, SortId, TableId, ValueId,
};
use std::alloc::{AllocError, Global};
use std::marker::Model;
use std::rc::Rc;

/// A universe, named rules and entries, well sorted and within the limits.
///
/// Cells are numbered by family as declared, then by arguments, the first slowest, each in its sort's order.
#[derive(Drop)]
pub struct Book {
    /// Copies have the same ones.
    declared: Rc<Declarations>,
    rules: SharedRules,
    pub(crate) entries: Vec<Entry>,
}

impl Model for Book {
    ghost use Rattle.pc_sheet.specs.Sheet.{Sheet};
    ghost use Rattle.pc_sheet.specs.Codes.{coded_sheet};

    ghost Value = { Sheet };

    ghost coded = { coded_sheet };

    ghost use Rattle.pc_books.specs.BookView.{sheet_of, IsKeptBook};

    ghost view = { sheet_of };

    ghost invariant = { IsKeptBook };
}

impl Book {
    /// A book with nothing in it.
    pub fn new(alloc: Global) -> Result<Book, AllocError>
        ensures { IfOk result (λ book. book ≡ empty_sheet) }
    {
        Ok(Book {
            declared: Rc::new(alloc, Declarations::new(alloc))?,
            rules: SharedRules::new(alloc)?,
            entries: Vec::new(alloc),
        })
    }

    /// The entries, oldest first.
    pub fn entries(&self) -> &[Entry]
        ensures items { result.now ≡ self.now.entries }
        ensures well_formed { IsWellFormed self.now }
    {
        self.entries.as_slice()
    }

    /// The rules, in the order in which they were added.
    pub fn rules(&self) -> &[Rule]
        ensures { map rule_of result.now ≡ self.now.rules }
    {
        self.rules.as_slice()
    }

    /// What is declared, with counts of cells beside the families.
    pub fn scheme(&self) -> &Scheme
        ensures universe { universe_of result.now ≡ self.now.universe }
        ensures formed { IsWellFormedUniverse (universe_of result.now) }
        ensures sound { IsSound result.now }
    {
        self.declared.scheme()
    }

    /// How many cells there are.
    pub fn cells(&self) -> usize
        ensures exact { result ≡ length (cell_sizes self.now.universe) }
        ensures few { result ≤ most_cells }
    {
        self.scheme().cells
    }

    /// How many values the cell may have.
    pub fn values_of(&self, cell: CellId) -> usize
        requires { cell.0 < length (cell_sizes self.now.universe) }
        ensures exact { slice_get (cell_sizes self.now.universe) cell.0 ≡ Some result }
        ensures few { result ≤ most_values }
    {
        scheme::values_of_cell(self.scheme(), usize::from(cell.0))
    }

    /// What the name stands for, if it is declared.
    pub fn look_up(&self, name: &str) -> Option<Named>
        ensures exact { (named : Named) → (result ≡ Some named) ↔
            IsNameOf self.now.universe name.now named }
        ensures undeclared { IsNone result ↔
            ¬ Contains (declared_names self.now.universe) name.now }
    {
        self.declared.look_up(name)
    }

    /// The cell of the family at these arguments. There is none where their count, or the place of one of them, doesn't
    /// fit.
    pub fn cell_at(&self, family: FamilyId, args: &[ValueId]) -> Option<CellId>
        ensures exact { SomeIff result
            (IsApplication self.now.universe (record { family = family; arguments = args.now }))
            (record { 0 = cell_number self.now.universe family args.now }) }
        ensures within { IfSome result (λ cell. cell.0 < length (cell_sizes self.now.universe)) }
    {
        match scheme::cell_at(self.scheme(), family, args) {
            None => None,
            Some(cell) => Some(CellId(cell as u16)),
        }
    }

    /// Adds a sort of these values as the last one.
    pub fn add_list(&mut self, name: Name, values: Vec<Name>) -> Result<(), AllocError>
        requires { IsWellFormed (with_sort self.old (listed_sort name values.items)) }
        ensures ok { OnOk result (self.new ≡ with_sort self.old (listed_sort name values.items)) }
        ensures err { OnErr result (self.new ≡ self.old) }
    {
        Rc::make_mut(&mut self.declared)?.add_list(name, values)?;
        Ok(())
    }

    /// Adds the sort of the whole numbers from the low one to the high one, as the last one.
    pub fn add_range(&mut self, name: Name, low: i32, high: i32) -> Result<(), AllocError>
        requires { IsWellFormed (with_sort self.old (range_sort name low high)) }
        ensures ok { OnOk result (self.new ≡ with_sort self.old (range_sort name low high)) }
        ensures err { OnErr result (self.new ≡ self.old) }
    {
        Rc::make_mut(&mut self.declared)?.add_range(name, low, high)?;
        Ok(())
    }

    /// Adds a table without rows as the last one.
    pub fn add_table(&mut self, name: Name, sorts: Vec<SortId>) -> Result<(), AllocError>
        requires { IsWellFormed (with_table self.old (table_from name sorts.items)) }
        ensures ok { OnOk result (self.new ≡ with_table self.old (table_from name sorts.items)) }
        ensures err { OnErr result (self.new ≡ self.old) }
    {
        Rc::make_mut(&mut self.declared)?.add_table(name, sorts)?;
        Ok(())
    }

    /// Adds a row to a table as its last one. A row that stands already changes nothing.
    pub fn add_row(&mut self, table: TableId, values: &[ValueId]) -> Result<(), AllocError>
        requires formed { IsWellFormed (with_row self.old table values.now) }
        requires table { table.0 < length self.old.universe.tables }
        ensures ok { OnOk result (self.new ≡ with_row self.old table values.now) }
        ensures err { OnErr result (self.new ≡ self.old) }
    {
        Rc::make_mut(&mut self.declared)?.add_row(table, values)?;
        Ok(())
    }

    /// Adds a family as the last one.
    pub fn add_family(
        &mut self,
        name: Name,
        sorts: Vec<SortId>,
        result_sort: SortId,
    ) -> Result<(), AllocError>
        requires { IsWellFormed (with_family self.old (family_from name sorts.items result_sort)) }
        ensures ok { OnOk result
            (self.new ≡ with_family self.old (family_from name sorts.items result_sort)) }
        ensures err { OnErr result (self.new ≡ self.old) }
    {
        Rc::make_mut(&mut self.declared)?.add_family(name, sorts, result_sort)?;
        Ok(())
    }

    /// Adds a rule as the last one.
    pub fn push_rule(&mut self, rule: Rule) -> Result<(), AllocError>
        requires { IsWellFormed (with_rule self.old (rule_of rule)) }
        ensures ok { OnOk result (self.new ≡ with_rule self.old (rule_of rule)) }
        ensures err { OnErr result (self.new ≡ self.old) }
    {
        self.rules.push(rule)?;
        Ok(())
    }

    /// Enters a value: the cell's other entries go. Where this one stands it keeps its place, else it becomes the newest.
    pub fn set_entry(&mut self, entry: Entry) -> Result<(), AllocError>
        requires { IsEntryOf self.old.universe entry }
        ensures ok { OnOk result (self.new ≡ entered self.old entry) }
        ensures err { OnErr result (self.new ≡ self.old) }
    {
        enter(&mut self.entries, entry)?;
        Ok(())
    }

    /// Enters a value beside the cell's others, as the newest. The value that stands there already changes nothing and keeps
    /// its place.
    pub fn also_entry(&mut self, entry: Entry) -> Result<(), AllocError>
        requires { IsWellFormed (also_entered self.old entry) }
        ensures ok { OnOk result (self.new ≡ also_entered self.old entry) }
        ensures err { OnErr result (self.new ≡ self.old) }
    {
        add(&mut self.entries, entry)?;
        Ok(())
    }

    /// The same book. Declarations and rules are shared, the entries are copied.
    pub fn copy(&self, alloc: Global) -> Result<Book, AllocError>
        ensures { IfOk result (λ copy. copy ≡ self.now) }
    {
        let declared = self.declared.clone()?;
        let rules = self.rules.share()?;
        let entries = Vec::from_slice(alloc, &self.entries)?;
        Ok(Book {
            declared,
            rules,
            entries,
        })
    }

    /// Puts these entries in the place of its own. It takes no memory.
    pub fn put_entries(&mut self, entries: Vec<Entry>)
        requires { IsWellFormed (record self.old { entries = entries.items }) }
        ensures { self.new ≡ record self.old { entries = entries.items } }
    {
        self.entries = entries;
    }

    /// Removes the entry. It takes no memory.
    pub fn remove_entry(&mut self, entry: Entry)
        ensures { self.new ≡ without_entry self.old entry }
    {
        remove(&mut self.entries, entry);
    }

    /// The book with one more rule, as the last one, which lies behind this book's own rules in the list that both share. So
    /// rules are copied only where this book shared its list before.
    pub fn with_rule(&mut self, alloc: Global, rule: Rule) -> Result<Book, AllocError>
        requires { IsWellFormed (with_rule self.old (rule_of rule)) }
        ensures same { self.new ≡ self.old }
        ensures book { IfOk result (λ book. book ≡ with_rule self.old (rule_of rule)) }
    {
        let declared = self.declared.clone()?;
        let entries = Vec::from_slice(alloc, &self.entries)?;
        let rules = self.rules.with(rule)?;
        Ok(Book {
            declared,
            rules,
            entries,
        })
    }

    /// The book without the rule at that place.
    pub fn without_rule(&self, alloc: Global, place: usize) -> Result<Book, AllocError>
        requires { place < length self.now.rules }
        ensures { IfOk result (λ book. book ≡ without_rule self.now place) }
    {
        well_formed(self);
        let mut book = self.copy(alloc)?;
        book.remove_rule(place)?;
        Ok(book)
    }

    fn remove_rule(&mut self, place: usize) -> Result<(), AllocError>
        requires place { place < length self.old.rules }
        requires formed { IsWellFormed (without_rule self.old place) }
        ensures { OnOk result (self.new ≡ without_rule self.old place) }
    {
        self.rules.remove(place)?;
        Ok(())
    }
}
