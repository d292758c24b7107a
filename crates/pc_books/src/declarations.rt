//! What a book declares, with what each name stands for.
ghost use Rattle.std.specs.Prelude.{◌≡◌, ◌↔◌, ◌<◌, ◌++◌, ◌∷◌, [], Some, Contains, IsNone, OnErr, OnOk, length, map};
ghost use Rattle.pc_sheet.specs.Sheet.{empty_sheet};
ghost use Rattle.pc_sheet.specs.WellFormed.{IsWellFormedUniverse};
ghost use Rattle.pc_sheet.specs.WellSorted.{declared_names, names_of_values};
ghost use Rattle.pc_books.specs.Edits.{family_from, listed_sort, range_sort, table_from, tables_with};
ghost use Rattle.pc_books.specs.Named.{IsNameOf, sort_keys};
ghost use Rattle.pc_books.specs.inside.NameTable.{named_texts};
ghost use Rattle.pc_books.specs.SchemeView.{sort_of, table_of, universe_of, values_of};
ghost use Rattle.pc_books.specs.Sound.{IsSound};
ghost use Rattle.pc_books.specs.declared.names.Named.{Named};

use crate::copies::copy_scheme;
use crate::names::{NameTable, Named, key_of, keys_of_list};
use crate::rows::Rows;
use crate::scheme::{self, FamilyDecl, Scheme, SortDecl, SortValues, TableDecl};
use pc_sheet::{FamilyId, Name, SortId, TableId, ValueId};
use std::alloc::{AllocError, Global};
use std::marker::Model;

/// Sorts, tables and families, well formed and within the limits, and a table of their names. A clause sees the universe.
#[derive(Drop)]
pub(crate) struct Declarations {
    scheme: Scheme,
    names: NameTable,
}

impl Model for Declarations {
    ghost use Rattle.pc_sheet.specs.Sheet.{Universe};
    ghost use Rattle.pc_sheet.specs.Codes.{coded_universe};

    ghost Value = { Universe };

    ghost coded = { coded_universe };

    ghost use Rattle.pc_books.specs.SchemeView.{universe_of};
    ghost use Rattle.pc_books.specs.DeclarationsView.{AreKeptDeclarations};

    ghost view = { λ d. universe_of d.scheme };

    ghost invariant = { AreKeptDeclarations };
}

impl Clone for Declarations {
    ghost is_clone = { λ d copy. copy ≡ d };

    fn clone(&self) -> Result<Declarations, AllocError> {
        let scheme = copy_scheme(*self.scheme.sorts.allocator(), &self.scheme)?;
        let names = self.names.copy()?;
        Ok(Declarations { scheme, names })
    }
}

impl Declarations {
    /// Nothing declared.
    pub(crate) fn new(alloc: Global) -> Declarations
        ensures { result ≡ empty_sheet.universe }
    {
        Declarations {
            scheme: Scheme {
                sorts: Vec::new(alloc),
                tables: Vec::new(alloc),
                families: Vec::new(alloc),
                cells: 0,
            },
            names: NameTable::new(alloc),
        }
    }

    /// The declarations.
    pub(crate) fn scheme(&self) -> &Scheme
        ensures universe { universe_of result.now ≡ self.now }
        ensures formed { IsWellFormedUniverse (universe_of result.now) }
        ensures sound { IsSound result.now }
    {
        &self.scheme
    }

    /// What the name stands for, if it is declared.
    pub(crate) fn look_up(&self, name: &str) -> Option<Named>
        ensures exact { (named : Named) → (result ≡ Some named) ↔ IsNameOf self.now name.now named }
        ensures undeclared { IsNone result ↔ ¬ Contains (declared_names self.now) name.now }
    {
        self.names.look_up(name)
    }

    /// Adds a sort of these values as the last one.
    pub(crate) fn add_list(&mut self, name: Name, values: Vec<Name>) -> Result<(), AllocError>
        requires { IsWellFormedUniverse
            (record self.old { sorts = self.old.sorts ++ listed_sort name values.items ∷ [] }) }
        ensures ok { OnOk result
            (self.new ≡ record self.old {
              sorts = self.old.sorts ++ listed_sort name values.items ∷
                  [];
            }) }
        ensures err { OnErr result (self.new ≡ self.old) }
    {
        let alloc = *self.scheme.sorts.allocator();
        let sort = SortId(self.scheme.sorts.len() as u16);
        let keys = keys_of_list(alloc, sort, &name, &values)?;
        let values = SortValues::Listed(values);
        self.add_sort(SortDecl { name, values }, keys)?;
        Ok(())
    }

    /// Adds the sort of the whole numbers from the low one to the high one, as the last one.
    pub(crate) fn add_range(&mut self, name: Name, low: i32, high: i32) -> Result<(), AllocError>
        requires { IsWellFormedUniverse
            (record self.old { sorts = self.old.sorts ++ range_sort name low high ∷ [] }) }
        ensures ok { OnOk result
            (self.new ≡ record self.old {
              sorts = self.old.sorts ++ range_sort name low high ∷
                  [];
            }) }
        ensures err { OnErr result (self.new ≡ self.old) }
    {
        let alloc = *self.scheme.sorts.allocator();
        let sort = SortId(self.scheme.sorts.len() as u16);
        let keys = key_of(alloc, &name, Named::Sort(sort))?;
        let values = SortValues::Range { low, high };
        self.add_sort(SortDecl { name, values }, keys)?;
        Ok(())
    }

    fn add_sort(&mut self, declared: SortDecl, keys: Vec<(String, Named)>) -> Result<(), AllocError>
        requires formed { IsWellFormedUniverse
            (record self.old { sorts = self.old.sorts ++ sort_of declared ∷ [] }) }
        requires keys { named_texts keys.items ≡ sort_keys (record { 0 = length self.old.sorts })
            declared.name (names_of_values (values_of declared.values)) }
        ensures ok { OnOk result
            (self.new ≡ record self.old { sorts = self.old.sorts ++ sort_of declared ∷ [] }) }
        ensures err { OnErr result (self.new ≡ self.old) }
    {
        self.scheme.sorts.reserve(1)?;
        self.names.add_all(keys)?;
        self.scheme.sorts.push(declared).unwrap();
        Ok(())
    }

    /// Adds a table without rows as the last one.
    pub(crate) fn add_table(&mut self, name: Name, sorts: Vec<SortId>) -> Result<(), AllocError>
        requires { IsWellFormedUniverse
            (record self.old { tables = self.old.tables ++ table_from name sorts.items ∷ [] }) }
        ensures ok { OnOk result
            (self.new ≡ record self.old {
              tables = self.old.tables ++ table_from name sorts.items ∷
                  [];
            }) }
        ensures err { OnErr result (self.new ≡ self.old) }
    {
        let alloc = *self.scheme.sorts.allocator();
        let table = TableId(self.scheme.tables.len() as u16);
        let keys = key_of(alloc, &name, Named::Table(table))?;
        self.scheme.tables.reserve(1)?;
        self.names.add_all(keys)?;
        let rows = Rows::new(alloc);
        self.scheme
            .tables
            .push(TableDecl { name, sorts, rows })
            .unwrap();
        Ok(())
    }

    /// Adds a row to a table as its last one. A row that stands already changes nothing.
    pub(crate) fn add_row(&mut self, table: TableId, values: &[ValueId]) -> Result<(), AllocError>
        requires formed { IsWellFormedUniverse
            (record self.old { tables = tables_with self.old.tables table.0 values.now }) }
        requires table { table.0 < length self.old.tables }
        ensures ok { OnOk result
            (self.new ≡ record self.old {
              tables = tables_with self.old.tables table.0 values.now;
            }) }
        ensures err { OnErr result (self.new ≡ self.old) }
    {
        let alloc = *self.scheme.sorts.allocator();
        add_row(alloc, &mut self.scheme.tables, usize::from(table.0), values)?;
        Ok(())
    }

    /// Adds a family as the last one.
    pub(crate) fn add_family(
        &mut self,
        name: Name,
        sorts: Vec<SortId>,
        result_sort: SortId,
    ) -> Result<(), AllocError>
        requires { IsWellFormedUniverse
            (record self.old {
              families = self.old.families ++ family_from name sorts.items
                  result_sort ∷ [];
            }) }
        ensures ok { OnOk result
            (self.new ≡ record self.old {
              families = self.old.families ++
                  family_from name sorts.items result_sort ∷ [];
            }) }
        ensures err { OnErr result (self.new ≡ self.old) }
    {
        let alloc = *self.scheme.sorts.allocator();
        let family = FamilyId(self.scheme.families.len() as u16);
        let first = self.scheme.cells;
        let cells = scheme::count_tuples(&self.scheme, &sorts);
        let keys = key_of(alloc, &name, Named::Family(family))?;
        self.scheme.families.reserve(1)?;
        self.names.add_all(keys)?;
        let declared = FamilyDecl {
            name,
            sorts,
            result_sort,
            first,
            cells,
        };
        self.scheme.families.push(declared).unwrap();
        self.scheme.cells = first + cells;
        Ok(())
    }
}

fn add_row(
    alloc: Global,
    tables: &mut [TableDecl],
    place: usize,
    row: &[ValueId],
) -> Result<(), AllocError>
    requires { place < length tables.old }
    ensures ok { OnOk result (map table_of tables.new ≡ tables_with (map table_of tables.old) place
        row.now) }
    ensures err { OnErr result (map table_of tables.new ≡ map table_of tables.old) }
{
    tables[place].rows.add(alloc, row)?;
    Ok(())
}
