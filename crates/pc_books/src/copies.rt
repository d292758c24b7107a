//! Copies of what a book keeps.
ghost use Rattle.std.specs.Prelude.{◌≡◌, IfOk, map};
ghost use Rattle.pc_sheet.specs.Views.{rule_of};
ghost use Rattle.pc_books.specs.SchemeView.{sort_of, table_of, universe_of, values_of};
ghost use Rattle.pc_books.specs.Sound.{AreCounted, counted_of};

use crate::scheme::{FamilyDecl, Scheme, SortDecl, SortValues, TableDecl};
use pc_sheet::{Name, Rule, copy_formula};
use std::alloc::{AllocError, Global};

/// The same names.
pub fn copy_names(alloc: Global, names: &[Name]) -> Result<Vec<Name>, AllocError>
    ensures { IfOk result (λ copies. copies.items ≡ names.now) }
{
    let mut copies = Vec::new(alloc);
    for name in names {
        copies.push(name.clone()?)?;
    }
    Ok(copies)
}

fn copy_values(alloc: Global, values: &SortValues) -> Result<SortValues, AllocError>
    ensures { IfOk result (λ copy. values_of copy ≡ values_of values.now) }
{
    match values {
        SortValues::Listed(names) => Ok(SortValues::Listed(copy_names(alloc, names)?)),
        SortValues::Range { low, high } => Ok(SortValues::Range {
            low: *low,
            high: *high,
        }),
    }
}

fn copy_sorts(alloc: Global, sorts: &[SortDecl]) -> Result<Vec<SortDecl>, AllocError>
    ensures { IfOk result (λ copies. map sort_of copies.items ≡ map sort_of sorts.now) }
{
    let mut copies = Vec::new(alloc);
    for sort in sorts {
        let name = sort.name.clone()?;
        let values = copy_values(alloc, &sort.values)?;
        copies.push(SortDecl { name, values })?;
    }
    Ok(copies)
}

fn copy_tables(alloc: Global, tables: &[TableDecl]) -> Result<Vec<TableDecl>, AllocError>
    ensures { IfOk result (λ copies. map table_of copies.items ≡ map table_of tables.now) }
{
    let mut copies = Vec::new(alloc);
    for table in tables {
        let name = table.name.clone()?;
        let sorts = Vec::from_slice(alloc, &table.sorts)?;
        let rows = table.rows.copy(alloc)?;
        copies.push(TableDecl { name, sorts, rows })?;
    }
    Ok(copies)
}

fn copy_families(alloc: Global, families: &[FamilyDecl]) -> Result<Vec<FamilyDecl>, AllocError>
    ensures { IfOk result (λ copies. map counted_of copies.items ≡ map counted_of families.now) }
{
    let mut copies = Vec::new(alloc);
    for family in families {
        let name = family.name.clone()?;
        let sorts = Vec::from_slice(alloc, &family.sorts)?;
        copies.push(FamilyDecl {
            name,
            sorts,
            result_sort: family.result_sort,
            first: family.first,
            cells: family.cells,
        })?;
    }
    Ok(copies)
}

/// The same declarations.
pub(crate) fn copy_scheme(alloc: Global, scheme: &Scheme) -> Result<Scheme, AllocError>
    requires { AreCounted (universe_of scheme.now) 0 scheme.now.families.items scheme.now.cells }
    ensures universe { IfOk result (λ copy. universe_of copy ≡ universe_of scheme.now) }
    ensures counted { IfOk result (λ copy. AreCounted (universe_of scheme.now) 0 copy.families.items
        copy.cells) }
{
    let sorts = copy_sorts(alloc, &scheme.sorts)?;
    let tables = copy_tables(alloc, &scheme.tables)?;
    let families = copy_families(alloc, &scheme.families)?;
    Ok(Scheme {
        sorts,
        tables,
        families,
        cells: scheme.cells,
    })
}

/// The same rules.
pub(crate) fn copy_rules(alloc: Global, rules: &[Rule]) -> Result<Vec<Rule>, AllocError>
    ensures { IfOk result (λ copies. map rule_of copies.items ≡ map rule_of rules.now) }
{
    let mut copies = Vec::new(alloc);
    for rule in rules {
        let name = rule.name.clone()?;
        let formula = copy_formula(alloc, &rule.formula)?;
        copies.push(Rule { name, formula })?;
    }
    Ok(copies)
}
