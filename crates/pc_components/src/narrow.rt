//! Rows of numbers as rows of what they number.
ghost use Rattle.std.specs.Prelude.{◌≡◌, ◌<◌, ◌^◌, IfOk, map};
ghost use Rattle.pc_components.specs.View.{number_of, variable_number};
ghost use Rattle.pc_components.specs.inside.Within.{AreBelow, AreAllBelow};

use pc_lits::{Rows, Var};
use pc_sheet::CellId;
use std::alloc::{AllocError, Global};

fn cell_of(number: usize) -> CellId
    requires { number < 2 ^ 16 }
    ensures { result.0 ≡ number }
{
    CellId(number as u16)
}

pub(crate) fn rows_copied(alloc: Global, rows: &Rows<CellId>) -> Result<Rows<CellId>, AllocError>
    ensures { IfOk result (λ copy. copy ≡ rows.now) }
{
    let mut copy = Rows::new(alloc);
    for i in 0..rows.len() {
        copy.push(rows.get(i))?;
    }
    Ok(copy)
}

pub(crate) fn numbers_copied(alloc: Global, numbers: &[usize]) -> Result<Vec<usize>, AllocError>
    ensures { IfOk result (λ copy. copy.items ≡ numbers.now) }
{
    let mut copy = Vec::new(alloc);
    copy.extend_from_slice(numbers)?;
    Ok(copy)
}

fn axiom_of(number: usize) -> u32
    requires { number < 2 ^ 32 }
    ensures { result ≡ number }
{
    number as u32
}

fn variable_of(number: usize) -> Var
    requires { number < 2 ^ 32 }
    ensures { result.0 ≡ number }
{
    Var(number as u32)
}

pub(crate) fn cells_of(alloc: Global, row: &[usize]) -> Result<Vec<CellId>, AllocError>
    requires { AreBelow (2 ^ 16) row.now }
    ensures { IfOk result (λ cells. map number_of cells.items ≡ row.now) }
{
    let mut cells = Vec::new(alloc);
    for number in row {
        cells.push(cell_of(*number))?;
    }
    Ok(cells)
}

pub(crate) fn rows_of_cells(alloc: Global, rows: &Rows<usize>) -> Result<Rows<CellId>, AllocError>
    requires { AreAllBelow (2 ^ 16) rows.now }
    ensures { IfOk result (λ cells. map (map number_of) cells ≡ rows.now) }
{
    let mut cells = Rows::new(alloc);
    for i in 0..rows.len() {
        let row = cells_of(alloc, rows.get(i))?;
        cells.push(&row)?;
    }
    Ok(cells)
}

fn axioms_of(alloc: Global, row: &[usize]) -> Result<Vec<u32>, AllocError>
    requires { AreBelow (2 ^ 32) row.now }
    ensures { IfOk result (λ axioms. axioms.items ≡ row.now) }
{
    let mut axioms = Vec::new(alloc);
    for number in row {
        axioms.push(axiom_of(*number))?;
    }
    Ok(axioms)
}

pub(crate) fn rows_of_axioms(alloc: Global, rows: &Rows<usize>) -> Result<Rows<u32>, AllocError>
    requires { AreAllBelow (2 ^ 32) rows.now }
    ensures { IfOk result (λ axioms. axioms ≡ rows.now) }
{
    let mut axioms = Rows::new(alloc);
    for i in 0..rows.len() {
        let row = axioms_of(alloc, rows.get(i))?;
        axioms.push(&row)?;
    }
    Ok(axioms)
}

pub(crate) fn variables_of(alloc: Global, row: &[usize]) -> Result<Vec<Var>, AllocError>
    requires { AreBelow (2 ^ 32) row.now }
    ensures { IfOk result (λ variables. map variable_number variables.items ≡ row.now) }
{
    let mut variables = Vec::new(alloc);
    for number in row {
        variables.push(variable_of(*number))?;
    }
    Ok(variables)
}

pub(crate) fn rows_of_variables(alloc: Global, rows: &Rows<usize>) -> Result<Rows<Var>, AllocError>
    requires { AreAllBelow (2 ^ 32) rows.now }
    ensures { IfOk result (λ variables. map (map variable_number) variables ≡ rows.now) }
{
    let mut variables = Rows::new(alloc);
    for i in 0..rows.len() {
        let row = variables_of(alloc, rows.get(i))?;
        variables.push(&row)?;
    }
    Ok(variables)
}
