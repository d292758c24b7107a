//! The rows of a table.
ghost use Rattle.std.specs.Prelude.{◌≡◌, [], IfOk, OnErr, OnOk, map};
ghost use Rattle.std.specs.List.{list_any};
ghost use Rattle.pc_sheet.specs.Readings.{is_same_row};
ghost use Rattle.pc_books.specs.Edits.{rows_with};
ghost use Rattle.pc_books.specs.RowView.{row_of};

use indexmap::IndexSet;
use pc_sheet::ValueId;
use std::alloc::{AllocError, Global};
use std::marker::Model;

/// Rows in the order in which they were added, each once. They are found by hashing. A clause sees them as a list.
#[derive(Drop)]
pub struct Rows {
    rows: IndexSet<Vec<ValueId>>,
}

impl Model for Rows {
    ghost use Rattle.std.specs.Prelude.{List, map};
    ghost use Rattle.pc_sheet.specs.WellFormed.{AreDifferent};
    ghost use Rattle.pc_sheet.specs.declared.ids.ValueId.{ValueId};
    ghost use Rattle.pc_books.specs.RowView.{row_of};

    ghost Value = { List (List ValueId) };

    ghost view = { λ r. map row_of r.rows.keys };

    ghost invariant = { λ r. AreDifferent (map row_of r.rows.keys) };
}

impl Rows {
    pub fn new(alloc: Global) -> Self
        ensures { result ≡ [] }
    {
        Rows {
            rows: IndexSet::new(alloc),
        }
    }

    pub fn as_slice(&self) -> &[Vec<ValueId>]
        ensures { map row_of result.now ≡ self.now }
    {
        self.rows.as_slice()
    }

    /// Whether that row stands.
    pub fn contains(&self, row: &[ValueId]) -> bool
        ensures { result ≡ list_any (λ r. is_same_row r row.now) self.now }
    {
        self.rows.contains(row)
    }

    /// Adds a row as the last one, if it doesn't stand already.
    pub fn add(&mut self, alloc: Global, row: &[ValueId]) -> Result<(), AllocError>
        ensures ok { OnOk result (self.new ≡ rows_with self.old row.now) }
        ensures err { OnErr result (self.new ≡ self.old) }
    {
        if self.contains(row) {
            return Ok(());
        }
        let row = Vec::from_slice(alloc, row)?;
        self.rows.insert(row)?;
        Ok(())
    }

    /// The same rows.
    pub fn copy(&self, alloc: Global) -> Result<Rows, AllocError>
        ensures { IfOk result (λ copy. copy ≡ self.now) }
    {
        let mut copy = Rows::new(alloc);
        for row in self.rows.as_slice() {
            copy.add(alloc, row)?;
        }
        Ok(copy)
    }
}
