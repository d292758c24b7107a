//! A table from names to what they name.
ghost use Rattle.std.specs.Prelude.{◌≡◌, ◌++◌, ◌∷◌, ◌≤◌, ℕ, [], List, OnOk, OnErr, IfOk, length};
ghost use Rattle.std.specs.List.{IsDistinct};
ghost use Rattle.std.specs.Map.{lookup, keys_of};
ghost use Rattle.std.specs.Str.{bytes_eq};
ghost use Rattle.pc_sheet.specs.Limits.{most_values};
ghost use Rattle.pc_books.specs.Named.{sort_keys};
ghost use Rattle.pc_books.specs.inside.NameTable.{named_texts};
ghost use Rattle.pc_books.specs.declared.names.Named.{Named};

use indexmap::IndexMap;
use pc_sheet::{FamilyId, Name, SortId, TableId, ValueId};
use std::alloc::{AllocError, Global};
use std::marker::Model;

/// What a declared name stands for.
#[derive(Clone, Copy, PartialEq, Eq)]
pub enum Named {
    Sort(SortId),
    Table(TableId),
    Family(FamilyId),
    Value(SortId, ValueId),
}

/// What each declared name stands for. A clause sees the declarations, oldest first.
#[derive(Drop)]
pub(crate) struct NameTable {
    names: IndexMap<String, Named>,
}

impl Model for NameTable {
    ghost Value = { List (List ℕ × Named) };

    ghost view = { λ t. named_texts t.names.entries };

    // each name once
    ghost invariant = { λ t. IsDistinct bytes_eq (keys_of (named_texts t.names.entries)) };
}

impl NameTable {
    pub(crate) fn new(alloc: Global) -> Self
        ensures { result ≡ [] }
    {
        NameTable {
            names: IndexMap::new(alloc),
        }
    }

    /// What the name stands for, if it is declared.
    pub(crate) fn look_up(&self, name: &str) -> Option<Named>
        ensures { result ≡ lookup (bytes_eq name.now) self.now }
    {
        self.names.get(name).copied()
    }

    /// Declares names, all or none of them.
    pub(crate) fn add_all(&mut self, more: Vec<(String, Named)>) -> Result<(), AllocError>
        requires { IsDistinct bytes_eq (keys_of (self.old ++ named_texts more.items)) }
        ensures ok { OnOk result (self.new ≡ self.old ++ named_texts more.items) }
        ensures err { OnErr result (self.new ≡ self.old) }
    {
        self.names.reserve(more.len())?;
        for (name, named) in more {
            self.names.insert(name, named).unwrap();
        }
        Ok(())
    }

    pub(crate) fn copy(&self) -> Result<NameTable, AllocError>
        ensures { IfOk result (λ copy. copy ≡ self.now) }
    {
        Ok(NameTable {
            names: self.names.clone()?,
        })
    }
}

/// A name with what it stands for.
pub(crate) fn key_of(
    alloc: Global,
    name: &Name,
    named: Named,
) -> Result<Vec<(String, Named)>, AllocError>
    ensures { IfOk result (λ keys. named_texts keys.items ≡ (name.now, named) ∷ []) }
{
    let mut keys = Vec::new(alloc);
    keys.push((String::from_str(alloc, name.as_str())?, named))?;
    Ok(keys)
}

/// The names of a listed sort and of its values, with what they stand for.
pub(crate) fn keys_of_list(
    alloc: Global,
    sort: SortId,
    name: &Name,
    values: &[Name],
) -> Result<Vec<(String, Named)>, AllocError>
    requires { length values.now ≤ most_values }
    ensures { IfOk result (λ keys. named_texts keys.items ≡ sort_keys sort name.now values.now) }
{
    let mut keys = key_of(alloc, name, Named::Sort(sort))?;
    for (i, value) in values.iter().enumerate() {
        let text = String::from_str(alloc, value.as_str())?;
        keys.push((text, Named::Value(sort, ValueId(i as u16))))?;
    }
    Ok(keys)
}
