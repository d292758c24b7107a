//! Books: what is declared, the rules and the entries of a sheet; and assignments to its cells.
#![tactic(auto)]

mod assignment;
mod book;
mod copies;
mod declarations;
mod entries;
mod laws;
mod names;
mod rows;
mod rule_list;
mod scheme;
mod shared_rules;
mod universe;

pub use assignment::{Assignment, has_entry, has_target};
pub use book::Book;
pub use copies::copy_names;
pub use laws::{few_cells, few_entries, well_formed};
pub use names::Named;
pub use pc_sheet::{
    CellId, Entry, FamilyId, Formula, Name, NodeKind, NodePath, Op, Rule, Side, Sign, SortId,
    TableId, Target, Term, ValueId,
};
pub use rows::Rows;
pub use rule_list::place_of_rule;
pub use scheme::{
    FamilyDecl, Scheme, SortDecl, SortValues, TableDecl, argument_sorts, first_cell, result_sort,
    size_at, size_of, values_of_cell,
};
