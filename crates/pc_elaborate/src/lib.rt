//! From the trees of formulas, cells and values to what they stand for in a book, or to their first fault.
#![tactic(auto)]

mod atoms;
mod cells;
mod fault;
mod formula;
mod items;
mod law;
mod names;
mod reads;
mod scope;
mod sides;

pub use cells::{find_cell, find_sort_value, find_value, find_values};
pub use fault::SortFault;
pub use formula::check_formula;
pub use law::{trees_have_one_outcome, worked_faults};
pub use names::{
    family_named, find_family, find_sort, find_table, sort_named, table_named, value_named,
};
