//! Formulas, cells and values as trees, the words of a line, and the readers that make trees of words.
#![tactic(auto)]

mod counted;
mod equation;
mod formula;
mod items;
mod law;
mod quantifier;
mod refusal;
mod tree;
mod values;
mod words;

pub use counted::has_count;
pub use equation::{read_end, read_equation, read_last_cell, read_last_value, read_question};
pub use formula::read_formula;
pub use law::{one_formula, one_value};
pub use pc_name::{Name, Op, Sign};
pub use quantifier::Quantifier;
pub use refusal::Refusal;
pub use tree::{CellTree, FormulaTree, ItemTree, SideTree, ValueTree};
pub use values::{
    read_cell, read_integer, read_name_arguments, read_names, read_number, read_value, read_values,
};
pub use words::{Words, has_short_names};
