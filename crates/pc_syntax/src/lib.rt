//! The trees of the lines of a sheet and of commands, and the readers that make them.
#![tactic(auto)]

mod clause;
mod command;
mod declaration;
mod fault;
mod law;
mod line;
mod read;
mod sheet;
mod tree;

pub use command::parse_command;
pub use law::one_reading;
pub use pc_formula::{CellTree, FormulaTree, ItemTree, Name, Op, SideTree, Sign, ValueTree};
pub use sheet::parse_sheet;
pub use tree::{Command, CommandFault, Declaration, RuleTree, SheetFault, SheetTree};
