//! From trees to books: what declarations make of a sheet, or the first line that is at fault.
#![tactic(auto)]

mod cells;
mod entries;
mod fault;
mod law;
mod names;
mod rule;
mod sheet;
mod sorts;
mod tables;

pub use entries::{find_entry, find_further_entry, has_room_for_entry};
pub use fault::SheetSortFault;
pub use law::sheets_are_well_formed;
pub use pc_elaborate::{SortFault, find_cell, find_value};
pub use rule::check_rule;
pub use sheet::check_sheet;
