//! Names, and the signs that trees and formulas share.
#![tactic(auto)]

mod name;
mod sign;

pub use name::{Name, continues_name, is_name, is_reserved, starts_name};
pub use sign::{Op, Sign};
