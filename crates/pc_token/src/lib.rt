//! The tokens of a line of a sheet, a command or a certificate.
#![tactic(auto)]

mod law;
mod line;
mod name;
mod sign;
mod token;

pub use law::one_reading;
pub use line::{is_blank_line, is_comment, is_one_name};
pub use token::{Kind, Token, TokenFault, tokens};
