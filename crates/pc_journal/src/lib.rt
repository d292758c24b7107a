//! The modes over journals of several authors: one merges a file's journal with the input's, the other answers the posts of the
//! input's journal as command lines, on a file's sheet.
#![tactic(auto)]

mod law;
mod merging;
mod posting;
mod taking;
mod told;

pub use law::{lines_are_worked, merges_ask_first};
pub use merging::merge_file;
pub use posting::post_file;
