//! Laws: the canonical text of what a book holds reads back as that, and its declarations give the book.
#![tactic(auto)]

mod law;

pub use law::{
    declarations_give_the_sheet, entries_are_declared, rule_lines_read_back, rules_are_declared,
    sheets_read_back, statements_read_back, statements_stand_for_themselves, texts_read_back,
    universe_is_declared,
};
