//! A book with its clauses and parts.
use pc_books::{Assignment, Book};
use pc_components::Components;
use pc_ground::Ground;
use std::alloc::Global;

/// A book with its clauses and parts, each part with the axioms that searches take, and how many literals may be placed for all
/// of them.
#[derive(Clone, Copy)]
pub(crate) struct BookTask<'g> {
    pub(crate) alloc: Global,
    pub(crate) book: &'g Book,
    pub(crate) ground: &'g Ground,
    pub(crate) components: &'g Components,
    pub(crate) budget: u64,
}

/// The same with an assignment that fits the book.
#[derive(Clone, Copy)]
pub(crate) struct Fitted<'g> {
    pub(crate) task: BookTask<'g>,
    pub(crate) base: &'g Assignment,
}
