//! What a session keeps.

use crate::chosen::Chosen;
use pc_books::Book;
use pc_cache::Cache;
use pc_lits::Tally;
use pc_solver::SpareTrails;
use pc_theory::Theory;
use pc_world_list::Worlds;

/// A book with what is known of it: of its rules, the worlds of each part, which parts have entries, and the reasons, with
/// what was spent last.
#[derive(Drop)]
pub(crate) struct State {
    pub(crate) book: Book,
    pub(crate) theory: Theory,
    pub(crate) worlds: Vec<Worlds>,
    pub(crate) chosen: Chosen,
    pub(crate) cache: Cache,
    pub(crate) tally: Tally,
    /// Trails of earlier edits, which serve the next one.
    pub(crate) trails: SpareTrails,
}
