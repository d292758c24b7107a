//! What an analysis walks over.

ghost use Rattle.std.specs.Prelude.{◌≡◌, ◌<◌, ◌↔◌, IsTrue, length};
ghost use Rattle.pc_propagate.specs.Refs.{clause_at, IsRef};
ghost use Rattle.pc_analyze.specs.FirstPoint.{IsBannedAt};
ghost use Rattle.pc_analyze.specs.inside.Graph.{trail_of, IsBannedIn};

use pc_lits::{ClauseStore, Lit, Values};
use pc_propagate::{ClauseRef, Trail};

/// The implication graph of a trail: each entry with a reason follows from those that made the reason's other literals
/// false. The reasons are clauses of the two stores.
#[derive(Clone, Copy)]
pub(crate) struct ImplicationGraph<'a> {
    pub(crate) trail: &'a Trail,
    pub(crate) axioms: &'a ClauseStore,
    pub(crate) more: &'a ClauseStore,
}

impl<'a> ImplicationGraph<'a> {
    // The clause that the reference names.
    pub(crate) fn clause_of(&self, reference: ClauseRef) -> &'a [Lit]
        requires { IsRef self.now.axioms.now self.now.more.now reference }
        ensures { result.now ≡ clause_at self.now.axioms.now self.now.more.now reference }
    {
        reference.clause(self.axioms, self.more)
    }
}

/// The implication graph of a conflict, and the literals that no learned clause is to have, if there are any.
#[derive(Clone, Copy)]
pub(crate) struct ConflictGraph<'a> {
    pub(crate) graph: ImplicationGraph<'a>,
    pub(crate) banned: Option<&'a Values>,
}

impl<'a> ConflictGraph<'a> {
    // Whether what the entry at this place made false is banned.
    pub(crate) fn is_banned(&self, place: usize) -> bool
        requires { place < length (trail_of self.now) }
        ensures { IsTrue result ↔ IsBannedIn self.now place }
    {
        match self.banned {
            None => false,
            Some(values) => is_false_in(self.graph.trail, place, values),
        }
    }
}

// Whether what the entry at this place made false is true by these values.
fn is_false_in(trail: &Trail, place: usize, values: &Values) -> bool
    requires { place < length trail.now.entries }
    ensures { IsTrue result ↔ IsBannedAt values.now trail.now.entries place }
{
    let count = trail.len();
    prove!(place < count);
    let lit = trail.at(place).negated();
    if lit.variable.0 as usize >= values.len() {
        return false;
    }
    values.is_true(lit)
}
