//! The clauses that a step rests on.

ghost use Rattle.std.specs.Prelude.{◌≡◌, ◌<◌, All, List, length, slice_get, Some};
ghost use Rattle.pc_lits.specs.declared.literal.Lit.{Lit};
ghost use Rattle.pc_lits.specs.Hints.{clauses_at};

use crate::{ClauseStore, Lit};

/// A list of clauses, wherever they stand: what the hints of a step name, in their order.
pub trait Hints {
    ghost clauses: { Self → List (List Lit) };

    /// The number of hints.
    fn count(&self) -> usize
        ensures { result ≡ length (clauses self.now) };

    /// The clause of the hint at this place.
    fn clause(&self, place: usize) -> &[Lit]
        requires { place < length (clauses self.now) }
        ensures { slice_get (clauses self.now) place ≡ Some result.now };
}

/// A store's clauses, each once and in order.
impl Hints for ClauseStore {
    ghost clauses = { λ store. store };

    fn count(&self) -> usize {
        self.len()
    }

    fn clause(&self, place: usize) -> &[Lit] {
        self.get(place)
    }
}

/// The clauses of a store at these places, in the order of the places.
#[derive(Clone, Copy)]
pub struct HintsAt<'a> {
    pub store: &'a ClauseStore,
    pub places: &'a [u64],
    ghost within: { All (λ place. place < length store.now) places.now },
}

impl Hints for HintsAt<'_> {
    ghost clauses = { λ hints. clauses_at hints.store.now hints.places.now };

    fn count(&self) -> usize {
        self.places.len()
    }

    fn clause(&self, place: usize) -> &[Lit] {
        self.store.get(self.places[place] as usize)
    }
}
