//! Numbered places in numbered linked lists. Each place is in one list, or in none.
//!
//! The lists are linked by the numbers of the places, so that moving a place from one list to another takes no memory. A place
//! comes in at the end and goes out at the beginning.

ghost use Rattle.std.specs.Prelude.{◌≡◌, ◌≢◌, ◌<◌, ℕ, List, Option, [], ◌∷◌, ◌++◌, length, IfOk, OnOk, OnErr, IfSome, IfNone, Some, None, slice_index_or, slice_set};
ghost use Rattle.pc_propagate.specs.inside.Links.{emptied, firsts_of, linked};
ghost use Rattle.pc_propagate.specs.inside.Lists.{ListsView, HaveMoved};

use crate::links::{Ends, NOWHERE, Place, link_to, linked};
use std::alloc::{AllocError, Global};
use std::marker::Model;

// How many lists or places there are at most: their numbers fit into links.
const MOST: usize = u32::MAX as usize;

/// Linked lists of places.
#[derive(Drop)]
pub(crate) struct Lists {
    ends: Vec<Ends>,
    places: Vec<Place>,
}

impl Model for Lists {
    ghost use Rattle.std.specs.Prelude.{length};
    ghost use Rattle.pc_propagate.specs.inside.Links.{lists_of};
    ghost use Rattle.pc_propagate.specs.inside.Lists.{ListsView, AreLinked};

    ghost Value = { ListsView };

    ghost view = { λ l. record { count = length l.ends.items; list_of = lists_of l.places.items } };

    ghost invariant = { λ l. AreLinked l.ends.items l.places.items };
}

impl Lists {
    /// So many lists, and no places. There are none where their numbers don't fit into links.
    pub(crate) fn new(alloc: Global, count: usize) -> Result<Lists, AllocError>
        ensures { IfOk result (λ l. l ≡ record { count = count; list_of = [] }) }
    {
        if count >= MOST {
            return Err(AllocError);
        }
        let blank = Ends {
            first: NOWHERE,
            last: 0,
        };
        let ends = vec![in alloc; blank; count]?;
        let places = Vec::new(alloc);
        Ok(Lists { ends, places })
    }

    /// How many places there are.
    pub(crate) fn count(&self) -> usize
        ensures { result ≡ length self.now.list_of }
    {
        self.places.len()
    }

    /// One more place, which is in no list. Without memory there is none.
    pub(crate) fn add(&mut self) -> Result<(), AllocError>
        ensures ok { OnOk result (self.new ≡ record self.old {
          list_of = self.old.list_of ++ None ∷
              [];
        }) }
        ensures err { OnErr result (self.new ≡ self.old) }
    {
        if self.places.len() >= MOST - 1 {
            return Err(AllocError);
        }
        let place = Place {
            next: NOWHERE,
            list: NOWHERE,
        };
        self.places.push(place)?;
        Ok(())
    }

    /// Forgets the last place, which is in no list.
    pub(crate) fn drop_last(&mut self)
        requires { (front : List (Option ℕ)) × (self.old.list_of ≡ front ++ None ∷ []) }
        ensures { (front : List (Option ℕ)) → self.old.list_of ≡ front ++ None ∷ [] →
            self.new ≡ record self.old { list_of = front } }
    {
        let _ = self.places.pop();
    }

    /// The list of the place.
    pub(crate) fn list_of(&self, place: usize) -> Option<usize>
        requires { place < length self.now.list_of }
        ensures is { result ≡ slice_index_or self.now.list_of place None }
        ensures below { IfSome result (λ list. list < self.now.count) }
    {
        linked(self.places[place].list)
    }

    /// Takes the first place out of the list, if there is one.
    pub(crate) fn take_first(&mut self, list: usize) -> Option<usize>
        requires { list < self.old.count }
        ensures within { IfSome result (λ place. place < length self.old.list_of) }
        ensures was { IfSome result (λ place. slice_index_or self.old.list_of place None ≡
            Some list) }
        ensures taken { IfSome result (λ place.
            self.new ≡ record self.old { list_of = slice_set self.old.list_of place None }) }
        ensures same { IfNone result (self.new ≡ self.old) }
        ensures none { IfNone result ((place : ℕ) → slice_index_or self.old.list_of place None ≢
            Some list) }
    {
        let ends = self.ends[list];
        let place = linked(ends.first)?;
        let at = self.places[place];
        self.ends[list] = Ends {
            first: at.next,
            last: ends.last,
        };
        self.places[place] = Place {
            next: at.next,
            list: NOWHERE,
        };
        Some(place)
    }

    /// Puts a place that is in no list at the end of this one.
    pub(crate) fn put(&mut self, place: usize, list: usize)
        requires list { list < self.old.count }
        requires within { place < length self.old.list_of }
        requires free { slice_index_or self.old.list_of place None ≡ None }
        ensures { self.new ≡
            record self.old { list_of = slice_set self.old.list_of place (Some list) } }
    {
        let ends = self.ends[list];
        self.places[place] = Place {
            next: NOWHERE,
            list: link_to(list),
        };
        if ends.first == NOWHERE {
            self.ends[list] = Ends {
                first: link_to(place),
                last: place as u32,
            };
        } else {
            let last = ends.last as usize;
            let at = self.places[last];
            self.places[last] = Place {
                next: link_to(place),
                list: at.list,
            };
            self.ends[list] = Ends {
                first: ends.first,
                last: place as u32,
            };
        }
    }

    /// Moves all places of a list to another one.
    pub(crate) fn move_all(&mut self, list: usize, other: usize)
        requires list { list < self.old.count }
        requires other { other < self.old.count }
        requires apart { list ≢ other }
        ensures { HaveMoved list other self.old self.new }
    {
        while let Some(place) = self.take_first(list) {
            self.put(place, other);
        }
    }

    /// Forgets all places. It takes time by their number, and not by that of the lists.
    pub(crate) fn clear(&mut self)
        ensures { self.new ≡ record self.old { list_of = [] } }
    {
        for place in 0..self.places.len() {
            empty(&mut self.ends, self.places[place].list);
        }
        self.places.clear();
    }
}

// Empties the list to which the link leads.
fn empty(ends: &mut Vec<Ends>, link: u32)
    ensures size { length ends.new.items ≡ length ends.old.items }
    ensures emptied { firsts_of ends.new.items ≡ emptied (linked link) (firsts_of ends.old.items) }
{
    if let Some(list) = linked(link) {
        if list < ends.len() {
            ends[list] = Ends {
                first: NOWHERE,
                last: 0,
            };
        }
    }
}
