//! Lists of watches, each in one piece of memory.
//!
//! A watch goes from list to list while propagation may take no memory. So room is promised beforehand: a list takes so many
//! watches as were promised to it, and as a watch leaves, it leaves room behind.

ghost use Rattle.std.specs.Prelude.{◌≡◌, ◌+◌, ◌<◌, [], ◌∷◌, ◌++◌, length, replicate, slice_set, slice_get, slice_index_or, swap_remove, IfOk, OnOk, OnErr, Some};
ghost use Rattle.pc_propagate.specs.Lists.{list_in, room_in};

use pc_lits::Lit;
use std::alloc::{AllocError, Global};
use std::marker::Model;

/// A place that watches a literal, and another literal of its clause: where that is true, the clause needs no look.
#[derive(Clone, Copy)]
pub struct Watch {
    pub place: u32,
    pub blocker: Lit,
}

/// Lists of watches, with room.
#[derive(Drop)]
pub struct WatchLists {
    lists: Vec<Vec<Watch>>,
    // How many watches each list may have.
    room: Vec<usize>,
}

impl Model for WatchLists {
    ghost use Rattle.std.specs.Prelude.{map};
    ghost use Rattle.pc_propagate.specs.Lists.{WatchListsView};
    ghost use Rattle.pc_propagate.specs.inside.Stored.{watches_of, HaveRoom};

    ghost Value = { WatchListsView };

    ghost view = { λ w. record { lists = map watches_of w.lists.items; room = w.room.items } };

    ghost invariant = { λ w. HaveRoom w.lists.items w.room.items };
}

impl WatchLists {
    /// So many empty lists, without room.
    pub fn new(alloc: Global, count: usize) -> Result<WatchLists, AllocError>
        ensures { IfOk result (λ w. w ≡ record {
          lists = replicate count [];
          room = replicate count 0;
        }) }
    {
        let mut lists = Vec::with_capacity(alloc, count)?;
        'lists: for _ in 0..count {
            lists.push(Vec::new(alloc))?;
        }
        let room = vec![in alloc; 0usize; count]?;
        Ok(WatchLists { lists, room })
    }

    /// How many watches the list has.
    pub fn len(&self, list: usize) -> usize
        requires { list < length self.now.lists }
        ensures { result ≡ length (list_in self.now list) }
    {
        self.lists[list].len()
    }

    /// The watch at this place of the list.
    pub fn at(&self, list: usize, index: usize) -> Watch
        requires list { list < length self.now.lists }
        requires index { index < length (list_in self.now list) }
        ensures { slice_get (list_in self.now list) index ≡ Some result }
    {
        self.lists[list][index]
    }

    /// Puts another watch in the place of this one.
    pub fn replace(&mut self, list: usize, index: usize, watch: Watch)
        requires list { list < length self.old.lists }
        requires index { index < length (list_in self.old list) }
        ensures { self.new ≡
            record self.old {
              lists = slice_set self.old.lists list
                  (slice_set (list_in self.old list) index watch);
            } }
    {
        self.lists[list][index] = watch;
    }

    /// Takes the watch out of the list. The last one takes its place.
    pub fn take(&mut self, list: usize, index: usize) -> Watch
        requires list { list < length self.old.lists }
        requires index { index < length (list_in self.old list) }
        ensures was { slice_get (list_in self.old list) index ≡ Some result }
        ensures taken { self.new ≡
            record self.old {
              lists = slice_set self.old.lists list
                  (swap_remove (list_in self.old list) index result);
            } }
    {
        self.lists[list].swap_remove(index)
    }

    /// Puts the watch at the end of a list that has room. It takes no memory.
    pub fn put(&mut self, list: usize, watch: Watch)
        requires list { list < length self.old.lists }
        requires room { length (list_in self.old list) < room_in self.old list }
        ensures { self.new ≡
            record self.old {
              lists = slice_set self.old.lists list (list_in self.old list ++
                  watch ∷ []);
            } }
    {
        let _ = self.lists[list].push(watch);
    }

    /// Promises room for one watch more. Without memory there is as much as before.
    pub fn promise(&mut self, list: usize) -> Result<(), AllocError>
        requires { list < length self.old.lists }
        ensures ok { OnOk result
            (self.new ≡
            record self.old { room = slice_set self.old.room list (room_in self.old list + 1) }) }
        ensures err { OnErr result (self.new ≡ self.old) }
    {
        let room = self.room[list];
        let len = self.lists[list].len();
        if room == usize::MAX {
            return Err(AllocError);
        }
        self.lists[list].reserve(room + 1 - len)?;
        self.room[list] = room + 1;
        Ok(())
    }

    /// Empties the list, and takes its promises back. The memory stays for later ones.
    pub fn forget(&mut self, list: usize)
        requires { list < length self.old.lists }
        ensures { self.new ≡ record {
          lists = slice_set self.old.lists list [];
          room = slice_set self.old.room list 0;
        } }
    {
        self.lists[list].clear();
        self.room[list] = 0;
    }
}
