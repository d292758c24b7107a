//! Clauses, and for each literal the places of clauses that watch it.
//!
//! A clause of two or more literals watches with the first two of them, in the order in which its literals stand: its places
//! are 2n and 2n + 1. Such a place stands in the list of its literal. As another literal comes to be watched, the two change
//! their places in the clause, and the watch goes to the other list, which has room: each list was promised room for each
//! literal of each clause.

ghost use Rattle.std.specs.Prelude.{◌≡◌, ◌+◌, ◌*◌, ◌/◌, ◌%◌, ◌^◌, ◌<◌, ◌≤◌, ℕ, List, [], ◌∷◌, ◌++◌, Contains, length, replicate, slice_set, slice_get, slice_index_or, swap, swap_remove, IfOk, OnOk, OnErr, Some};
ghost use Rattle.pc_propagate.specs.Bodies.{body_in};
ghost use Rattle.pc_propagate.specs.Lists.{room_in};
ghost use Rattle.pc_propagate.specs.Listed.{code_of, watchers, literal_of, occurrences, IsKnown, HasPlace, IsShifted, IsAdded, AreListedIn, HaveGone};

use crate::bodies::Bodies;
use crate::watch_lists::{Watch, WatchLists};
use pc_lits::Lit;
use std::alloc::{AllocError, Global};
use std::marker::Model;

// How many clauses there are at most: the numbers of their places fit into half a word.
const MOST: usize = 0x7fff_ffff;

/// Clauses and their watches.
#[derive(Drop)]
pub struct Watched {
    bodies: Bodies,
    lists: WatchLists,
}

impl Model for Watched {
    ghost use Rattle.pc_propagate.specs.Listed.{WatchedView, AreListed};

    ghost Value = { WatchedView };

    ghost view = { λ w. record { bodies = w.bodies; lists = w.lists.lists } };

    ghost invariant = { λ w. AreListed w.bodies w.lists };
}

/// The number of the literal's list.
pub fn code_of(lit: Lit) -> usize
    ensures is { result ≡ code_of lit }
    ensures small { result < 2 ^ 33 }
{
    let sign = if lit.sign { 1 } else { 0 };
    2 * lit.variable.0 as usize + sign
}

impl Watched {
    /// No clauses, over so many variables.
    pub fn new(alloc: Global, variables: u32) -> Result<Watched, AllocError>
        ensures { IfOk result (λ w. w ≡ record {
          bodies = [];
          lists = replicate (2 * variables) [];
        }) }
    {
        let lists = WatchLists::new(alloc, 2 * variables as usize)?;
        Ok(Watched {
            bodies: Bodies::new(alloc),
            lists,
        })
    }

    /// How many clauses there are.
    pub fn len(&self) -> usize
        ensures { result ≡ length self.now.bodies }
    {
        self.bodies.len()
    }

    /// The clause of this number, as its literals stand.
    pub fn get(&self, number: usize) -> &[Lit]
        requires { number < length self.now.bodies }
        ensures { result.now ≡ body_in self.now.bodies number }
    {
        self.bodies.get(number)
    }

    /// How many places watch the literal.
    pub fn count(&self, lit: Lit) -> usize
        requires { code_of lit < length self.now.lists }
        ensures { result ≡ length (watchers self.now lit) }
    {
        self.lists.len(code_of(lit))
    }

    /// One of the watches of the literal.
    pub fn at(&self, lit: Lit, index: usize) -> Watch
        requires list { code_of lit < length self.now.lists }
        requires index { index < length (watchers self.now lit) }
        ensures is { slice_get (watchers self.now lit) index ≡ Some result }
        ensures known { IsKnown self.now.bodies (code_of lit) result }
        ensures number { result.place / 2 < length self.now.bodies }
        ensures long { 2 ≤ length (body_in self.now.bodies (result.place / 2)) }
    {
        self.lists.at(code_of(lit), index)
    }

    /// Recalls that each literal of a clause has a list, and that the first two of each clause of two or more watch.
    pub fn recall(&self)
        ensures in_range { (n : ℕ) (l : Lit) → Contains (body_in self.now.bodies n) l →
            code_of l < length self.now.lists }
        ensures listed { (place : ℕ) → place / 2 < length self.now.bodies →
            2 ≤ length (body_in self.now.bodies (place / 2)) →
            HasPlace (slice_index_or self.now.lists (code_of (literal_of self.now.bodies place)) [])
            place }
    {
        let _count = self.bodies.len();
    }

    /// Adds a clause as the last one. The literals at these places come to stand first, where they watch; the second one is a
    /// place of the clause once the first has come to stand first. Without memory there are the clauses of before.
    pub fn add(&mut self, clause: &[Lit], first: usize, second: usize) -> Result<(), AllocError>
        requires in_range { AreListedIn (length self.old.lists) clause.now }
        requires first { 2 ≤ length clause.now → first < length clause.now }
        requires second { 2 ≤ length clause.now → second < length clause.now }
        ensures ok { OnOk result (IsAdded clause.now self.old self.new) }
        ensures front { OnOk result (2 ≤ length clause.now →
            body_in self.new.bodies (length self.old.bodies) ≡ swap (swap clause.now 0 first) 1
            second) }
        ensures err { OnErr result (self.new ≡ self.old) }
    {
        let number = self.bodies.len();
        if number >= MOST {
            return Err(AllocError);
        }
        promise_all(&mut self.lists, clause)?;
        self.bodies.push(clause)?;
        if clause.len() >= 2 {
            self.bodies.exchange(number, 0, first);
            self.bodies.exchange(number, 1, second);
            let one = self.bodies.at(number, 0);
            let two = self.bodies.at(number, 1);
            let place = 2 * number as u32;
            let first_watch = Watch {
                place,
                blocker: two,
            };
            let second_watch = Watch {
                place: place + 1,
                blocker: one,
            };
            self.lists.put(code_of(one), first_watch);
            self.lists.put(code_of(two), second_watch);
        }
        Ok(())
    }

    /// Gives the watch another blocker, which is a literal of its clause.
    pub fn block(&mut self, lit: Lit, index: usize, watch: Watch, blocker: Lit)
        requires list { code_of lit < length self.old.lists }
        requires is { slice_get (watchers self.old lit) index ≡ Some watch }
        requires blocker { Contains (body_in self.old.bodies (watch.place / 2)) blocker }
        ensures { self.new ≡ record self.old {
          lists = slice_set self.old.lists (code_of lit)
              (slice_set (watchers self.old lit) index (record {
                place = watch.place;
                blocker = blocker;
              }));
        } }
    {
        let blocked = Watch {
            place: watch.place,
            blocker,
        };
        self.lists.replace(code_of(lit), index, blocked);
    }

    /// Lets the place of the watch, whose literal this is, have another literal of its clause, which stands there, and go to
    /// the list of that one. It takes no memory.
    pub fn shift(&mut self, lit: Lit, index: usize, watch: Watch, other: usize, blocker: Lit)
        requires list { code_of lit < length self.old.lists }
        requires is { slice_get (watchers self.old lit) index ≡ Some watch }
        requires own { literal_of self.old.bodies watch.place ≡ lit }
        requires unwatched { 2 ≤ other }
        requires within { other < length (body_in self.old.bodies (watch.place / 2)) }
        requires blocker { Contains (body_in self.old.bodies (watch.place / 2)) blocker }
        ensures { IsShifted (code_of lit) index other watch blocker self.old self.new }
    {
        let _ = self.lists.take(code_of(lit), index);
        let number = watch.place as usize / 2;
        let own = watch.place as usize % 2;
        let next = self.bodies.at(number, other);
        self.bodies.exchange(number, own, other);
        let come = Watch {
            place: watch.place,
            blocker,
        };
        self.lists.put(code_of(next), come);
    }

    /// Forgets all clauses. It takes time by their literals, and not by the number of the lists, and the memory stays for
    /// later ones.
    pub fn clear(&mut self)
        ensures bodies { self.new.bodies ≡ [] }
        ensures lists { length self.new.lists ≡ length self.old.lists }
    {
        for number in 0..self.bodies.len() {
            forget_all(&mut self.lists, self.bodies.get(number));
        }
        self.bodies.clear();
    }
}

// Promises room for each literal of the clause.
fn promise_all(lists: &mut WatchLists, clause: &[Lit]) -> Result<(), AllocError>
    requires in_range { AreListedIn (length lists.old.lists) clause.now }
    requires size { length lists.old.room ≡ length lists.old.lists }
    ensures same { lists.new.lists ≡ lists.old.lists }
    ensures size { length lists.new.room ≡ length lists.old.room }
    ensures room { (d : ℕ) → d < length lists.old.lists →
        room_in lists.old d ≤ room_in lists.new d }
    ensures ok { OnOk result ((d : ℕ) → d < length lists.old.lists →
        room_in lists.old d + occurrences d clause.now ≤ room_in lists.new d) }
{
    for lit in clause {
        lists.promise(code_of(*lit))?;
    }
    Ok(())
}

// Empties the list of each literal of the clause.
fn forget_all(lists: &mut WatchLists, clause: &[Lit])
    requires in_range { AreListedIn (length lists.old.lists) clause.now }
    ensures gone { HaveGone clause.now lists.old lists.new }
{
    for lit in clause {
        lists.forget(code_of(*lit));
    }
}
