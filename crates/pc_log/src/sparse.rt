//! Lines at the places that they have in one log, with gaps where nothing kept rests on the line.
//!
//! Derivations that are taken from the same log share their lines here. Each line stands once, at its own place, so that its
//! hints stay as they are, and a derivation is the list of its lines' places (`Derivation`).

ghost use Rattle.std.specs.Prelude.{◌≡◌, ◌≢◌, ◌↔◌, ℕ, ◌+◌, ◌<◌, ◌≤◌, [], All, Contains, IfOk, IsTrue, None, OnErr, OnOk, Some, length, map, option_map, set};
ghost use Rattle.pc_log.specs.Lines.{AxiomLine, BlockLine, StepLine};
ghost use Rattle.pc_log.specs.Shown.{shown_line};
ghost use Rattle.pc_log.specs.Sizes.{bytes_of, line_bytes};
ghost use Rattle.pc_log.specs.Sparse.{bytes_there, line_at, line_in, line_there, AddsOnly, CanStand, IsThere, Keeps, LinesStand, MayStand};
ghost use Rattle.pc_log.specs.inside.Parts.{line_with, IsFitted};
ghost use Rattle.pc_log.specs.inside.Spots.{AddsSpot};

use crate::further::{Further, Kind};
use crate::log::{Line, Log, StepId};
use pc_lits::Lit;
use std::alloc::{AllocError, Global};
use std::marker::Model;

// What stands at a place: nothing, the axiom of this number, or the further line of this number.
#[derive(Clone, Copy)]
enum Spot {
    Gap,
    Axiom(u32),
    Further(u32),
}

/// A list of lines with gaps, with the bytes that the lines count for.
#[derive(Drop)]
pub struct SparseLog {
    spots: Vec<Spot>,
    further: Further,
    bytes: u64,
}

impl Model for SparseLog {
    ghost use Rattle.std.specs.Prelude.{List, Option};
    ghost use Rattle.pc_log.specs.Lines.{LogLine};
    ghost use Rattle.pc_log.specs.inside.Spots.{spotted, AreSpots};

    ghost Value = { List (Option LogLine) };

    ghost view = { λ s. spotted s.further s.spots.items };

    ghost invariant = { λ s. AreSpots s.further s.spots.items s.bytes };
}

impl SparseLog {
    /// No line. It takes no memory.
    pub fn new(alloc: Global) -> SparseLog
        ensures { result ≡ [] }
    {
        SparseLog {
            spots: Vec::new(alloc),
            further: Further::new(alloc),
            bytes: 0,
        }
    }

    /// The number of places.
    pub fn len(&self) -> usize
        ensures { result ≡ length self.now }
    {
        self.spots.len()
    }

    /// How many bytes the lines count for: 16, and 4 for each literal and 8 for each hint that the line holds.
    pub fn bytes(&self) -> u64
        ensures { result ≡ bytes_there self.now }
    {
        self.bytes
    }

    /// The line at this place, or none where there is a gap, and behind the last line.
    pub fn line(&self, place: usize) -> Option<Line<'_>>
        ensures { option_map shown_line result ≡ line_there self.now place }
    {
        if place >= self.spots.len() {
            return None;
        }
        match self.spots[place] {
            Spot::Gap => None,
            Spot::Axiom(number) => Some(Line::Axiom(number)),
            Spot::Further(number) => Some(self.further.line(number as usize)),
        }
    }

    // The line at this place, where one stands.
    fn standing(&self, place: usize) -> Line<'_>
        requires { IsThere self.now place }
        ensures { line_there self.now place ≡ Some (shown_line result) }
    {
        match self.line(place) {
            None => Line::Axiom(0),
            Some(line) => line,
        }
    }

    /// Whether each of these places is free or has the log's line.
    pub fn agrees(&self, log: &Log, places: &[u32]) -> bool
        requires { All (λ p. p < length log.now) places.now }
        ensures { IsTrue result ↔ MayStand (line_at log.now) places.now self.now }
    {
        for place in places {
            if !self.can_have(*place as usize, log.line(StepId(*place))) {
                return false;
            }
        }
        true
    }

    /// Puts the log's lines at these places, where they don't stand yet. Without memory some of them may have been put.
    pub fn take(&mut self, log: &Log, places: &[u32]) -> Result<(), AllocError>
        requires within { All (λ p. p < length log.now) places.now }
        requires free { MayStand (line_at log.now) places.now self.old }
        ensures stand { OnOk result (LinesStand (line_at log.now) places.now self.new) }
        ensures keeps { Keeps self.old self.new }
        ensures only { AddsOnly (line_at log.now) places.now self.old self.new }
        ensures bytes { OnOk result (bytes_there self.new ≤ bytes_there self.old +
            bytes_of (map (line_at log.now) places.now)) }
    {
        self.widen(log.len())?;
        for place in places {
            self.put(*place as usize, log.line(StepId(*place)))?;
        }
        Ok(())
    }

    /// Puts the lines of another list at these places, where they don't stand yet. Without memory some of them may have been
    /// put.
    pub fn take_back(&mut self, from: &SparseLog, places: &[u32]) -> Result<(), AllocError>
        requires there { (i : ℕ) → Contains places.now i → IsThere from.now i }
        requires part { Keeps self.old from.now }
        ensures stand { OnOk result (LinesStand (line_in from.now) places.now self.new) }
        ensures keeps { Keeps self.old self.new }
        ensures part { OnOk result (Keeps self.new from.now) }
        ensures only { AddsOnly (line_in from.now) places.now self.old self.new }
        ensures bytes { OnOk result (bytes_there self.new ≤ bytes_there self.old +
            bytes_of (map (line_in from.now) places.now)) }
    {
        self.widen(from.len())?;
        for place in places {
            let place = *place as usize;
            self.put(place, from.standing(place))?;
        }
        Ok(())
    }

    // Whether this place is free or has this line.
    fn can_have(&self, place: usize, line: Line<'_>) -> bool
        ensures { IsTrue result ↔ CanStand (shown_line line.entry) place self.now }
    {
        match self.line(place) {
            None => true,
            Some(there) => is_same_line(there, line),
        }
    }

    // Sees to it that there are so many places.
    fn widen(&mut self, count: usize) -> Result<(), AllocError>
        ensures wide { OnOk result (count ≤ length self.new) }
        ensures same { (i : ℕ) → line_there self.new i ≡ line_there self.old i }
        ensures bytes { bytes_there self.new ≡ bytes_there self.old }
    {
        if self.spots.len() < count {
            self.spots.resize(count, Spot::Gap)?;
        }
        Ok(())
    }

    // Puts a line at a place, if it doesn't stand there yet.
    fn put(&mut self, place: usize, line: Line<'_>) -> Result<(), AllocError>
        requires within { place < length self.old }
        requires free { CanStand (shown_line line) place self.old }
        ensures stands { OnOk result (line_there self.new place ≡ Some (shown_line line.entry)) }
        ensures others { (i : ℕ) → i ≢ place → line_there self.new i ≡ line_there self.old i }
        ensures keeps { Keeps self.old self.new }
        ensures length { length self.new ≡ length self.old }
        ensures bytes { bytes_there self.new ≤ bytes_there self.old +
            line_bytes (shown_line line.entry) }
        ensures err { OnErr result (self.new ≡ self.old) }
    {
        match self.line(place) {
            None => self.fill(place, line),
            Some(_) => Ok(()),
        }
    }

    // Puts a line into a gap.
    fn fill(&mut self, place: usize, line: Line<'_>) -> Result<(), AllocError>
        requires within { place < length self.old }
        requires gap { line_there self.old place ≡ None }
        ensures ok { OnOk result (self.new ≡ set self.old place (Some (shown_line line.entry))) }
        ensures err { OnErr result (self.new ≡ self.old) }
    {
        let bytes = total_of(self.bytes, line)?;
        let spot = add(line, &mut self.further)?;
        self.spots[place] = spot;
        self.bytes = bytes;
        Ok(())
    }
}

// Adds a line, if it is no axiom, as the last further one, and answers what is to stand in its place.
fn add(line: Line<'_>, further: &mut Further) -> Result<Spot, AllocError>
    ensures ok { IfOk result (λ spot. AddsSpot (shown_line line.entry) further.old further.new
        spot) }
    ensures err { OnErr result (further.new ≡ further.old) }
{
    match line {
        Line::Axiom(number) => Ok(Spot::Axiom(number)),
        Line::Block { number, clause } => add_further(Kind::Block(number), clause, &[], further),
        Line::Step {
            clause,
            hints,
            learned,
        } => add_further(Kind::Step(learned), clause, hints, further),
    }
}

// Adds a further line as the last one.
fn add_further(
    kind: Kind,
    clause: &[Lit],
    hints: &[StepId],
    further: &mut Further,
) -> Result<Spot, AllocError>
    requires { IsFitted kind clause.now hints.now }
    ensures ok { IfOk result (λ spot. AddsSpot (line_with kind clause.now hints.now) further.old
        further.new spot) }
    ensures err { OnErr result (further.new ≡ further.old) }
{
    let number = match u32::try_from(further.len()) {
        Ok(number) => number,
        Err(_) => return Err(AllocError),
    };
    further.add(kind, clause, hints)?;
    Ok(Spot::Further(number))
}

// How many bytes these and a line count for.
fn total_of(bytes: u64, line: Line<'_>) -> Result<u64, AllocError>
    ensures { IfOk result (λ total. total ≡ bytes + line_bytes (shown_line line.entry)) }
{
    let size = match line {
        Line::Axiom(_) => 16,
        Line::Block { clause, .. } => 16 + 4 * clause.len() as u128,
        Line::Step { clause, hints, .. } => 16 + 4 * clause.len() as u128 + 8 * hints.len() as u128,
    };
    match u64::try_from(u128::from(bytes) + size) {
        Ok(total) => Ok(total),
        Err(_) => Err(AllocError),
    }
}

// Whether two lines are the same.
fn is_same_line(one: Line<'_>, other: Line<'_>) -> bool
    ensures { IsTrue result ↔ shown_line one.entry ≡ shown_line other.entry }
{
    match one {
        Line::Axiom(number) => is_axiom(number, other),
        Line::Block { number, clause } => is_block(number, clause, other),
        Line::Step {
            clause,
            hints,
            learned,
        } => is_step(clause, hints, learned, other),
    }
}

fn is_axiom(number: u32, line: Line<'_>) -> bool
    ensures { IsTrue result ↔ AxiomLine number ≡ shown_line line.entry }
{
    match line {
        Line::Axiom(other) => number == other,
        Line::Block { .. } => false,
        Line::Step { .. } => false,
    }
}

fn is_block(number: usize, clause: &[Lit], line: Line<'_>) -> bool
    ensures { IsTrue result ↔ BlockLine number clause.now ≡ shown_line line.entry }
{
    match line {
        Line::Axiom(_) => false,
        Line::Block {
            number: other,
            clause: literals,
        } => number == other && is_same_clause(clause, literals),
        Line::Step { .. } => false,
    }
}

fn is_step(clause: &[Lit], hints: &[StepId], learned: bool, line: Line<'_>) -> bool
    ensures { IsTrue result ↔ StepLine clause.now hints.now learned ≡ shown_line line.entry }
{
    match line {
        Line::Axiom(_) => false,
        Line::Block { .. } => false,
        Line::Step {
            clause: literals,
            hints: places,
            learned: other,
        } => learned == other && is_same_clause(clause, literals) && are_same_hints(hints, places),
    }
}

fn is_same_clause(one: &[Lit], other: &[Lit]) -> bool
    ensures { IsTrue result ↔ one.now ≡ other.now }
{
    one == other
}

fn are_same_hints(one: &[StepId], other: &[StepId]) -> bool
    ensures { IsTrue result ↔ one.now ≡ other.now }
{
    one == other
}
