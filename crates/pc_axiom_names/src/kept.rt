//! How names are kept: a path once for all names of its node that come one after another, reads in rows, and a name by
//! its places among both.
ghost use Rattle.std.specs.Prelude.{◌≡◌, ◌+◌, ◌≤◌, ◌∷◌, ◌++◌, [], IfOk, IfSome, IsTrue, OnErr, OnOk, length, map, take};
ghost use Rattle.std.specs.List.{AllByRecursion};
ghost use Rattle.pc_axiom_names.specs.Keeping.{ArePaths, AreRising, IsPathAt, IsStandsWithin, IsKeptLast, IsKeptWithin};
ghost use Rattle.pc_axiom_names.specs.Keeping.{axiom_in, kept_paths, kept_rows, paths_of, symbol_in};
ghost use Rattle.pc_axiom_names.specs.Shown.{axiom_shown, symbol_shown};

use crate::axiom_name::AxiomRef;
use crate::names::VarName;
use pc_lits::Rows;
use pc_sheet::{CellId, Entry, NodePath, ValueId};
use std::alloc::{AllocError, Global};

/// What a variable stands for: a pair, or the node whose path is at this place.
#[derive(Clone, Copy)]
pub(crate) enum Stands {
    Pair(CellId, ValueId),
    Node(u32),
}

/// An axiom's name. A node's has its path's place, and then its number or the place of its reads.
#[derive(Clone, Copy)]
pub(crate) enum KeptName {
    Any(CellId),
    One(CellId, ValueId, ValueId),
    Rule(u32),
    Node(u32, u32),
    Atom(u32, u32),
}

/// The place after so many others. There is none from 2^32 on, and the answer is want of memory.
fn next_place(len: usize) -> Result<u32, AllocError>
    ensures { IfOk result (λ place. place ≡ len) }
{
    match u32::try_from(len) {
        Ok(place) => Ok(place),
        Err(_) => Err(AllocError),
    }
}

/// Whether two paths lead to the same node.
fn is_same(left: &NodePath, right: &NodePath) -> bool
    ensures rule { IsTrue result → left.now.rule ≡ right.now.rule }
    ensures steps { IsTrue result → left.now.steps.items ≡ right.now.steps.items }
{
    left.rule == right.rule && left.steps.as_slice() == right.steps.as_slice()
}

/// The last place, if that path is there.
fn last_place(paths: &[NodePath], path: &NodePath) -> Option<u32>
    ensures here { IfSome result (λ place. IsPathAt paths.now place path.now.rule
        path.now.steps.items) }
    ensures last { IfSome result (λ place. length paths.now ≡ place + 1) }
{
    let last = paths.last()?;
    if is_same(last, path) {
        u32::try_from(paths.len() - 1).ok()
    } else {
        None
    }
}

/// Keeps a path at a place of its own.
fn add_path(paths: &mut Vec<NodePath>, path: NodePath) -> Result<u32, AllocError>
    ensures kept { take (length paths.old.items) paths.new.items ≡ paths.old.items }
    ensures here { IfOk result (λ place. IsPathAt paths.new.items place path.rule
        path.steps.items) }
    ensures last { IfOk result (λ place. length paths.old.items ≤ place + 1) }
{
    let place = next_place(paths.len())?;
    paths.push(path)?;
    Ok(place)
}

/// The place of a path that is given away: the last one, if it is there.
pub(crate) fn place_of(paths: &mut Vec<NodePath>, path: NodePath) -> Result<u32, AllocError>
    ensures kept { take (length paths.old.items) paths.new.items ≡ paths.old.items }
    ensures here { IfOk result (λ place. IsPathAt paths.new.items place path.rule
        path.steps.items) }
    ensures last { IfOk result (λ place. length paths.old.items ≤ place + 1) }
{
    match last_place(paths, &path) {
        Some(place) => Ok(place),
        None => add_path(paths, path),
    }
}

/// The place of a path: the last one, if it is there, or that of a copy.
fn path_place(paths: &mut Vec<NodePath>, path: &NodePath) -> Result<u32, AllocError>
    ensures kept { take (length paths.old.items) paths.new.items ≡ paths.old.items }
    ensures here { IfOk result (λ place. IsPathAt paths.new.items place path.now.rule
        path.now.steps.items) }
    ensures last { IfOk result (λ place. length paths.old.items ≤ place + 1) }
{
    match last_place(paths, path) {
        Some(place) => Ok(place),
        None => {
            let copy = NodePath {
                rule: path.rule,
                steps: path.steps.clone()?,
            };
            add_path(paths, copy)
        }
    }
}

/// The place of reads, which is new.
fn reads_place(rows: &mut Rows<Entry>, reads: &[Entry]) -> Result<u32, AllocError>
    ensures ok { OnOk result (rows.new ≡ rows.old ++ reads.now ∷ []) }
    ensures err { OnErr result (rows.new ≡ rows.old) }
    ensures here { IfOk result (λ place. place ≡ length rows.old) }
{
    let place = next_place(rows.len())?;
    rows.push(reads)?;
    Ok(place)
}

/// Keeps what an axiom's name says of its paths and reads. Where memory runs out, what was kept before is still there.
pub(crate) fn kept_of(
    paths: &mut Vec<NodePath>,
    rows: &mut Rows<Entry>,
    name: AxiomRef<'_>,
) -> Result<KeptName, AllocError>
    ensures paths { take (length paths.old.items) paths.new.items ≡ paths.old.items }
    ensures rows { take (length rows.old) rows.new ≡ rows.old }
    ensures within { IfOk result (λ kept. IsKeptWithin (length paths.new.items) (length rows.new)
        kept) }
    ensures last { IfOk result (λ kept. IsKeptLast (length paths.old.items) (length rows.old)
        kept) }
    ensures named { IfOk result (λ kept. axiom_in paths.new.items rows.new kept ≡
        axiom_shown name.entry) }
{
    match name {
        AxiomRef::Any(cell) => Ok(KeptName::Any(cell)),
        AxiomRef::One(cell, value, other) => Ok(KeptName::One(cell, value, other)),
        AxiomRef::Rule(rule) => Ok(KeptName::Rule(rule)),
        AxiomRef::Node(path, number) => Ok(KeptName::Node(path_place(paths, path)?, number)),
        AxiomRef::Atom(path, reads) => {
            let place = path_place(paths, path)?;
            Ok(KeptName::Atom(place, reads_place(rows, reads)?))
        }
    }
}

/// What a kept variable stands for.
pub(crate) fn variable_shown<'a>(paths: &'a [NodePath], stands: &Stands) -> VarName<'a>
    requires { IsStandsWithin (length paths.now) stands.now }
    ensures { symbol_shown result ≡ symbol_in paths.now stands.now }
{
    match stands {
        Stands::Pair(cell, value) => VarName::Pair(*cell, *value),
        Stands::Node(place) => VarName::Node(&paths[*place as usize]),
    }
}

/// The name that a kept axiom has.
pub(crate) fn name_shown<'a>(
    paths: &'a [NodePath],
    rows: &'a Rows<Entry>,
    kept: &KeptName,
) -> AxiomRef<'a>
    requires { IsKeptWithin (length paths.now) (length rows.now) kept.now }
    ensures { axiom_shown result ≡ axiom_in paths.now rows.now kept.now }
{
    match kept {
        KeptName::Any(cell) => AxiomRef::Any(*cell),
        KeptName::One(cell, value, other) => AxiomRef::One(*cell, *value, *other),
        KeptName::Rule(rule) => AxiomRef::Rule(*rule),
        KeptName::Node(place, number) => AxiomRef::Node(&paths[*place as usize], *number),
        KeptName::Atom(place, row) => {
            AxiomRef::Atom(&paths[*place as usize], rows.get(*row as usize))
        }
    }
}

/// The larger one.
fn larger(left: usize, right: usize) -> usize
    ensures left { left ≤ result }
    ensures right { right ≤ result }
{
    if left < right { right } else { left }
}

/// How many paths a variable needs: up to its own.
fn paths_for(stands: &Stands) -> usize
    ensures { result ≡ paths_of stands.now }
{
    match stands {
        Stands::Pair(_, _) => 0,
        Stands::Node(place) => *place as usize + 1,
    }
}

/// How many paths the variables need: as many as the last node does, since its place is the highest.
pub(crate) fn paths_for_all(variables: &[Stands]) -> usize
    requires { AreRising 0 (map paths_of variables.now) }
    ensures { AllByRecursion (IsStandsWithin result) variables.now }
{
    let mut left = variables.len();
    while left > 0 {
        left -= 1;
        let count = paths_for(&variables[left]);
        if count > 0 {
            return count;
        }
    }
    0
}

/// How many paths and rows an axiom's name needs.
fn kept_for(kept: &KeptName) -> (usize, usize)
    ensures paths { result.0 ≡ kept_paths kept.now }
    ensures rows { result.1 ≡ kept_rows kept.now }
{
    match kept {
        KeptName::Any(_) => (0, 0),
        KeptName::One(_, _, _) => (0, 0),
        KeptName::Rule(_) => (0, 0),
        KeptName::Node(place, _) => (*place as usize + 1, 0),
        KeptName::Atom(place, row) => (*place as usize + 1, *row as usize + 1),
    }
}

/// How many paths and rows the names of axioms need, where so many paths are there anyway: those of the last atom, and
/// the paths of the nodes behind it.
pub(crate) fn kept_for_all(paths: usize, axioms: &[KeptName]) -> (usize, usize)
    requires paths { AreRising 0 (map kept_paths axioms.now) }
    requires rows { AreRising 0 (map kept_rows axioms.now) }
    ensures paths { paths ≤ result.0 }
    ensures within { AllByRecursion (IsKeptWithin result.0 result.1) axioms.now }
{
    let mut count = paths;
    let mut left = axioms.len();
    while left > 0 {
        left -= 1;
        let own = kept_for(&axioms[left]);
        count = larger(count, own.0);
        if own.1 > 0 {
            return (count, own.1);
        }
    }
    (count, 0)
}

fn copied_path(alloc: Global, path: &NodePath) -> Result<NodePath, AllocError>
    ensures rule { IfOk result (λ p. p.rule ≡ path.now.rule) }
    ensures steps { IfOk result (λ p. p.steps.items ≡ path.now.steps.items) }
{
    let steps = Vec::from_slice(alloc, &path.steps)?;
    Ok(NodePath {
        rule: path.rule,
        steps,
    })
}

/// Copies of the paths.
pub(crate) fn copied_paths(alloc: Global, paths: &[NodePath]) -> Result<Vec<NodePath>, AllocError>
    ensures { IfOk result (λ copy. ArePaths paths.now copy.items) }
{
    let mut copy = Vec::new(alloc);
    for path in paths {
        let own = copied_path(alloc, path)?;
        copy.push(own)?;
    }
    Ok(copy)
}

/// Copies of the rows.
pub(crate) fn copied_rows(alloc: Global, rows: &Rows<Entry>) -> Result<Rows<Entry>, AllocError>
    ensures { IfOk result (λ copy. copy ≡ rows.now) }
{
    let mut copy = Rows::new(alloc);
    for i in 0..rows.len() {
        copy.push(rows.get(i))?;
    }
    Ok(copy)
}
