//! A ground with one rule more on top of its own, and without it again.
//!
//! Pairs, nodes, axioms and pieces are numbered in the order of the rules, so that all a last rule comes to stands behind what is
//! there. It is made aside and then appended, so that a want of memory leaves the ground as it was.
ghost use Rattle.std.specs.Prelude.{◌≡◌, ◌^◌, ◌<◌, ◌≤◌, ◌+◌, ◌++◌, [], All, IfErr, IfOk, OnErr, OnOk, length, min, take};
ghost use Rattle.pc_sheet.specs.Limits.{most_weight};
ghost use Rattle.pc_sheet.specs.Sheet.{NamedStatement, Sheet, with_rule};
ghost use Rattle.pc_sheet.specs.Weight.{weight};
ghost use Rattle.pc_axiom_names.specs.Listed.{first_names, with_variable};
ghost use Rattle.pc_axiom_names.specs.Shown.{symbol_shown};
ghost use Rattle.pc_ground.specs.Grounded.{grounded, IsGroundCause};
ghost use Rattle.pc_ground.specs.Naming.{named};
ghost use Rattle.pc_ground.specs.Pushed.{IsBeforeLast, IsOwnOf, IsSizeOf};

use crate::count::count_nodes;
use crate::ground::{Ground, GroundFault};
use crate::grounding::Grounding;
use crate::naming::copy_of;
use crate::owners::Span;
use crate::walk::Draft;
use pc_axiom_names::{Names, VarName};
use pc_books::{Book, few_cells, well_formed};
use pc_lits::{ClauseStore, Rows, Var};
use pc_logic::weight_with_last;
use pc_sheet::MOST_WEIGHT;
use std::alloc::{AllocError, Global};

/// How much there is in a ground: what is pushed behind it can be taken away again.
#[derive(Clone, Copy)]
pub struct GroundSize {
    variables: u32,
    symbols: usize,
    axioms: usize,
    clauses: usize,
    owners: usize,
    reads: usize,
}

// Appends the clauses. Without memory some may be appended.
fn append_clauses(store: &mut ClauseStore, more: &ClauseStore) -> Result<(), AllocError>
    ensures ok { OnOk result (store.new ≡ store.old ++ more.now) }
    ensures keeps { take (length store.old) store.new ≡ store.old }
{
    for number in 0..more.len() {
        store.push(more.get(number))?;
    }
    Ok(())
}

// Appends the rows. Without memory some may be appended.
fn append_rows(rows: &mut Rows<usize>, more: &Rows<usize>) -> Result<(), AllocError>
    ensures ok { OnOk result (rows.new ≡ rows.old ++ more.now) }
    ensures keeps { take (length rows.old) rows.new ≡ rows.old }
{
    for number in 0..more.len() {
        rows.push(more.get(number))?;
    }
    Ok(())
}

// Appends the spans. Without memory some may be appended.
fn append_spans(spans: &mut Vec<Span>, more: &[Span]) -> Result<(), AllocError>
    ensures ok { OnOk result (spans.new.items ≡ spans.old.items ++ more.now) }
    ensures keeps { take (length spans.old.items) spans.new.items ≡ spans.old.items }
{
    for span in more {
        spans.push(*span)?;
    }
    Ok(())
}

// Names the next variable.
fn add_variable(alloc: Global, names: &mut Names, name: VarName<'_>) -> Result<(), AllocError>
    ensures ok { OnOk result (names.new ≡ with_variable names.old (symbol_shown name.entry)) }
    ensures err { OnErr result (names.new ≡ names.old) }
{
    match name {
        VarName::Pair(cell, value) => names.add_pair(cell, value),
        VarName::Node(path) => names.add_node(copy_of(alloc, path)?),
    }
}

// Appends the names of variables. Without memory some may be appended.
fn append_variables(alloc: Global, names: &mut Names, more: &Names) -> Result<(), AllocError>
    requires { length more.now.variables < 2 ^ 32 }
    ensures ok { OnOk result (names.new ≡ named names.old more.now.variables []) }
    ensures keeps { first_names (length names.old.variables) (length names.old.axioms) names.new ≡
        names.old }
{
    for number in 0..more.variables() {
        add_variable(alloc, names, more.variable(Var(number as u32)))?;
    }
    Ok(())
}

// Appends the names of axioms. Without memory some may be appended.
fn append_axioms(names: &mut Names, more: &Names) -> Result<(), AllocError>
    requires { length more.now.axioms < 2 ^ 32 }
    ensures ok { OnOk result (names.new ≡ named names.old [] more.now.axioms) }
    ensures keeps { first_names (length names.old.variables) (length names.old.axioms) names.new ≡
        names.old }
{
    for number in 0..more.axioms() {
        names.add_axiom(more.axiom(number as u32))?;
    }
    Ok(())
}

// Appends the names. Without memory some may be appended.
fn append_names(alloc: Global, names: &mut Names, more: &Names) -> Result<(), AllocError>
    requires variables { length more.now.variables < 2 ^ 32 }
    requires axioms { length more.now.axioms < 2 ^ 32 }
    ensures ok { OnOk result (names.new ≡ named names.old more.now.variables more.now.axioms) }
    ensures keeps { first_names (length names.old.variables) (length names.old.axioms) names.new ≡
        names.old }
{
    append_variables(alloc, names, more)?;
    append_axioms(names, more)
}

// Appends what was made aside. Without memory some of it may be appended.
fn append(
    alloc: Global,
    clauses: &mut ClauseStore,
    names: &mut Names,
    owners: &mut Vec<Span>,
    reads: &mut Rows<usize>,
    draft: &Draft,
) -> Result<(), AllocError>
    requires variables { length draft.now.nodes.names.variables < 2 ^ 32 }
    requires axioms { length draft.now.nodes.names.axioms < 2 ^ 32 }
    ensures clauses { OnOk result (clauses.new ≡ clauses.old ++ draft.now.nodes.clauses) }
    ensures names { OnOk result (names.new ≡ named names.old draft.now.nodes.names.variables
        draft.now.nodes.names.axioms) }
    ensures owners { OnOk result (owners.new.items ≡ owners.old.items ++ draft.now.owners.items) }
    ensures reads { OnOk result (reads.new ≡ reads.old ++ draft.now.reads) }
    ensures old_clauses { take (length clauses.old) clauses.new ≡ clauses.old }
    ensures old_names { first_names (length names.old.variables) (length names.old.axioms)
        names.new ≡ names.old }
    ensures old_owners { take (length owners.old.items) owners.new.items ≡ owners.old.items }
    ensures old_reads { take (length reads.old) reads.new ≡ reads.old }
{
    append_clauses(clauses, &draft.nodes.clauses)?;
    append_names(alloc, names, &draft.nodes.names)?;
    append_spans(owners, &draft.owners)?;
    append_rows(reads, &draft.reads)
}

// Keeps the first so many of each.
fn cut(
    clauses: &mut ClauseStore,
    names: &mut Names,
    owners: &mut Vec<Span>,
    reads: &mut Rows<usize>,
    size: GroundSize,
)
    requires clauses { size.clauses ≤ length clauses.old }
    requires reads { size.reads ≤ length reads.old }
    ensures clauses { clauses.new ≡ take size.clauses clauses.old }
    ensures names { names.new ≡ first_names size.symbols size.axioms names.old }
    ensures owners { owners.new.items ≡ take size.owners owners.old.items }
    ensures reads { reads.new ≡ take size.reads reads.old }
{
    clauses.truncate(size.clauses);
    names.truncate(size.symbols, size.axioms);
    owners.truncate(size.owners);
    reads.truncate(size.reads);
}

impl Ground {
    /// How much there is.
    pub fn size(&self) -> GroundSize
        ensures { IsSizeOf self.now result }
    {
        GroundSize {
            variables: self.variables,
            symbols: self.names.variables(),
            axioms: self.names.axioms(),
            clauses: self.clauses.len(),
            owners: self.owners.len(),
            reads: self.reads.len(),
        }
    }

    // What the book's last rule comes to behind what there is.
    fn last_rule(&self, alloc: Global, book: &Book) -> Result<Draft, AllocError>
        requires base { IsBeforeLast self.now book.now }
        requires small { weight book.now ≤ most_weight }
        ensures { (s : Sheet) (r : NamedStatement) → book.now ≡ with_rule s r →
            IfOk result (IsOwnOf self.now s.universe (length s.rules) r) }
    {
        well_formed(book);
        few_cells(book);
        let rules = book.rules();
        let last = rules.len() - 1;
        let grounding = Grounding {
            alloc,
            cells: &self.cells,
            book,
        };
        let piece = self.cells.len() + self.reads.len();
        let mut draft = Draft::new(alloc);
        grounding.walk_rule(
            &mut draft,
            last as u32,
            &rules[last],
            self.variables,
            piece as u32,
        )?;
        Ok(draft)
    }

    // How many literals the book's axioms have, or 4,000,001 where there are more than 4,000,000: those that are there, and
    // those of its last rule.
    fn whole_weight(&self, book: &Book) -> u64
        requires { IsBeforeLast self.now book.now }
        ensures { result ≡ min (weight book.now) (most_weight + 1) }
    {
        let before = (self.clauses.literals() as u64).min(MOST_WEIGHT + 1);
        weight_with_last(book, before)
    }

    fn push_small(&mut self, alloc: Global, book: &Book) -> Result<(), AllocError>
        requires base { IsBeforeLast self.old book.now }
        requires small { weight book.now ≤ most_weight }
        ensures ok { OnOk result (self.new ≡ grounded book.now) }
        ensures err { OnErr result (self.new ≡ self.old) }
    {
        well_formed(book);
        few_cells(book);
        let draft = self.last_rule(alloc, book)?;
        let size = self.size();
        let rules = book.rules();
        let nodes = count_nodes(book, &rules[rules.len() - 1].formula);
        match append(
            alloc,
            &mut self.clauses,
            &mut self.names,
            &mut self.owners,
            &mut self.reads,
            &draft,
        ) {
            Ok(()) => {
                self.variables += nodes;
                Ok(())
            }
            Err(fault) => {
                cut(
                    &mut self.clauses,
                    &mut self.names,
                    &mut self.owners,
                    &mut self.reads,
                    size,
                );
                Err(fault)
            }
        }
    }

    /// Adds what the book's last rule comes to: before it is the ground of the book without that rule. Where there is an
    /// error it stays as it is.
    pub fn push_rule(&mut self, alloc: Global, book: &Book) -> Result<(), GroundFault>
        requires { IsBeforeLast self.old book.now }
        ensures ok { OnOk result (self.new ≡ grounded book.now) }
        ensures err { OnErr result (self.new ≡ self.old) }
        ensures small { IfOk result (λ _. weight book.now ≤ most_weight) }
        ensures few { OnOk result (length self.new.clauses < 2 ^ 32) }
        ensures literals { OnOk result (All (All (λ l. l.variable.0 < self.new.variables))
            self.new.clauses) }
        ensures cause { IfErr result (λ fault. IsGroundCause fault (weight book.now)) }
    {
        few_cells(book);
        if self.whole_weight(book) > MOST_WEIGHT {
            return Err(GroundFault::TooLarge);
        }
        match self.push_small(alloc, book) {
            Ok(()) => Ok(()),
            Err(_) => Err(GroundFault::Memory),
        }
    }

    /// Takes away what the last rule came to: it is as large as before that was pushed. It takes no memory.
    pub fn pop_rule(&mut self, size: GroundSize)
        requires { (s : Sheet) × (r : NamedStatement) × (self.old ≡ grounded (with_rule s r)) ×
            IsSizeOf (grounded s) size }
        ensures { (s : Sheet) (r : NamedStatement) → self.old ≡ grounded (with_rule s r) →
            IsSizeOf (grounded s) size → self.new ≡ grounded s }
    {
        cut(
            &mut self.clauses,
            &mut self.names,
            &mut self.owners,
            &mut self.reads,
            size,
        );
        self.variables = size.variables;
    }
}
