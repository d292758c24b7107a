//! The walk over the rules.
//!
//! Clauses, the names of variables and axioms, the groups that each axiom is of and the cells that each piece reads are made
//! together, node by node. Above the pieces the walk goes from joint node to joint node; a piece's nodes all have one owner.
ghost use Rattle.std.specs.Prelude.{◌≡◌, ◌+◌, ◌*◌, ◌^◌, ◌<◌, ◌≤◌, ◌++◌, ◌∷◌, [], true, OnOk, IfOk, map, length, sum, sum_by};
ghost use Rattle.pc_sheet.specs.Limits.{most_depth, most_rules};
ghost use Rattle.pc_sheet.specs.Cells.{values_below};
ghost use Rattle.pc_sheet.specs.Sizes.{size_of};
ghost use Rattle.pc_sheet.specs.Views.{statement_of, statements_of, rule_of};
ghost use Rattle.pc_sheet.specs.WellSorted.{IsWellSorted};
ghost use Rattle.pc_axiom_names.specs.Listed.{no_names};
ghost use Rattle.pc_ground.specs.Variables.{count_nodes, count_all, nodes_of_rule, nodes_below, nodes_from, pairs_from};
ghost use Rattle.pc_ground.specs.Ground.{rule_axioms, rules_axioms, cells_axioms};
ghost use Rattle.pc_ground.specs.ByNumber.{lit, joined_clauses, roots_of_values, node_clauses, rules_clauses, cells_clauses, IsSortedIn, AreSorted, AreRulesSorted};
ghost use Rattle.pc_ground.specs.Naming.{name_of, named};
ghost use Rattle.pc_ground.specs.Owners.{cells_times, piece_count, piece_count_of_parts, piece_count_of_rules, of_one, span, span_at, spans, spans_of_rules, no_groups};
ghost use Rattle.pc_ground.specs.PieceCells.{piece_cells, piece_cells_of_rules};
ghost use Rattle.pc_ground.specs.inside.Fitting.{ArePartsFit, IsBodyFit};
ghost use Rattle.pc_ground.specs.inside.Places.{own_named, spot, value_spot, clauses_at, axioms_at, names_at, cells_at, spans_at, reads_at, clauses_of_parts, names_of_parts, owners_of_parts, reads_of_parts, own_joined, clauses_joined, names_joined, owners_joined, owners_of_joint, clauses_of_values, names_of_values, owners_of_values, reads_of_values, clauses_of_instances, names_of_instances, owners_of_instances};

use crate::cells::Cells;
use crate::clauses::literal;
use crate::count::{count_nodes, count_pieces};
use crate::grounding::{Binder, Grounding, Place};
use crate::naming::child_path;
use crate::nodes::Nodes;
use crate::owners::{Span, own, own_cells, own_children, own_values};
use crate::sheet::add_cells;
use crate::sheet_names::name_cells;
use pc_axiom_names::{AxiomRef, Names};
use pc_lits::{ClauseStore, Rows};
use pc_logic::extended;
use pc_sheet::{Formula, NodePath, Rule, SortId, ValueId};
use std::alloc::{AllocError, Global};

/// What a walk has made.
#[derive(Drop)]
pub(crate) struct Draft {
    /// The clauses and the names.
    pub(crate) nodes: Nodes,
    /// The groups that each axiom is of.
    pub(crate) owners: Vec<Span>,
    /// The cells that each piece reads.
    pub(crate) reads: Rows<usize>,
}

impl Draft {
    /// Before the walk.
    pub(crate) fn new(alloc: Global) -> Draft
        ensures clauses { result.nodes.clauses ≡ [] }
        ensures names { result.nodes.names ≡ no_names }
        ensures owners { result.owners.items ≡ [] }
        ensures reads { result.reads ≡ [] }
    {
        Draft {
            nodes: Nodes {
                clauses: ClauseStore::new(alloc),
                names: Names::new(alloc),
            },
            owners: Vec::new(alloc),
            reads: Rows::new(alloc),
        }
    }

    /// Makes the cells, and answers how many pairs they have.
    pub(crate) fn add_cells(&mut self, alloc: Global, cells: &Cells) -> Result<u32, AllocError>
        requires { sum cells.now < 2 ^ 31 }
        ensures clauses { OnOk result (self.new.nodes.clauses ≡ self.old.nodes.clauses ++
            cells_clauses 0 cells.now) }
        ensures names { OnOk result (self.new.nodes.names ≡ named self.old.nodes.names
            (pairs_from 0 cells.now) (map name_of (cells_axioms 0 cells.now))) }
        ensures owners { OnOk result (self.new.owners.items ≡ self.old.owners.items ++
            cells_times 0 cells.now) }
        ensures reads { self.new.reads ≡ self.old.reads }
        ensures pairs { IfOk result (λ n. n ≡ sum cells.now) }
    {
        let pairs = add_cells(alloc, &mut self.nodes.clauses, cells)?;
        name_cells(&mut self.nodes.names, cells)?;
        own_cells(&mut self.owners, cells)?;
        Ok(pairs)
    }
}

/// How many instances a quantifier's body has, and how many nodes and pieces each of them.
#[derive(Clone, Copy)]
struct Instances {
    values: usize,
    nodes: u32,
    pieces: u32,
}

impl Grounding<'_> {
    /// Makes the piece of that number: the formula's nodes.
    fn walk_piece(
        &self,
        draft: &mut Draft,
        place: Place<'_>,
        formula: &Formula,
        piece: u32,
    ) -> Result<(), AllocError>
        requires sorted { IsSortedIn self.now.book.now.universe (length place.scope.now)
            (statement_of formula.now) }
        requires room { place.first + count_nodes self.now.book.now.universe
            (statement_of formula.now) < 2 ^ 32 }
        ensures clauses { OnOk result (draft.new.nodes.clauses ≡ draft.old.nodes.clauses ++
            clauses_at self.now (spot place.entry) (statement_of formula.now)) }
        ensures names { OnOk result (draft.new.nodes.names ≡ names_at self.now (spot place.entry)
            (statement_of formula.now) draft.old.nodes.names) }
        ensures owners { OnOk result (draft.new.owners.items ≡ draft.old.owners.items ++
            of_one piece (axioms_at self.now (spot place.entry) (statement_of formula.now))) }
        ensures reads { OnOk result (draft.new.reads ≡ draft.old.reads ++
            cells_at self.now (spot place.entry) (statement_of formula.now) ∷ []) }
    {
        let before = draft.nodes.clauses.len();
        let mut cells = Vec::new(self.alloc);
        self.add_formula(&mut draft.nodes, &mut cells, place, formula)?;
        let count = draft.nodes.clauses.len() - before;
        draft.reads.push(&cells)?;
        let span = Span {
            first: piece,
            count: 1,
        };
        own(&mut draft.owners, count, span)
    }

    /// Makes the formula's nodes, and its pieces, the first of which is `piece`.
    #[cycle(walk)]
    fn walk(
        &self,
        draft: &mut Draft,
        place: Place<'_>,
        formula: &Formula,
        piece: u32,
    ) -> Result<(), AllocError>
        requires sorted { IsSortedIn self.now.book.now.universe (length place.scope.now)
            (statement_of formula.now) }
        requires room { place.first + count_nodes self.now.book.now.universe
            (statement_of formula.now) < 2 ^ 32 }
        requires pieces { piece + piece_count self.now.book.now.universe
            (statement_of formula.now) < 2 ^ 32 }
        ensures clauses { OnOk result (draft.new.nodes.clauses ≡ draft.old.nodes.clauses ++
            clauses_at self.now (spot place.entry) (statement_of formula.now)) }
        ensures names { OnOk result (draft.new.nodes.names ≡ names_at self.now (spot place.entry)
            (statement_of formula.now) draft.old.nodes.names) }
        ensures owners { OnOk result (draft.new.owners.items ≡ draft.old.owners.items ++
            spans_at self.now (spot place.entry) (statement_of formula.now) piece) }
        ensures reads { OnOk result (draft.new.reads ≡ draft.old.reads ++
            reads_at self.now (spot place.entry) (statement_of formula.now)) }
    {
        match formula {
            Formula::Compare { .. } => self.walk_piece(draft, place, formula, piece),
            Formula::InTable { .. } => self.walk_piece(draft, place, formula, piece),
            Formula::Not(_) => self.walk_piece(draft, place, formula, piece),
            Formula::And(parts) => self.walk_joint(draft, place, parts, piece),
            Formula::Or(_) => self.walk_piece(draft, place, formula, piece),
            Formula::Implies(_, _) => self.walk_piece(draft, place, formula, piece),
            Formula::Iff(_, _) => self.walk_piece(draft, place, formula, piece),
            Formula::ForAll { sort, body, .. } => {
                let binder = Binder { place, sort: *sort };
                self.walk_universal(draft, binder, body, piece)
            }
            Formula::Exists { .. } => self.walk_piece(draft, place, formula, piece),
            Formula::Count { .. } => self.walk_piece(draft, place, formula, piece),
        }
    }

    /// Makes a joint conjunction's own node.
    fn open_joint(
        &self,
        draft: &mut Draft,
        place: Place<'_>,
        parts: &[Formula],
        piece: u32,
    ) -> Result<(), AllocError>
        requires sorted { AreSorted self.now.book.now.universe
            (statements_of (map statement_of parts.now)) }
        requires few { length parts.now < 4194304 }
        requires room { place.first + 1 + count_all self.now.book.now.universe
            (statements_of (map statement_of parts.now)) < 2 ^ 32 }
        requires pieces { piece + piece_count_of_parts self.now.book.now.universe
            (statements_of (map statement_of parts.now)) < 2 ^ 32 }
        ensures clauses { OnOk result (draft.new.nodes.clauses ≡ draft.old.nodes.clauses ++
            own_joined self.now.book.now.universe place.entry
            (statements_of (map statement_of parts.now)) true) }
        ensures names { OnOk result (draft.new.nodes.names ≡
            own_named place.entry.path.now (length parts.now + 1) draft.old.nodes.names) }
        ensures owners { OnOk result (draft.new.owners.items ≡ draft.old.owners.items ++
            owners_joined self.now place.entry (statements_of (map statement_of parts.now)) piece) }
        ensures reads { draft.new.reads ≡ draft.old.reads }
    {
        draft
            .nodes
            .add_all(self.alloc, self.book, place, parts, true)?;
        own_children(&mut draft.owners, self.book, parts, piece)?;
        draft.owners.push(Span {
            first: piece,
            count: 0,
        })?;
        Ok(())
    }

    /// Makes a joint conjunction, and then its parts.
    #[cycle(walk)]
    fn walk_joint(
        &self,
        draft: &mut Draft,
        place: Place<'_>,
        parts: &[Formula],
        piece: u32,
    ) -> Result<(), AllocError>
        requires parts { ArePartsFit self.now place parts.now }
        requires pieces { piece + piece_count_of_parts self.now.book.now.universe
            (statements_of (map statement_of parts.now)) < 2 ^ 32 }
        ensures clauses { OnOk result (draft.new.nodes.clauses ≡ draft.old.nodes.clauses ++
            clauses_joined self.now place.entry (statements_of (map statement_of parts.now))
            true) }
        ensures names { OnOk result (draft.new.nodes.names ≡
            names_joined self.now place.entry (statements_of (map statement_of parts.now))
            (length parts.now) draft.old.nodes.names) }
        ensures owners { OnOk result (draft.new.owners.items ≡ draft.old.owners.items ++
            owners_of_joint self.now place.entry (statements_of (map statement_of parts.now))
            piece) }
        ensures reads { OnOk result (draft.new.reads ≡ draft.old.reads ++
            reads_of_parts self.now place.entry (statements_of (map statement_of parts.now))) }
    {
        self.open_joint(draft, place, parts, piece)?;
        self.walk_parts(draft, place, parts, piece)?;
        Ok(())
    }

    /// Makes the parts of the joint conjunction that stands there.
    #[cycle(walk)]
    fn walk_parts(
        &self,
        draft: &mut Draft,
        place: Place<'_>,
        parts: &[Formula],
        piece: u32,
    ) -> Result<(), AllocError>
        requires parts { ArePartsFit self.now place parts.now }
        requires pieces { piece + piece_count_of_parts self.now.book.now.universe
            (statements_of (map statement_of parts.now)) < 2 ^ 32 }
        ensures clauses { OnOk result (draft.new.nodes.clauses ≡ draft.old.nodes.clauses ++
            clauses_of_parts self.now place.entry (statements_of (map statement_of parts.now))) }
        ensures names { OnOk result (draft.new.nodes.names ≡ names_of_parts self.now place.entry
            (statements_of (map statement_of parts.now)) draft.old.nodes.names) }
        ensures owners { OnOk result (draft.new.owners.items ≡ draft.old.owners.items ++
            owners_of_parts self.now place.entry (statements_of (map statement_of parts.now))
            piece) }
        ensures reads { OnOk result (draft.new.reads ≡ draft.old.reads ++
            reads_of_parts self.now place.entry (statements_of (map statement_of parts.now))) }
    {
        let mut next = place.first + 1;
        let mut at = piece;
        for (k, part) in parts.iter().enumerate() {
            let path = child_path(self.alloc, place.path, k as u32)?;
            let child = Place {
                path: &path,
                scope: place.scope,
                first: next,
            };
            self.walk(draft, child, part, at)?;
            next += count_nodes(self.book, part);
            at += count_pieces(self.book, part);
        }
        Ok(())
    }

    /// Makes a joint quantifier's own node.
    fn open_universal(
        &self,
        draft: &mut Draft,
        place: Place<'_>,
        each: Instances,
        piece: u32,
    ) -> Result<(), AllocError>
        requires few { each.values ≤ 65536 }
        requires room { place.first + 1 + each.values * each.nodes < 2 ^ 32 }
        requires pieces { piece + each.values * each.pieces < 2 ^ 32 }
        ensures clauses { OnOk result (draft.new.nodes.clauses ≡ draft.old.nodes.clauses ++
            joined_clauses place.entry.first true
            (roots_of_values (place.entry.first + 1) each.nodes each.values)) }
        ensures names { OnOk result (draft.new.nodes.names ≡
            own_named place.entry.path.now (each.values + 1) draft.old.nodes.names) }
        ensures owners { OnOk result (draft.new.owners.items ≡ draft.old.owners.items ++
            (map (span_at piece each.pieces) (values_below each.values) ++
            no_groups piece ∷ [])) }
        ensures reads { draft.new.reads ≡ draft.old.reads }
    {
        draft
            .nodes
            .add_each(self.alloc, place, each.values, each.nodes, true)?;
        own_values(&mut draft.owners, piece, each.pieces, each.values)?;
        draft.owners.push(Span {
            first: piece,
            count: 0,
        })?;
        Ok(())
    }

    /// Makes a joint quantifier, and then its body under each value.
    #[cycle(walk)]
    fn walk_universal(
        &self,
        draft: &mut Draft,
        binder: Binder<'_>,
        body: &Formula,
        piece: u32,
    ) -> Result<(), AllocError>
        requires body { IsBodyFit self.now binder (statement_of body.now) }
        requires pieces { piece + size_of self.now.book.now.universe binder.sort *
            piece_count self.now.book.now.universe (statement_of body.now) < 2 ^ 32 }
        ensures clauses { OnOk result (draft.new.nodes.clauses ≡ draft.old.nodes.clauses ++
            clauses_of_instances self.now binder.entry (statement_of body.now) true) }
        ensures names { OnOk result (draft.new.nodes.names ≡ names_of_instances self.now
            binder.entry (statement_of body.now) draft.old.nodes.names) }
        ensures owners { OnOk result (draft.new.owners.items ≡ draft.old.owners.items ++
            owners_of_instances self.now binder.entry (statement_of body.now) piece) }
        ensures reads { OnOk result (draft.new.reads ≡ draft.old.reads ++
            reads_of_values self.now binder.entry (statement_of body.now)) }
    {
        let values = self.book.size_of(binder.sort);
        if values == 0 {
            let none = Instances {
                values: 0,
                nodes: 0,
                pieces: 0,
            };
            return self.open_universal(draft, binder.place, none, piece);
        }
        let each = Instances {
            values,
            nodes: count_nodes(self.book, body),
            pieces: count_pieces(self.book, body),
        };
        self.open_universal(draft, binder.place, each, piece)?;
        self.walk_values(draft, binder, body, piece)?;
        Ok(())
    }

    /// Makes the body under each value, where there is one.
    #[cycle(walk)]
    fn walk_values(
        &self,
        draft: &mut Draft,
        binder: Binder<'_>,
        body: &Formula,
        piece: u32,
    ) -> Result<(), AllocError>
        requires some { 0 < size_of self.now.book.now.universe binder.sort }
        requires body { IsBodyFit self.now binder (statement_of body.now) }
        requires pieces { piece + size_of self.now.book.now.universe binder.sort *
            piece_count self.now.book.now.universe (statement_of body.now) < 2 ^ 32 }
        ensures clauses { OnOk result (draft.new.nodes.clauses ≡ draft.old.nodes.clauses ++
            clauses_of_values self.now binder.entry (statement_of body.now)) }
        ensures names { OnOk result (draft.new.nodes.names ≡ names_of_values self.now
            binder.entry (statement_of body.now) draft.old.nodes.names) }
        ensures owners { OnOk result (draft.new.owners.items ≡ draft.old.owners.items ++
            owners_of_values self.now binder.entry (statement_of body.now) piece) }
        ensures reads { OnOk result (draft.new.reads ≡ draft.old.reads ++
            reads_of_values self.now binder.entry (statement_of body.now)) }
    {
        let count = count_nodes(self.book, body);
        let pieces = count_pieces(self.book, body);
        let mut next = binder.place.first + 1;
        let mut at = piece;
        for v in 0..self.book.size_of(binder.sort) {
            let value = (binder.sort, ValueId(v as u16));
            let place = Place {
                first: next,
                ..binder.place
            };
            self.walk_value(draft, place, value, body, at)?;
            next += count;
            at += pieces;
        }
        Ok(())
    }

    /// Makes the body of the joint quantifier that stands there, whose variable has that value.
    #[cycle(walk)]
    fn walk_value(
        &self,
        draft: &mut Draft,
        place: Place<'_>,
        value: (SortId, ValueId),
        body: &Formula,
        piece: u32,
    ) -> Result<(), AllocError>
        requires depth { length place.scope.now < most_depth }
        requires sorted { IsSortedIn self.now.book.now.universe (length place.scope.now + 1)
            (statement_of body.now) }
        requires room { place.first + count_nodes self.now.book.now.universe
            (statement_of body.now) < 2 ^ 32 }
        requires pieces { piece + piece_count self.now.book.now.universe (statement_of body.now) <
            2 ^ 32 }
        ensures clauses { OnOk result (draft.new.nodes.clauses ≡ draft.old.nodes.clauses ++
            clauses_at self.now (value_spot place.entry value) (statement_of body.now)) }
        ensures names { OnOk result (draft.new.nodes.names ≡ names_at self.now
            (value_spot place.entry value) (statement_of body.now) draft.old.nodes.names) }
        ensures owners { OnOk result (draft.new.owners.items ≡ draft.old.owners.items ++
            spans_at self.now (value_spot place.entry value) (statement_of body.now) piece) }
        ensures reads { OnOk result (draft.new.reads ≡ draft.old.reads ++
            reads_at self.now (value_spot place.entry value) (statement_of body.now)) }
    {
        let path = child_path(self.alloc, place.path, u32::from(value.1.0))?;
        let inner = extended(place.scope, value.0, value.1);
        let instance = Place {
            path: &path,
            scope: &inner[..place.scope.len() + 1],
            first: place.first,
        };
        self.walk(draft, instance, body, piece)
    }

    /// Makes a rule.
    pub(crate) fn walk_rule(
        &self,
        draft: &mut Draft,
        r: u32,
        rule: &Rule,
        p: u32,
        piece: u32,
    ) -> Result<(), AllocError>
        requires sorted { IsWellSorted self.now.book.now.universe []
            (statement_of rule.now.formula) }
        requires room { p + count_nodes self.now.book.now.universe (statement_of rule.now.formula) <
            2 ^ 32 }
        requires pieces { piece + piece_count self.now.book.now.universe
            (statement_of rule.now.formula) < 2 ^ 32 }
        ensures clauses { OnOk result (draft.new.nodes.clauses ≡ draft.old.nodes.clauses ++
            ((lit p true ∷ []) ∷ node_clauses self.now.book.now.universe self.now.cells.now p []
            (statement_of rule.now.formula))) }
        ensures names { OnOk result (draft.new.nodes.names ≡ named draft.old.nodes.names
            (nodes_below self.now.book.now.universe r [] (statement_of rule.now.formula))
            (map name_of (rule_axioms self.now.book.now.universe r (rule_of rule.now)))) }
        ensures owners { OnOk result (draft.new.owners.items ≡ draft.old.owners.items ++
            (span piece (piece_count self.now.book.now.universe (statement_of rule.now.formula)) ∷
            spans self.now.book.now.universe piece r [] [] (statement_of rule.now.formula))) }
        ensures reads { OnOk result (draft.new.reads ≡ draft.old.reads ++
            piece_cells self.now.book.now.universe [] (statement_of rule.now.formula)) }
    {
        draft.nodes.clauses.push(&[literal(p, true)])?;
        draft.nodes.names.add_axiom(AxiomRef::Rule(r))?;
        let count = count_pieces(self.book, &rule.formula);
        draft.owners.push(Span {
            first: piece,
            count,
        })?;
        let path = NodePath {
            rule: r,
            steps: Vec::new(self.alloc),
        };
        let root = Place {
            path: &path,
            scope: &[],
            first: p,
        };
        self.walk(draft, root, &rule.formula, piece)
    }

    /// Makes the rules, whose nodes begin with the variable `first`, and their pieces with the group `piece`.
    pub(crate) fn walk_rules(
        &self,
        draft: &mut Draft,
        rules: &[Rule],
        first: u32,
        piece: u32,
    ) -> Result<u32, AllocError>
        requires sorted { AreRulesSorted self.now.book.now.universe (map rule_of rules.now) }
        requires few { length rules.now ≤ most_rules }
        requires room { first + sum_by (nodes_of_rule self.now.book.now.universe)
            (map rule_of rules.now) < 2 ^ 32 }
        requires pieces { piece + piece_count_of_rules self.now.book.now.universe
            (map rule_of rules.now) < 2 ^ 32 }
        ensures clauses { OnOk result (draft.new.nodes.clauses ≡ draft.old.nodes.clauses ++
            rules_clauses self.now.book.now.universe self.now.cells.now first
            (map rule_of rules.now)) }
        ensures names { OnOk result (draft.new.nodes.names ≡ named draft.old.nodes.names
            (nodes_from self.now.book.now.universe 0 (map rule_of rules.now))
            (map name_of (rules_axioms self.now.book.now.universe 0 (map rule_of rules.now)))) }
        ensures owners { OnOk result (draft.new.owners.items ≡ draft.old.owners.items ++
            spans_of_rules self.now.book.now.universe piece 0 (map rule_of rules.now)) }
        ensures reads { OnOk result (draft.new.reads ≡ draft.old.reads ++ piece_cells_of_rules
            self.now.book.now.universe (map rule_of rules.now)) }
        ensures next { IfOk result
            (λ n. n ≡ first + sum_by (nodes_of_rule self.now.book.now.universe)
            (map rule_of rules.now)) }
    {
        let mut next = first;
        let mut at = piece;
        for (r, rule) in rules.iter().enumerate() {
            self.walk_rule(draft, r as u32, rule, next, at)?;
            next += count_nodes(self.book, &rule.formula);
            at += count_pieces(self.book, &rule.formula);
        }
        Ok(next)
    }
}
