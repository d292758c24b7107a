//! The search of one part, whose rules are known.
ghost use Rattle.std.specs.Prelude.{◌≡◌, ◌+◌, ◌≤◌, IfErr, IfOk, OnOk};
ghost use Rattle.pc_cache.specs.Patches.{patch_bytes};
ghost use Rattle.pc_parts.specs.Parts.{Part};
ghost use Rattle.pc_search.specs.Found.{Finds};
ghost use Rattle.pc_search.specs.Parts.{AreWorldsOf};
ghost use Rattle.pc_sheet.specs.Entailment.{cell_sizes};
ghost use Rattle.pc_solver.specs.Spending.{StopSays};
ghost use Rattle.pc_theory.specs.Edits.{IsBlankOn, IsSpentAlone};
ghost use Rattle.pc_theory.specs.inside.PartTasks.{AreEntriesOf, IsTaskOf};
ghost use Rattle.pc_theory.specs.KeptBytes.{part_bytes};
ghost use Rattle.pc_theory.specs.Targets.{AreAsked};
ghost use Rattle.pc_theory.specs.Theories.{rules_alone, IsPartNumbered, IsTheory};

use crate::entries::entries_of;
use crate::spending::PartSpending;
use crate::theory::Theory;
use crate::trails::{borrow, empty_one, empty_two, give_back};
use pc_books::{Book, few_cells, well_formed};
use pc_cache::Patch;
use pc_kept::laws::{kept_parts_are_searched, none_is_contained_by_polarity};
use pc_search::PartTask;
use pc_sheet::{Entry, Target};
use pc_solver::{SpareTrails, Stop};
use pc_world_list::Worlds;
use std::alloc::{AllocError, Global};

/// Targets on the cells of one part of a book whose rules are known.
#[derive(Clone, Copy)]
pub struct PartTargets<'a> {
    pub alloc: Global,
    pub book: &'a Book,
    /// What is known of the book's rules.
    pub theory: &'a Theory,
    /// The part's number.
    pub part: usize,
    pub targets: &'a [Target],
}

impl<'a> PartTargets<'a> {
    // The entries on the part's cells, oldest first.
    fn entries(self) -> Result<Vec<Entry>, AllocError>
        requires { IsTheory (rules_alone self.book.now) self.theory.now }
        ensures { IfOk result (λ es. AreEntriesOf self.entry.book.now
            self.entry.theory.now.searched self.entry.part es.items) }
    {
        well_formed(self.book);
        let theory = self.theory;
        entries_of(self.alloc, self.book, &theory.searched, self.part)
    }

    // The task of the part, whose entries are given.
    fn task(self, entries: &'a [Entry]) -> PartTask<'a>
        requires theory { IsTheory (rules_alone self.book.now) self.theory.now }
        requires asked { AreAsked (cell_sizes self.book.now.universe) self.theory.now.components
            self.part self.targets.now }
        requires entries { AreEntriesOf self.book.now self.theory.now.searched self.part
            entries.now }
        ensures { IsTaskOf self.entry result }
    {
        kept_parts_are_searched();
        well_formed(self.book);
        few_cells(self.book);
        let theory = self.theory;
        PartTask {
            alloc: self.alloc,
            book: self.book,
            ground: &theory.ground,
            part: theory.searched.part(self.part),
            base: &theory.base,
            entries,
            targets: self.targets,
        }
    }

    /// Lists the worlds of the part, and finds for each of the targets its least support, or that there is none. What is spent
    /// goes to the place, which is blank. The spare trails serve the search as if they were new.
    pub fn search_part(
        self,
        spare: &mut SpareTrails,
        place: &mut PartSpending,
        patch: &mut Patch,
    ) -> Result<Worlds, Stop>
        requires theory { IsTheory (rules_alone self.book.now) self.theory.now }
        requires asked { AreAsked (cell_sizes self.book.now.universe) self.theory.now.components
            self.part self.targets.now }
        requires blank { IsBlankOn self.part place.old }
        ensures worlds { (p : Part) →
            IsPartNumbered (rules_alone self.entry.book.now) self.entry.part p →
            IfOk result (AreWorldsOf self.entry.book.now p) }
        ensures found { OnOk result
            (Finds self.entry.book.now (place.new.tally.learned + place.new.tally.calls)
            self.entry.targets.now patch.old.rows patch.new.rows) }
        ensures bytes { OnOk result (patch_bytes patch.new ≤ patch_bytes patch.old +
            part_bytes self.entry.theory.now.components place.new) }
        ensures spends { IsSpentAlone self.entry.book.now self.entry.theory.now.components
            self.entry.part place.new }
        ensures limit { place.new.tally.limit ≡ place.old.tally.limit }
        ensures stop { IfErr result (StopSays place.new.tally) }
        ensures spare { spare.new ≡ spare.old }
    {
        kept_parts_are_searched();
        none_is_contained_by_polarity();
        well_formed(self.book);
        let entries = self.entries()?;
        place.logs.reserve(2)?;
        let task = self.task(&entries);
        let mut trails = borrow(self.alloc, spare, task.ground.variables());
        empty_two(&mut trails)?;
        let outcome = task.search(&mut trails, &mut place.logs, &mut place.tally, patch);
        give_back(spare, trails);
        outcome
    }

    /// Finds for each of the targets its least support, or that there is none. The worlds are the part's. What is spent goes to
    /// the place, which is blank. The spare trails serve the search as if they were new.
    pub fn find_reasons(
        self,
        worlds: &Worlds,
        spare: &mut SpareTrails,
        place: &mut PartSpending,
        patch: &mut Patch,
    ) -> Result<(), Stop>
        requires theory { IsTheory (rules_alone self.book.now) self.theory.now }
        requires asked { AreAsked (cell_sizes self.book.now.universe) self.theory.now.components
            self.part self.targets.now }
        requires worlds { (p : Part) → IsPartNumbered (rules_alone self.book.now) self.part p →
            AreWorldsOf self.book.now p worlds.now }
        requires blank { IsBlankOn self.part place.old }
        ensures found { OnOk result
            (Finds self.entry.book.now (place.new.tally.learned + place.new.tally.calls)
            self.entry.targets.now patch.old.rows patch.new.rows) }
        ensures bytes { OnOk result (patch_bytes patch.new ≤ patch_bytes patch.old +
            part_bytes self.entry.theory.now.components place.new) }
        ensures spends { IsSpentAlone self.entry.book.now self.entry.theory.now.components
            self.entry.part place.new }
        ensures limit { place.new.tally.limit ≡ place.old.tally.limit }
        ensures stop { IfErr result (StopSays place.new.tally) }
        ensures spare { spare.new ≡ spare.old }
    {
        kept_parts_are_searched();
        none_is_contained_by_polarity();
        well_formed(self.book);
        let entries = self.entries()?;
        let task = self.task(&entries);
        let mut trails = borrow(self.alloc, spare, task.ground.variables());
        empty_one(&mut trails)?;
        let outcome = task.find_reasons(
            worlds,
            &mut trails,
            &mut place.logs,
            &mut place.tally,
            patch,
        );
        give_back(spare, trails);
        outcome
    }
}
