//! A whole book: its theory, the worlds of its parts, and the reasons of all targets.
ghost use Rattle.std.specs.Prelude.{◌≡◌, ◌+◌, ◌≤◌, ℕ, [], IfErr, IfOk, length, sum_by};
ghost use Rattle.pc_sheet.specs.Limits.{most_weight};
ghost use Rattle.pc_sheet.specs.Weight.{weight};
ghost use Rattle.pc_cache.specs.Patches.{patch_bytes};
ghost use Rattle.pc_components.specs.View.{AreComponentsOf};
ghost use Rattle.pc_ground.specs.Grounded.{grounded};
ghost use Rattle.pc_kept.specs.Components.{AreKeptOf};
ghost use Rattle.pc_reason.specs.Fitting.{IsFitting};
ghost use Rattle.pc_theory.specs.inside.Searching.{AreSearched};
ghost use Rattle.pc_theory.specs.inside.Starting.{HaltSays};
ghost use Rattle.pc_theory.specs.inside.Tasks.{IsReady};
ghost use Rattle.pc_theory.specs.KeptBytes.{part_bytes, spent_bytes};
ghost use Rattle.pc_theory.specs.Theories.{rules_alone};
ghost use Rattle.pc_theory.specs.Books.{AreFound, IsCause, IsFoundIn, IsPartCause};

use crate::searching::search_parts;
use crate::spending::{PartSpending, Spending};
use crate::starting::start_parts;
use crate::stop::Halt;
use crate::task::{BookTask, Fitted};
use crate::theory::Theory;
use crate::totals::total;
use pc_accept::certificates_are_sound;
use pc_axiom_names::Names;
use pc_books::{Assignment, Book, few_cells, well_formed};
use pc_cache::Patch;
use pc_components::{Components, find_components};
use pc_ground::{Ground, GroundFault, ground_book};
use pc_justify_laws::names_are_of_their_sheet;
use pc_kept::kept_components;
use pc_kept::laws::none_is_contained_by_polarity;
use pc_log::{Log, Span};
use pc_parts::{divisions_divide, parts_are_a_division, parts_are_found};
use pc_solver::SpareTrails;
use pc_world_list::Worlds;
use std::alloc::{AllocError, Global};
use std::collections::VecDeque;

/// A derivation of the empty clause, with the names of its variables and axioms.
#[derive(Drop)]
pub struct Disproof {
    pub names: Names,
    pub log: Log,
    pub span: Span,
}

/// Why a book has no theory.
#[derive(Drop)]
pub enum Fault {
    /// It weighs more than 4,000,000.
    TooLarge,
    /// No assignment makes every rule true.
    Inconsistent(Disproof),
    /// The budget ran out.
    Spent(Spending),
    /// Memory was wanting.
    Memory,
}

impl From<AllocError> for Fault {
    ghost use Rattle.pc_theory.specs.declared.book.Fault.TheVariants.{Memory};

    ghost from_gives = { λ _ fault. fault ≡ Memory };

    fn from(_: AllocError) -> Fault {
        Fault::Memory
    }
}

impl From<GroundFault> for Fault {
    ghost use Rattle.pc_theory.specs.Books.{fault_of};

    ghost from_gives = { λ ground fault. fault ≡ fault_of ground };

    fn from(fault: GroundFault) -> Fault {
        match fault {
            GroundFault::TooLarge => Fault::TooLarge,
            GroundFault::Memory => Fault::Memory,
        }
    }
}

/// What is found of a whole book: its theory, the worlds of each part, and what was spent.
#[derive(Drop)]
pub struct FoundBook {
    pub theory: Theory,
    pub worlds: Vec<Worlds>,
    pub spending: Spending,
}

// What is found of a book's parts.
struct Searched {
    base: Assignment,
    worlds: Vec<Worlds>,
    spending: Spending,
}

// An assignment that fits, and the worlds of each part.
#[derive(Drop)]
struct Listed {
    base: Assignment,
    worlds: Vec<Worlds>,
}

// What a span derives, a spending, or that memory was wanting.
enum PartFault {
    Inconsistent(Log, Span),
    Spent(Spending),
    Memory,
}

impl From<AllocError> for PartFault {
    ghost use Rattle.pc_theory.specs.declared.book.PartFault.TheVariants.{Memory};

    ghost from_gives = { λ _ fault. fault ≡ Memory };

    fn from(_: AllocError) -> PartFault {
        PartFault::Memory
    }
}

// A book's clauses, its parts, and the parts with the axioms that searches take.
struct Parted {
    ground: Ground,
    components: Components,
    searched: Components,
}

// First asks each part whether its rules are consistent, and then lists its worlds and finds its reasons. The trails serve one
// part after the other.
fn list_parts(
    task: BookTask<'_>,
    spent: &mut u64,
    parts: &mut Vec<PartSpending>,
    patch: &mut Patch,
) -> Result<Listed, Halt>
    requires ready { IsReady task.book.now task.ground.now task.components.now }
    requires few { length task.components.now.cells ≤ 4097 }
    requires blank { patch.old.rows ≡ [] }
    requires none { parts.old.items ≡ [] }
    requires nothing { spent.old ≡ 0 }
    ensures base { IfOk result (λ l. IsFitting task.entry.book.now l.base) }
    ensures searched { IfOk result (λ l. AreSearched task.entry.book.now task.entry.components.now
        (length task.entry.components.now.cells) l.worlds.items patch.new.rows spent.new
        parts.new.items) }
    ensures bytes { IfOk result (λ _. patch_bytes patch.new ≤ patch_bytes patch.old +
        sum_by (part_bytes task.entry.components.now) parts.new.items) }
    ensures within { spent.new ≤ task.entry.budget }
    ensures halt { IfErr result (HaltSays task.entry.book.now task.entry.components.now
        task.entry.budget spent.new parts.new.items) }
{
    divisions_divide();
    let mut solvers = Vec::new(task.alloc);
    let mut trails = SpareTrails::new(task.alloc, task.ground.variables());
    let base = start_parts(task, spent, &mut trails, parts, &mut solvers)?;
    let worlds = search_parts(
        Fitted { task, base: &base },
        spent,
        parts,
        VecDeque::from_vec(solvers),
        &mut trails,
        patch,
    )?;
    Ok(Listed { base, worlds })
}

// Searches a book's parts, and tells what was spent.
fn search_task(task: BookTask<'_>, patch: &mut Patch) -> Result<Searched, PartFault>
    requires ready { IsReady task.book.now task.ground.now task.components.now }
    requires few { length task.components.now.cells ≤ 4097 }
    requires blank { patch.old.rows ≡ [] }
    ensures found { IfOk result (λ s. IsFoundIn task.entry.book.now task.entry.components.now
        task.entry.budget s.base s.worlds.items patch.new.rows s.spending) }
    ensures bytes { IfOk result (λ s. patch_bytes patch.new ≤ patch_bytes patch.old +
        spent_bytes task.entry.components.now s.spending) }
    ensures fault { IfErr result (IsPartCause task.entry.book.now task.entry.budget) }
{
    none_is_contained_by_polarity();
    let mut spent = 0;
    let mut parts = Vec::new(task.alloc);
    match list_parts(task, &mut spent, &mut parts, patch) {
        Ok(listed) => {
            let spending = total(parts, spent, task.budget)?;
            Ok(Searched {
                base: listed.base,
                worlds: listed.worlds,
                spending,
            })
        }
        Err(Halt::Inconsistent(log, span)) => Err(PartFault::Inconsistent(log, span)),
        Err(Halt::Spent) => Err(PartFault::Spent(total(parts, spent, task.budget)?)),
        Err(Halt::Memory) => Err(PartFault::Memory),
    }
}

// Grounds a book, divides it into parts, and chooses of each part the axioms that searches take.
fn part_book(alloc: Global, book: &Book) -> Result<Parted, Fault>
    ensures ready { IfOk result (λ p. IsReady book.now p.ground p.searched) }
    ensures few { IfOk result (λ p. length p.searched.cells ≤ 4097) }
    ensures components { IfOk result (λ p. AreComponentsOf (rules_alone book.now) p.components) }
    ensures chosen { IfOk result (λ p. AreKeptOf (rules_alone book.now) p.components p.searched) }
    ensures light { IfOk result (λ _. weight book.now ≤ most_weight) }
    ensures fault { (budget : ℕ) → IfErr result (IsCause book.now budget) }
{
    parts_are_a_division();
    parts_are_found();
    names_are_of_their_sheet();
    well_formed(book);
    few_cells(book);
    let ground = ground_book(alloc, book)?;
    let components = find_components(alloc, book, &ground)?;
    let searched = kept_components(alloc, book, &ground, &components)?;
    Ok(Parted {
        ground,
        components,
        searched,
    })
}

// Why the search of the parts of a book that isn't too large ended.
fn end_with(book: &Book, fault: PartFault, ground: Ground) -> Fault
    requires ground { ground ≡ grounded book.now }
    requires light { weight book.now ≤ most_weight }
    ensures { (budget : ℕ) → IsPartCause book.now budget fault → IsCause book.now budget result }
{
    certificates_are_sound();
    match fault {
        PartFault::Inconsistent(log, span) => Fault::Inconsistent(Disproof {
            names: ground.into_names(),
            log,
            span,
        }),
        PartFault::Spent(spending) => Fault::Spent(spending),
        PartFault::Memory => Fault::Memory,
    }
}

/// Grounds a book, divides it into parts, chooses of each part the axioms that searches take, and makes one call of a solver for
/// each part, which tells whether the rules are consistent. Then each part's worlds are listed, and the reasons of all targets
/// are put into the patch, which is empty. The solver of a part's first call serves its reasons, so that a part has at most
/// three logs.
pub fn search_book(
    alloc: Global,
    book: &Book,
    budget: u64,
    patch: &mut Patch,
) -> Result<FoundBook, Fault>
    requires blank { patch.old.rows ≡ [] }
    ensures found { IfOk result (λ f. AreFound book.now budget f.theory f.worlds.items
        patch.new.rows f.spending) }
    ensures bytes { IfOk result (λ f. patch_bytes patch.new ≤ patch_bytes patch.old +
        spent_bytes f.theory.components f.spending) }
    ensures light { IfOk result (λ _. weight book.now ≤ most_weight) }
    ensures fault { IfErr result (IsCause book.now budget) }
{
    let Parted {
        ground,
        components,
        searched,
    } = part_book(alloc, book)?;
    let task = BookTask {
        alloc,
        book,
        ground: &ground,
        components: &searched,
        budget,
    };
    match search_task(task, patch) {
        Ok(
            Searched {
                base,
                worlds,
                spending,
            },
        ) => Ok(FoundBook {
            theory: Theory {
                ground,
                components,
                searched,
                base,
            },
            worlds,
            spending,
        }),
        Err(fault) => Err(end_with(book, fault, ground)),
    }
}
