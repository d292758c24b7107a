//! Loading a book: everything is made anew, part by part.
ghost use Rattle.std.specs.Prelude.{◌≡◌, ℕ, None, IfErr, IfOk};
ghost use Rattle.pc_cache.specs.Patches.{patch_bytes};
ghost use Rattle.pc_cache.specs.Rows.{row_after, row_of};
ghost use Rattle.pc_sheet.specs.declared.ids.Target.{Target};
ghost use Rattle.pc_theory.specs.Books.{IsCause};
ghost use Rattle.pc_theory.specs.Theories.{rules_alone, IsTheory};
ghost use Rattle.pc_session.specs.Causes.{IsLoadCause};
ghost use Rattle.pc_session.specs.inside.Chosen.{AreChosen};
ghost use Rattle.pc_session.specs.inside.Loaded.{IsLoaded};
ghost use Rattle.pc_session.specs.inside.Sessions.{ArePlaced, HavePlaces};

use crate::chosen::{Chosen, chosen_of};
use crate::refused::LoadRefused;
use crate::state::State;
use pc_books::Book;
use pc_cache::{Cache, Patch};
use pc_reason::Refutation;
use pc_solver::SpareTrails;
use pc_theory::{Disproof, Fault, FoundBook, Theory, search_book};
use std::alloc::{AllocError, Global};

// The reasons that were found, in their places.
fn kept(alloc: Global, book: &Book, patch: Patch) -> Result<Cache, AllocError>
    requires { ArePlaced book.now patch.rows }
    ensures places { IfOk result (λ cache. HavePlaces book.now cache.rows) }
    ensures rows { IfOk result (λ cache. (t : Target) →
        row_of cache.rows t ≡ row_after patch.rows t None) }
    ensures bytes { IfOk result (λ cache. cache.bytes ≡ patch_bytes patch) }
{
    let mut cache = Cache::new(alloc, book)?;
    cache.apply(patch)?;
    Ok(cache)
}

// The same, with the marks of the parts that have entries.
fn kept_marked(
    alloc: Global,
    book: &Book,
    theory: &Theory,
    patch: Patch,
) -> Result<(Cache, Chosen), AllocError>
    requires placed { ArePlaced book.now patch.rows }
    requires theory { IsTheory (rules_alone book.now) theory.now }
    ensures places { IfOk result (λ r. HavePlaces book.now r.0.rows) }
    ensures rows { IfOk result (λ r. (t : Target) →
        row_of r.0.rows t ≡ row_after patch.rows t None) }
    ensures bytes { IfOk result (λ r. r.0.bytes ≡ patch_bytes patch) }
    ensures chosen { IfOk result (λ r. AreChosen book.now r.1) }
{
    let cache = kept(alloc, book, patch)?;
    let chosen = chosen_of(alloc, book, theory)?;
    Ok((cache, chosen))
}

// Why the book isn't loaded, by what ended its search.
fn refused_load(book: Book, fault: Fault) -> LoadRefused
    requires { (budget : ℕ) × IsCause book budget fault }
    ensures { (budget : ℕ) → IsCause book budget fault → IsLoadCause book budget result }
{
    match fault {
        Fault::TooLarge => LoadRefused::TooLarge,
        Fault::Inconsistent(Disproof { names, log, span }) => {
            LoadRefused::Inconsistent(Refutation::new(book, names, log, span))
        }
        Fault::Spent(spending) => LoadRefused::Spent(book, spending),
        Fault::Memory => LoadRefused::Memory,
    }
}

/// Finds what is known of a book, within the budget.
pub(crate) fn load_state(alloc: Global, book: Book, budget: u64) -> Result<State, LoadRefused>
    ensures loaded { IfOk result (IsLoaded book budget) }
    ensures refused { IfErr result (IsLoadCause book budget) }
{
    let mut patch = Patch::new(alloc);
    match search_book(alloc, &book, budget, &mut patch) {
        Ok(
            FoundBook {
                theory,
                worlds,
                spending,
            },
        ) => {
            let (cache, chosen) = kept_marked(alloc, &book, &theory, patch)?;
            let tally = spending.tally;
            let trails = SpareTrails::new(alloc, theory.ground().variables());
            Ok(State {
                book,
                theory,
                worlds,
                chosen,
                cache,
                tally,
                trails,
            })
        }
        Err(fault) => Err(refused_load(book, fault)),
    }
}
