//! What a search derives of sets, as what a certificate of them is made of.

ghost use Rattle.std.specs.Prelude.{◌≡◌, IfOk};
ghost use Rattle.pc_ground.specs.Naming.{names_of};
ghost use Rattle.pc_world_list.specs.SetCertificates.{AreCertified};
ghost use Rattle.pc_solver.specs.Solver.{IsLawfulLog};
ghost use Rattle.pc_world_list.specs.Worlds.{AreExact};
ghost use Rattle.pc_repairs.specs.Blocks.{blocks_for};
ghost use Rattle.pc_repairs.specs.Claims.{IsRightOn};
ghost use Rattle.pc_repairs.specs.Searches.{IsRefutedAt, whole_problem};

use pc_books::{Book, well_formed};
use pc_ground::laws::{pairs_are_variables, variables_have_their_places};
use pc_justify_laws::{
    names_are_of_their_sheet, own_lines_are_named_beside, trimmed_lines_derive_beside,
};
use pc_log::{Log, StepId, trim};
use pc_world_list::{SetProof, SetsClaim, Worlds};
use std::alloc::{AllocError, Global};

/// The certificate of the book's maximal sets, from a log that derives the empty clause from their blocks in the order of the
/// sets: what the line of the empty clause rests on.
pub fn prove(
    alloc: Global,
    book: &Book,
    claim: SetsClaim,
    sets: Worlds,
    log: &Log,
    last: StepId,
) -> Result<SetProof, AllocError>
    requires exact { AreExact book.now sets }
    requires right { IsRightOn book.now sets claim }
    requires lawful { IsLawfulLog (whole_problem book.now) (blocks_for book.now sets) log.now }
    requires refuted { IsRefutedAt book.now log.now last }
    ensures certified { IfOk result (AreCertified book.now (names_of book.now)) }
    ensures claim { IfOk result (λ p. p.claim ≡ claim) }
    ensures sets { IfOk result (λ p. p.worlds ≡ sets) }
{
    variables_have_their_places();
    pairs_are_variables();
    names_are_of_their_sheet();
    own_lines_are_named_beside();
    trimmed_lines_derive_beside();
    well_formed(book);
    log.few_lines();
    // The numbers of a certificate's sets have at most 18 digits, as those of its lines have.
    if sets.len() >= 1_000_000_000_000_000_000 {
        return Err(AllocError);
    }
    let mut kept = Log::new(alloc);
    let span = trim(alloc, log, last, &mut kept)?;
    Ok(SetProof::new(claim, sets, kept, span))
}
