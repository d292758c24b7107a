//! The pages of a spreadsheet, written.
ghost use Rattle.std.specs.Prelude.{◌≡◌, ℕ, ◌<◌, ◌-◌, AllPairs, List, length, map, string_bytes};
ghost use Rattle.pc_ground.specs.Naming.{names_of};
ghost use Rattle.pc_repairs.specs.Listed.{ComesFirst};
ghost use Rattle.pc_world_list.specs.Worlds.{set_of};
ghost use Rattle.pc_world_list.specs.FewSets.{AreMaximalSets};
ghost use Rattle.pc_world_list.specs.RuleCertificates.{GoesAgainst, IsAgainstRule};
ghost use Rattle.pc_accept.specs.Accepts.{Certificate, repairs};
ghost use Rattle.pc_cert_text.specs.CertificateText.{certificate_text};
ghost use Rattle.pc_sheet.specs.Sheet.{Statement};
ghost use Rattle.pc_world_list.specs.SetCertificates.{AreCertified, claim_on_sets};
ghost use Rattle.pc_world_list.specs.declared.set_proof.SetsClaim.TheVariants.{Lacking, Repairs};
ghost use Rattle.pc_sheet.specs.Entailment.{IsImplied};
ghost use Rattle.pc_reason.specs.Targets.{IsTargetIn};
ghost use Rattle.pc_writer.specs.Writes.{Writes};
ghost use Rattle.pc_spreadsheet.specs.Commands.{state_of};
ghost use Rattle.pc_spreadsheet.specs.Pages.{CanShow, Certifies, IsCertificateAgainst, IsCertificateOnSets, IsAnsweredIn, IsPage, IsWhy, IsWhyNot, ProvesAsked};
ghost use Rattle.pc_writer.specs.SheetText.{ended};
ghost use Rattle.pc_display.specs.Show.{IsShown};
ghost use Rattle.pc_display.specs.Grid.{IsGrid};
ghost use Rattle.pc_display.specs.Json.{IsJson};

use crate::page::{AskProof, Page};
use pc_books::{Book, well_formed};
use pc_cert_text::{write_against, write_refutation, write_sets, write_why};
use pc_display::{grid, sheet_has_one_display, show};
use pc_port::{Failed, Sink};
use pc_reason::{Proof, Reasons, Refutation};
use pc_session::Session;
use pc_sheet::Target;
use pc_world_list::SetProof;
use pc_writer::{write_sheet, write_text};

/// A book has a display, a table and a display as JSON. Nothing is done.
pub(crate) fn has_displays(book: &Book)
    ensures shown { (text : List ℕ) × IsShown book.now text }
    ensures grid { (text : List ℕ) × IsGrid book.now text }
    ensures json { (text : List ℕ) × IsJson book.now text }
{
    sheet_has_one_display();
    book.entries();
}

// Writes the display.
fn write_display<O: Sink>(session: &Session, out: &mut O) -> Result<(), Failed>
    ensures { (text : List ℕ) × IsShown session.now.sheet text ×
        Writes O.given O.faults out.old out.new result text }
{
    has_displays(session.book());
    show(session, out)
}

// Writes the display as a table.
fn write_table<O: Sink>(session: &Session, out: &mut O) -> Result<(), Failed>
    ensures { (text : List ℕ) × IsGrid session.now.sheet text ×
        Writes O.given O.faults out.old out.new result text }
{
    has_displays(session.book());
    grid(session, out)
}

// Writes a text and the end of its line.
fn write_line<O: Sink>(text: &String, out: &mut O) -> Result<(), Failed>
    ensures { Writes O.given O.faults out.old out.new result (ended (string_bytes text.now)) }
{
    write_text(text.as_bytes(), out)?;
    write_text(b"\n", out)
}

// Writes why the target is implied, or that it isn't.
fn show_why<O: Sink>(session: &Session, target: Target, out: &mut O) -> Result<(), Failed>
    requires { IsTargetIn session.now.sheet.universe target }
    ensures { (text : List ℕ) × IsWhy session.now.sheet target text ×
        Writes O.given O.faults out.old out.new result text }
{
    match session.reason(target) {
        None => write_text(b"not implied\n", out),
        Some(_) => write_why(session, target, out),
    }
}

// Writes a certificate of the book's maximal sets.
fn write_proof<O: Sink>(session: &Session, proof: &SetProof, out: &mut O) -> Result<(), Failed>
    requires certified { AreCertified session.now.sheet (names_of session.now.sheet) proof.now }
    requires sets { AreMaximalSets session.now.sheet (map set_of proof.now.worlds) }
    requires order { AllPairs (ComesFirst session.now.sheet.entries) (map set_of proof.now.worlds) }
    ensures { (text : List ℕ) ×
        IsCertificateOnSets session.now.sheet (claim_on_sets proof.now.claim) text ×
        Writes O.given O.faults out.old out.new result text }
{
    write_sets(session.book(), session.ground().names(), proof, out)
}

// Writes the certificate that the maximal sets are all that there are.
fn write_repairs<O: Sink>(session: &Session, proof: &SetProof, out: &mut O) -> Result<(), Failed>
    requires { Certifies session.now.sheet Repairs proof.now }
    ensures { (text : List ℕ) × IsCertificateOnSets session.now.sheet repairs text ×
        Writes O.given O.faults out.old out.new result text }
{
    write_proof(session, proof, out)
}

// Writes the certificate of a target that isn't implied.
fn write_unimplied<O: Sink>(
    session: &Session,
    target: Target,
    proof: &SetProof,
    out: &mut O,
) -> Result<(), Failed>
    requires unimplied { ¬ IsImplied session.now.sheet target }
    requires certified { Certifies session.now.sheet (Lacking target) proof.now }
    ensures { (text : List ℕ) × IsWhyNot session.now.sheet target text ×
        Writes O.given O.faults out.old out.new result text }
{
    write_proof(session, proof, out)
}

// The number of the last rule.
fn last_rule(book: &Book) -> u32
    requires { 0 < length book.now.rules }
    ensures { result ≡ length book.now.rules - 1 }
{
    well_formed(book);
    let count = book.rules().len();
    (count - 1) as u32
}

// Writes the certificate against the last rule of the asked book.
fn write_asked<O: Sink>(proof: &AskProof, out: &mut O) -> Result<(), Failed>
    requires some { 0 < length proof.now.book.rules }
    requires against { GoesAgainst proof.now.book proof.now.names (length proof.now.book.rules - 1)
        proof.now.support.items proof.now.shown proof.now.lines proof.now.span }
    ensures { (c : Certificate) × IsAgainstRule proof.now.book (length proof.now.book.rules - 1)
        proof.now.support.items c ×
        Writes O.given O.faults out.old out.new result (certificate_text proof.now.book c) }
{
    let lines = Proof {
        log: &proof.lines,
        names: &proof.names,
        span: proof.span,
    };
    write_against(
        &proof.book,
        last_rule(&proof.book),
        &proof.support,
        &proof.shown,
        lines,
        out,
    )
}

// Writes why a formula is implied.
fn write_answer<O: Sink>(session: &Session, proof: &AskProof, out: &mut O) -> Result<(), Failed>
    requires { (f : Statement) × ProvesAsked session.now.sheet f proof.now }
    ensures { (text : List ℕ) × IsAnsweredIn session.now.sheet proof.now.book text ×
        Writes O.given O.faults out.old out.new result text }
{
    let _view = session;
    write_asked(proof, out)
}

/// Writes a page.
pub(crate) fn write_page<O: Sink>(session: &Session, page: &Page, out: &mut O) -> Result<(), Failed>
    requires { CanShow page.now (state_of session.now) }
    ensures { (text : List ℕ) × IsPage page.now (state_of session.now) text ×
        Writes O.given O.faults out.old out.new result text }
{
    match page {
        Page::Display => write_display(session, out),
        Page::Grid => write_table(session, out),
        Page::Json(text) => write_line(text, out),
        Page::SheetText => write_sheet(session.book(), out),
        Page::Why(target) => show_why(session, *target, out),
        Page::Listed(text) => write_text(text.as_slice(), out),
        Page::Proof(proof) => write_repairs(session, proof, out),
        Page::Implied(_) => write_text(b"implied\n", out),
        Page::Unimplied(target, proof) => write_unimplied(session, *target, proof, out),
        Page::Answered(proof) => write_answer(session, proof, out),
        Page::Unanswered(_) => write_text(b"not implied\n", out),
    }
}

/// A refutation has a certificate. Nothing is done.
pub(crate) fn has_certificate(refutation: &Refutation)
    ensures { (text : List ℕ) × IsCertificateAgainst refutation.now text }
{
    refutation.proof();
}

/// Writes the certificate of a refutation.
pub(crate) fn write_certificate<O: Sink>(refutation: &Refutation, out: &mut O) -> Result<(), Failed>
    ensures { (text : List ℕ) × IsCertificateAgainst refutation.now text ×
        Writes O.given O.faults out.old out.new result text }
{
    write_refutation(refutation, out)
}
