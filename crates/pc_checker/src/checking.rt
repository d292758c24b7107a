//! The check of a certificate.

ghost use Rattle.pc_checker.specs.Made.{IsMadeFor};
ghost use Rattle.std.specs.Prelude.{◌≡◌};
ghost use Rattle.pc_checker.specs.inside.Parts.{fault_at};
ghost use Rattle.pc_checker.specs.Verdicts.{IsVerdict};
ghost use Rattle.pc_cert.specs.Views.{reading_of};

use crate::claim::claim_verdict;
use crate::derivation::{ends_among, first_bad};
use crate::scratch::Scratch;
use crate::verdict::Verdict;
use pc_books::Book;
use pc_cert::{Cert, CertLine, CertPart};

/// Tests a certificate that was read for this book, and answers for the first test that fails. The scratch was made
/// for both, and serves again. It takes no memory.
pub fn check(book: &Book, cert: &Cert, scratch: &mut Scratch) -> Verdict
    requires { IsMadeFor book.now cert.now scratch.old }
    ensures verdict { IsVerdict book.now (reading_of cert.now) result }
    ensures kept { IsMadeFor book.now cert.now scratch.new }
{
    if let Some(verdict) = claim_verdict(
        book,
        cert,
        &scratch.entered,
        &scratch.assignment,
        &scratch.sets,
        scratch.apart,
        &mut scratch.pairs,
    ) {
        return verdict;
    }
    let bad = first_bad(
        &cert.lines,
        &scratch.axioms,
        &scratch.clauses,
        &mut scratch.values,
    );
    if let Some(place) = bad {
        return fault_of(&cert.lines[place]);
    }
    if ends_among(&scratch.clauses, &scratch.allowed, &mut scratch.values) {
        Verdict::Accepted
    } else {
        Verdict::WrongEnd
    }
}

// The verdict on a line at fault.
fn fault_of(line: &CertLine) -> Verdict
    ensures { result ≡ fault_at line.now }
{
    match line.part {
        CertPart::Axiom(_) => Verdict::BadAxiom { line: line.line },
        CertPart::Step { .. } => Verdict::BadStep { line: line.line },
        CertPart::Block(_) => Verdict::BadAxiom { line: line.line },
    }
}
