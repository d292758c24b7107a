// The lines of claims.
ghost use Rattle.std.specs.Prelude.{◌<◌, ◌++◌, length};
ghost use Rattle.pc_accept.specs.Accepts.{implied, against};
ghost use Rattle.pc_accept.specs.Writable.{IsTargetOf};
ghost use Rattle.pc_world_list.specs.SetCertificates.{claim_on_sets};
ghost use Rattle.pc_writer.specs.SheetText.{ended};
ghost use Rattle.pc_writer.specs.Writes.{Writes};
ghost use Rattle.pc_cert_text.specs.CertificateText.{claim_text, equality_text, target_text};
ghost use Rattle.pc_cert_text.specs.inside.Claims.{CanBeClaimed};

use crate::path::write_rule_name;
use pc_books::Book;
use pc_port::{Failed, Sink};
use pc_sheet::Target;
use pc_world_list::SetsClaim;
use pc_writer::{sort_of, write_cell, write_text, write_value};

/// Writes the line of the claim that a target is implied.
pub(crate) fn write_implied<O: Sink>(book: &Book, target: Target, out: &mut O) -> Result<(), Failed>
    requires { IsTargetOf book.now target }
    ensures { Writes O.given O.faults out.old out.new result
        (ended (claim_text book.now (implied target))) }
{
    write_target_line(book, b"claim ", target, out)
}

/// Writes the line of a claim on sets.
pub(crate) fn write_sets_claim<O: Sink>(
    book: &Book,
    claim: SetsClaim,
    out: &mut O,
) -> Result<(), Failed>
    requires { CanBeClaimed book.now claim }
    ensures { Writes O.given O.faults out.old out.new result
        (ended (claim_text book.now (claim_on_sets claim))) }
{
    match claim {
        SetsClaim::Repairs => write_text(b"claim repairs\n", out),
        SetsClaim::Lacking(target) => write_target_line(book, b"claim not ", target, out),
    }
}

/// Writes the line of the claim against a rule.
pub(crate) fn write_against_rule<O: Sink>(book: &Book, rule: u32, out: &mut O) -> Result<(), Failed>
    requires { rule < length book.now.rules }
    ensures { Writes O.given O.faults out.old out.new result
        (ended (claim_text book.now (against rule))) }
{
    write_against_name(book, rule, out)?;
    write_text(b"\n", out)
}

fn write_against_name<O: Sink>(book: &Book, rule: u32, out: &mut O) -> Result<(), Failed>
    requires { rule < length book.now.rules }
    ensures { Writes O.given O.faults out.old out.new result (claim_text book.now (against rule)) }
{
    write_text(b"claim against ", out)?;
    write_rule_name(book, rule, out)
}

// Writes a target behind words, and ends the line.
fn write_target_line<O: Sink>(
    book: &Book,
    words: &[u8],
    target: Target,
    out: &mut O,
) -> Result<(), Failed>
    requires { IsTargetOf book.now target }
    ensures { Writes O.given O.faults out.old out.new result
        (ended (words.now ++ target_text book.now.universe target)) }
{
    write_worded_target(book, words, target, out)?;
    write_text(b"\n", out)
}

fn write_worded_target<O: Sink>(
    book: &Book,
    words: &[u8],
    target: Target,
    out: &mut O,
) -> Result<(), Failed>
    requires { IsTargetOf book.now target }
    ensures { Writes O.given O.faults out.old out.new result
        (words.now ++ target_text book.now.universe target) }
{
    write_text(words, out)?;
    write_target(book, target, out)
}

fn write_target<O: Sink>(book: &Book, target: Target, out: &mut O) -> Result<(), Failed>
    requires { IsTargetOf book.now target }
    ensures { Writes O.given O.faults out.old out.new result
        (target_text book.now.universe target) }
{
    write_cell(book, target.cell, out)?;
    write_equality(target.holds, out)?;
    write_value(book, sort_of(book, target.cell), target.value, out)
}

fn write_equality<O: Sink>(holds: bool, out: &mut O) -> Result<(), Failed>
    ensures { Writes O.given O.faults out.old out.new result (equality_text holds) }
{
    if holds {
        write_text(b" = ", out)
    } else {
        write_text(b" != ", out)
    }
}
