// Paths to nodes.
ghost use Rattle.std.specs.Prelude.{◌<◌, ◌++◌, codes, length};
ghost use Rattle.std.specs.List.{flat_map};
ghost use Rattle.pc_writer.specs.Writes.{Writes};
ghost use Rattle.pc_cert_text.specs.CertificateText.{number_text, path_text, name_of_rule_at};

use crate::number::write_number;
use pc_books::Book;
use pc_port::{Failed, Sink};
use pc_writer::write_text;

/// Writes the rule's name and the steps on the way from its root.
pub(crate) fn write_path<O: Sink>(
    book: &Book,
    rule: u32,
    steps: &[u32],
    out: &mut O,
) -> Result<(), Failed>
    requires { rule < length book.now.rules }
    ensures { Writes O.given O.faults out.old out.new result (path_text book.now rule steps.now) }
{
    write_text(b"@", out)?;
    write_rule_name(book, rule, out)?;
    write_steps(steps, out)
}

/// Writes the name of a rule.
pub(crate) fn write_rule_name<O: Sink>(book: &Book, rule: u32, out: &mut O) -> Result<(), Failed>
    requires { rule < length book.now.rules }
    ensures { Writes O.given O.faults out.old out.new result (name_of_rule_at book.now rule) }
{
    write_text(book.rules()[rule as usize].name.as_str().as_bytes(), out)
}

fn write_steps<O: Sink>(steps: &[u32], out: &mut O) -> Result<(), Failed>
    ensures { Writes O.given O.faults out.old out.new result
        (flat_map (λ k. codes "/" ++ number_text k) steps.now) }
{
    for step in steps {
        write_step(*step, out)?;
    }
    Ok(())
}

fn write_step<O: Sink>(step: u32, out: &mut O) -> Result<(), Failed>
    ensures { Writes O.given O.faults out.old out.new result (codes "/" ++ number_text step) }
{
    write_text(b"/", out)?;
    write_number(u64::from(step), out)
}
