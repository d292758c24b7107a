// The hints of a step.
ghost use Rattle.std.specs.Prelude.{◌≡◌, ◌+◌, All, Contains};
ghost use Rattle.std.specs.List.{flat_map};
ghost use Rattle.pc_log.specs.declared.log.StepId.{StepId};
ghost use Rattle.pc_log.specs.Sparse.{index_of};
ghost use Rattle.pc_writer.specs.Writes.{Writes};
ghost use Rattle.pc_cert_text.specs.inside.Steps.{hint_text, number_in, HasNumber};

use crate::lines::Lines;
use crate::number::write_number;
use pc_log::{Places, StepId};
use pc_port::{Failed, Sink};
use pc_writer::write_text;

/// Writes the number of each line that a hint names.
pub(crate) fn write_hints<O: Sink>(
    hints: &[StepId],
    lines: Lines<'_>,
    out: &mut O,
) -> Result<(), Failed>
    requires { All (λ h. HasNumber lines h.0) hints.now }
    ensures { Writes O.given O.faults out.old out.new result
        (flat_map (hint_text lines.entry) hints.now) }
{
    for hint in hints {
        write_hint(*hint, lines, out)?;
    }
    Ok(())
}

fn write_hint<O: Sink>(hint: StepId, lines: Lines<'_>, out: &mut O) -> Result<(), Failed>
    requires { HasNumber lines hint.0 }
    ensures { Writes O.given O.faults out.old out.new result (hint_text lines.entry hint) }
{
    write_text(b" ", out)?;
    write_number(number_of(hint, lines), out)
}

// The number of the line at a place, counted from 1.
fn number_of(place: StepId, lines: Lines<'_>) -> u64
    requires { HasNumber lines place.0 }
    ensures { result ≡ number_in lines.entry place.0 + 1 }
{
    match lines {
        Lines::Logged(_, span) => u64::from(place.0 - span.first.0) + 1,
        Lines::Shared(derivation) => number_among(place, derivation.places),
    }
}

// Its number by where it stands among these places.
fn number_among(place: StepId, places: &Places) -> u64
    requires { Contains places.now place.0 }
    ensures { result ≡ index_of place.0 places.now + 1 }
{
    let before = places.before(place.0 as usize);
    prove!(before < places.len());
    before as u64 + 1
}
