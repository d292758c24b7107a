//! The journal that the input has.
ghost use Rattle.std.specs.Prelude.{◌≡◌, ◌≢◌, ◌≤◌, ◌↔◌, length, MatchResult};
ghost use Rattle.pc_port.specs.Port.{Rose};
ghost use Rattle.pc_collab.specs.Reading.{IsTextOf, ReadGives};
ghost use Rattle.pc_journal.specs.inside.Taking.{JournalGives, TellsStop};

use crate::told::tell_fault;
use pc_collab::{JOURNAL_LIMIT, Journal, JournalFault, read_journal};
use pc_port::{Sink, Source};
use pc_refusals::{InputStop, Status, take_all, tell_input_stop};
use std::alloc::Global;

/// Why the input gives no journal.
#[derive(Clone, Copy, PartialEq, Eq)]
pub(crate) enum JournalStop {
    /// It wasn't read to its end.
    Input(InputStop),
    /// Its bytes are no journal's text.
    Text(JournalFault),
}

// Reads a journal's text.
fn read_text(alloc: Global, text: &[u8]) -> Result<Journal, JournalStop>
    requires { length text.now ≤ JOURNAL_LIMIT }
    ensures { MatchResult result (IsTextOf text.now) (λ stop. (fault : JournalFault) ×
        (stop ≡ JournalStop.Text fault) × ReadGives text.now (Err fault)) }
{
    match read_journal(alloc, text) {
        Ok(journal) => Ok(journal),
        Err(fault) => Err(JournalStop::Text(fault)),
    }
}

/// The journal of which the input is the text, read to its end.
pub(crate) fn take_journal<I: Source>(alloc: Global, input: &mut I) -> Result<Journal, JournalStop>
    ensures gives { JournalGives result (I.left input.old) (I.left input.new) }

    // A fault is told exactly where the input was at fault.
    ensures cause { result ≡ Err (JournalStop.Input InputStop.Failed) →
        Rose (I.faults input.old) (I.faults input.new) }
    ensures kept { result ≢ Err (JournalStop.Input InputStop.Failed) →
        I.faults input.new ≡ I.faults input.old }
{
    match take_all(alloc, JOURNAL_LIMIT, input) {
        Ok(text) => read_text(alloc, &text),
        Err(stop) => Err(JournalStop::Input(stop)),
    }
}

/// Ends a run whose input gives no journal. A failed read is told by the status alone.
pub(crate) fn tell_stop<O: Sink>(stop: JournalStop, out: &mut O) -> Status
    ensures told { TellsStop stop result (O.given out.old) (O.given out.new) }
    ensures read { result ≡ Status.ReadFault ↔ stop ≡ JournalStop.Input InputStop.Failed }
    ensures fault { result ≡ Status.WriteFault → Rose (O.faults out.old) (O.faults out.new) }
    ensures no_fault { result ≢ Status.WriteFault → O.faults out.new ≡ O.faults out.old }
{
    match stop {
        JournalStop::Input(stop) => tell_input_stop(stop, out),
        JournalStop::Text(fault) => tell_fault(b"input", fault, out),
    }
}
