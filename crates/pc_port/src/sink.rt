// Where bytes go.
ghost use Rattle.std.specs.Prelude.{ℕ, List, Option};
ghost use Rattle.pc_port.specs.Port.{HasCause, WriteGives};

use crate::Failed;

/// Something that takes bytes.
pub trait Sink {
    /// The bytes written so far, where they are told.
    ghost given: { Self → Option (List ℕ) };

    /// How often a call has failed. It never falls, and stays at its greatest value.
    ghost faults: { Self → ℕ };

    /// Appends the whole piece. A call that fails may have appended a front of it.
    fn write(&mut self, piece: &[u8]) -> Result<(), Failed>
        ensures bytes { WriteGives (given self.old) (given self.new) result piece.now }
        ensures cause { HasCause (faults self.old) (faults self.new) result };
}
