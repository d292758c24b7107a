// Where bytes come from.
ghost use Rattle.std.specs.Prelude.{ℕ, ◌<◌, List, Option, length};
ghost use Rattle.std.specs.Io.{ReadsAtMost};
ghost use Rattle.std.specs.Io.KnownBytes.{ReadConsumes};
ghost use Rattle.pc_port.specs.Port.{HasCause};

/// The one fault of a device.
#[derive(Clone, Copy, PartialEq, Eq)]
pub struct Failed;

/// Something that gives bytes, a few at a time.
pub trait Source {
    /// The bytes still to come, where they are told.
    ghost left: { Self → Option (List ℕ) };

    /// How often a call has failed. It never falls, and stays at its greatest value.
    ghost faults: { Self → ℕ };

    /// Puts the next bytes at the front of the buffer and says how many they are. `Ok(0)` is the end of input.
    /// A call that fails takes nothing from the bytes still to come.
    fn read(&mut self, into: &mut [u8]) -> Result<usize, Failed>
        requires { 0 < length into.old }
        ensures bound { ReadsAtMost result into.new }
        ensures bytes { ReadConsumes (left self.old) (left self.new) result into.new }
        ensures cause { HasCause (faults self.old) (faults self.new) result };
}
