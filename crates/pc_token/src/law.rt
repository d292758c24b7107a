// Laws of the definitions.
ghost use Rattle.std.specs.Prelude.{◌≡◌, ℕ, List};
ghost use Rattle.pc_token.specs.Token.{LineReading, IsReadingOf};

/// A line has at most one reading: its tokens, or its first fault.
pub fn one_reading()
    ensures { (line : List ℕ) (q r : LineReading) → IsReadingOf line q → IsReadingOf line r →
        q ≡ r }
{}
