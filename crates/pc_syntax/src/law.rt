// Laws of the definitions.
ghost use Rattle.std.specs.Prelude.{◌≡◌, ℕ, List};
ghost use Rattle.pc_syntax.specs.Line.{LineForm, IsLine};
ghost use Rattle.pc_syntax.specs.Command.{CommandReading, IsCommandReading};
ghost use Rattle.pc_syntax.specs.Sheet.{SheetReading, IsSheetReading};

/// A line has at most one form, and a command line and a text have at most one reading.
pub fn one_reading()
    ensures line { (line : List ℕ) (f g : LineForm) → IsLine line f → IsLine line g → f ≡ g }
    ensures command { (line : List ℕ) (q r : CommandReading) → IsCommandReading line q →
        IsCommandReading line r → q ≡ r }
    ensures sheet { (text : List ℕ) (q r : SheetReading) → IsSheetReading text q →
        IsSheetReading text r → q ≡ r }
{}
