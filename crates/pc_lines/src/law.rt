//! Laws on the lines of a text.
ghost use Rattle.std.specs.Prelude.{◌≡◌, ℕ, List, map};
ghost use Rattle.std.specs.Str.Lines.{lines};
ghost use Rattle.pc_lines.specs.Lines.{lines_of, line_text_of};
ghost use Rattle.pc_lines.specs.Examples.{LineExamples};

/// The texts of the lines that a source gives one at a time are the lines of all its bytes.
pub fn lines_are_those_of_the_text()
    ensures same { (text : List ℕ) → map line_text_of (lines_of text) ≡ lines text }
    ensures worked { LineExamples }
{}
