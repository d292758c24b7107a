// Laws over the definitions, each the contract of a function that does nothing.
ghost use Rattle.pc_gen.specs.Examples.{GeneratedLinesAreWorked};
ghost use Rattle.pc_gen.specs.Laws.{GeneratedSheetsAreWellFormed, GeneratedSheetsWeigh, GeneratedTextsAreCanonical, GeneratedTextsReadBack};

use pc_canonical_laws::texts_read_back;
use pc_sheet::cells_are_numbered_in_order;

/// The lines of the entries of three blocks.
pub fn lines_are_worked()
    ensures { GeneratedLinesAreWorked }
{}

/// The generated sheet of 1 to 256 blocks is well formed.
pub fn generated_sheets_are_well_formed()
    ensures { GeneratedSheetsAreWellFormed }
{}

/// The generated sheet of n blocks weighs 130n + 4.
pub fn generated_sheets_weigh()
    ensures { GeneratedSheetsWeigh }
{}

/// The generated text of n blocks is the canonical text of the generated sheet.
pub fn generated_texts_are_canonical()
    ensures { GeneratedTextsAreCanonical }
{
    cells_are_numbered_in_order();
}

/// The generated text of 1 to 256 blocks reads as the generated sheet, so as a book of weight 130n + 4.
pub fn generated_texts_read_back()
    ensures { GeneratedTextsReadBack }
{
    generated_texts_are_canonical();
    texts_read_back();
}
