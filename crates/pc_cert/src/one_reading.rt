// Laws over the definitions, each the contract of a function that does nothing.
ghost use Rattle.pc_cert.specs.Readings.{FormsSayOneThing, LinesHaveOneForm, TextsHaveOneReading, WhatIsReadIsBare, WhatIsReadIsForTheSheet, WhatIsReadSpeaksOfTheSheet};

use pc_elaborate::trees_have_one_outcome;
use pc_formula::one_value;
use pc_sheet::cells_are_numbered_in_order;
use pc_token::one_reading;

/// A line has at most one form. In a well-formed sheet a form says at most one thing, and a text has at most one reading:
/// one certificate, or one first line at fault with one fault, and never both.
pub fn certificates_have_one_reading()
    ensures form { LinesHaveOneForm }
    ensures saying { FormsSayOneThing }
    ensures text { TextsHaveOneReading }
{
    one_reading();
    one_value();
    trees_have_one_outcome();
}

/// What a text is read as in a sheet is a certificate for that sheet: its symbols are different, its literals are of these,
/// and it speaks of the sheet alone: its claim, sets, entries, axioms and literals are of cells, values, rules and nodes of the
/// sheet, and the sets' clauses are of its own sets. Beside a claim of inconsistency or on sets nothing is used and nothing has a
/// value, and beside another claim than one on sets there are none.
pub fn what_is_read_is_for_the_sheet()
    ensures read { WhatIsReadIsForTheSheet }
    ensures speaks { WhatIsReadSpeaksOfTheSheet }
    ensures bare { WhatIsReadIsBare }
{
    cells_are_numbered_in_order();
}
