//! The law of what texts give.
ghost use Rattle.pc_load.specs.Laws.{TextsHaveOneOutcome};

use pc_elaborate::trees_have_one_outcome;
use pc_syntax::one_reading;

/// A text reads as one sheet, or it has one fault: two of these never hold together.
pub fn texts_have_one_outcome()
    ensures { TextsHaveOneOutcome }
{
    one_reading();
    trees_have_one_outcome();
}
