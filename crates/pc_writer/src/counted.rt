// Whether the rules of a book count.
ghost use Rattle.std.specs.Prelude.{◌≡◌, map};
ghost use Rattle.pc_sheet.specs.Views.{statement_of, statements_of};
ghost use Rattle.pc_writer.specs.Counted.{has_count, has_counting, have_count};

use pc_books::Book;
use pc_sheet::Formula;

/// Whether some quantifier of a statement counts.
#[cycle(counted)]
fn has_count(formula: &Formula) -> bool
    ensures { result ≡ has_count (statement_of formula.now) }
{
    match formula {
        Formula::Compare { .. } => false,
        Formula::InTable { .. } => false,
        Formula::Not(part) => has_count(part),
        Formula::And(parts) => have_count(parts),
        Formula::Or(parts) => have_count(parts),
        Formula::Implies(left, right) => has_count(left) || has_count(right),
        Formula::Iff(left, right) => has_count(left) || has_count(right),
        Formula::ForAll { body, .. } => has_count(body),
        Formula::Exists { body, .. } => has_count(body),
        Formula::Count { .. } => true,
    }
}

/// Whether some quantifier of the parts of an `&` or an `|` counts.
#[cycle(counted)]
fn have_count(parts: &[Formula]) -> bool
    ensures { result ≡ have_count (statements_of (map statement_of parts.now)) }
{
    for part in parts {
        if has_count(part) {
            return true;
        }
    }
    false
}

/// Whether some rule counts.
pub(crate) fn has_counting(book: &Book) -> bool
    ensures { result ≡ has_counting book.now.rules }
{
    for rule in book.rules() {
        if has_count(&rule.formula) {
            return true;
        }
    }
    false
}
