//! How many cell applications are written in an atom.
ghost use Rattle.std.specs.Prelude.{◌≡◌, ◌+◌, ◌≤◌, map, min};
ghost use Rattle.pc_sheet.specs.Limits.{most_reads};
ghost use Rattle.pc_sheet.specs.Views.{item_of, items_of, sum_of};
ghost use Rattle.pc_sheet.specs.WellSorted.{reads_in, reads_in_items, reads_in_sum};

use pc_books::{Side, Term};
use pc_sheet::MOST_READS;

/// One more than an atom may have. Counts go no further.
const TOO_MANY: usize = MOST_READS + 1;

/// The sum of two counts.
fn counted(some: usize, more: usize) -> usize
    requires some { some ≤ most_reads + 1 }
    requires more { more ≤ most_reads + 1 }
    ensures { result ≡ min (some + more) (most_reads + 1) }
{
    (some + more).min(TOO_MANY)
}

/// The applications in a term.
#[cycle(reads)]
fn reads_in_term(term: &Term) -> usize
    ensures { result ≡ min (reads_in (item_of term.now)) (most_reads + 1) }
{
    match term {
        Term::Variable(_) => 0,
        Term::Value(_, _) => 0,
        Term::Number(_) => 0,
        Term::Cell { args, .. } => counted(1, reads_in_terms(args)),
    }
}

/// The applications in arguments.
#[cycle(reads)]
pub(crate) fn reads_in_terms(terms: &[Term]) -> usize
    ensures { result ≡ min (reads_in_items (items_of (map item_of terms.now))) (most_reads + 1) }
{
    let mut reads = 0;
    for term in terms {
        reads = counted(reads, reads_in_term(term));
    }
    reads
}

/// The applications in a side.
pub(crate) fn reads_in_side(side: &Side) -> usize
    ensures { result ≡ min (reads_in_sum (sum_of side.now)) (most_reads + 1) }
{
    let mut reads = reads_in_term(&side.first);
    for (_, term) in &side.rest {
        reads = counted(reads, reads_in_term(term));
    }
    reads
}
