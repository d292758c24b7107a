//! Marks of the variables that an evaluation has read: under scopes that give these the same values it would go the same way.
ghost use Rattle.std.specs.Prelude.{map};
ghost use Rattle.pc_sheet.specs.Views.{added_of, item_of, items_of, sum_of};
ghost use Rattle.pc_logic.specs.inside.Marks.{IsMarked, ItemIsMarked, ItemsAreMarked, AddedAreMarked, SumIsMarked, Keeps};

use pc_sheet::{MOST_DEPTH, Side, Sign, Term};

fn mark(k: usize, marks: &mut [bool; MOST_DEPTH])
    ensures marked { IsMarked marks.new k }
    ensures kept { Keeps marks.old marks.new }
{
    if k < MOST_DEPTH {
        marks[k] = true;
    }
}

#[cycle(mark)]
fn mark_term(term: &Term, marks: &mut [bool; MOST_DEPTH])
    ensures marked { ItemIsMarked marks.new (item_of term.now) }
    ensures kept { Keeps marks.old marks.new }
{
    match term {
        Term::Variable(k) => mark(usize::from(*k), marks),
        Term::Value(_, _) => (),
        Term::Number(_) => (),
        Term::Cell { args, .. } => mark_terms(args, marks),
    }
}

/// Marks all variables of the terms.
#[cycle(mark)]
pub(crate) fn mark_terms(terms: &[Term], marks: &mut [bool; MOST_DEPTH])
    ensures marked { ItemsAreMarked marks.new (items_of (map item_of terms.now)) }
    ensures kept { Keeps marks.old marks.new }
{
    for term in terms {
        mark_term(term, marks);
    }
}

fn mark_added(items: &[(Sign, Term)], marks: &mut [bool; MOST_DEPTH])
    ensures marked { AddedAreMarked marks.new (map added_of items.now) }
    ensures kept { Keeps marks.old marks.new }
{
    for (_, term) in items {
        mark_term(term, marks);
    }
}

/// Marks all variables of the side.
pub(crate) fn mark_side(side: &Side, marks: &mut [bool; MOST_DEPTH])
    ensures marked { SumIsMarked marks.new (sum_of side.now) }
    ensures kept { Keeps marks.old marks.new }
{
    mark_term(&side.first, marks);
    mark_added(&side.rest, marks);
}
