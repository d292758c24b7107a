//! What may be kept together in one part, from what is kept beside the clauses.
ghost use Rattle.std.specs.Prelude.{◌<◌, length};
ghost use Rattle.pc_world_list.specs.Choices.{AreCellsOf, AreSetsOf};
ghost use Rattle.pc_world_list.specs.Chosen.{chosen_parts};
ghost use Rattle.pc_session.specs.inside.Lent.{IsLent};

use crate::state::State;
use pc_sheet::CellId;
use pc_world_list::Worlds;

/// The cells of the part at this place among those with entries.
pub(crate) fn chosen_cells(state: &State, place: usize) -> &[CellId]
    requires lent { IsLent state.now }
    requires place { place < length (chosen_parts state.now.book) }
    ensures { AreCellsOf state.now.book place result.now }
{
    let number = state.chosen.get(place);
    state.theory.components().part(number).cells
}

/// The maximal sets of the part at this place among those with entries.
pub(crate) fn chosen_sets(state: &State, place: usize) -> &Worlds
    requires lent { IsLent state.now }
    requires place { place < length (chosen_parts state.now.book) }
    ensures { AreSetsOf state.now.book place result.now }
{
    let number = state.chosen.get(place);
    &state.worlds[number]
}
