//! Which reasons stay right when entries are edited: the laws, as contracts.
ghost use Rattle.pc_justify_laws.specs.EditLaws.{EachEntering, EachAdding, EachRemoving, EachClearing, ReasonsStay, NoneStays, OtherPartsStay, EditedReasonsAreRight};

/// Entering takes the cell's entries of another value away, and adds the entry as the newest where it doesn't stand. Where it
/// stands alone nothing changes.
pub fn entering_edits()
    ensures { EachEntering }
{}

/// Entering beside the cell's others takes nothing away. Where the entry stands nothing changes.
pub fn adding_edits()
    ensures { EachAdding }
{}

/// Removing an entry takes that one away.
pub fn removing_edits()
    ensures { EachRemoving }
{}

/// Clearing takes all of the cell's entries away.
pub fn clearing_edits()
    ensures { EachClearing }
{}

/// A reason whose support has none of the entries that are gone stays right.
pub fn reasons_stay()
    ensures { ReasonsStay }
{}

/// What isn't implied isn't implied by fewer entries.
pub fn none_stays()
    ensures { NoneStays }
{}

/// An edit of a cell's entries leaves the reasons of the other parts as they are.
pub fn other_parts_stay()
    ensures { OtherPartsStay }
{}

/// After an edit of a cell's entries the reasons are right where those that were not searched again may stay.
pub fn edited_reasons_are_right()
    ensures { EditedReasonsAreRight }
{}
