//! Laws over runs, each the contract of a function that does nothing.
ghost use Rattle.pc_refusals.specs.Laws.{EventsJoin};

/// What happens one after another happens together.
pub fn runs_are_of_events()
    ensures { EventsJoin }
{}
