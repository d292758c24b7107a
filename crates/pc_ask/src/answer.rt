//! What is answered where a formula is asked.
ghost use Rattle.std.specs.Prelude.{◌≡◌};

use pc_axiom_names::Names;
use pc_books::Assignment;
use pc_ground::GroundFault;
use pc_log::StepId;
use pc_sheet::Entry;
use pc_solver::Stop;
use std::alloc::{AllocError, AllocFailed};

/// Why entries imply a formula.
#[derive(Drop)]
pub struct Answer {
    /// Its least support, oldest entry first.
    pub support: Vec<Entry>,
    /// An assignment that makes every rule true and has the support.
    pub shown: Assignment,
    /// The names of the asked book's variables and axioms.
    pub names: Names,
    /// The line that derives from the asked book's axioms that some entry of the support doesn't stand.
    pub last: StepId,
}

/// Why there is no answer.
#[derive(Clone, Copy, PartialEq, Eq)]
pub enum AskStop {
    /// The asked book's axioms have more than 4,000,000 literals.
    TooLarge,
    /// The limit on placed literals is reached.
    Spent,
    /// Memory was wanting.
    Memory,
}

impl From<AllocError> for AskStop {
    ghost use Rattle.pc_ask.specs.declared.answer.AskStop.TheVariants.{Memory};

    ghost from_gives = { λ _ stop. stop ≡ Memory };

    fn from(_: AllocError) -> Self {
        AskStop::Memory
    }
}

impl<T: Drop> From<AllocFailed<T>> for AskStop {
    ghost use Rattle.pc_ask.specs.declared.answer.AskStop.TheVariants.{Memory};

    ghost from_gives = { λ _ stop. stop ≡ Memory };

    fn from(_: AllocFailed<T>) -> Self {
        AskStop::Memory
    }
}

impl From<Stop> for AskStop {
    ghost use Rattle.pc_ask.specs.inside.Stops.{stop_of};

    ghost from_gives = { λ stop end. end ≡ stop_of stop };

    fn from(stop: Stop) -> Self {
        match stop {
            Stop::Spent => AskStop::Spent,
            Stop::Memory => AskStop::Memory,
        }
    }
}

impl From<GroundFault> for AskStop {
    ghost use Rattle.pc_ask.specs.inside.Stops.{end_of};

    ghost from_gives = { λ fault end. end ≡ end_of fault };

    fn from(fault: GroundFault) -> Self {
        match fault {
            GroundFault::TooLarge => AskStop::TooLarge,
            GroundFault::Memory => AskStop::Memory,
        }
    }
}
