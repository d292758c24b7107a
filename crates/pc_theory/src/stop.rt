//! Why a load's search ends early.
ghost use Rattle.std.specs.Prelude.{◌≡◌};

use pc_log::{Log, Span};
use pc_solver::Stop;
use std::alloc::{AllocError, AllocFailed};

/// Why the search of a book's parts ended early.
#[derive(Drop)]
pub(crate) enum Halt {
    /// No assignment makes the rules true: the span derives the empty clause.
    Inconsistent(Log, Span),
    /// The limit on placed literals is reached.
    Spent,
    /// Memory was wanting.
    Memory,
}

impl From<AllocError> for Halt {
    ghost use Rattle.pc_theory.specs.declared.stop.Halt.TheVariants.{Memory};

    ghost from_gives = { λ _ halt. halt ≡ Memory };

    fn from(_: AllocError) -> Halt {
        Halt::Memory
    }
}

impl<T: Drop> From<AllocFailed<T>> for Halt {
    ghost use Rattle.pc_theory.specs.declared.stop.Halt.TheVariants.{Memory};

    ghost from_gives = { λ _ halt. halt ≡ Memory };

    fn from(_: AllocFailed<T>) -> Halt {
        Halt::Memory
    }
}

impl From<Stop> for Halt {
    ghost use Rattle.pc_theory.specs.inside.Starting.{halt_of};

    ghost from_gives = { λ stop halt. halt ≡ halt_of stop };

    fn from(stop: Stop) -> Halt {
        match stop {
            Stop::Spent => Halt::Spent,
            Stop::Memory => Halt::Memory,
        }
    }
}
