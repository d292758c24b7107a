//! Why a tree isn't well sorted.
ghost use Rattle.std.specs.Prelude.{◌≡◌};

use pc_sheet::Limited;
use std::alloc::{AllocError, AllocFailed};
use thiserror::Error;

/// Why a tree isn't well sorted, or not within the limits.
#[derive(Debug, Drop, Error)]
pub enum SortFault {
    /// Nothing has the name.
    #[error("unknown name")]
    UnknownName,
    /// The name is taken.
    #[error("duplicate name")]
    DuplicateName,
    /// There are more or fewer arguments than the table or family takes.
    #[error("wrong arity")]
    WrongArity,
    /// A thing of another kind or sort stands there.
    #[error("wrong sort")]
    WrongSort,
    /// The whole number isn't in the range.
    #[error("not a value")]
    NotAValue,
    /// The sort has no value.
    #[error("empty sort")]
    EmptySort,
    /// A limit is passed.
    #[error("limit")]
    Limit(Limited),
    /// Memory was wanted.
    #[error("memory")]
    Memory,
}

impl From<AllocError> for SortFault {
    ghost use Rattle.pc_elaborate.specs.declared.fault.SortFault.TheVariants.{Memory};

    ghost from_gives = { λ _ e. e ≡ Memory };

    fn from(_: AllocError) -> Self {
        SortFault::Memory
    }
}

impl<T: Drop> From<AllocFailed<T>> for SortFault {
    ghost use Rattle.pc_elaborate.specs.declared.fault.SortFault.TheVariants.{Memory};

    ghost from_gives = { λ _ e. e ≡ Memory };

    fn from(_: AllocFailed<T>) -> Self {
        SortFault::Memory
    }
}
