// Why words are not read.
ghost use Rattle.std.specs.Prelude.{◌≡◌};

use std::alloc::{AllocError, AllocFailed};

/// Why no form was read.
#[derive(Drop)]
pub enum Refusal {
    Syntax,
    Memory,
}

impl From<AllocError> for Refusal {
    ghost use Rattle.pc_formula.specs.declared.refusal.Refusal.TheVariants.{Memory};

    ghost from_gives = { λ _ e. e ≡ Memory };

    fn from(_: AllocError) -> Self {
        Refusal::Memory
    }
}

impl<T: Drop> From<AllocFailed<T>> for Refusal {
    ghost use Rattle.pc_formula.specs.declared.refusal.Refusal.TheVariants.{Memory};

    ghost from_gives = { λ _ e. e ≡ Memory };

    fn from(_: AllocFailed<T>) -> Self {
        Refusal::Memory
    }
}
