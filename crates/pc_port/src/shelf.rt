// Where files are kept.
ghost use Rattle.std.specs.Prelude.{◌≡◌, ℕ, List, Option};
ghost use Rattle.pc_port.specs.Shelf.{Files, ShelfGives, asked_after, HasShelfCause};

use crate::Failed;
use std::alloc::{AllocError, Global};

/// The most bytes that one read of a shelf gives: one more than the greatest sheet has.
pub const READ_LIMIT: usize = 4_194_305;

/// Why a read of a shelf gave nothing.
#[derive(Clone, Copy, PartialEq, Eq)]
pub enum ShelfFault {
    /// The device was at fault, or has no such file.
    Failed,
    Memory,
}

impl From<AllocError> for ShelfFault {
    ghost use Rattle.std.specs.Prelude.{◌≡◌};
    ghost use Rattle.pc_port.specs.declared.shelf.ShelfFault.TheVariants.{Memory};

    ghost from_gives = { λ _ fault. fault ≡ Memory };

    fn from(_: AllocError) -> ShelfFault {
        ShelfFault::Memory
    }
}

impl From<Failed> for ShelfFault {
    ghost use Rattle.std.specs.Prelude.{◌≡◌};
    ghost use Rattle.pc_port.specs.declared.shelf.ShelfFault.TheVariants.{Failed as ShelfFailed};

    ghost from_gives = { λ _ fault. fault ≡ ShelfFailed };

    fn from(_: Failed) -> ShelfFault {
        ShelfFault::Failed
    }
}

/// Files by their names.
pub trait Shelf {
    /// The files, where they are told.
    ghost kept: { Self → Option Files };

    /// The names that were read, oldest first.
    ghost asked: { Self → List (List ℕ) };

    /// How often a call has failed. It never falls, and stays at its greatest value.
    ghost faults: { Self → ℕ };

    /// Puts a file's bytes into the buffer, whatever it held: at most the first 4,194,305 of them.
    /// A name that isn't there is `Failed`. After a fault the buffer is empty.
    fn read(&mut self, alloc: Global, name: &str, into: &mut Vec<u8>) -> Result<(), ShelfFault>
        ensures bytes { ShelfGives (kept self.old) name.now result into.new.items }
        ensures keeps { kept self.new ≡ kept self.old }
        ensures asks { asked self.new ≡ asked_after result (asked self.old) name.now }
        ensures cause { HasShelfCause (faults self.old) (faults self.new) result };
}
