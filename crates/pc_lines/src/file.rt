//! A sheet's text from a file of a shelf.
ghost use Rattle.std.specs.Prelude.{◌≡◌, ◌≢◌};
ghost use Rattle.pc_port.specs.Port.{Rose};
ghost use Rattle.pc_lines.specs.Files.{AsksOnce, FileGives};

use crate::SHEET_LIMIT;
use pc_port::{Shelf, ShelfFault};
use std::alloc::{AllocError, Global};

/// Why a sheet's text was not taken.
#[derive(Clone, Copy, PartialEq, Eq)]
pub enum SheetStop {
    /// The input, or the shelf, answered a fault.
    Failed,
    /// There is more than a sheet may have.
    TooLong,
    /// Memory was wanted.
    Memory,
}

impl From<AllocError> for SheetStop {
    ghost use Rattle.pc_lines.specs.declared.file.SheetStop.TheVariants.{Memory};

    ghost from_gives = { λ _ stop. stop ≡ Memory };

    fn from(_: AllocError) -> Self {
        SheetStop::Memory
    }
}

/// All bytes of the shelf's file of that name, at most as many as a sheet may have. The shelf is read once.
pub fn take_file<H: Shelf>(alloc: Global, file: &str, shelf: &mut H) -> Result<Vec<u8>, SheetStop>
    ensures gives { FileGives (H.kept shelf.old) file.now result (H.asked shelf.old)
        (H.asked shelf.new) }
    ensures asked { AsksOnce file.now (H.asked shelf.old) (H.asked shelf.new) }
    ensures kept { H.kept shelf.new ≡ H.kept shelf.old }

    // A fault is told exactly where the shelf was at fault.
    ensures fault { result ≡ Err SheetStop.Failed → Rose (H.faults shelf.old) (H.faults shelf.new) }
    ensures no_fault { result ≢ Err SheetStop.Failed → H.faults shelf.new ≡ H.faults shelf.old }
{
    let mut text = Vec::new(alloc);
    match shelf.read(alloc, file, &mut text) {
        Ok(()) if text.len() > SHEET_LIMIT => Err(SheetStop::TooLong),
        Ok(()) => Ok(text),
        Err(ShelfFault::Failed) => Err(SheetStop::Failed),
        Err(ShelfFault::Memory) => Err(SheetStop::Memory),
    }
}
