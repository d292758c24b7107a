//! What a display asks of a sheet: least supports alone. Whatever has reasons has them, and what only tries has them too.
ghost use Rattle.std.specs.Prelude.{◌≡◌};
ghost use Rattle.std.specs.Option.{option_copied};
ghost use Rattle.pc_sheet.specs.Sheet.{Sheet};
ghost use Rattle.pc_reason.specs.Targets.{IsTargetIn};
ghost use Rattle.pc_display.specs.Supports.{IsSupportFor};

use pc_books::Book;
use pc_reason::Reasons;
use pc_sheet::{Entry, Target};

/// A sheet, with the least support of each of its targets.
pub trait Supports {
    /// The sheet that is shown.
    ghost sheet: { Self → Sheet };

    /// The sheet's book.
    fn book(&self) -> &Book
        ensures { result.now ≡ sheet self.now };

    /// The least support of the target, or `None` exactly where it isn't implied. It takes no memory.
    fn support(&self, target: Target) -> Option<&[Entry]>
        requires { IsTargetIn (sheet self.now).universe target }
        ensures { IsSupportFor (sheet self.now) target (option_copied result) };
}

impl<R: Reasons> Supports for R {
    ghost sheet = { λ r. R.Reasons.sheet r };

    fn book(&self) -> &Book {
        <R as Reasons>::book(self)
    }

    fn support(&self, target: Target) -> Option<&[Entry]> {
        match self.reason(target) {
            None => None,
            Some(reason) => Some(reason.support),
        }
    }
}
