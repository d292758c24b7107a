//! Whatever has a reason of each implied target: what displays and certificates are made from.
ghost use Rattle.std.specs.Prelude.{◌≡◌};
ghost use Rattle.pc_sheet.specs.Sheet.{Sheet};
ghost use Rattle.pc_reason.specs.Reasons.{IsReasonFor};
ghost use Rattle.pc_reason.specs.Targets.{IsTargetIn};

use crate::reason::Reason;
use pc_books::Book;
use pc_sheet::Target;

/// A book, with a reason of each of its implied targets.
pub trait Reasons {
    /// The sheet that the book stands for.
    ghost sheet: { Self → Sheet };

    /// The book.
    fn book(&self) -> &Book
        ensures { result.now ≡ sheet self.now };

    /// Why the target is implied: its least support, an assignment that makes every rule true and has the support, and a
    /// derivation that is accepted and can be written; `None` exactly where the target isn't implied. It takes no memory.
    fn reason(&self, target: Target) -> Option<Reason<'_>>
        requires { IsTargetIn (sheet self.now).universe target }
        ensures { IsReasonFor (sheet self.now) target result };
}
