//! Why a target is implied: the certificate of its reason, for whatever has reasons.
ghost use Rattle.pc_reason.specs.Targets.{IsTargetIn};
ghost use Rattle.pc_cert_text.specs.Why.{WritesWhy};

use crate::certificate::write_reason;
use pc_port::{Failed, Sink};
use pc_reason::Reasons;
use pc_sheet::Target;

/// Writes the certificate of an implied target, whose uses are the least support, and nothing of another target.
///
/// It takes no memory. It fails only where the sink does, and has then written a front of the text.
pub fn write_why<R: Reasons, O: Sink>(
    reasons: &R,
    target: Target,
    out: &mut O,
) -> Result<(), Failed>
    requires { IsTargetIn (R.sheet reasons.now).universe target }
    ensures { WritesWhy (R.sheet reasons.now) target O.given O.faults out.old out.new result }
{
    match reasons.reason(target) {
        None => Ok(()),
        Some(reason) => write_reason(reasons.book(), &reason, out),
    }
}
