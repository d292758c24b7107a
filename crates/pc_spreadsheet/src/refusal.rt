//! How faults of a command are told.
ghost use Rattle.std.specs.Prelude.{◌≡◌};
ghost use Rattle.pc_spreadsheet.specs.Commands.{IsToldAs, reply_to};

use crate::spending::Told;
use pc_load::refusal_of;
use pc_refusals::Refusal;
use pc_sortcheck::SortFault;
use pc_syntax::CommandFault;
use pc_transcript::Reply;

/// How a fault of a command's names or sorts is told.
pub(crate) fn refuse(fault: SortFault) -> Told
    ensures { IsToldAs fault result }
{
    match refusal_of(fault) {
        Some(refusal) => Reply::Refused(refusal, None),
        None => Reply::Memory,
    }
}

/// How the fault of a command line is told.
pub(crate) fn reply_to(fault: CommandFault) -> Told
    ensures { result ≡ reply_to fault }
{
    match fault {
        CommandFault::NotUtf8 => Reply::Refused(Refusal::NotUtf8, None),
        CommandFault::TooDeep => Reply::Refused(Refusal::TooDeep, None),
        CommandFault::Syntax => Reply::Refused(Refusal::Syntax, None),
        CommandFault::Memory => Reply::Memory,
    }
}
