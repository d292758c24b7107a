//! How faults of texts, of names and of sorts are told.
ghost use Rattle.std.specs.Prelude.{◌≡◌, MatchOption};
ghost use Rattle.pc_load.specs.Refusals.{IsSortRefusal};
ghost use Rattle.pc_load.specs.inside.Loading.{IsSortFaultTold, load_fault_of, refused_for};

use pc_refusals::{LoadFault, Refusal, SheetRefusal};
use pc_sortcheck::{SheetSortFault, SortFault};
use pc_syntax::SheetFault;

/// The refusal that tells a fault of names or sorts, or `None` where memory was wanted.
pub fn refusal_of(fault: SortFault) -> Option<Refusal>
    ensures { MatchOption result (fault ≡ SortFault.Memory) (IsSortRefusal fault) }
{
    match fault {
        SortFault::UnknownName => Some(Refusal::UnknownName),
        SortFault::DuplicateName => Some(Refusal::DuplicateName),
        SortFault::WrongArity => Some(Refusal::WrongArity),
        SortFault::WrongSort => Some(Refusal::WrongSort),
        SortFault::NotAValue => Some(Refusal::NotAValue),
        SortFault::EmptySort => Some(Refusal::EmptySort),
        SortFault::Limit(limited) => Some(Refusal::Limit(limited)),
        SortFault::Memory => None,
    }
}

// A refusal, for the line if one is given.
fn refused_for(refusal: Refusal, line: Option<u32>) -> LoadFault
    ensures { result ≡ refused_for refusal line }
{
    LoadFault::Refused(SheetRefusal { refusal, line })
}

/// What the fault of a text is told as.
pub(crate) fn refuse_text(fault: SheetFault) -> LoadFault
    ensures { result ≡ load_fault_of fault }
{
    match fault {
        SheetFault::NotUtf8 { line } => refused_for(Refusal::NotUtf8, Some(line)),
        SheetFault::Syntax { line } => refused_for(Refusal::Syntax, Some(line)),
        SheetFault::NoBegin => refused_for(Refusal::NoBegin, None),
        SheetFault::WrongVersion { line } => refused_for(Refusal::WrongVersion, Some(line)),
        SheetFault::TooDeep { line } => refused_for(Refusal::TooDeep, Some(line)),
        SheetFault::Memory => LoadFault::Memory,
    }
}

/// What the fault of a sheet's names or sorts is told as.
pub(crate) fn refuse_sort(why: SheetSortFault) -> LoadFault
    ensures { IsSortFaultTold why.line why.fault result }
{
    match refusal_of(why.fault) {
        Some(refusal) => refused_for(refusal, Some(why.line)),
        None => LoadFault::Memory,
    }
}
