// Why a line was not read.
use crate::tree::CommandFault;
use pc_formula::Refusal;

/// Why a line was not read.
#[derive(Drop)]
pub enum LineFault {
    NotUtf8,
    TooDeep,
    Syntax,
    Memory,
}

impl From<Refusal> for LineFault {
    ghost use Rattle.std.specs.Prelude.{◌≡◌};
    ghost use Rattle.pc_syntax.specs.Told.{line_fault_of};

    ghost from_gives = { λ r e. e ≡ line_fault_of r };

    fn from(refusal: Refusal) -> Self {
        match refusal {
            Refusal::Syntax => LineFault::Syntax,
            Refusal::Memory => LineFault::Memory,
        }
    }
}

impl From<LineFault> for CommandFault {
    ghost use Rattle.std.specs.Prelude.{◌≡◌};
    ghost use Rattle.pc_syntax.specs.Told.{command_fault_of};

    ghost from_gives = { λ f e. e ≡ command_fault_of f };

    fn from(fault: LineFault) -> Self {
        match fault {
            LineFault::NotUtf8 => CommandFault::NotUtf8,
            LineFault::TooDeep => CommandFault::TooDeep,
            LineFault::Syntax => CommandFault::Syntax,
            LineFault::Memory => CommandFault::Memory,
        }
    }
}
