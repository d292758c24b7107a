// How a run ends.
ghost use Rattle.std.specs.Prelude.{◌≡◌};
ghost use Rattle.pc_refusals.specs.Endings.{number_of};

/// How a run ended.
#[derive(Clone, Copy, Debug, PartialEq, Eq)]
pub enum Status {
    /// The input was read to its end, and no command was refused; or the certificate was accepted.
    Done,
    /// The input was read to its end, and some command was refused.
    SomeRefused,
    /// The words don't fit.
    Usage,
    /// The sheet isn't one that can be read.
    SheetRefused,
    /// The input, or the shelf, answered a fault.
    ReadFault,
    /// The output answered a fault.
    WriteFault,
    /// Memory was wanted, at the room for a line, at the sheet, at the certificate or at some command.
    Memory,
    /// The sheet, the certificate, a command line or the number of command lines passes its limit.
    TooLong,
    /// The input was read to its end, and the certificate's text or its verdict is at fault.
    CertRefused,
}

impl Status {
    /// The number that the process ends with.
    pub fn number(self) -> u8
        ensures { result ≡ number_of self }
    {
        match self {
            Status::Done => 0,
            Status::SomeRefused => 1,
            Status::Usage => 2,
            Status::SheetRefused => 3,
            Status::ReadFault => 4,
            Status::WriteFault => 5,
            Status::Memory => 6,
            Status::TooLong => 7,
            Status::CertRefused => 8,
        }
    }
}
