//! An input that is read to its end.
ghost use Rattle.std.specs.Prelude.{◌≡◌, ◌≢◌, ◌≤◌};
ghost use Rattle.pc_port.specs.Port.{Rose};
ghost use Rattle.pc_refusals.specs.Inputs.{InputGives};

use pc_port::{CHUNK, Failed, Source};
use std::alloc::{AllocError, Global};

/// Why an input was not read to its end.
#[derive(Clone, Copy, PartialEq, Eq)]
pub enum InputStop {
    /// The input answered a fault.
    Failed,
    /// There was more than the limit.
    TooLong,
    /// Memory was wanted.
    Memory,
}

impl From<AllocError> for InputStop {
    ghost use Rattle.std.specs.Prelude.{◌≡◌};
    ghost use Rattle.pc_refusals.specs.declared.input.InputStop.TheVariants.{Memory};

    ghost from_gives = { λ _ stop. stop ≡ Memory };

    fn from(_: AllocError) -> Self {
        InputStop::Memory
    }
}

impl From<Failed> for InputStop {
    ghost use Rattle.std.specs.Prelude.{◌≡◌};
    ghost use Rattle.pc_refusals.specs.declared.input.InputStop.TheVariants.{Failed as InputFailed};

    ghost from_gives = { λ _ stop. stop ≡ InputFailed };

    fn from(_: Failed) -> Self {
        InputStop::Failed
    }
}

/// All that is still to come, up to the end of the input: at most so many bytes.
pub fn take_all<I: Source>(alloc: Global, limit: usize, input: &mut I) -> Result<Vec<u8>, InputStop>
    ensures gives { InputGives limit result (I.left input.old) (I.left input.new) }

    // A fault is told exactly where the input was at fault.
    ensures cause { result ≡ Err InputStop.Failed → Rose (I.faults input.old) (I.faults input.new) }
    ensures kept { result ≢ Err InputStop.Failed → I.faults input.new ≡ I.faults input.old }
{
    let mut text = Vec::new(alloc);
    let mut chunk = [0u8; CHUNK];
    loop {
        let count = input.read(&mut chunk)?;
        if count == 0 {
            return Ok(text);
        }
        if count > limit - text.len() {
            return Err(InputStop::TooLong);
        }
        text.extend_from_slice(&chunk[..count])?;
    }
}
