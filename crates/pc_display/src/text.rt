//! Text that is made in memory.
ghost use Rattle.std.specs.Prelude.{◌≡◌, [], Some, string_bytes};
ghost use Rattle.std.specs.Str.{IsUtf8};

use pc_port::{Failed, Sink};
use std::alloc::Global;

/// A text that grows as it is written. A write fails only for want of memory.
#[derive(Drop)]
pub struct Text {
    pub bytes: Vec<u8>,
    faults: u64,
}

impl Text {
    /// The empty text. It takes no memory.
    pub fn new(alloc: Global) -> Text
        ensures { result.bytes.items ≡ [] }
    {
        Text {
            bytes: Vec::new(alloc),
            faults: 0,
        }
    }

    // As a string.
    pub(crate) fn into_text(self) -> String
        requires { IsUtf8 self.bytes.items }
        ensures { string_bytes result ≡ self.bytes.items }
    {
        match String::from_utf8(self.bytes) {
            Ok(text) => text,
            Err(_) => unreachable!(),
        }
    }
}

impl Sink for Text {
    ghost given = { λ t. Some t.bytes.items };

    ghost faults = { λ t. t.faults };

    fn write(&mut self, piece: &[u8]) -> Result<(), Failed> {
        if self.bytes.extend_from_slice(piece).is_err() {
            self.faults = self.faults.saturating_add(1);
            return Err(Failed);
        }
        Ok(())
    }
}
