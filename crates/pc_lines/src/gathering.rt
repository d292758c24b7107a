// The room that is filled, passed on and cleared, again and again.
ghost use Rattle.std.specs.Prelude.{◌≡◌, ◌-◌, ◌≤◌, ◌<◌, ◌↔◌, [], IsErr, IfOk, OnErr, Some, length, vec_capacity};
ghost use Rattle.pc_port.specs.Port.{HasCause, WriteGives, count_after};
ghost use Rattle.pc_port.specs.Memory.{RoomState, IsNewRoom};

use pc_port::{Failed, Sink};
use std::alloc::{AllocError, Global};
use std::marker::Model;

/// Keeps what is written, in room that is taken when it is made, until it is cleared. It takes no memory after that.
#[derive(Drop)]
pub struct Gathering {
    bytes: Vec<u8>,
    room: usize,
    faults: u64,
}

impl Model for Gathering {
    ghost Value = { RoomState };

    ghost view = { λ s. record {
      given = s.bytes.items;
      room = s.room;
      faults = s.faults;
    } };

    ghost invariant = { λ s. (length s.bytes.items ≤ s.room) × (s.room ≤ vec_capacity s.bytes) };
}

impl Gathering {
    /// Room for so many bytes.
    pub fn new(alloc: Global, room: usize) -> Result<Self, AllocError>
        ensures { IfOk result (IsNewRoom room) }
    {
        let bytes = Vec::with_capacity(alloc, room)?;
        Ok(Gathering {
            bytes,
            room,
            faults: 0,
        })
    }

    /// Room for nothing, for which no memory is taken.
    pub fn without_room(alloc: Global) -> Self
        ensures { IsNewRoom 0 result }
    {
        Gathering {
            bytes: Vec::new(alloc),
            room: 0,
            faults: 0,
        }
    }

    /// Forgets what was gathered, and keeps the room.
    pub fn clear(&mut self)
        ensures empty { self.new.given ≡ [] }
        ensures room { self.new.room ≡ self.old.room }
        ensures faults { self.new.faults ≡ self.old.faults }
    {
        self.bytes.clear();
    }

    /// Writes all that was gathered in one piece, or nothing where there is nothing.
    pub fn pass_on<O: Sink>(&self, out: &mut O) -> Result<(), Failed>
        ensures bytes { WriteGives (O.given out.old) (O.given out.new) result self.now.given }
        ensures cause { HasCause (O.faults out.old) (O.faults out.new) result }
    {
        if self.bytes.is_empty() {
            return Ok(());
        }
        out.write(&self.bytes)
    }
}

impl Sink for Gathering {
    ghost given = { λ s. Some s.given };

    ghost faults = { λ s. s.faults };

    fn write(&mut self, piece: &[u8]) -> Result<(), Failed>
        ensures bytes { WriteGives (Some self.old.given) (Some self.new.given) result piece.now }
        ensures cause { HasCause self.old.faults self.new.faults result }

        // It fails exactly where the piece is longer than the room that is left, and then keeps what it had.
        ensures fails { IsErr result ↔ (self.old.room - length self.old.given < length piece.now) }
        ensures kept { OnErr result (self.new.given ≡ self.old.given) }
        ensures faults { self.new.faults ≡ count_after result self.old.faults }
        ensures room { self.new.room ≡ self.old.room }
    {
        if self.room - self.bytes.len() < piece.len() {
            self.faults = self.faults.saturating_add(1);
            return Err(Failed);
        }
        self.bytes.extend_from_slice(piece).unwrap();
        Ok(())
    }
}
