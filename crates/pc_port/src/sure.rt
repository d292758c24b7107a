// A source and a sink in lent memory. The source never fails, and the sink only where it has no room.
ghost use Rattle.std.specs.Prelude.{◌≡◌, ◌+◌, ◌-◌, ◌≤◌, ◌<◌, ◌↔◌, ℕ, List, IsOk, IsErr, IfOk, OnErr, Some, length, take, min};
ghost use Rattle.std.specs.Io.{ReadsAtMost};
ghost use Rattle.std.specs.Io.KnownBytes.{ReadConsumes};
ghost use Rattle.pc_port.specs.Port.{HasCause, WriteGives, count_after};
ghost use Rattle.pc_port.specs.Memory.{RoomState, IsNewRoom};

use crate::{Failed, Sink, Source};
use std::marker::Model;

/// Gives lent bytes, as many in a call as fit, and never fails.
#[derive(Drop)]
pub struct SureSource<'a> {
    rest: &'a [u8],
}

impl<'a> Model for SureSource<'a> {
    ghost Value = { List ℕ };

    ghost view = { λ s. s.rest.now };
}

impl<'a> SureSource<'a> {
    pub fn new(bytes: &'a [u8]) -> Self
        ensures { result ≡ bytes.now }
    {
        SureSource { rest: bytes }
    }
}

impl Source for SureSource<'_> {
    ghost left = { λ s. Some s };

    ghost faults = { λ _. 0 };

    fn read(&mut self, into: &mut [u8]) -> Result<usize, Failed>
        ensures bound { ReadsAtMost result into.new }
        ensures bytes { ReadConsumes (Some self.old) (Some self.new) result into.new }
        ensures cause { HasCause 0 0 result }

        ensures sure { IsOk result }
        ensures count { IfOk result (λ count. count ≡ min (length into.old) (length self.old)) }
    {
        let count = into.len().min(self.rest.len());
        let (front, rest) = self.rest.split_at(count);
        into[..count].copy_from_slice(front);
        self.rest = rest;
        Ok(count)
    }
}

/// Keeps what is written in lent room, and fails only where there is too little of it.
#[derive(Drop)]
pub struct SureSink<'a> {
    room: &'a mut [u8],
    at: usize,
    faults: u64,
}

impl<'a> Model for SureSink<'a> {
    ghost Value = { RoomState };

    ghost view = { λ s. record {
      given = take s.at s.room.now;
      room = length s.room.now;
      faults = s.faults;
    } };

    ghost invariant = { λ s. s.at ≤ length s.room.now };
}

impl<'a> SureSink<'a> {
    pub fn new(room: &'a mut [u8]) -> Self
        ensures { IsNewRoom (length room.old) result }
    {
        SureSink {
            room,
            at: 0,
            faults: 0,
        }
    }

    /// The bytes written so far: the front of the room.
    pub fn bytes(&self) -> &[u8]
        ensures { result.now ≡ self.now.given }
    {
        &self.room[..self.at]
    }
}

impl Sink for SureSink<'_> {
    ghost given = { λ s. Some s.given };

    ghost faults = { λ s. s.faults };

    fn write(&mut self, piece: &[u8]) -> Result<(), Failed>
        ensures bytes { WriteGives (Some self.old.given) (Some self.new.given) result piece.now }
        ensures cause { HasCause self.old.faults self.new.faults result }

        // It fails exactly where the piece is longer than the room that is left, and then keeps what it had.
        ensures fails { IsErr result ↔ (self.old.room - length self.old.given < length piece.now) }
        ensures kept { OnErr result (self.new.given ≡ self.old.given) }
        ensures faults { self.new.faults ≡ count_after result self.old.faults }
        ensures room { self.new.room ≡ self.old.room }
    {
        let room = &mut *self.room;
        let end = self.at;
        if room.len() - end < piece.len() {
            self.faults = self.faults.saturating_add(1);
            return Err(Failed);
        }
        room[end..end + piece.len()].copy_from_slice(piece);
        self.at = end + piece.len();
        Ok(())
    }
}
