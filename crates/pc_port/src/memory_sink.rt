// A sink in memory, which fails at the calls that it is told to.
ghost use Rattle.std.specs.Prelude.{◌≡◌, ◌≤◌, ◌<◌, ◌↔◌, IsErr, IfOk, OnErr, Some, length, vec_capacity};
ghost use Rattle.pc_port.specs.Port.{HasCause, WriteGives, count_after};
ghost use Rattle.pc_port.specs.Memory.{SinkState, SinkFails, SinkGoesOn, IsNewSink};

use crate::memory_source::is_next;
use crate::{Failed, Sink};
use std::alloc::{AllocError, Global};
use std::marker::Model;

/// Keeps what is written, in room that is taken when it is made, and fails at the calls that it is told to.
#[derive(Drop)]
pub struct MemorySink {
    bytes: Vec<u8>,
    room: usize,
    fails: Vec<u64>,
    calls: u64,
    faults: u64,
}

impl Model for MemorySink {
    ghost Value = { SinkState };

    ghost view = { λ s. record {
      given = s.bytes.items;
      room = s.room;
      fails = s.fails.items;
      calls = s.calls;
      faults = s.faults;
    } };

    ghost invariant = { λ s. (length s.bytes.items ≤ s.room) × (s.room ≤ vec_capacity s.bytes) };
}

impl MemorySink {
    /// A sink with room for so many bytes. `fails` has the numbers of the calls that fail, from 1.
    pub fn new(alloc: Global, room: usize, fails: Vec<u64>) -> Result<Self, AllocError>
        ensures { IfOk result (IsNewSink room fails.items) }
    {
        let bytes = Vec::with_capacity(alloc, room)?;
        Ok(MemorySink {
            bytes,
            room,
            fails,
            calls: 0,
            faults: 0,
        })
    }

    /// The bytes written so far.
    pub fn bytes(&self) -> &[u8]
        ensures { result.now ≡ self.now.given }
    {
        &self.bytes
    }
}

impl Sink for MemorySink {
    ghost given = { λ s. Some s.given };

    ghost faults = { λ s. s.faults };

    fn write(&mut self, piece: &[u8]) -> Result<(), Failed>
        ensures bytes { WriteGives (Some self.old.given) (Some self.new.given) result piece.now }
        ensures cause { HasCause self.old.faults self.new.faults result }

        // It fails exactly at the calls that it was told to and where there is no room, and then keeps what it had.
        ensures fails { IsErr result ↔ SinkFails self.old (length piece.now) }
        ensures kept { OnErr result (self.new.given ≡ self.old.given) }
        ensures faults { self.new.faults ≡ count_after result self.old.faults }
        ensures goes_on { SinkGoesOn self.old self.new }
    {
        let fails = is_next(&self.fails, self.calls);
        self.calls = self.calls.saturating_add(1);
        if fails || self.room - self.bytes.len() < piece.len() {
            self.faults = self.faults.saturating_add(1);
            return Err(Failed);
        }
        self.bytes.extend_from_slice(piece).unwrap();
        Ok(())
    }
}
