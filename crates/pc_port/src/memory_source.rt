// A source in memory, which fails at the calls that it is told to.
ghost use Rattle.std.specs.Prelude.{◌≡◌, ◌+◌, ◌≤◌, ◌<◌, ◌↔◌, IsTrue, IsErr, IfOk, Some, length, drop, min, Contains};
ghost use Rattle.std.specs.Io.{ReadsAtMost};
ghost use Rattle.std.specs.Io.KnownBytes.{ReadConsumes};
ghost use Rattle.pc_port.specs.Port.{HasCause, count_after};
ghost use Rattle.pc_port.specs.Memory.{SourceState, SourceFails, SourceGoesOn, IsNewSource};

use crate::{Failed, Source};
use std::marker::Model;

/// Gives its bytes, a few in a call, and fails at the calls that it is told to.
#[derive(Drop)]
pub struct MemorySource {
    bytes: Vec<u8>,
    at: usize,
    most: usize,
    fails: Vec<u64>,
    calls: u64,
    faults: u64,
}

impl Model for MemorySource {
    ghost Value = { SourceState };

    ghost view = { λ s. record {
      left = drop s.at s.bytes.items;
      most = s.most;
      fails = s.fails.items;
      calls = s.calls;
      faults = s.faults;
    } };

    ghost invariant = { λ s. (s.at ≤ length s.bytes.items) × (0 < s.most) };
}

impl MemorySource {
    /// A source of these bytes that gives at most `most` of them in a call. `fails` has the numbers of the calls
    /// that fail, from 1.
    pub fn new(bytes: Vec<u8>, most: usize, fails: Vec<u64>) -> Self
        requires { 0 < most }
        ensures { IsNewSource bytes.items most fails.items result }
    {
        MemorySource {
            bytes,
            at: 0,
            most,
            fails,
            calls: 0,
            faults: 0,
        }
    }
}

// Whether the call after so many is one of those that fail.
pub(crate) fn is_next(fails: &[u64], calls: u64) -> bool
    ensures { IsTrue result ↔ Contains fails.now (calls + 1) }
{
    match calls.checked_add(1) {
        Some(next) => fails.contains(&next),
        None => false,
    }
}

impl Source for MemorySource {
    ghost left = { λ s. Some s.left };

    ghost faults = { λ s. s.faults };

    fn read(&mut self, into: &mut [u8]) -> Result<usize, Failed>
        ensures bound { ReadsAtMost result into.new }
        ensures bytes { ReadConsumes (Some self.old.left) (Some self.new.left) result into.new }
        ensures cause { HasCause self.old.faults self.new.faults result }

        ensures fails { IsErr result ↔ SourceFails self.old }
        ensures count { IfOk result (λ count.
            count ≡ min self.old.most (min (length into.old) (length self.old.left))) }
        ensures faults { self.new.faults ≡ count_after result self.old.faults }
        ensures goes_on { SourceGoesOn self.old self.new }
    {
        let fails = is_next(&self.fails, self.calls);
        self.calls = self.calls.saturating_add(1);
        if fails {
            self.faults = self.faults.saturating_add(1);
            return Err(Failed);
        }
        let rest = self.bytes.len() - self.at;
        let count = self.most.min(into.len().min(rest));
        into[..count].copy_from_slice(&self.bytes[self.at..self.at + count]);
        self.at += count;
        Ok(count)
    }
}
