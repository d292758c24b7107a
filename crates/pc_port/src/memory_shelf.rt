// A shelf in memory, which fails at the calls that it is told to and at an absent name.
ghost use Rattle.std.specs.Prelude.{◌≡◌, ◌<◌, Ok, Err, Some, take, option_copied};
ghost use Rattle.pc_port.specs.Shelf.{ShelfGives, asked_after, HasShelfCause, file_named};
ghost use Rattle.pc_port.specs.Memory.{ShelfState, ShelfFails, ShelfGoesOn, IsNewShelf, ShelfAnswers, faults_after};
ghost use Rattle.pc_port.specs.Files.{plain_files, plain_names};

use crate::memory_source::is_next;
use crate::{READ_LIMIT, Shelf, ShelfFault};
use std::alloc::Global;
use std::marker::Model;

/// Keeps files, remembers the names that were read, and fails at the calls that it is told to and at an absent name.
#[derive(Drop)]
pub struct MemoryShelf {
    files: Vec<(String, Vec<u8>)>,
    fails: Vec<u64>,
    asked: Vec<String>,
    calls: u64,
    faults: u64,
}

impl Model for MemoryShelf {
    ghost Value = { ShelfState };

    ghost view = { λ s. record {
      files = plain_files s.files.items;
      asked = plain_names s.asked.items;
      fails = s.fails.items;
      calls = s.calls;
      faults = s.faults;
    } };
}

impl MemoryShelf {
    /// A shelf of these files; of two with one name the first counts. `fails` has the numbers of the calls that fail,
    /// from 1.
    pub fn new(files: Vec<(String, Vec<u8>)>, fails: Vec<u64>) -> Self
        ensures { IsNewShelf (plain_files files.items) fails.items result }
    {
        let alloc = *fails.allocator();
        MemoryShelf {
            files,
            fails,
            asked: Vec::new(alloc),
            calls: 0,
            faults: 0,
        }
    }
}

// The bytes of the first file of that name.
fn find<'a>(files: &'a [(String, Vec<u8>)], name: &str) -> Option<&'a [u8]>
    ensures { option_copied result ≡ file_named name.now (plain_files files.now) }
{
    for file in files {
        if file.0.as_str() == name {
            return Some(&file.1);
        }
    }
    None
}

impl Shelf for MemoryShelf {
    ghost kept = { λ s. Some s.files };

    ghost asked = { λ s. s.asked };

    ghost faults = { λ s. s.faults };

    fn read(&mut self, alloc: Global, name: &str, into: &mut Vec<u8>) -> Result<(), ShelfFault>
        ensures bytes { ShelfGives (Some self.old.files) name.now result into.new.items }
        ensures keeps { Some self.new.files ≡ Some self.old.files }
        ensures asks { self.new.asked ≡ asked_after result self.old.asked name.now }
        ensures cause { HasShelfCause self.old.faults self.new.faults result }

        // Where memory is there, it fails exactly at the calls that it was told to and at an absent name.
        ensures fails { ShelfAnswers result (ShelfFails self.old name.now) }
        ensures faults { self.new.faults ≡ faults_after result self.old.faults }
        ensures goes_on { ShelfGoesOn self.old self.new }
    {
        let fails = is_next(&self.fails, self.calls);
        self.calls = self.calls.saturating_add(1);
        into.clear();
        let asked = String::from_str(alloc, name)?;
        self.asked.reserve(1)?;
        match find(&self.files, name) {
            Some(bytes) if !fails => {
                into.extend_from_slice(readable(bytes))?;
                self.asked.push(asked).unwrap();
                Ok(())
            }
            _ => {
                self.asked.push(asked).unwrap();
                self.faults = self.faults.saturating_add(1);
                Err(ShelfFault::Failed)
            }
        }
    }
}

// The part of a file that one read gives.
fn readable(bytes: &[u8]) -> &[u8]
    ensures { result.now ≡ take READ_LIMIT bytes.now }
{
    &bytes[..READ_LIMIT.min(bytes.len())]
}
