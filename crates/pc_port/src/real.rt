// The adapters over standard input, standard output and files: the edge of what is proved.
ghost use Rattle.std.specs.Prelude.{◌≡◌, ◌≤◌, [], length, None, MatchResult, OnOk, IfSome};
ghost use Rattle.std.specs.Io.{ReadsAtMost};
ghost use Rattle.std.specs.Io.KnownBytes.{ReadConsumes};
ghost use Rattle.pc_port.specs.Port.{HasCause, WriteGives, count_after};
ghost use Rattle.pc_port.specs.Shelf.{readable, ShelfGives, asked_after, HasShelfCause};
ghost use Rattle.pc_port.specs.Memory.{faults_after};
ghost use Rattle.pc_port.specs.declared.shelf.TheConstants.{READ_LIMIT};

use crate::{CHUNK, Failed, READ_LIMIT, Shelf, ShelfFault, Sink, Source};
use std::alloc::Global;
use std::fs::File;
use std::io::{ErrorKind, Read, Write};
use std::rt::Files;

/// Reads from standard input, or from any other reader, with a count of the faults.
#[derive(Drop)]
pub struct RealSource<R> {
    reader: R,
    faults: u64,
}

impl<R: Read> RealSource<R> {
    pub fn new(reader: R) -> Self
        ensures left { ⟦<RealSource<R> as Source>⟧.left result ≡ R.remaining reader }
        ensures faults { ⟦<RealSource<R> as Source>⟧.faults result ≡ 0 }
    {
        RealSource { reader, faults: 0 }
    }
}

impl<R: Read> Source for RealSource<R> {
    ghost left = { λ s. R.remaining s.reader };

    ghost faults = { λ s. s.faults };

    fn read(&mut self, into: &mut [u8]) -> Result<usize, Failed>
        ensures bound { ReadsAtMost result into.new }
        ensures bytes { ReadConsumes (⟦<RealSource<R> as Source>⟧.left self.old)
            (⟦<RealSource<R> as Source>⟧.left self.new) result into.new }
        ensures cause { HasCause (⟦<RealSource<R> as Source>⟧.faults self.old)
            (⟦<RealSource<R> as Source>⟧.faults self.new) result }
        ensures faults { ⟦<RealSource<R> as Source>⟧.faults self.new ≡
            count_after result (⟦<RealSource<R> as Source>⟧.faults self.old) }
    {
        for _ in 0..u64::MAX {
            match self.reader.read(into) {
                Ok(count) => return Ok(count),
                Err(error) => {
                    if error.kind() != ErrorKind::Interrupted {
                        break;
                    }
                }
            }
        }
        self.faults = self.faults.saturating_add(1);
        Err(Failed)
    }
}

/// Writes to standard output, or to any other writer, with a count of the faults.
#[derive(Drop)]
pub struct RealSink<W> {
    writer: W,
    faults: u64,
}

impl<W: Write> RealSink<W> {
    pub fn new(writer: W) -> Self
        ensures given { ⟦<RealSink<W> as Sink>⟧.given result ≡ W.contents writer }
        ensures faults { ⟦<RealSink<W> as Sink>⟧.faults result ≡ 0 }
    {
        RealSink { writer, faults: 0 }
    }
}

impl<W: Write> Sink for RealSink<W> {
    ghost given = { λ s. W.contents s.writer };

    ghost faults = { λ s. s.faults };

    fn write(&mut self, piece: &[u8]) -> Result<(), Failed>
        ensures bytes { WriteGives (⟦<RealSink<W> as Sink>⟧.given self.old)
            (⟦<RealSink<W> as Sink>⟧.given self.new) result piece.now }
        ensures cause { HasCause (⟦<RealSink<W> as Sink>⟧.faults self.old)
            (⟦<RealSink<W> as Sink>⟧.faults self.new) result }
        ensures faults { ⟦<RealSink<W> as Sink>⟧.faults self.new ≡
            count_after result (⟦<RealSink<W> as Sink>⟧.faults self.old) }
    {
        let mut at = 0;
        for _ in 0..u64::MAX {
            if at == piece.len() {
                return Ok(());
            }
            match self.writer.write(&piece[at..]) {
                Ok(0) => break,
                Ok(count) => at += count,
                Err(error) => {
                    if error.kind() != ErrorKind::Interrupted {
                        break;
                    }
                }
            }
        }
        self.faults = self.faults.saturating_add(1);
        Err(Failed)
    }
}

/// Reads files of the system by their paths, and remembers the names that were read.
#[derive(Drop)]
pub struct RealShelf<F> {
    files: F,
    asked: Vec<String>,
    faults: u64,
}

impl<F: Files> RealShelf<F> {
    pub fn new(alloc: Global, files: F) -> Self
        ensures asked { ⟦<RealShelf<F> as Shelf>⟧.asked result ≡ [] }
        ensures faults { ⟦<RealShelf<F> as Shelf>⟧.faults result ≡ 0 }
    {
        RealShelf {
            files,
            asked: Vec::new(alloc),
            faults: 0,
        }
    }
}

// Appends what a source gives, up to its end or the limit.
fn take_start<S: Source>(source: &mut S, into: &mut Vec<u8>) -> Result<(), ShelfFault>
    requires { into.old.items ≡ [] }
    ensures short { length into.new.items ≤ READ_LIMIT }
    ensures bytes { OnOk result
        (IfSome (S.left source.old) (λ left. into.new.items ≡ readable left)) }

    // A fault is told exactly where the source was at fault.
    ensures cause { HasShelfCause (S.faults source.old) (S.faults source.new) result }
{
    let mut chunk = [0u8; CHUNK];
    while into.len() < READ_LIMIT {
        let most = CHUNK.min(READ_LIMIT - into.len());
        let count = source.read(&mut chunk[..most])?;
        if count == 0 {
            return Ok(());
        }
        into.extend_from_slice(&chunk[..count])?;
    }
    Ok(())
}

// Opens a file and takes its start.
fn read_file<F: Files>(files: &F, name: &str, into: &mut Vec<u8>) -> Result<(), ShelfFault>
    ensures { MatchResult result (λ _. length into.new.items ≤ READ_LIMIT) (λ _. into.new.items ≡
        []) }
{
    into.clear();
    let Ok(file) = File::open(files, name) else {
        return Err(ShelfFault::Failed);
    };
    let outcome = take_start(&mut RealSource::new(file), into);
    if outcome.is_err() {
        into.clear();
    }
    outcome
}

impl<F: Files> Shelf for RealShelf<F> {
    ghost use Rattle.pc_port.specs.Files.{plain_names};
    ghost use Rattle.std.specs.Prelude.{None};

    ghost kept = { λ _. None };

    ghost asked = { λ s. plain_names s.asked.items };

    ghost faults = { λ s. s.faults };

    fn read(&mut self, alloc: Global, name: &str, into: &mut Vec<u8>) -> Result<(), ShelfFault>
        ensures bytes { ShelfGives None name.now result into.new.items }
        ensures keeps { ⟦<RealShelf<F> as Shelf>⟧.kept self.new ≡ ⟦<RealShelf<F> as Shelf>⟧.kept
            self.old }
        ensures asks { ⟦<RealShelf<F> as Shelf>⟧.asked self.new ≡
            asked_after result (⟦<RealShelf<F> as Shelf>⟧.asked self.old) name.now }
        ensures cause { HasShelfCause (⟦<RealShelf<F> as Shelf>⟧.faults self.old)
            (⟦<RealShelf<F> as Shelf>⟧.faults self.new) result }
        ensures faults { ⟦<RealShelf<F> as Shelf>⟧.faults self.new ≡
            faults_after result (⟦<RealShelf<F> as Shelf>⟧.faults self.old) }
    {
        into.clear();
        let asked = String::from_str(alloc, name)?;
        self.asked.reserve(1)?;
        match read_file(&self.files, name, into) {
            Ok(()) => {
                self.asked.push(asked).unwrap();
                Ok(())
            }
            Err(ShelfFault::Failed) => {
                self.asked.push(asked).unwrap();
                self.faults = self.faults.saturating_add(1);
                Err(ShelfFault::Failed)
            }
            Err(ShelfFault::Memory) => Err(ShelfFault::Memory),
        }
    }
}
