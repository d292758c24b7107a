// What no clause says: that calls succeed with ample memory, and what real devices do.
ghost use Rattle.std.specs.Prelude.{◌<◌};

use pc_port::{
    Failed, MemoryShelf, MemorySink, MemorySource, READ_LIMIT, RealShelf, RealSink, RealSource,
    Shelf, ShelfFault, Sink, Source, SureSink, SureSource,
};
use std::alloc::{AllocError, Global};
use std::fs::{File, OpenOptions};
use std::io::{ErrorKind, Read, Write};
use std::str::SplitWhitespace;
use std::test::Fail;
use std::{fs, io};

// What a source gives until its end, in reads of so many bytes; a read that fails is marked and tried again.
fn drain<S: Source>(alloc: Global, source: &mut S, size: usize) -> Result<Vec<u8>, AllocError>
    requires { 0 < size }
{
    let mut all = Vec::new(alloc);
    let mut room = vec![in alloc; 0u8; size]?;
    for _ in 0..100 {
        match source.read(&mut room) {
            Ok(0) => return Ok(all),
            Ok(count) => all.extend_from_slice(&room[..count])?,
            Err(Failed) => all.push(b'!')?,
        }
    }
    Ok(all)
}

// Sources of the same seven bytes: the most that a read gives, the size of the reads, and the read that fails. What they give.
const SOURCES: &str = "\
1 3 0 => abcdefg
2 1 1 => !abcdefg
7 4096 2 => abcdefg!
2 4096 3 => abcd!efg
4096 2 4 => abcdef!g
4096 4096 9 => abcdefg
";

// The number of the next word.
fn next_number(words: &mut SplitWhitespace<'_>) -> usize {
    words.next().unwrap_or("").parse::<usize>().unwrap_or(0)
}

// Whether the source of a row gives what the row says.
fn is_given(alloc: Global, row: &str) -> Result<bool, AllocError> {
    let (numbers, want) = row.split_once(" => ").unwrap_or((row, ""));
    let mut words = numbers.split_whitespace();
    let most = next_number(&mut words).max(1);
    let size = next_number(&mut words).max(1);
    let fails = vec![in alloc; next_number(&mut words) as u64]?;
    let mut source = MemorySource::new(b"abcdefg".to_vec(alloc)?, most, fails);
    Ok(drain(alloc, &mut source, size)?.as_slice() == want.as_bytes())
}

#[test]
fn sources_in_memory(rt: HostRuntime) -> Result<(), Fail> {
    for row in SOURCES.lines() {
        assert!(rt; is_given(rt.alloc(), row)?, "{row}");
    }
    let mut source = SureSource::new(b"abcdefg");
    let all = drain(rt.alloc(), &mut source, 3)?;
    assert!(rt; all.as_slice() == b"abcdefg".as_slice());
    Ok(())
}

// Pieces, and which of the two sinks below take them.
const PIECES: &str = "\
ab => both
c => second
abcd => none
cd => both
e => first
 => second
 => both
";

// Whether the sinks take the piece of a row as the row says.
fn are_taken(sink: &mut MemorySink, sure: &mut SureSink<'_>, row: &str) -> bool {
    let (piece, want) = row.split_once(" => ").unwrap_or((row, ""));
    let first = sink.write(piece.as_bytes()).is_ok();
    let second = sure.write(piece.as_bytes()).is_ok();
    want == match (first, second) {
        (true, true) => "both",
        (true, false) => "first",
        (false, true) => "second",
        (false, false) => "none",
    }
}

// A sink with room for five bytes that fails at the second and at the sixth call, and one over lent memory of five bytes.
#[test]
fn sinks_in_memory(rt: HostRuntime) -> Result<(), Fail> {
    let mut sink = MemorySink::new(rt.alloc(), 5, vec![in rt.alloc(); 2, 6]?)?;
    let mut room = [0u8; 5];
    let mut sure = SureSink::new(&mut room);
    for row in PIECES.lines() {
        assert!(rt; are_taken(&mut sink, &mut sure, row), "{row}");
    }
    assert!(rt; sink.bytes() == b"abcde".as_slice() && sure.bytes() == b"abccd".as_slice());
    Ok(())
}

fn add_file(
    files: &mut Vec<(String, Vec<u8>)>,
    name: &str,
    bytes: Vec<u8>,
    alloc: Global,
) -> Result<(), AllocError> {
    let name = String::from_str(alloc, name)?;
    files.push((name, bytes))?;
    Ok(())
}

// A shelf with two files of one name and a file that is longer than what is read, whose third call fails.
fn shelf_of(alloc: Global) -> Result<MemoryShelf, AllocError> {
    let mut files = Vec::new(alloc);
    add_file(&mut files, "a", b"first".to_vec(alloc)?, alloc)?;
    add_file(&mut files, "a", b"second".to_vec(alloc)?, alloc)?;
    let long = vec![in alloc; 7u8; READ_LIMIT + 1]?;
    add_file(&mut files, "long", long, alloc)?;
    Ok(MemoryShelf::new(files, vec![in alloc; 3]?))
}

// Whether the shelf gives so many bytes of the file, or, if there are none, fails.
fn gives<H: Shelf>(
    alloc: Global,
    shelf: &mut H,
    name: &str,
    into: &mut Vec<u8>,
    count: Option<usize>,
) -> bool {
    match shelf.read(alloc, name, into) {
        Ok(()) => count == Some(into.len()),
        Err(ShelfFault::Failed) => count.is_none() && into.is_empty(),
        Err(_) => false,
    }
}

#[test]
fn shelf_in_memory(rt: HostRuntime) -> Result<(), Fail> {
    let alloc = rt.alloc();
    let mut shelf = shelf_of(alloc)?;
    let mut into = b"left over".to_vec(alloc)?;
    assert!(rt;
        gives(alloc, &mut shelf, "a", &mut into, Some(5)) && into.as_slice() == b"first".as_slice()
    );
    assert!(rt; gives(alloc, &mut shelf, "b", &mut into, None));
    assert!(rt; gives(alloc, &mut shelf, "a", &mut into, None));
    assert!(rt; gives(alloc, &mut shelf, "long", &mut into, Some(READ_LIMIT)));
    Ok(())
}

#[test]
fn real_pipe(rt: HostRuntime) -> Result<(), Fail> {
    let (reader, writer) = io::pipe(&rt)?;
    let mut sink = RealSink::new(writer);
    assert!(rt; sink.write(b"through ").is_ok() && sink.write(b"a pipe").is_ok());
    drop(sink);
    let mut source = RealSource::new(reader);
    let all = drain(rt.alloc(), &mut source, 5)?;
    assert!(rt; all.as_slice() == b"through a pipe".as_slice());
    Ok(())
}

// A reader or a writer of which each second call is interrupted, from the first on; the others take at most two bytes.
#[derive(Drop)]
struct Interrupting<T> {
    inner: T,
    is_even: bool,
}

impl<T> Interrupting<T> {
    fn new(inner: T) -> Self {
        let is_even = true;
        Interrupting { inner, is_even }
    }

    // How many of the bytes this call takes.
    fn turn(&mut self, count: usize) -> io::Result<usize> {
        self.is_even = !self.is_even;
        if self.is_even {
            return Ok(count.min(2));
        }
        Err(io::Error::from(ErrorKind::Interrupted))
    }
}

impl<T: Read> Read for Interrupting<T> {
    fn read(&mut self, into: &mut [u8]) -> io::Result<usize> {
        let count = self.turn(into.len())?.min(into.len());
        self.inner.read(&mut into[..count])
    }
}

impl<T: Write> Write for Interrupting<T> {
    fn write(&mut self, bytes: &[u8]) -> io::Result<usize> {
        let count = self.turn(bytes.len())?.min(bytes.len());
        self.inner.write(&bytes[..count])
    }

    fn flush(&mut self) -> io::Result<()> {
        Ok(())
    }
}

// Interrupted calls are tried again, and told as no fault.
#[test]
fn interrupted_calls(rt: HostRuntime) -> Result<(), Fail> {
    let (reader, writer) = io::pipe(&rt)?;
    let mut sink = RealSink::new(Interrupting::new(writer));
    assert!(rt; sink.write(b"through ").is_ok() && sink.write(b"a pipe").is_ok());
    drop(sink);
    let mut source = RealSource::new(Interrupting::new(reader));
    let all = drain(rt.alloc(), &mut source, 5)?;
    assert!(rt; all.as_slice() == b"through a pipe".as_slice());
    Ok(())
}

#[test]
fn real_faults(rt: HostRuntime) -> Result<(), Fail> {
    let full = OpenOptions::new().write(true).open(&rt, "/dev/full")?;
    let mut sink = RealSink::new(full);
    assert!(rt; sink.write(b"no room").is_err() && sink.write(b"").is_ok());
    let mut source = RealSource::new(File::open(&rt, "/")?);
    let mut room = [0u8; 8];
    assert!(rt; source.read(&mut room).is_err());
    Ok(())
}

#[test]
fn real_files(rt: HostRuntime) -> Result<(), Fail> {
    let alloc = rt.alloc();
    let name = "pc_port_real_files.tmp";
    let mut shelf = RealShelf::new(alloc, rt.clone()?);
    let mut into = Vec::new(alloc);
    for size in [0, 1, 4095, 4096, 4097, READ_LIMIT, READ_LIMIT + 1] {
        fs::write(&rt, name, vec![in alloc; 7u8; size]?)?;
        assert!(rt;
            gives(
                alloc,
                &mut shelf,
                name,
                &mut into,
                Some(size.min(READ_LIMIT))
            ),
            "{size}"
        );
        assert!(rt; into.iter().all(|byte| *byte == 7), "{size}");
    }
    fs::remove_file(&rt, name)?;
    assert!(rt; gives(alloc, &mut shelf, name, &mut into, None));
    assert!(rt; gives(alloc, &mut shelf, "/", &mut into, None));
    Ok(())
}
