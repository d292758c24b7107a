// Runs over bytes, and files that are read for them.

use pc_port::{MemoryShelf, MemorySink, MemorySource, Shelf, ShelfFault};
use pc_replay::{Spendings, Status, run};
use std::alloc::{AllocError, Global};

/// The most bytes that a run prints.
const ROOM: usize = 262_144;

/// How many bytes of an input come at a time.
const PIECE: usize = 100;

/// The words, parted by spaces.
pub(crate) fn parted(alloc: Global, text: &str) -> Result<Vec<String>, AllocError> {
    let mut words = Vec::new(alloc);
    for word in text.split(' ') {
        words.push(word.to_string(alloc)?)?;
    }
    Ok(words)
}

/// The bytes of the files of these names, which are parted by spaces, one after the other.
pub(crate) fn read_all<H: Shelf>(
    alloc: Global,
    shelf: &mut H,
    names: &str,
) -> Result<Vec<u8>, ShelfFault> {
    let mut bytes = Vec::new(alloc);
    let mut file = Vec::new(alloc);
    for name in names.split(' ') {
        shelf.read(alloc, name, &mut file)?;
        bytes.extend_from_slice(&file)?;
    }
    Ok(bytes)
}

/// Runs the words over an input and a shelf: how that ends, and what is printed.
pub(crate) fn run_on<H: Shelf>(
    alloc: Global,
    words: &str,
    shelf: &mut H,
    input: Vec<u8>,
) -> Result<(Status, MemorySink), AllocError> {
    let words = parted(alloc, words)?;
    let mut source = MemorySource::new(input, PIECE, Vec::new(alloc));
    let mut sink = MemorySink::new(alloc, ROOM, Vec::new(alloc))?;
    let mut spent = Spendings::new(alloc);
    let status = run(alloc, &words, &mut source, shelf, &mut sink, &mut spent);
    Ok((status, sink))
}

/// The same over a shelf of one file, `k.sheet`.
pub(crate) fn run_over(
    alloc: Global,
    words: &str,
    file: &str,
    input: Vec<u8>,
) -> Result<(Status, MemorySink), AllocError> {
    let mut files = Vec::new(alloc);
    files.push(("k.sheet".to_string(alloc)?, file.as_bytes().to_vec(alloc)?))?;
    let mut shelf = MemoryShelf::new(files, Vec::new(alloc));
    run_on(alloc, words, &mut shelf, input)
}
