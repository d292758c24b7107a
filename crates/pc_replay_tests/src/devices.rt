// One input over devices of several kinds: however its bytes come, whichever read or write fails, and what is written by each read.
ghost use Rattle.std.specs.Prelude.{None, Some};

use crate::sheets::{EQUAL, parted, shelf_of};
use pc_port::{Failed, MemorySink, MemorySource, Sink, Source, SureSink, SureSource};
use pc_replay::{Spendings, Status, run};
use std::alloc::{AllocError, Global};
use std::cell::Cell;
use std::test::Fail;

// Two entries in conflict, and both displays.
const COMMANDS: &str = "enter a = red\nenter c = green\nshow\ngrid\n";

// What is printed for each of them.
const ANSWERS: [&str; 4] = [
    "ok\n",
    "ok\n",
    "a : red !\n  = red because a = red\n  = green because c = green\n  ! against c = green\nb : -\n  = red because a = red\n  = green because c = green\nc : green !\n  = red because a = red\n  = green because c = green\n  ! against a = red\n",
    "a  red    !  red, green\nb  -         red, green\nc  green  !  red, green\n",
];

// What is printed for the first so many commands.
fn text_over(alloc: Global, count: usize) -> Result<String, AllocError> {
    let mut text = String::new(alloc);
    for at in 0..count.min(4) {
        text.push_str(ANSWERS[at])?;
    }
    Ok(text)
}

// How long that is.
fn length_over(count: usize) -> usize {
    let mut length = 0usize;
    for at in 0..count.min(4) {
        length = length.saturating_add(ANSWERS[at].len());
    }
    length
}

// How many lines end in the first so many bytes.
fn lines_in(text: &[u8], size: usize) -> usize {
    let mut lines = 0usize;
    for byte in &text[..size.min(text.len())] {
        if *byte == b'\n' {
            lines = lines.saturating_add(1);
        }
    }
    lines
}

// A sheet and its commands.
fn whole_input(alloc: Global) -> Result<Vec<u8>, AllocError> {
    let mut input = EQUAL.as_bytes().to_vec(alloc)?;
    input.extend_from_slice(COMMANDS.as_bytes())?;
    Ok(input)
}

// How a run of these words ends, over a shelf with the sheet.
fn status_of<I: Source, O: Sink>(
    alloc: Global,
    words: &str,
    input: &mut I,
    out: &mut O,
) -> Result<Status, AllocError> {
    let words = parted(alloc, words)?;
    let mut shelf = shelf_of(alloc, EQUAL.as_bytes(), Vec::new(alloc))?;
    let mut spent = Spendings::new(alloc);
    Ok(run(alloc, &words, input, &mut shelf, out, &mut spent))
}

// Whether a run over the whole input, which comes so many bytes at a time, where these calls fail, ends with this status and the
// answers to the first so many commands.
fn ends_with(
    alloc: Global,
    most: usize,
    read: u64,
    write: u64,
    status: Status,
    count: usize,
) -> Result<bool, AllocError> {
    let mut input = MemorySource::new(whole_input(alloc)?, most.max(1), vec![in alloc; read]?);
    let mut out = MemorySink::new(alloc, 4096, vec![in alloc; write]?)?;
    let ended = status_of(alloc, "replay", &mut input, &mut out)?;
    Ok(ended == status && out.bytes() == text_over(alloc, count)?.as_bytes())
}

#[test]
fn bytes_in_any_pieces(rt: HostRuntime) -> Result<(), Fail> {
    for most in [1usize, 2, 7, 4096] {
        assert!(rt;
            ends_with(rt.alloc(), most, 0, 0, Status::Done, 4)?,
            "{most}"
        );
    }
    Ok(())
}

// Whether a run ends well or stops where this read of sixteen bytes fails, as the bytes before it say: behind the last one the
// end is read too.
fn is_stopped_by_read(alloc: Global, read: usize) -> Result<bool, AllocError> {
    let input = whole_input(alloc)?;
    let given = read.saturating_sub(1).saturating_mul(16);
    let lines = lines_in(&input, given);
    let count = lines.saturating_sub(lines_in(EQUAL.as_bytes(), EQUAL.len()));
    let status = if given >= input.len().saturating_add(16) {
        Status::Done
    } else {
        Status::ReadFault
    };
    ends_with(alloc, 16, read as u64, 0, status, count)
}

#[test]
fn reads_that_fail(rt: HostRuntime) -> Result<(), Fail> {
    for read in 1..16usize {
        assert!(rt; is_stopped_by_read(rt.alloc(), read)?, "{read}");
    }
    Ok(())
}

// Each answer is one write.
#[test]
fn writes_that_fail(rt: HostRuntime) -> Result<(), Fail> {
    for write in 1..5usize {
        let kept = write.saturating_sub(1);
        assert!(rt;
            ends_with(rt.alloc(), 16, 0, write as u64, Status::WriteFault, kept)?,
            "{write}"
        );
    }
    assert!(rt; ends_with(rt.alloc(), 16, 0, 5, Status::Done, 4)?);
    Ok(())
}

// Whether a run from lent bytes into so much lent memory ends with this status and the answers to the first so many commands.
fn is_lent(alloc: Global, size: usize, status: Status, count: usize) -> Result<bool, AllocError> {
    let bytes = whole_input(alloc)?;
    let mut room = vec![in alloc; 0u8; size]?;
    let mut input = SureSource::new(&bytes);
    let mut out = SureSink::new(&mut room);
    let ended = status_of(alloc, "replay", &mut input, &mut out)?;
    Ok(ended == status && out.bytes() == text_over(alloc, count)?.as_bytes())
}

// With ample room, with just enough, and with a byte less, where the last answer has none.
#[test]
fn lent_memory(rt: HostRuntime) -> Result<(), Fail> {
    let alloc = rt.alloc();
    let enough = length_over(4);
    assert!(rt; is_lent(alloc, 4096, Status::Done, 4)?);
    assert!(rt; is_lent(alloc, enough, Status::Done, 4)?);
    assert!(rt; is_lent(alloc, enough.saturating_sub(1), Status::WriteFault, 3)?);
    Ok(())
}

// A source that notes, at each read, whether what is written isn't what is printed for the command lines given so far. Behind so
// many lines the commands begin.
#[derive(Drop)]
struct Watching<'a> {
    bytes: MemorySource,
    text: &'a [u8],
    before: usize,
    given: usize,
    written: &'a Cell<usize>,
    differs: &'a Cell<bool>,
}

impl Source for Watching<'_> {
    ghost left = { λ s. Some s.bytes.left };

    ghost faults = { λ s. s.bytes.faults };

    fn read(&mut self, into: &mut [u8]) -> Result<usize, Failed> {
        let lines = lines_in(self.text, self.given).saturating_sub(self.before);
        if self.written.get() != length_over(lines) {
            self.differs.set(true);
        }
        match self.bytes.read(into) {
            Ok(count) => {
                self.given = self.given.saturating_add(count);
                Ok(count)
            }
            Err(Failed) => Err(Failed),
        }
    }
}

// A sink that notes whether what is written isn't the next piece of the text, and how much is written.
#[derive(Drop)]
struct Comparing<'a> {
    text: &'a [u8],
    written: &'a Cell<usize>,
    differs: &'a Cell<bool>,
}

// Whether the piece stands in the text behind so many bytes.
fn stands_at(text: &[u8], at: usize, piece: &[u8]) -> bool {
    match text.get(at..) {
        Some(rest) => rest.starts_with(piece),
        None => false,
    }
}

impl Sink for Comparing<'_> {
    ghost given = { λ _. None };

    ghost faults = { λ _. 0 };

    fn write(&mut self, piece: &[u8]) -> Result<(), Failed> {
        let at = self.written.get();
        if !stands_at(self.text, at, piece) {
            self.differs.set(true);
        }
        self.written.set(at.saturating_add(piece.len()));
        Ok(())
    }
}

// Whether each command is answered in full, and with the bytes that it should be, before the source is read again. The input
// comes so many bytes at a time, and its commands begin behind so many lines.
fn is_answered_in_turn(
    alloc: Global,
    words: &str,
    text: &[u8],
    before: usize,
    most: usize,
) -> Result<bool, AllocError> {
    let answers = text_over(alloc, 4)?;
    let written = Cell::new(0);
    let differs = Cell::new(false);
    let mut input = Watching {
        bytes: MemorySource::new(text.to_vec(alloc)?, most.max(1), Vec::new(alloc)),
        text,
        before,
        given: 0,
        written: &written,
        differs: &differs,
    };
    let mut out = Comparing {
        text: answers.as_bytes(),
        written: &written,
        differs: &differs,
    };
    let ended = status_of(alloc, words, &mut input, &mut out)?;
    Ok(ended == Status::Done && written.get() == length_over(4) && !differs.get())
}

// The same of a sheet with its commands, and of commands on the sheet of a file.
fn are_answered_in_turn(alloc: Global, most: usize) -> Result<bool, AllocError> {
    let before = lines_in(EQUAL.as_bytes(), EQUAL.len());
    let input = whole_input(alloc)?;
    Ok(
        is_answered_in_turn(alloc, "replay", &input, before, most)?
            && is_answered_in_turn(alloc, "edit k.sheet", COMMANDS.as_bytes(), 0, most)?,
    )
}

#[test]
fn answers_stand_before_the_next_read(rt: HostRuntime) -> Result<(), Fail> {
    for most in [1usize, 7, 16, 4096] {
        assert!(rt; are_answered_in_turn(rt.alloc(), most)?, "{most}");
    }
    Ok(())
}
