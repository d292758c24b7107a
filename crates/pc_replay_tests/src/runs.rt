// What no clause says: that runs end well with ample memory, and what is printed, where a machine wants memory too. The machine of
// these tests counts.
ghost use Rattle.std.specs.Prelude.{◌<◌, ◌≢◌, length, slice_index};

use pc_port::{Failed, MemorySink, MemorySource, Sink};
use pc_refusals::{Refusal, SheetRefusal, Status};
use pc_transcript::{LoadStop, Machine, Reply, Resources, replay};
use std::alloc::{AllocError, Global};
use std::test::Fail;

#[derive(Drop)]
enum Page {
    Count,
    Name,
}

// Any text is a sheet, but the empty one and those that begin with `!`.
// Behind a refusal stands the byte that shows it, in a line of its own.
#[derive(Drop)]
struct Counter {
    count: u8,
}

impl Machine for Counter {
    type Page = Page;

    type Proof = u8;

    type Notes = u8;

    ghost IsSheet = { λ _ text _. (0 < length text) × (slice_index text 0 ≢ 33) };

    ghost RefusesText = { λ _ _ _ _ _ _. Unit {0} };

    ghost Allows = { λ _ _ _ _. Unit {0} };

    ghost CanShow = { λ _ _. Unit {0} };

    ghost IsPage = { λ _ _ _. Unit {0} };

    ghost IsProof = { λ _ _. Unit {0} };

    fn load(_: Global, text: &[u8], _: u64, _: &mut u8) -> Result<Self, LoadStop<u8>> {
        match text.first() {
            None => Err(stop_for(Refusal::NoBegin, None, None)),
            Some(b'!') => Err(stop_for(Refusal::WrongVersion, Some(1207), Some(b's'))),
            Some(_) => Ok(Counter { count: 0 }),
        }
    }

    fn decide(&mut self, _: Global, line: &[u8], notes: &mut u8) -> Reply<Page, u8> {
        match line {
            b"" => Reply::Silent,
            b"count" => {
                self.count = self.count.saturating_add(1);
                Reply::Accepted
            }
            b"note" => {
                *notes = notes.saturating_add(1);
                Reply::Accepted
            }
            b"show" => Reply::Shown(Page::Count),
            b"dump" => Reply::Shown(Page::Name),
            b"utf8" => Reply::Refused(Refusal::NotUtf8, None),
            b"deep" => Reply::Refused(Refusal::TooDeep, Some(b'd')),
            b"memory" => Reply::Memory,
            _ => Reply::Refused(Refusal::NoRule, None),
        }
    }

    fn show<O: Sink>(&self, page: &Page, out: &mut O) -> Result<(), Failed> {
        match page {
            Page::Count if self.count == 0 => out.write(b"none\n"),
            Page::Count => out.write(b"some\n"),
            Page::Name => out.write(b"sheet\n"),
        }
    }

    fn has_text(_: &u8) {}

    fn prove<O: Sink>(proof: &u8, out: &mut O) -> Result<(), Failed> {
        out.write(&[*proof, b'\n'])
    }
}

// A sheet is refused so.
fn stop_for(refusal: Refusal, line: Option<u32>, proof: Option<u8>) -> LoadStop<u8> {
    LoadStop::Refused(SheetRefusal { refusal, line }, proof)
}

// Whether a run of the machine over these bytes, of which so many come at a time, ends so: the status, and behind a line feed what is
// written.
fn ends_so(alloc: Global, bytes: &[u8], most: usize, want: &str) -> Result<bool, AllocError> {
    let mut source = MemorySource::new(bytes.to_vec(alloc)?, most.max(1), Vec::new(alloc));
    let mut out = MemorySink::new(alloc, 4096, Vec::new(alloc))?;
    let resources = Resources { alloc, budget: 7 };
    let ended = replay::<Counter, _, _>(resources, &mut source, &mut out, &mut 0);
    let (status, text) = want.split_once('\n').unwrap_or((want, ""));
    Ok(format!(in alloc; "{ended:?}")?.as_str() == status && out.bytes() == text.as_bytes())
}

// Inputs, how their runs end, and what is written; `/` ends a line.
const RUNS: &str = "\
begin/show\r/count//show => Done/none/ok/some/
 begin\t\r/ => Done/
a begin/;begin/show/ => Done/
begin/foo/show/ => SomeRefused/refused 18 no-rule/none/
begin/dump/utf8/deep/note/ => SomeRefused/sheet/refused 1 not-utf8/refused 21 too-deep/d/ok/
 => SheetRefused/sheet refused 3 no-begin/
!/begin/show/ => SheetRefused/sheet refused 4 wrong-version line 1207/s/
begin/memory/foo/show => Memory/refused 15 memory/refused 18 no-rule/none/
";

// Whether the input of a row ends as the row says.
fn is_run(alloc: Global, row: &str, most: usize) -> Result<bool, AllocError> {
    let row = row.replace(alloc, '/', "\n")?;
    match row.as_str().split_once(" => ") {
        Some((input, want)) => ends_so(alloc, input.as_bytes(), most, want),
        None => Ok(false),
    }
}

#[test]
fn each_status(rt: HostRuntime) -> Result<(), Fail> {
    for row in RUNS.lines() {
        for most in [1, 7, 4096] {
            assert!(rt; is_run(rt.alloc(), row, most)?, "{row} by {most}");
        }
    }
    Ok(())
}

#[test]
fn numbers(rt: HostRuntime) {
    assert!(rt;
        Status::Done.number() == 0
            && Status::TooLong.number() == 7
            && Status::CertRefused.number() == 8
    );
}
