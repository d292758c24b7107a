// The longest journals.

use crate::sheets::{EQUAL, parted, shelf_of};
use pc_port::{MemorySink, MemorySource};
use pc_replay::{Spendings, Status, run};
use std::alloc::{AllocError, Global};
use std::test::Fail;

// A journal of 1,024 blank posts whose lines have 4,096 bytes each, and so 4,194,304 in all.
fn longest(alloc: Global) -> Result<Vec<u8>, AllocError> {
    let mut text = Vec::new(alloc);
    for number in 1..1025usize {
        let start = format!(in alloc; "post 1 {number} {number} : ")?;
        let filled = 4095usize.saturating_sub(start.as_str().len());
        text.extend_from_slice(start.as_str().as_bytes())?;
        text.extend_from_slice(&vec![in alloc; b' '; filled]?)?;
        text.extend_from_slice(b"\n")?;
    }
    Ok(text)
}

// One byte more.
fn one_more(alloc: Global) -> Result<Vec<u8>, AllocError> {
    let mut text = longest(alloc)?;
    text.extend_from_slice(b"\n")?;
    Ok(text)
}

// Whether a run with this file and input, whose answer may be as long as a journal, ends so.
fn comes_to(
    alloc: Global,
    words: &str,
    file: &[u8],
    input: &[u8],
    status: Status,
    want: &[u8],
) -> Result<bool, AllocError> {
    let words = parted(alloc, words)?;
    let mut shelf = shelf_of(alloc, file, Vec::new(alloc))?;
    let mut input = MemorySource::new(input.to_vec(alloc)?, 4096, Vec::new(alloc));
    let mut out = MemorySink::new(alloc, 4_194_304, Vec::new(alloc))?;
    let mut spent = Spendings::new(alloc);
    let ended = run(alloc, &words, &mut input, &mut shelf, &mut out, &mut spent);
    Ok(ended == status && out.bytes() == want)
}

// Whether such a run is too long.
fn is_too_long(alloc: Global, words: &str, file: &[u8], input: &[u8]) -> Result<bool, AllocError> {
    let told = b"refused 19 too-long\n";
    comes_to(alloc, words, file, input, Status::TooLong, told)
}

#[test]
fn longest_journals(rt: HostRuntime) -> Result<(), Fail> {
    let alloc = rt.alloc();
    let text = longest(alloc)?;
    let more = one_more(alloc)?;
    let sheet = EQUAL.as_bytes();
    let shown = b"a : -\nb : -\nc : -\n";
    assert!(rt; comes_to(alloc, "merge k.sheet", &text, &text, Status::Done, &text)?);
    assert!(rt; comes_to(alloc, "posts k.sheet", sheet, &text, Status::Done, shown)?);
    assert!(rt; is_too_long(alloc, "merge k.sheet", &more, b"")?);
    assert!(rt; is_too_long(alloc, "merge k.sheet", b"", &more)?);
    assert!(rt; is_too_long(alloc, "posts k.sheet", sheet, &more)?);
    assert!(rt; is_too_long(alloc, "posts k.sheet", &more, b"")?);
    Ok(())
}
