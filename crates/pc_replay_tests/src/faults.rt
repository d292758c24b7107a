// Devices of which one call fails, in each mode: how the run ends, and what is printed by then.

use crate::sheets::{ACCEPTED, ENTERED, EQUAL, parted, shelf_of};
use pc_port::{MemorySink, MemorySource};
use pc_refusals::{Counts, Refusal, SHEET_REFUSED, take_all, write_refusal};
use pc_replay::{Spendings, Status, run};
use pc_sheet::Limited;
use std::alloc::{AllocError, Global};
use std::str::SplitWhitespace;
use std::test::Fail;

// The words; the calls of the output, of the shelf and of the input that fail, none at 0, and how many bytes of the input come at a
// time; the status, and what is printed. A refusal, which is made of pieces, is one write; lines that come together are answered before
// the next read; and nothing is read behind a sheet that is refused.
const FAILING: &str = "\
replay%0 0 1 5 => ReadFault|
replay%0 0 2 5 => ReadFault|
replay%0 0 3 5 => ReadFault|
replay%0 0 4 5 => ReadFault|
replay%0 0 5 5 => ReadFault|refused 2 syntax|
replay%0 0 7 5 => ReadFault|refused 2 syntax|
replay%0 0 8 5 => SomeRefused|refused 2 syntax|ok|
replay%0 0 1 4096 => ReadFault|
replay%0 0 2 4096 => ReadFault|refused 2 syntax|
replay%0 0 3 4096 => SomeRefused|refused 2 syntax|ok|
replay%1 0 0 5 => WriteFault|
replay%2 0 0 5 => WriteFault|refused 2 syntax|
replay%3 0 0 5 => SomeRefused|refused 2 syntax|ok|
replay --budget=1%0 0 2 4096 => SheetRefused|sheet refused 2 syntax line 1|
replay --budget=1%0 0 1 4096 => ReadFault|
replay --budget=1%1 0 0 4096 => WriteFault|
edit k.sheet%0 1 0 8 => ReadFault|
edit k.sheet%0 2 1 8 => ReadFault|
edit k.sheet%0 0 3 8 => ReadFault|ok|
edit k.sheet%0 0 5 8 => Done|ok|ok|
edit k.sheet%2 0 0 8 => WriteFault|ok|
edit --budget=1 k.sheet%0 0 1 8 => SheetRefused|sheet refused 2 syntax line 1|
merge k.sheet%0 1 0 8 => ReadFault|
merge k.sheet%0 0 1 8 => ReadFault|
merge k.sheet%0 0 2 8 => ReadFault|
merge k.sheet%0 0 3 8 => ReadFault|
merge k.sheet%0 0 4 8 => ReadFault|
merge k.sheet%0 0 5 8 => ReadFault|
merge k.sheet%0 0 6 8 => Done|post 1 1 10 : a|post 2 1 12 : enter c = red|
merge k.sheet%1 0 0 8 => WriteFault|
merge k.sheet%2 0 0 8 => Done|post 1 1 10 : a|post 2 1 12 : enter c = red|
posts k.sheet%0 1 0 8 => ReadFault|
posts k.sheet%0 0 1 8 => ReadFault|
posts k.sheet%0 0 2 8 => ReadFault|
posts k.sheet%0 0 3 8 => ReadFault|
posts k.sheet%0 0 4 8 => ReadFault|
posts k.sheet%0 0 5 8 => ReadFault|
posts k.sheet%0 0 6 8 => Done|ok|a : -|  = red because c = red|b : -|  = red because c = red|c : red|  = red because c = red|
posts k.sheet%1 0 0 8 => WriteFault|
posts k.sheet%2 0 0 8 => WriteFault|ok|
posts k.sheet%3 0 0 8 => Done|ok|a : -|  = red because c = red|b : -|  = red because c = red|c : red|  = red because c = red|
check k.sheet%0 1 0 100 => ReadFault|
check k.sheet%0 0 1 100 => ReadFault|
check k.sheet%0 0 2 100 => ReadFault|
check k.sheet%1 0 0 100 => WriteFault|
check k.sheet%2 0 0 100 => WriteFault|accepted
check k.sheet%9 0 0 100 => Done|accepted|
";

// What the file and the input have for these words.
fn texts_for(words: &str) -> (&'static str, &'static str) {
    match words {
        "replay" => ("", "sheet 1\nbegin\nfool\nbudget 1"),
        "replay --budget=1" => ("", "!\nbegin\nshow\n"),
        "edit k.sheet" => (EQUAL, "budget 1\nbudget 2\n"),
        "edit --budget=1 k.sheet" => ("!\n", "show\n"),
        "check k.sheet" => (ENTERED, ACCEPTED),
        "merge k.sheet" => ("post 1 1 10 : a\n", "post 2 1 12 : enter c = red\n"),
        _ => (EQUAL, "post 2 1 12 : enter c = red\n"),
    }
}

// The number of the next word.
fn next_number(words: &mut SplitWhitespace<'_>) -> u64 {
    words.next().unwrap_or("").parse::<u64>().unwrap_or(0)
}

// How a run of the words ends over a shelf and an input with the next numbers.
fn status_of(
    alloc: Global,
    words: &str,
    numbers: &str,
    out: &mut MemorySink,
) -> Result<Status, AllocError> {
    let (file, input) = texts_for(words);
    let mut numbers = numbers.split_whitespace();
    let fails = vec![in alloc; next_number(&mut numbers)]?;
    let mut shelf = shelf_of(alloc, file.as_bytes(), fails)?;
    let fails = vec![in alloc; next_number(&mut numbers)]?;
    let most = next_number(&mut numbers) as usize;
    let mut input = MemorySource::new(input.as_bytes().to_vec(alloc)?, most.max(1), fails);
    let words = parted(alloc, words)?;
    let mut spent = Spendings::new(alloc);
    Ok(run(alloc, &words, &mut input, &mut shelf, out, &mut spent))
}

// Whether a run with the faults of a row ends as the row says.
fn is_stopped(alloc: Global, row: &str) -> Result<bool, AllocError> {
    let row = row.replace(alloc, '|', "\n")?;
    let (given, want) = row.as_str().split_once(" => ").unwrap_or(("", ""));
    let (words, numbers) = given.split_once('%').unwrap_or((given, ""));
    let (write, numbers) = numbers.split_once(' ').unwrap_or((numbers, ""));
    let (status, text) = want.split_once('\n').unwrap_or((want, ""));
    let fails = vec![in alloc; write.parse::<u64>().unwrap_or(0)]?;
    let mut out = MemorySink::new(alloc, 4096, fails)?;
    let ended = status_of(alloc, words, numbers, &mut out)?;
    Ok(format!(in alloc; "{ended:?}")?.as_str() == status && out.bytes() == text.as_bytes())
}

#[test]
fn calls_that_fail(rt: HostRuntime) -> Result<(), Fail> {
    for row in FAILING.lines() {
        assert!(rt; is_stopped(rt.alloc(), row)?, "{row}");
    }
    Ok(())
}

// More bytes than one read gives, and just as many as there may be.
#[test]
fn takes_all(rt: HostRuntime) -> Result<(), Fail> {
    let alloc = rt.alloc();
    let bytes = vec![in alloc; 7u8; 9999]?;
    let mut input = MemorySource::new(bytes, 5000, Vec::new(alloc));
    assert!(rt; take_all(alloc, 9999, &mut input).is_ok());
    Ok(())
}

// Numbers of which two have more than 64 bits.
const SPENT: Counts = Counts {
    placed: 1_000_000_000_000,
    learned: 18_446_744_073_709_551_616,
    calls: 340_282_366_920_938_463_463_374_607_431_768_211_455,
};

const TOLD: &str = "\
sheet refused 14 spent placed=1000000000000 learned=18446744073709551616 calls=340282366920938463463374607431768211455
sheet refused 11 limit line 20207 rows
";

// What no run here comes to: counts of so many digits, and more rows than there may be.
#[test]
fn rare_refusals(rt: HostRuntime) -> Result<(), Fail> {
    let rows = Refusal::Limit(Limited::Rows);
    let mut out = MemorySink::new(rt.alloc(), 256, Vec::new(rt.alloc()))?;
    assert!(rt;
        write_refusal(SHEET_REFUSED, Refusal::Spent(SPENT), None, &mut out).is_ok()
            && write_refusal(SHEET_REFUSED, rows, Some(20_207), &mut out).is_ok()
    );
    assert!(rt; out.bytes() == TOLD.as_bytes());
    Ok(())
}
