// Lines from a source: that calls succeed with ample memory, worked lines, and how often the source is read.
ghost use Rattle.std.specs.Prelude.{◌<◌, ◌^◌, ◌-◌};

use pc_lines::{LineReader, Taken};
use pc_port::{Failed, MemorySource, Source};
use std::alloc::{AllocError, Global};
use std::test::Fail;

// The texts of the lines: '|' follows a line, '.' a last one without a line feed, '$' stands for the end, and '!' and
// '?' come before the start of a line that is too long or at which a read failed.
fn outline<S: Source>(alloc: Global, source: &mut S, limit: usize) -> Result<Vec<u8>, AllocError>
    requires { limit < 2 ^ 64 - 1 }
{
    let mut reader = LineReader::new(alloc, limit)?;
    let mut all = Vec::new(alloc);
    for _ in 0..100 {
        let (before, after) = match reader.next(source, limit) {
            Ok(Taken::Line) => ("", "|"),
            Ok(Taken::Last) => ("", "."),
            Ok(Taken::End) => ("$", ""),
            Ok(Taken::TooLong) => ("!", ""),
            Err(Failed) => ("?", ""),
        };
        all.extend_from_slice(before.as_bytes())?;
        all.extend_from_slice(reader.text())?;
        all.extend_from_slice(after.as_bytes())?;
        if !before.is_empty() {
            break;
        }
    }
    Ok(all)
}

// The text in full: `/` stands for a line feed, and `^` for a carriage return.
fn in_full(alloc: Global, text: &str) -> Result<String, AllocError> {
    let text = text.replace(alloc, '/', "\n")?;
    text.as_str().replace(alloc, '^', "\r")
}

// The number of one digit.
fn number_in(text: &str) -> usize
    ensures { result < 10 }
{
    text.parse::<usize>().unwrap_or(0).min(9)
}

// The outline of the text, of which so many bytes come at a time, where this read fails.
fn is_outline(
    alloc: Global,
    text: &str,
    most: usize,
    fails: u64,
    limit: usize,
    want: &str,
) -> Result<bool, AllocError>
    requires { limit < 10 }
{
    let bytes = text.as_bytes().to_vec(alloc)?;
    let mut source = MemorySource::new(bytes, most.max(1), vec![in alloc; fails]?);
    Ok(outline(alloc, &mut source, limit)?.as_slice() == want.as_bytes())
}

// The longest line that is taken, a text, and its outline.
const LINES: &str = "\
9 one^//two^^/three => one||two^|three.$
9  => $
9 / => |$
9 ^ => ^.$
9 a^b/^/ => a^b||$
4 abcd/abc^/abcd => abcd|abc|abcd.$
4 ab/abcd^/ => ab|!abcd^
4 abcde => !abcde
4 abcde/ => !abcde
0 //a/ => ||!a
";

// Whether the text of a row has the row's outline, however many bytes come at a time.
fn is_taken(alloc: Global, row: &str) -> Result<bool, AllocError> {
    let (limit, rest) = row.split_once(' ').unwrap_or((row, ""));
    let (text, want) = rest.split_once(" => ").unwrap_or((rest, ""));
    let limit = number_in(limit);
    let text = in_full(alloc, text)?;
    let want = in_full(alloc, want)?;
    for most in [1usize, 2, 7, 4096] {
        if !is_outline(alloc, text.as_str(), most, 0, limit, want.as_str())? {
            return Ok(false);
        }
    }
    Ok(true)
}

#[test]
fn lines_in_any_pieces(rt: HostRuntime) -> Result<(), Fail> {
    for row in LINES.lines() {
        assert!(rt; is_taken(rt.alloc(), row)?, "{row}");
    }
    Ok(())
}

// A text, how many bytes of it come at a time, the read that fails, and the outline: a line is taken before the read behind it, and
// the end by a read of its own.
const FAILING: &str = "\
ab/c/ 1 1 => ?
ab/c/ 1 2 => ?a
ab/c/ 1 3 => ?ab
ab/c/ 1 4 => ab|?
ab/c/ 1 5 => ab|?c
ab/c/ 1 6 => ab|c|?
ab/c/ 1 7 => ab|c|$
a/b/c/d 3 1 => ?
a/b/c/d 3 2 => a|?b
a/b/c/d 3 3 => a|b|c|?
a/b/c/d 3 4 => a|b|c|?d
a/b/c/d 3 5 => a|b|c|d.?
a/b/c/d 3 6 => a|b|c|d.$
";

fn is_failing(alloc: Global, row: &str) -> Result<bool, AllocError> {
    let (given, want) = row.split_once(" => ").unwrap_or((row, ""));
    let (text, numbers) = given.split_once(' ').unwrap_or((given, ""));
    let (most, read) = numbers.split_once(' ').unwrap_or((numbers, ""));
    let text = in_full(alloc, text)?;
    let read = number_in(read) as u64;
    is_outline(alloc, text.as_str(), number_in(most), read, 9, want)
}

#[test]
fn reads_that_fail(rt: HostRuntime) -> Result<(), Fail> {
    for row in FAILING.lines() {
        assert!(rt; is_failing(rt.alloc(), row)?, "{row}");
    }
    Ok(())
}
