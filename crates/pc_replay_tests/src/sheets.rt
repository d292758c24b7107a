// Runs over a shelf and an input, with ample memory; bytes that are no text, and texts that are cut anywhere.

use pc_port::{MemoryShelf, MemorySink, MemorySource};
use pc_replay::{Spendings, Status, run};
use std::alloc::{AllocError, Global};
use std::test::Fail;

// The words, parted by spaces; none of an empty text.
pub(crate) fn parted(alloc: Global, text: &str) -> Result<Vec<String>, AllocError> {
    let mut words = Vec::new(alloc);
    if text.is_empty() {
        return Ok(words);
    }
    for word in text.split(' ') {
        words.push(word.to_string(alloc)?)?;
    }
    Ok(words)
}

// A shelf of one file, `k.sheet`, whose calls of these numbers fail.
pub(crate) fn shelf_of(
    alloc: Global,
    sheet: &[u8],
    fails: Vec<u64>,
) -> Result<MemoryShelf, AllocError> {
    let mut files = Vec::new(alloc);
    files.push(("k.sheet".to_string(alloc)?, sheet.to_vec(alloc)?))?;
    Ok(MemoryShelf::new(files, fails))
}

// A run of the words over a shelf and an input, which comes in parts: its status, and what it prints.
fn run_with(
    alloc: Global,
    words: &str,
    sheet: &[u8],
    input: &[u8],
) -> Result<(Status, MemorySink), AllocError> {
    let words = parted(alloc, words)?;
    let mut shelf = shelf_of(alloc, sheet, Vec::new(alloc))?;
    let mut input = MemorySource::new(input.to_vec(alloc)?, 100, Vec::new(alloc));
    let mut out = MemorySink::new(alloc, 1_048_576, Vec::new(alloc))?;
    let mut spent = Spendings::new(alloc);
    let status = run(alloc, &words, &mut input, &mut shelf, &mut out, &mut spent);
    Ok((status, out))
}

// Whether a run ends so: the first line has the status, and the others are printed.
fn ends_so(
    alloc: Global,
    words: &str,
    sheet: &[u8],
    input: &[u8],
    want: &str,
) -> Result<bool, AllocError> {
    let (ended, out) = run_with(alloc, words, sheet, input)?;
    let (status, text) = want.split_once('\n').unwrap_or((want, ""));
    Ok(format!(in alloc; "{ended:?}")?.as_str() == status && out.bytes() == text.as_bytes())
}

// Adds the part so many times, with its number in place of each `#`.
fn add_numbered(
    alloc: Global,
    text: &mut String,
    count: usize,
    part: &str,
) -> Result<(), AllocError> {
    for number in 0..count {
        let number = format!(in alloc; "{number}")?;
        text.push_str(part.replace(alloc, '#', number.as_str())?.as_str())?;
    }
    Ok(())
}

// Adds a piece: as it is, so many times behind a number and `*`, or numbered behind a number and `#`.
fn add_piece(alloc: Global, text: &mut String, piece: &str) -> Result<(), AllocError> {
    if let Some((count, part)) = piece.split_once('*') {
        let part = part.repeat(alloc, count.parse::<usize>().unwrap_or(0))?;
        return text.push_str(part.as_str());
    }
    match piece.split_once('#') {
        Some((count, part)) => {
            add_numbered(alloc, text, count.parse::<usize>().unwrap_or(0), part)
        }
        None => text.push_str(piece),
    }
}

// The text of the pieces, which `~` parts; `|` ends a line.
fn spelled(alloc: Global, text: &str) -> Result<String, AllocError> {
    let lines = text.replace(alloc, '|', "\n")?;
    let mut all = String::new(alloc);
    for piece in lines.as_str().split('~') {
        add_piece(alloc, &mut all, piece)?;
    }
    Ok(all)
}

// The same as bytes: `^` stands for a carriage return, and `?` for a byte that no text has.
fn spelled_bytes(alloc: Global, text: &str) -> Result<Vec<u8>, AllocError> {
    let text = spelled(alloc, text)?;
    let mut bytes = Vec::new(alloc);
    for byte in text.as_str().as_bytes() {
        bytes.push(match *byte {
            b'^' => b'\r',
            b'?' => 255,
            other => other,
        })?;
    }
    Ok(bytes)
}

// Whether a run ends as a row says: the words, the file and the input, parted by `%`, and how it ends and what is printed.
pub(crate) fn is_row(alloc: Global, row: &str) -> Result<bool, AllocError> {
    let (given, want) = row.split_once(" => ").unwrap_or((row, ""));
    let (words, texts) = given.split_once('%').unwrap_or((given, ""));
    let (file, input) = texts.split_once('%').unwrap_or((texts, ""));
    let file = spelled_bytes(alloc, file)?;
    let input = spelled_bytes(alloc, input)?;
    let want = spelled(alloc, want)?;
    ends_so(alloc, words, &file, &input, want.as_str())
}

// Bytes that are no text, and carriage returns: one before a line feed is dropped. And a run without words.
const BYTES: &str = "\
replay%%sheet 1|sort color = red|?|begin| => SheetRefused|sheet refused 1 not-utf8 line 3|
replay%%sheet 1||; ?||sort|begin => SheetRefused|sheet refused 1 not-utf8 line 3|
edit k.sheet%sheet 1|begin|; ?% => SheetRefused|sheet refused 1 not-utf8 line 3|
replay%%sheet 1|begin|; ?|enter ? = red => SomeRefused|refused 1 not-utf8|refused 1 not-utf8|
replay%%^|; colors^|sheet 1^|sort k = a b^|begin \t^|dump^|^| => Done|sheet 1|sort k = a b|begin|
replay%%sheet 1^^|begin| => SheetRefused|sheet refused 2 syntax line 1|
edit k.sheet%sheet 1|begin^% => SheetRefused|sheet refused 2 syntax line 2|
replay%%sheet 1|begin|show^ => SomeRefused|refused 2 syntax|
%%show => Usage|usage: predicalc replay / edit FILE / check FILE / merge FILE / posts FILE / demo N [--budget K]|
";

#[test]
fn bytes_that_are_no_text(rt: HostRuntime) -> Result<(), Fail> {
    for row in BYTES.lines() {
        assert!(rt; is_row(rt.alloc(), row)?, "{row}");
    }
    Ok(())
}

// Three cells that have to be equal.
pub(crate) const EQUAL: &str = "\
sheet 1
sort color = red green
cell a : color
cell b : color
cell c : color
rule ab : a = b
rule bc : b = c
begin
";

// The same with an entry.
pub(crate) const ENTERED: &str = "\
sheet 1
sort color = red green
cell a : color
cell b : color
cell c : color
rule ab : a = b
rule bc : b = c
enter a = red
begin
";

// That the second is red, since the first is.
pub(crate) const ACCEPTED: &str = "\
certificate 1
claim b = red
use a = red
value a = red
value b = red
value c = red
1 rule ab
2 atom @ab a=red b=green
3 some b
4 step ~a=red b=red : 3 1 2
end
";

// Whether a front of a sheet has a line at fault or lacks its last one, or a front of a certificate has a fault of text.
fn is_cut(alloc: Global, words: &str, front: &[u8]) -> Result<bool, AllocError> {
    let (status, out) = run_with(alloc, words, ENTERED.as_bytes(), front)?;
    let told = out.bytes();
    Ok(match status {
        Status::SheetRefused => {
            told == b"sheet refused 3 no-begin\n".as_slice()
                || told.starts_with(b"sheet refused 2 syntax line ")
        }
        Status::CertRefused => {
            told.starts_with(b"refused syntax line ")
                || told.starts_with(b"refused unknown-name line ")
        }
        _ => false,
    })
}

// A sheet that is cut anywhere before its end.
#[test]
fn cut_sheets(rt: HostRuntime) -> Result<(), Fail> {
    let sheet = ENTERED.as_bytes();
    for end in 0..sheet.len() - 1 {
        assert!(rt; is_cut(rt.alloc(), "replay", &sheet[..end])?, "{end}");
    }
    Ok(())
}

// A certificate that is cut anywhere before its last letter.
#[test]
fn cut_certificates(rt: HostRuntime) -> Result<(), Fail> {
    let certificate = ACCEPTED.as_bytes();
    for end in 0..certificate.len() - 1 {
        assert!(rt;
            is_cut(rt.alloc(), "check k.sheet", &certificate[..end])?,
            "{end}"
        );
    }
    Ok(())
}
