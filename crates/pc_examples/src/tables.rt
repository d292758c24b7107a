// Tables of runs. A table is a text: what it is about, and behind each `=== ` a block. A block has its title, and behind each `--- ` a
// part: `words` that are run, the bytes of the `file` that is called `k.sheet`, those of the `input`, and `before` them those of
// another file of the folder; how the run `ends`, and what it prints. Where there is a part `certificate`, a certificate is printed
// behind that, which begins so, up to `..` where that is its last line, and which the sheet of the part `for` accepts. Where there
// is a part `rows`, each of its lines is a run of its own: with one text of the block in place of another, `old => new`, which may
// be several, parted by ` ; `; and behind ` ==> ` how it ends, if not as the block says. A `|` ends a line there.

use crate::running::{read_all, run_over};
use pc_port::{Shelf, ShelfFault};
use pc_replay::Status;
use std::alloc::{AllocError, Global};
use std::str;

/// What stands in a block's part behind its name, or nothing.
fn part_of<'a>(block: &'a str, name: &str) -> &'a str {
    for part in block.split("--- ") {
        if let Some(rest) = part.strip_prefix(name) {
            return rest;
        }
    }
    ""
}

fn first_line(text: &str) -> &str {
    match text.split_once('\n') {
        Some((line, _)) => line,
        None => text,
    }
}

/// What stands in a block in front of its rows.
fn without_rows(block: &str) -> &str {
    match block.split_once("--- rows\n") {
        Some((front, _)) => front,
        None => block,
    }
}

/// What a block's run takes in.
fn input_of<H: Shelf>(alloc: Global, shelf: &mut H, block: &str) -> Result<Vec<u8>, ShelfFault> {
    let before = first_line(part_of(block, "before "));
    let mut bytes = if before.is_empty() {
        Vec::new(alloc)
    } else {
        read_all(alloc, shelf, before)?
    };
    bytes.extend_from_slice(part_of(block, "input\n").as_bytes())?;
    Ok(bytes)
}

/// What stands behind the front, if the bytes begin with it.
fn behind<'a>(bytes: &'a [u8], front: &[u8]) -> &'a [u8] {
    match bytes.get(front.len()..) {
        Some(rest) if bytes.starts_with(front) => rest,
        _ => &[],
    }
}

/// Whether the sheet accepts the certificate.
fn is_accepted(alloc: Global, sheet: &str, certificate: &[u8]) -> Result<bool, AllocError> {
    let (ended, out) = run_over(alloc, "check k.sheet", sheet, certificate.to_vec(alloc)?)?;
    Ok(ended == Status::Done && out.bytes() == b"accepted\n".as_slice())
}

/// Whether this is what a block's run has to print: a text, and behind it the certificate, if there is one.
fn is_printed(alloc: Global, block: &str, text: &str, printed: &[u8]) -> Result<bool, AllocError> {
    let head = part_of(block, "certificate\n");
    if head.is_empty() {
        return Ok(printed == text.as_bytes());
    }
    let certificate = behind(printed, text.as_bytes());
    let head = head.strip_suffix("..\n").unwrap_or(head);
    Ok(
        certificate.starts_with(head.as_bytes())
            && is_accepted(alloc, part_of(block, "for\n"), certificate)?,
    )
}

/// Whether a block's run ends so: its status, and on the next lines what is printed.
fn ends_so<H: Shelf>(
    alloc: Global,
    shelf: &mut H,
    block: &str,
    want: &str,
) -> Result<bool, ShelfFault> {
    let (status, text) = want.split_once('\n').unwrap_or((want, ""));
    let words = first_line(part_of(block, "words "));
    let input = input_of(alloc, shelf, block)?;
    let (ended, out) = run_over(alloc, words, part_of(block, "file\n"), input)?;
    Ok(
        format!(in alloc; "{ended:?}")?.as_str() == status
            && is_printed(alloc, block, text, out.bytes())?,
    )
}

/// The text with a new one in place of an old one; nothing is left of a text that lacks it.
fn with(alloc: Global, text: &str, old: &str, new: &str) -> Result<String, AllocError> {
    let old = old.replace(alloc, '|', "\n")?;
    let new = new.replace(alloc, '|', "\n")?;
    match text.split_once(old.as_str()) {
        Some(_) => text.replace(alloc, old.as_str(), new.as_str()),
        None => Ok(String::new(alloc)),
    }
}

/// The text with all that a row puts in place; nothing is left where a row has something else.
fn altered(alloc: Global, text: &str, parts: &str) -> Result<String, AllocError> {
    let mut text = text.to_string(alloc)?;
    for part in parts.split(" ; ") {
        if !part.is_empty() {
            let (old, new) = part.split_once(" => ").unwrap_or((part, part));
            text = with(alloc, text.as_str(), old, new)?;
        }
    }
    Ok(text)
}

/// Whether the run of a row ends so.
fn is_row<H: Shelf>(
    alloc: Global,
    shelf: &mut H,
    block: &str,
    row: &str,
) -> Result<bool, ShelfFault> {
    let (parts, told) = row.split_once(" ==> ").unwrap_or((row, ""));
    let block = altered(alloc, without_rows(block), parts)?;
    let text = block.as_str();
    if told.is_empty() {
        ends_so(alloc, shelf, text, part_of(text, "ends "))
    } else {
        let want = told.replace(alloc, '|', "\n")?;
        ends_so(alloc, shelf, text, want.as_str())
    }
}

/// Notes a run that doesn't end so.
fn note(wrong: &mut String, block: &str, row: &str) -> Result<(), AllocError> {
    wrong.push_str("\nnot so: ")?;
    wrong.push_str(first_line(block))?;
    wrong.push_str(", ")?;
    wrong.push_str(row)
}

/// Runs a block's rows, and notes which of them don't end as they have to. How many there are.
fn judge_rows<H: Shelf>(
    alloc: Global,
    shelf: &mut H,
    block: &str,
    wrong: &mut String,
) -> Result<u64, ShelfFault> {
    let mut count = 0u64;
    for row in part_of(block, "rows\n").lines() {
        if !is_row(alloc, shelf, block, row)? {
            note(wrong, block, row)?;
        }
        count = count.saturating_add(1);
    }
    Ok(count)
}

/// The same of a block, which is one run where it has no rows.
fn judge_block<H: Shelf>(
    alloc: Global,
    shelf: &mut H,
    block: &str,
    wrong: &mut String,
) -> Result<u64, ShelfFault> {
    if !part_of(block, "rows\n").is_empty() {
        return judge_rows(alloc, shelf, block, wrong);
    }
    if !ends_so(alloc, shelf, block, part_of(block, "ends "))? {
        note(wrong, block, "")?;
    }
    Ok(1)
}

/// The same of the table of this name.
pub(crate) fn judge<H: Shelf>(
    alloc: Global,
    shelf: &mut H,
    name: &str,
    wrong: &mut String,
) -> Result<u64, ShelfFault> {
    let bytes = read_all(alloc, shelf, name)?;
    let Ok(text) = str::from_utf8(&bytes) else {
        return Err(ShelfFault::Failed);
    };
    let (_, blocks) = text.split_once("=== ").unwrap_or((text, ""));
    let mut count = 0u64;
    for block in blocks.split("=== ") {
        let runs = judge_block(alloc, shelf, block, wrong)?;
        count = count.saturating_add(runs);
    }
    Ok(count)
}
