// What no clause says: that many pieces reach a sink in one write, and that this goes well with ample memory.

use pc_lines::Gathering;
use pc_port::{MemorySink, Sink};
use std::alloc::{AllocError, Global};
use std::test::Fail;

// Pieces, the room for them, and the write that fails; whether all pieces were held, whether they were passed on, and
// whether they were once more; and what arrived. Where there is nothing, no write is made.
const CASES: &str = "\
one two three;11;9 => true true true;onetwothreeonetwothree
one two three;11;1 => true false true;onetwothree
one two three;11;2 => true true false;onetwothree
one two three;10;9 => false true true;onetwoonetwo
one three two;6;9 => false true true;onetwoonetwo
;11;1 => true true true;
";

// Whether the room holds all of the pieces.
fn holds(room: &mut Gathering, pieces: &str) -> bool {
    let mut all = true;
    for piece in pieces.split(' ') {
        all = room.write(piece.as_bytes()).is_ok() && all;
    }
    all
}

// Whether the pieces of a row are gathered and passed on as the row says.
fn is_gathered(alloc: Global, row: &str) -> Result<bool, AllocError> {
    let (given, want) = row.split_once(" => ").unwrap_or((row, ""));
    let (pieces, numbers) = given.split_once(';').unwrap_or(("", ""));
    let (size, write) = numbers.split_once(';').unwrap_or(("", ""));
    let fails = vec![in alloc; write.parse::<u64>().unwrap_or(0)]?;
    let mut out = MemorySink::new(alloc, 64, fails)?;
    let mut room = Gathering::new(alloc, size.parse::<usize>().unwrap_or(0))?;
    let all = holds(&mut room, pieces);
    let first = room.pass_on(&mut out).is_ok();
    let second = room.pass_on(&mut out).is_ok();
    let (told, arrived) = want.split_once(';').unwrap_or((want, ""));
    let ended = format!(in alloc; "{all} {first} {second}")?;
    Ok(ended.as_str() == told && out.bytes() == arrived.as_bytes())
}

#[test]
fn many_pieces_in_one_write(rt: HostRuntime) -> Result<(), Fail> {
    for row in CASES.lines() {
        assert!(rt; is_gathered(rt.alloc(), row)?, "{row}");
    }
    Ok(())
}
