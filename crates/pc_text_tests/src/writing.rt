// What is written in pieces, where a write fails too; how faults of text print; and a generated text.
use pc_gen::generated;
use pc_port::{MemorySink, Sink};
use pc_syntax::{CommandFault, SheetFault};
use pc_token::TokenFault;
use pc_writer::{write_integer, write_text};
use std::alloc::{AllocError, Global};
use std::fmt::Display;
use std::test::Fail;

fn write_number(number: i64, out: &mut MemorySink) -> bool {
    write_integer(number, out).is_ok() && write_text(b";", out).is_ok()
}

// The last write fails.
#[test]
fn numbers_in_decimal(rt: HostRuntime) -> Result<(), Fail> {
    let mut out = MemorySink::new(rt.alloc(), 64, vec![in rt.alloc(); 13]?)?;
    for number in [0, 7, -1, 1200, -42, i64::MIN] {
        assert!(rt; write_number(number, &mut out), "{number}");
    }
    assert!(rt; !write_number(34, &mut out));
    assert!(rt; out.bytes() == b"0;7;-1;1200;-42;-9223372036854775808;".as_slice());
    Ok(())
}

fn prints<F: Display>(alloc: Global, fault: &F, want: &str) -> Result<bool, AllocError> {
    Ok(format!(in alloc; "{fault}")?.as_str() == want)
}

fn faults_of_lines_print(alloc: Global) -> Result<bool, AllocError> {
    let bad = TokenFault::BadCharacter { at: 2 };
    let long = TokenFault::NumberTooLong { at: 0 };
    Ok(
        prints(alloc, &bad, "no token starts at byte 2")?
            && prints(alloc, &long, "the number at byte 0 has more than 18 digits")?
            && prints(alloc, &TokenFault::Memory, "out of memory")?
            && prints(alloc, &CommandFault::TooDeep, "the line goes too deep")?,
    )
}

fn faults_of_sheets_print(alloc: Global) -> Result<bool, AllocError> {
    let bytes = SheetFault::NotUtf8 { line: 3 };
    let line = SheetFault::Syntax { line: 4 };
    Ok(
        prints(alloc, &bytes, "line 3 is not UTF-8")?
            && prints(alloc, &line, "line 4 may not stand there")?
            && prints(alloc, &SheetFault::NoBegin, "no line is `begin`")?,
    )
}

#[test]
fn faults_print(rt: HostRuntime) -> Result<(), Fail> {
    assert!(rt; faults_of_lines_print(rt.alloc())? && faults_of_sheets_print(rt.alloc())?);
    Ok(())
}

// The text of three blocks.
const THREE: &str =
    "sheet 1\nsort block = 1 .. 3\nsort slot = 1 .. 4\nsort color = red green blue\ncell x(block, slot) : color\nrule chain : forall b:block . x(b, 1) = x(b, 2) & x(b, 2) = x(b, 3)\nrule other : forall b:block . x(b, 3) != x(b, 4)\nenter x(1, 1) = green\nenter x(1, 3) = green\nenter x(2, 1) = blue\nenter x(2, 3) = green\nenter x(3, 1) = red\nenter x(3, 3) = red\nbegin\n";

fn are_generated(alloc: Global) -> Result<bool, AllocError> {
    Ok(generated(alloc, 3)?.as_slice() == THREE.as_bytes())
}

#[test]
fn three_blocks(rt: HostRuntime) -> Result<(), Fail> {
    assert!(rt; are_generated(rt.alloc())?);
    Ok(())
}
