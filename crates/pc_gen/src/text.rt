// The generated text, piece by piece.
ghost use Rattle.std.specs.Prelude.{◌≡◌, ◌≤◌, ◌<◌, ◌++◌, IfOk, OnOk, string_bytes, codes};
ghost use Rattle.std.specs.List.{flat_map};
ghost use Rattle.pc_gen.specs.Text.{block_lines, color_name, ended, enter_line, generated_text, head_lines};

use std::alloc::{AllocError, Global};

const SORTS_AND_RULES: &str =
    "sort slot = 1 .. 4\nsort color = red green blue\ncell x(block, slot) : color\nrule chain : forall b:block . x(b, 1) = x(b, 2) & x(b, 2) = x(b, 3)\nrule other : forall b:block . x(b, 3) != x(b, 4)\n";

// The color of number 0, 1 or 2.
fn color_name(number: u32) -> &'static str
    ensures { result.now ≡ color_name number }
{
    match number {
        0 => "red",
        1 => "green",
        _ => "blue",
    }
}

// Adds all that stands before the entries.
fn push_head(alloc: Global, n: u32, text: &mut String) -> Result<(), AllocError>
    ensures { OnOk result (string_bytes text.new ≡ string_bytes text.old ++
        flat_map ended (head_lines n)) }
{
    let blocks = format!(in alloc; "sort block = 1 .. {n}\n")?;
    text.push_str("sheet 1\n")?;
    text.push_str(blocks.as_str())?;
    text.push_str(SORTS_AND_RULES)
}

// Adds the entry of the block's cell in that slot.
fn push_entry(
    alloc: Global,
    block: u32,
    slot: &str,
    color: u32,
    text: &mut String,
) -> Result<(), AllocError>
    ensures { OnOk result (string_bytes text.new ≡ string_bytes text.old ++
        ended (enter_line block slot.now color)) }
{
    let color = color_name(color);
    let line = format!(in alloc; "enter x({block}, {slot}) = {color}\n")?;
    text.push_str(line.as_str())
}

// Adds the entries of a block.
fn push_block(alloc: Global, block: u32, text: &mut String) -> Result<(), AllocError>
    requires { block ≤ 256 }
    ensures { OnOk result (string_bytes text.new ≡ string_bytes text.old ++
        flat_map ended (block_lines block)) }
{
    push_entry(alloc, block, "1", block % 3, text)?;
    push_entry(alloc, block, "3", block * block % 3, text)
}

/// The canonical text of a sheet of n blocks: a block is four cells of three colors, the first three equal and the last one
/// not as the third, with an entry for its first cell and one for its third. A block whose number leaves 2 modulo 3 has a
/// conflict, the others have none.
pub fn generated(alloc: Global, n: u32) -> Result<Vec<u8>, AllocError>
    requires some { 1 ≤ n }
    requires most { n ≤ 256 }
    ensures { IfOk result (λ text. text.items ≡ generated_text n) }
{
    let mut text = String::new(alloc);
    push_head(alloc, n, &mut text)?;
    for done in 0..n {
        push_block(alloc, done + 1, &mut text)?;
    }
    text.push_str("begin\n")?;
    Ok(text.into_bytes())
}
