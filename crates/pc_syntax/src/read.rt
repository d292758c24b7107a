// The reader of a line, from its bytes.
ghost use Rattle.std.specs.Prelude.{◌≡◌, ◌↔◌, ◌⊎◌, ◌≤◌, List, length, IfOk, IsTrue};
ghost use Rattle.std.specs.List.{AllByRecursion};
ghost use Rattle.pc_name.specs.Names.{most_name_bytes};
ghost use Rattle.pc_token.specs.Token.{IsTokenOf};
ghost use Rattle.pc_formula.specs.Word.{words_of, HasShortNames};
ghost use Rattle.pc_token.specs.Line.{IsBlankLine, IsComment};
ghost use Rattle.pc_syntax.specs.Told.{AreTokensTold, IsFormTold, IsLineTold};

use crate::fault::LineFault;
use crate::line::{LineTree, form};
use pc_formula::Words;
use pc_token::{Token, TokenFault, is_blank_line, is_comment, is_one_name, tokens};
use std::alloc::Global;
use std::str;

/// The most tokens of a line at which a formula goes a level down.
const MOST_NESTING: usize = 128;

/// What the line of a sheet is.
pub fn read_line(alloc: Global, line: &[u8]) -> Result<LineTree, LineFault>
    requires { length line.now ≤ most_name_bytes }
    ensures { IsLineTold line.now result }
{
    let Ok(text) = str::from_utf8(line) else {
        return Err(LineFault::NotUtf8);
    };
    if is_nothing(text) {
        return Ok(LineTree::Nothing);
    }
    if is_one_name(text, "begin") {
        return Ok(LineTree::Begins);
    }
    read_form(alloc, text)
}

// The form that the tokens of the text are.
fn read_form(alloc: Global, text: &str) -> Result<LineTree, LineFault>
    requires { length text.now ≤ most_name_bytes }
    ensures { IsFormTold text.now result }
{
    let found = tokens_within(alloc, text)?;
    let mut words = Words::new(text, found.as_slice());
    let form = form(alloc, &mut words)?;
    Ok(form)
}

/// Whether the line is blank or a comment.
pub fn is_nothing(line: &str) -> bool
    ensures blank { IsTrue result → (IsBlankLine line.now ⊎ IsComment line.now) }
    ensures neither { (IsBlankLine line.now ⊎ IsComment line.now) → IsTrue result }
{
    is_blank_line(line) || is_comment(line)
}

/// The tokens of a line, where they don't go too deep.
pub fn tokens_within(alloc: Global, line: &str) -> Result<Vec<Token>, LineFault>
    requires { length line.now ≤ most_name_bytes }
    ensures each { IfOk result (λ found. AllByRecursion (IsTokenOf line.now) found.items) }
    ensures short { IfOk result (λ found. HasShortNames (words_of line.now found.items)) }
    ensures told { AreTokensTold line.now result }
{
    let found = match tokens(alloc, line) {
        Ok(found) => found,
        Err(TokenFault::BadCharacter { .. }) => return Err(LineFault::Syntax),
        Err(TokenFault::NumberTooLong { .. }) => return Err(LineFault::Syntax),
        Err(TokenFault::Memory) => return Err(LineFault::Memory),
    };
    if Words::new(line, found.as_slice()).nesting() > MOST_NESTING {
        return Err(LineFault::TooDeep);
    }
    Ok(found)
}
