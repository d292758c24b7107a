// The reader of the forms of a sheet's line.
ghost use Rattle.std.specs.Prelude.{◌≡◌, IfOk};
ghost use Rattle.pc_syntax.specs.Line.{LineForm, IsForm};
ghost use Rattle.pc_syntax.specs.Told.{form_of};

use crate::clause::{is_word, number};
use crate::declaration::declaration;
use crate::tree::Declaration;
use pc_formula::{Refusal, Words};
use std::alloc::Global;

/// What a line of a sheet is. A heading has its version.
#[derive(Drop)]
pub enum LineTree {
    Nothing,
    Heading(u64),
    Declares(Declaration),
    Begins,
}

/// The form of the line with these words.
pub fn form(alloc: Global, words: &mut Words<'_>) -> Result<LineTree, Refusal>
    ensures told { IfOk result (λ t. IsForm words.old (form_of t)) }
    ensures none { result ≡ Err Refusal.Syntax → (f : LineForm) → IsForm words.old f → ⊥ }
{
    let Some(start) = words.take_name() else {
        return Err(Refusal::Syntax);
    };
    if is_word(start, "sheet") {
        let version = number(words)?;
        return Ok(LineTree::Heading(version));
    }
    let declared = declaration(alloc, start, words)?;
    Ok(LineTree::Declares(declared))
}
