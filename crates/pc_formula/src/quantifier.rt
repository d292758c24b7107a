// What starts a quantified formula.
ghost use Rattle.std.specs.Prelude.{◌≡◌, ◌<◌, length, IfOk, IfSome, MatchOption};
ghost use Rattle.pc_formula.specs.Word.{HasNotReserved};
ghost use Rattle.pc_formula.specs.Front.{ReadsNone};
ghost use Rattle.pc_formula.specs.Quantifier.{DerivesQuantifier};
ghost use Rattle.pc_formula.specs.Grammar.{whole, Derives};

use crate::refusal::Refusal;
use crate::values::read_number;
use crate::words::Words;

/// How many values are to make a body true: all, one or more, or at most or else at least so many.
#[derive(Clone, Copy)]
pub enum Quantifier {
    ForAll,
    Exists,
    Count { at_most: bool, bound: i64 },
}

/// Reads QUANTIFIER = forall | exists | atmost NUMBER | atleast NUMBER, where the first word is a reserved one.
pub fn read_quantifier(words: &mut Words<'_>) -> Result<Option<Quantifier>, Refusal>
    ensures ok { IfOk result (λ found. MatchOption found (HasNotReserved words.old words.new)
        (λ q. DerivesQuantifier words.old q words.new)) }
    ensures shorter { IfOk result (λ found.
        IfSome found (λ q. length words.new < length words.old)) }
    ensures err { result ≡ Err Refusal.Syntax → ReadsNone (Derives whole) 7 words.old }
{
    let Some(word) = words.take_reserved() else {
        return Ok(None);
    };
    if word == "forall" {
        return Ok(Some(Quantifier::ForAll));
    }
    if word == "exists" {
        return Ok(Some(Quantifier::Exists));
    }
    // The other two words count.
    let at_most = word == "atmost";
    match read_number(words) {
        Some(number) => Ok(Some(Quantifier::Count {
            at_most,
            bound: number as i64,
        })),
        None => Err(Refusal::Syntax),
    }
}
