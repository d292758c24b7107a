// The reader of formulas: one function for each form of the grammar.
//
// Each reads the longest front of the words that its form derives. It calls itself again only behind `(`, `!`, `->` and
// the words of quantifiers, so the number of these bounds its depth, and parts that `&` or `|` join are read by a loop.
ghost use Rattle.std.specs.Prelude.{◌≡◌, ◌<◌, ◌∷◌, ℕ, List, length, IfOk, OnOk, MatchOption};
ghost use Rattle.pc_formula.specs.Word.{Word, name, sign, NotFirst};
ghost use Rattle.pc_formula.specs.Tree.{Formula, formula_of, side_of};
ghost use Rattle.pc_formula.specs.Front.{Reads, ReadsNone};
ghost use Rattle.pc_formula.specs.Grammar.{whole, iffs, imps, joined, by_or, by_and, unary, quantified, IsTableAtom, Derives};

use crate::items::side;
use crate::quantifier::{Quantifier, read_quantifier};
use crate::refusal::Refusal;
use crate::tree::{FormulaTree, ItemTree, SideTree};
use crate::words::Words;
use pc_name::Name;
use pc_token::Kind;
use std::alloc::Global;

/// Reads FORMULA = QUANTIFIER NAME : NAME . FORMULA | IFF: the longest front of the words that is one.
#[cycle(formula)]
pub fn read_formula(alloc: Global, words: &mut Words<'_>) -> Result<FormulaTree, Refusal>
    ensures ok { IfOk result (λ t. Reads (Derives whole) 7 words.old (formula_of t) words.new) }
    ensures shorter { OnOk result (length words.new < length words.old) }
    ensures err { result ≡ Err Refusal.Syntax → ReadsNone (Derives whole) 7 words.old }
{
    let Some(quantifier) = read_quantifier(words)? else {
        return iff(alloc, words);
    };
    let (variable, sort) = binder(alloc, words)?;
    let body = read_formula(alloc, words)?;
    let body = Box::new(alloc, body)?;
    Ok(quantified(quantifier, variable, sort, body))
}

// Reads IFF = IMP [ <-> IMP ].
#[cycle(formula)]
fn iff(alloc: Global, words: &mut Words<'_>) -> Result<FormulaTree, Refusal>
    ensures ok { IfOk result (λ t. Reads (Derives iffs) 7 words.old (formula_of t) words.new) }
    ensures shorter { OnOk result (length words.new < length words.old) }
    ensures err { result ≡ Err Refusal.Syntax → ReadsNone (Derives iffs) 7 words.old }
{
    let first = imp(alloc, words)?;
    if !words.take_sign(Kind::DoubleArrow) {
        return Ok(first);
    }
    let second = imp(alloc, words)?;
    // A second arrow stands in no formula.
    if words.take_sign(Kind::DoubleArrow) {
        return Err(Refusal::Syntax);
    }
    Ok(FormulaTree::Iff(Box::new(alloc, first)?, Box::new(alloc, second)?))
}

// Reads IMP = OR [ -> IMP ].
#[cycle(formula)]
fn imp(alloc: Global, words: &mut Words<'_>) -> Result<FormulaTree, Refusal>
    ensures ok { IfOk result (λ t. Reads (Derives imps) 6 words.old (formula_of t) words.new) }
    ensures shorter { OnOk result (length words.new < length words.old) }
    ensures err { result ≡ Err Refusal.Syntax → ReadsNone (Derives imps) 6 words.old }
{
    let left = or(alloc, words)?;
    if !words.take_sign(Kind::Arrow) {
        return Ok(left);
    }
    let right = imp(alloc, words)?;
    Ok(FormulaTree::Implies(Box::new(alloc, left)?, Box::new(alloc, right)?))
}

// Reads OR = AND { | AND }.
#[cycle(formula)]
fn or(alloc: Global, words: &mut Words<'_>) -> Result<FormulaTree, Refusal>
    ensures ok { IfOk result (λ t. Reads (Derives (joined by_or)) 5 words.old (formula_of t)
        words.new) }
    ensures shorter { OnOk result (length words.new < length words.old) }
    ensures err { result ≡ Err Refusal.Syntax → ReadsNone (Derives (joined by_or)) 5 words.old }
{
    let first = and(alloc, words)?;
    if !words.take_sign(Kind::Or) {
        return Ok(first);
    }
    let second = and(alloc, words)?;
    let mut parts = vec![in alloc; first, second]?;
    'parts: while words.take_sign(Kind::Or) {
        let part = and(alloc, words)?;
        parts.push(part)?;
    }
    Ok(FormulaTree::Or(parts))
}

// Reads AND = UNARY { & UNARY }.
#[cycle(formula)]
fn and(alloc: Global, words: &mut Words<'_>) -> Result<FormulaTree, Refusal>
    ensures ok { IfOk result (λ t. Reads (Derives (joined by_and)) 4 words.old (formula_of t)
        words.new) }
    ensures shorter { OnOk result (length words.new < length words.old) }
    ensures err { result ≡ Err Refusal.Syntax → ReadsNone (Derives (joined by_and)) 4 words.old }
{
    let first = unary(alloc, words)?;
    if !words.take_sign(Kind::And) {
        return Ok(first);
    }
    let second = unary(alloc, words)?;
    let mut parts = vec![in alloc; first, second]?;
    'parts: while words.take_sign(Kind::And) {
        let part = unary(alloc, words)?;
        parts.push(part)?;
    }
    Ok(FormulaTree::And(parts))
}

// Reads UNARY = ! UNARY | ( FORMULA ) | ATOM.
#[cycle(formula)]
fn unary(alloc: Global, words: &mut Words<'_>) -> Result<FormulaTree, Refusal>
    ensures ok { IfOk result (λ t. Reads (Derives unary) 3 words.old (formula_of t) words.new) }
    ensures shorter { OnOk result (length words.new < length words.old) }
    ensures err { result ≡ Err Refusal.Syntax → ReadsNone (Derives unary) 3 words.old }
{
    if words.take_sign(Kind::Not) {
        let inner = unary(alloc, words)?;
        return Ok(FormulaTree::Not(Box::new(alloc, inner)?));
    }
    if words.take_sign(Kind::Open) {
        let inner = read_formula(alloc, words)?;
        if !words.take_sign(Kind::Close) {
            return Err(Refusal::Syntax);
        }
        // A formula is no side.
        if !words.stops_at(3) {
            return Err(Refusal::Syntax);
        }
        return Ok(inner);
    }
    atom(alloc, words)
}

// Reads ATOM = SIDE OP SIDE | NAME ( ITEM { , ITEM } ).
fn atom(alloc: Global, words: &mut Words<'_>) -> Result<FormulaTree, Refusal>
    requires { NotFirst Kind.Not words.old × NotFirst Kind.Open words.old }
    ensures ok { IfOk result (λ t. Reads (Derives unary) 3 words.old (formula_of t) words.new) }
    ensures shorter { OnOk result (length words.new < length words.old) }
    ensures err { result ≡ Err Refusal.Syntax → ReadsNone (Derives unary) 3 words.old }
{
    let left = side(alloc, words)?;
    let Some(op) = words.take_op() else {
        return table_atom(left);
    };
    let right = side(alloc, words)?;
    // A second comparison stands in no formula.
    if !words.stops_at(3) {
        return Err(Refusal::Syntax);
    }
    Ok(FormulaTree::Compare { left, op, right })
}

// The table's atom that a side is, where it is one name with its arguments.
fn table_atom(side: SideTree) -> Result<FormulaTree, Refusal>
    ensures ok { IfOk result (λ t. IsTableAtom (side_of side) (formula_of t)) }
    ensures err { result ≡ Err Refusal.Syntax → (f : Formula) → IsTableAtom (side_of side) f → ⊥ }
    ensures no_memory { result ≡ Err Refusal.Memory → ⊥ }
{
    let SideTree { first, rest } = side;
    if !rest.is_empty() {
        return Err(Refusal::Syntax);
    }
    let ItemTree::Named { name: table, args } = first else {
        return Err(Refusal::Syntax);
    };
    if args.is_empty() {
        return Err(Refusal::Syntax);
    }
    Ok(FormulaTree::InTable { table, args })
}

// Reads NAME : NAME `.`, behind QUANTIFIER: its variable and its sort.
fn binder(alloc: Global, words: &mut Words<'_>) -> Result<(Name, Name), Refusal>
    ensures ok { IfOk result (λ p. words.old ≡ name p.0 ∷ sign Kind.Colon ∷ name p.1 ∷
        sign Kind.Dot ∷ words.new) }
    ensures err { result ≡ Err Refusal.Syntax → (variable sort : List ℕ) (more : List Word) →
        words.old ≡ name variable ∷ sign Kind.Colon ∷ name sort ∷ sign Kind.Dot ∷ more → ⊥ }
{
    let Some(variable) = words.take_name() else {
        return Err(Refusal::Syntax);
    };
    if !words.take_sign(Kind::Colon) {
        return Err(Refusal::Syntax);
    }
    let Some(sort) = words.take_name() else {
        return Err(Refusal::Syntax);
    };
    if !words.take_sign(Kind::Dot) {
        return Err(Refusal::Syntax);
    }
    let variable = Name::new(alloc, variable)?;
    let sort = Name::new(alloc, sort)?;
    Ok((variable, sort))
}

// The quantifier's node.
fn quantified(quantifier: Quantifier, name: Name, sort: Name, body: Box<FormulaTree>) -> FormulaTree
    ensures { formula_of result ≡ quantified quantifier name sort (formula_of body.value) }
{
    match quantifier {
        Quantifier::ForAll => FormulaTree::ForAll { name, sort, body },
        Quantifier::Exists => FormulaTree::Exists { name, sort, body },
        Quantifier::Count { at_most, bound } => FormulaTree::Count {
            at_most,
            bound,
            name,
            sort,
            body,
        },
    }
}
