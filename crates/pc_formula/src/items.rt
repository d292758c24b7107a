// The readers of items and of the sides of comparisons.
//
// An item calls itself again only behind `(`, so the number of these bounds its depth. Arguments and the items of a sum
// are read by loops.
ghost use Rattle.std.specs.Prelude.{◌≡◌, ◌<◌, ◌≤◌, map, length, IfOk, OnOk};
ghost use Rattle.pc_formula.specs.Word.{NoName};
ghost use Rattle.pc_formula.specs.Front.{StopsLevel, Reads, ReadsNone};
ghost use Rattle.pc_formula.specs.Tree.{item_of, side_of, added_of};
ghost use Rattle.pc_formula.specs.Side.{DerivesItem, DerivesItems, Adds, DerivesSide};

use crate::refusal::Refusal;
use crate::tree::{ItemTree, SideTree};
use crate::values::{goes_on, read_integer};
use crate::words::Words;
use pc_name::{Name, Sign};
use pc_token::Kind;
use std::alloc::Global;

// Reads ITEM = INT | NAME [ ( ITEM { , ITEM } ) ].
#[cycle(item)]
fn item(alloc: Global, words: &mut Words<'_>) -> Result<ItemTree, Refusal>
    ensures ok { IfOk result (λ t. Reads DerivesItem 1 words.old (item_of t) words.new) }
    ensures shorter { OnOk result (length words.new < length words.old) }
    ensures err { result ≡ Err Refusal.Syntax → ReadsNone DerivesItem 1 words.old }
{
    let Some(text) = words.take_name() else {
        return integer_item(words);
    };
    let name = Name::new(alloc, text)?;
    if !words.take_sign(Kind::Open) {
        let args = Vec::new(alloc);
        return Ok(ItemTree::Named { name, args });
    }
    let args = items(alloc, words)?;
    // An item has its arguments once.
    if !words.stops_at(1) {
        return Err(Refusal::Syntax);
    }
    Ok(ItemTree::Named { name, args })
}

// Reads ITEM { , ITEM } ).
#[cycle(item)]
fn items(alloc: Global, words: &mut Words<'_>) -> Result<Vec<ItemTree>, Refusal>
    ensures ok { IfOk result (λ v. Reads DerivesItems 0 words.old (map item_of v.items) words.new) }
    ensures shorter { OnOk result (length words.new < length words.old) }
    ensures err { result ≡ Err Refusal.Syntax → ReadsNone DerivesItems 0 words.old }
{
    let mut found = Vec::new(alloc);
    'items: loop {
        let next = item(alloc, words)?;
        found.push(next)?;
        if !goes_on(words)? {
            return Ok(found);
        }
    }
}

// Reads an item that is an INT.
fn integer_item(words: &mut Words<'_>) -> Result<ItemTree, Refusal>
    requires { NoName words.old }
    ensures ok { IfOk result (λ t. Reads DerivesItem 1 words.old (item_of t) words.new) }
    ensures shorter { OnOk result (length words.new < length words.old) }
    ensures err { result ≡ Err Refusal.Syntax → ReadsNone DerivesItem 1 words.old }
{
    let Some(value) = read_integer(words) else {
        return Err(Refusal::Syntax);
    };
    // An integer has no arguments.
    if !words.stops_at(1) {
        return Err(Refusal::Syntax);
    }
    Ok(ItemTree::Number(value))
}

// Reads { + ITEM | - ITEM }, behind an item.
fn added_items(alloc: Global, words: &mut Words<'_>) -> Result<Vec<(Sign, ItemTree)>, Refusal>
    requires { StopsLevel 1 words.old }
    ensures ok { IfOk result (λ v. Reads Adds 2 words.old (map added_of v.items) words.new) }
    ensures shorter { OnOk result (length words.new ≤ length words.old) }
    ensures err { result ≡ Err Refusal.Syntax → ReadsNone Adds 2 words.old }
{
    let mut found = Vec::new(alloc);
    'added: while let Some(sign) = words.take_plus_or_minus() {
        let next = item(alloc, words)?;
        found.push((sign, next))?;
    }
    Ok(found)
}

/// Reads SIDE = ITEM { + ITEM | - ITEM }.
pub fn side(alloc: Global, words: &mut Words<'_>) -> Result<SideTree, Refusal>
    ensures ok { IfOk result (λ t. Reads DerivesSide 2 words.old (side_of t) words.new) }
    ensures shorter { OnOk result (length words.new < length words.old) }
    ensures err { result ≡ Err Refusal.Syntax → ReadsNone DerivesSide 2 words.old }
{
    let first = item(alloc, words)?;
    let rest = added_items(alloc, words)?;
    Ok(SideTree { first, rest })
}
