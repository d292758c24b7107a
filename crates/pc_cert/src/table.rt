// The symbols of clauses, with their numbers.
ghost use Rattle.std.specs.Prelude.{◌≡◌, ◌↔◌, ◌∷◌, [], List, Some, map, IfOk, MatchOption};
ghost use Rattle.std.specs.Option.{option_map};
ghost use Rattle.pc_accept.specs.Literals.{Symbol as PlainSymbol, Literal};
ghost use Rattle.pc_cert.specs.Keys.{IsNumberedAs};
ghost use Rattle.pc_cert.specs.Meaning.{IsSymbolNamed, IsLiteralNamed, AreNamedEach};
ghost use Rattle.pc_cert.specs.Numbered.{AreSymbolNumbers, AreNumbered};
ghost use Rattle.pc_cert.specs.Trees as tree;
ghost use Rattle.pc_cert.specs.Views.{symbol_of, AreSymbolsDistinct};
ghost use Rattle.pc_cert.specs.Written.{written_pair, written_node};

use crate::cert::Symbol;
use crate::lookup::named_entry;
use crate::node::named_node;
use crate::numbering::Numbering;
use crate::tree::{LiteralTree, PairTree, PathTree, SymbolTree};
use pc_books::Book;
use pc_lits::{Lit, Var};
use std::alloc::{AllocError, Global};

/// Symbols by their numbers, and the numbers by hashing.
#[derive(Drop)]
pub struct Table {
    pub names: Numbering,
    pub symbols: Vec<Symbol>,
}

impl Table {
    /// No symbols.
    pub fn new(alloc: Global) -> Self
        ensures names { result.names ≡ [] }
        ensures symbols { result.symbols.items ≡ [] }
    {
        Table {
            names: Numbering::new(alloc),
            symbols: Vec::new(alloc),
        }
    }

    /// The symbols. They were all different.
    pub fn into_symbols(self) -> Vec<Symbol>
        ensures same { result ≡ self.symbols }
        ensures distinct { AreSymbolsDistinct self.names }
    {
        self.recall_different();
        self.symbols
    }

    // Recalls that the symbols are all different.
    fn recall_different(&self)
        ensures { AreSymbolsDistinct self.now.names }
    {
        let _ = self.names.len();
    }
}

// The number of the symbol, which becomes one of the table's.
fn number_symbol(alloc: Global, symbol: Symbol, table: &mut Table) -> Result<u32, AllocError>
    ensures kept { IfOk result (λ n. AreSymbolNumbers table.old → AreSymbolNumbers table.new) }
    ensures told { IfOk result (IsNumberedAs table.old.names table.new.names (symbol_of symbol)) }
{
    let number = table.names.number_symbol(alloc, &symbol)?;
    if number as usize == table.symbols.len() {
        table.symbols.push(symbol)?;
    }
    Ok(number)
}

// The symbol of a cell and a value.
fn named_pair(book: &Book, pair: &PairTree) -> Option<Symbol>
    ensures { (s : PlainSymbol) → (option_map symbol_of result ≡ Some s) ↔
        IsSymbolNamed book.now (written_pair (tree.pair_of pair.now)) s }
{
    let Some(entry) = named_entry(book, pair) else {
        return None;
    };
    Some(Symbol::Pair(entry.cell, entry.value))
}

// The symbol of a node.
fn named_place(alloc: Global, book: &Book, path: &PathTree) -> Result<Option<Symbol>, AllocError>
    ensures { IfOk result (λ o. (s : PlainSymbol) → (option_map symbol_of o ≡ Some s) ↔
        IsSymbolNamed book.now (written_node (tree.path_of path.now)) s) }
{
    let Some(place) = named_node(alloc, book, path)? else {
        return Ok(None);
    };
    Ok(Some(Symbol::Node(place)))
}

// The symbol that is named.
fn named_symbol(
    alloc: Global,
    book: &Book,
    symbol: &SymbolTree,
) -> Result<Option<Symbol>, AllocError>
    ensures { IfOk result (λ o. (s : PlainSymbol) → (option_map symbol_of o ≡ Some s) ↔
        IsSymbolNamed book.now (tree.symbol_of symbol.now) s) }
{
    match symbol {
        SymbolTree::Pair(pair) => Ok(named_pair(book, pair)),
        SymbolTree::Node(path) => named_place(alloc, book, path),
    }
}

// The literal that is named, by its symbol's number.
fn number_literal(
    alloc: Global,
    book: &Book,
    literal: &LiteralTree,
    table: &mut Table,
) -> Result<Option<Lit>, AllocError>
    ensures kept { IfOk result (λ o. AreSymbolNumbers table.old → AreSymbolNumbers table.new) }
    ensures told { IfOk result (λ o. MatchOption o ((l : Literal) →
        IsLiteralNamed book.now (tree.literal_of literal.now) l →
        ⊥) (λ l. AreNumbered book.now (tree.literal_of literal.now ∷ []) table.old.names
        table.new.names (l ∷ []))) }
{
    let Some(symbol) = named_symbol(alloc, book, &literal.what)? else {
        return Ok(None);
    };
    let number = number_symbol(alloc, symbol, table)?;
    Ok(Some(Lit {
        variable: Var(number),
        sign: literal.sign,
    }))
}

/// The literals that are named, by their symbols' numbers.
pub fn number_literals(
    alloc: Global,
    book: &Book,
    literals: &[LiteralTree],
    table: &mut Table,
) -> Result<Option<Vec<Lit>>, AllocError>
    ensures kept { IfOk result (λ o. AreSymbolNumbers table.old → AreSymbolNumbers table.new) }
    ensures told { IfOk result (λ o. MatchOption o ((ls : List Literal) →
        AreNamedEach (IsLiteralNamed book.now) (map tree.literal_of literals.now) ls →
        ⊥) (λ v. AreNumbered book.now (map tree.literal_of literals.now) table.old.names
        table.new.names v.items)) }
{
    let mut numbered = Vec::new(alloc);
    for literal in literals {
        let Some(lit) = number_literal(alloc, book, literal, table)? else {
            return Ok(None);
        };
        numbered.push(lit)?;
    }
    Ok(Some(numbered))
}
