// What the lines of a sheet and the commands say, as trees.
ghost use Rattle.std.specs.Prelude.{◌≡◌};

use pc_formula::{CellTree, FormulaTree, ValueTree};
use pc_name::Name;
use std::alloc::AllocError;
use thiserror::Error;

/// A sheet's declarations, each with the number of its line, from 1.
///
/// The lines `sheet` and `begin`, blank lines and comments leave none.
#[derive(Drop)]
pub struct SheetTree {
    pub declarations: Vec<(u32, Declaration)>,
}

/// What a line of a sheet declares.
#[derive(Drop)]
pub enum Declaration {
    ListSort {
        name: Name,
        values: Vec<Name>,
    },
    RangeSort {
        name: Name,
        low: i64,
        high: i64,
    },
    Table {
        name: Name,
        sorts: Vec<Name>,
    },
    Row {
        table: Name,
        values: Vec<ValueTree>,
    },
    Cell {
        name: Name,
        sorts: Vec<Name>,
        result: Name,
    },
    Rule(RuleTree),
    Enter(CellTree, ValueTree),
    Also(CellTree, ValueTree),
}

/// What a command asks for.
#[derive(Drop)]
pub enum Command {
    Enter(CellTree, ValueTree),
    Also(CellTree, ValueTree),
    Clear(CellTree),
    ClearOne(CellTree, ValueTree),
    AddRule(RuleTree),
    DropRule(Name),
    Budget(u64),
    Show,
    Grid,
    Json,
    Why {
        cell: CellTree,
        value: ValueTree,
        holds: bool,
    },
    Dump,
    Repairs,
    ProveRepairs,
    WhyNot(CellTree, ValueTree),
    Ask(FormulaTree),
}

/// A rule as it is written.
#[derive(Drop)]
pub struct RuleTree {
    pub name: Name,
    pub formula: FormulaTree,
}

/// Why a text is no sheet. A line's number counts from 1.
#[derive(Debug, Drop, Error)]
pub enum SheetFault {
    #[error("line {line} is not UTF-8")]
    NotUtf8 { line: u32 },
    #[error("line {line} may not stand there")]
    Syntax { line: u32 },
    #[error("no line is `begin`")]
    NoBegin,
    #[error("line {line} has another version than 1 or 2")]
    WrongVersion { line: u32 },
    #[error("line {line} goes too deep")]
    TooDeep { line: u32 },
    #[error("out of memory")]
    Memory,
}

impl From<AllocError> for SheetFault {
    ghost use Rattle.pc_syntax.specs.declared.tree.SheetFault.TheVariants.{Memory};

    ghost from_gives = { λ _ e. e ≡ Memory };

    fn from(_: AllocError) -> Self {
        SheetFault::Memory
    }
}

/// Why a line is no command.
#[derive(Debug, Drop, Error)]
pub enum CommandFault {
    #[error("the line is not UTF-8")]
    NotUtf8,
    #[error("the line is no command")]
    Syntax,
    #[error("the line goes too deep")]
    TooDeep,
    #[error("out of memory")]
    Memory,
}
