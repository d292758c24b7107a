// What formulas, cells and values say, as trees.
use pc_name::{Name, Op, Sign};

/// A formula as it is written. An `And` or `Or` has two or more parts, and parentheses leave no node.
#[derive(Drop)]
pub enum FormulaTree {
    ForAll {
        name: Name,
        sort: Name,
        body: Box<FormulaTree>,
    },
    Exists {
        name: Name,
        sort: Name,
        body: Box<FormulaTree>,
    },
    /// At most, or else at least, `bound` values of the sort make the body true.
    Count {
        at_most: bool,
        bound: i64,
        name: Name,
        sort: Name,
        body: Box<FormulaTree>,
    },
    Iff(Box<FormulaTree>, Box<FormulaTree>),
    Implies(Box<FormulaTree>, Box<FormulaTree>),
    Or(Vec<FormulaTree>),
    And(Vec<FormulaTree>),
    Not(Box<FormulaTree>),
    Compare {
        left: SideTree,
        op: Op,
        right: SideTree,
    },
    InTable {
        table: Name,
        args: Vec<ItemTree>,
    },
}

/// A side of a comparison: its first item, and each further one with the sign before it.
#[derive(Drop)]
pub struct SideTree {
    pub first: ItemTree,
    pub rest: Vec<(Sign, ItemTree)>,
}

/// An integer, or a name with its arguments; a bare name has none.
#[derive(Drop)]
pub enum ItemTree {
    Number(i64),
    Named { name: Name, args: Vec<ItemTree> },
}

/// A cell as it is written: a family and its arguments.
#[derive(Drop)]
pub struct CellTree {
    pub name: Name,
    pub args: Vec<ValueTree>,
}

/// A value as it is written.
#[derive(Drop)]
pub enum ValueTree {
    Name(Name),
    Number(i64),
}
