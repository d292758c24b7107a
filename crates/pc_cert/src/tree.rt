// What the lines of a certificate say, as trees: names aren't looked up yet.
use pc_formula::{CellTree, Name, ValueTree};

/// A cell and a value.
#[derive(Drop)]
pub struct PairTree {
    pub cell: CellTree,
    pub value: ValueTree,
}

/// A rule's name, and the child numbers on the way from its root.
#[derive(Drop)]
pub struct PathTree {
    pub rule: Name,
    pub steps: Vec<u64>,
}

#[derive(Drop)]
pub enum SymbolTree {
    Pair(PairTree),
    Node(PathTree),
}

#[derive(Drop)]
pub struct LiteralTree {
    pub what: SymbolTree,
    pub sign: bool,
}

/// What stands behind `claim`.
#[derive(Drop)]
pub enum ClaimTree {
    Implied(PairTree, bool),
    Inconsistent,
    Repairs,
    Not(PairTree),
    Against(Name),
}

/// What stands behind the number of a line of the derivation.
#[derive(Drop)]
pub enum PartTree {
    Any(CellTree),
    One(CellTree, ValueTree, ValueTree),
    Rule(Name),
    Node(PathTree, u32),
    Atom(PathTree, Vec<PairTree>),
    Step {
        clause: Vec<LiteralTree>,
        hints: Vec<u64>,
    },
    Block(u64),
}

/// A line by its form.
#[derive(Drop)]
pub enum LineTree {
    Nothing,
    Heading,
    Claims(ClaimTree),
    Begins,
    Uses(PairTree),
    Assigns(PairTree),
    Derives(u64, PartTree),
    Ends,
}
