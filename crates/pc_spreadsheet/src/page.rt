//! What a spreadsheet can be shown as.

use pc_axiom_names::Names;
use pc_books::{Assignment, Book};
use pc_log::{Log, Span};
use pc_sheet::{Entry, Target};
use pc_world_list::SetProof;

/// Why a formula is implied: what a certificate against the last rule of the asked book is made of.
#[derive(Drop)]
pub struct AskProof {
    /// The asked book: its last rule says that the formula is false.
    pub book: Book,
    /// The least support, oldest entry first.
    pub support: Vec<Entry>,
    /// An assignment that makes the other rules true and has the support.
    pub shown: Assignment,
    /// The names of the asked book's variables and axioms.
    pub names: Names,
    /// The lines that derive that some entry of the support doesn't stand.
    pub lines: Log,
    /// Where these lie among them.
    pub span: Span,
}

/// What a spreadsheet can be shown as.
#[derive(Drop)]
pub enum Page {
    /// The display: each cell with what the entries imply of it.
    Display,
    /// The display as a table.
    Grid,
    /// The display as JSON, and its text, which has no end of line.
    Json(String),
    /// The text of a sheet that reads back as the spreadsheet's.
    SheetText,
    /// Why the target is implied, or that it isn't.
    Why(Target),
    /// Which entries could be kept together, part by part, as text.
    Listed(Vec<u8>),
    /// A certificate that the maximal sets are all that there are.
    Proof(SetProof),
    /// That the target is implied.
    Implied(Target),
    /// A certificate of the maximal sets by which the target isn't implied.
    Unimplied(Target, SetProof),
    /// A certificate that a formula is implied.
    Answered(AskProof),
    /// That the formula isn't implied that the last rule of this book denies.
    Unanswered(Book),
}
