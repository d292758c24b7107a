//! Whether the entries imply a closed formula, and a certificate of that.
ghost use Rattle.std.specs.Prelude.{◌≡◌, ◌≤◌, [], IfErr, IfOk, MatchResult};
ghost use Rattle.pc_accept.specs.Asked.{asked, denial};
ghost use Rattle.pc_elaborate.specs.Tests.{no_test};
ghost use Rattle.pc_elaborate.specs.Told.{IsFaultOf};
ghost use Rattle.pc_formula.specs.Nesting as written;
ghost use Rattle.pc_formula.specs.Sized.{IsSized};
ghost use Rattle.pc_formula.specs.Tree.{not};
ghost use Rattle.pc_ask.specs.Asking.{IsAnswer};
ghost use Rattle.pc_repairs.specs.Searches.{whole_problem};
ghost use Rattle.pc_sheet.specs.Sheet.{Sheet, Statement, with_rule};
ghost use Rattle.pc_sheet.specs.Views.{rule_of, statement_of};
ghost use Rattle.pc_sheet.specs.WellFormed.{IsWellFormed};
ghost use Rattle.pc_solver.specs.Solver.{IsLawfulLog};
ghost use Rattle.pc_sortcheck.specs.DeclarationFaults.{IsRuleFault};
ghost use Rattle.pc_syntax.specs.Command.{most_asked_nesting};
ghost use Rattle.pc_syntax.specs.Tree.{asks_ask, formula_of};
ghost use Rattle.pc_spreadsheet.specs.Commands.{Obeys, state_of};
ghost use Rattle.pc_spreadsheet.specs.Tasks.{IsDenialRule};
ghost use Rattle.pc_spreadsheet.specs.inside.Asking.{Answers, Certified};

use crate::page::{AskProof, Page};
use crate::refusal::refuse;
use crate::spending::{Told, note_whole};
use pc_ask::{Answer, AskStop, prove};
use pc_books::{Book, Formula, Name, Rule, place_of_rule, well_formed};
use pc_elaborate::check_formula;
use pc_lits::Tally;
use pc_log::Log;
use pc_reason::Reasons;
use pc_refusals::Refusal;
use pc_session::{Session, Spendings};
use pc_sheet::{Limited, MOST_RULES};
use pc_sortcheck::SortFault;
use pc_syntax::FormulaTree;
use pc_transcript::Reply;
use std::alloc::{AllocError, Global};

// The rule `ask` that denies the formula.
fn deny(alloc: Global, formula: Formula) -> Result<Rule, SortFault>
    ensures rule { IfOk result (λ rule. rule_of rule ≡ denial (statement_of formula)) }
    ensures want { IfErr result (λ fault. fault ≡ SortFault.Memory) }
{
    let name = Name::new(alloc, "ask")?;
    let denied = Box::new(alloc, formula)?;
    Ok(Rule {
        name,
        formula: Formula::Not(denied),
    })
}

// That rule of a formula, or the first fault: of the formula, or that there are as many rules as there may be.
fn denying(alloc: Global, book: &Book, tree: &FormulaTree) -> Result<Rule, SortFault>
    requires sized { IsSized (formula_of tree.now) }
    requires nested { written.nesting_of (formula_of tree.now) ≤ most_asked_nesting }
    ensures { MatchResult result (λ rule. (s : Statement) × (rule_of rule ≡ denial s) ×
        IsDenialRule book.now (formula_of tree.now) s)
        (IsFaultOf (IsRuleFault book.now (not (formula_of tree.now)) no_test)) }
{
    let formula = check_formula(alloc, book, tree)?;
    if book.rules().len() >= MOST_RULES {
        return Err(SortFault::Limit(Limited::Rules));
    }
    deny(alloc, formula)
}

// Makes the certificate of an answer.
fn certify(alloc: Global, book: Book, answer: Answer, log: &Log) -> Told
    requires lawful { IsLawfulLog (whole_problem book) [] log.now }
    requires answer { (sheet : Sheet) × (f : Statement) × (book ≡ asked sheet f) ×
        IsAnswer sheet f log.now answer }
    ensures { (sheet : Sheet) (f : Statement) → book ≡ asked sheet f →
        IsAnswer sheet f log.now answer → Certified sheet f result }
{
    match prove(alloc, &book, &answer, log) {
        Ok((lines, span)) => {
            let Answer {
                support,
                shown,
                names,
                ..
            } = answer;
            Reply::Shown(Page::Answered(AskProof {
                book,
                support,
                shown,
                names,
                lines,
                span,
            }))
        }
        Err(AllocError) => Reply::Memory,
    }
}

// Answers by the asked book.
fn answer_by(alloc: Global, session: &mut Session, book: Book, notes: &mut Spendings) -> Told
    requires { (f : Statement) × (book ≡ asked session.old.sheet f) }
    ensures same { session.new ≡ session.old }
    ensures answers { (f : Statement) → book ≡ asked session.old.sheet f →
        Answers session.old.budget session.old.sheet f notes.old notes.new result }
{
    let mut tally = Tally {
        placed: 0,
        learned: 0,
        calls: 0,
        limit: session.budget(),
    };
    let mut log = Log::new(alloc);
    match session.ask(&book, &mut log, &mut tally) {
        Ok(Some(answer)) => certify(alloc, book, answer, &log),
        Ok(None) => Reply::Shown(Page::Unanswered(book)),
        Err(AskStop::TooLarge) => Reply::Refused(Refusal::TooLarge, None),
        Err(AskStop::Spent) => note_whole(&book, &[log], tally, notes),
        Err(AskStop::Memory) => Reply::Memory,
    }
}

// Answers by the book with this rule.
fn answer_with(alloc: Global, session: &mut Session, rule: Rule, notes: &mut Spendings) -> Told
    requires denies { (f : Statement) × (rule_of rule ≡ denial f) }
    requires formed { IsWellFormed (with_rule session.old.sheet (rule_of rule)) }
    ensures same { session.new ≡ session.old }
    ensures answers { (f : Statement) → rule_of rule ≡ denial f →
        Answers session.old.budget session.old.sheet f notes.old notes.new result }
{
    match session.book_with(rule) {
        Ok(book) => answer_by(alloc, session, book, notes),
        Err(AllocError) => Reply::Memory,
    }
}

/// Answers whether the entries imply the formula, by the book with the rule `ask` that denies it. Nothing of that stays.
pub(crate) fn answer(
    alloc: Global,
    session: &mut Session,
    tree: &FormulaTree,
    notes: &mut Spendings,
) -> Told
    requires sized { IsSized (formula_of tree.now) }
    requires nested { written.nesting_of (formula_of tree.now) ≤ most_asked_nesting }
    ensures { Obeys (state_of session.old, notes.old) (asks_ask (formula_of tree.now)) result
        (state_of session.new, notes.new) }
{
    let book = session.book();
    well_formed(book);
    let rule = match denying(alloc, book, tree) {
        Ok(rule) => rule,
        Err(fault) => return refuse(fault),
    };
    match place_of_rule(book.rules(), rule.name.as_str()) {
        Some(_) => Reply::Refused(Refusal::DuplicateRule, None),
        None => answer_with(alloc, session, rule, notes),
    }
}
