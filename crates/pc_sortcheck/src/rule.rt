//! Lines that add a rule.
ghost use Rattle.std.specs.Prelude.{◌≡◌, ◌≤◌, [], IfOk, MatchResult};
ghost use Rattle.pc_formula.specs.Nesting as written;
ghost use Rattle.pc_formula.specs.Sized.{IsSized};
ghost use Rattle.pc_formula.specs.Word.{most_nesting};
ghost use Rattle.pc_sheet.specs.Nesting as built;
ghost use Rattle.pc_sheet.specs.Views.{rule_of};
ghost use Rattle.pc_sheet.specs.WellSorted.{IsWellSorted};
ghost use Rattle.pc_syntax.specs.Tree as lines;
ghost use Rattle.pc_syntax.specs.Tree.{formula_of};
ghost use Rattle.pc_elaborate.specs.Elaboration.{IsStatement};
ghost use Rattle.pc_elaborate.specs.Tests.{no_test};
ghost use Rattle.pc_elaborate.specs.Told.{IsFaultOf, TellsFault};
ghost use Rattle.pc_elaborate.specs.declared.fault.SortFault.{SortFault};
ghost use Rattle.pc_sortcheck.specs.DeclarationFaults.{IsDeclarationFault, IsRuleFault};
ghost use Rattle.pc_sortcheck.specs.Declaring.{Declares};

use crate::names::{is_name, is_rule_name, keeps_form};
use pc_books::{Book, Rule};
use pc_elaborate::{SortFault, check_formula};
use pc_sheet::{Limited, MOST_RULES};
use pc_syntax::RuleTree;
use std::alloc::Global;

/// The rule that a tree stands for in the book, or the first fault: of its formula, from left to right, or that there
/// are as many rules as there may be. Whether its name is new isn't tested. Where memory is there, each comes exactly
/// where it is so: by the law `trees_have_one_outcome` of `pc_elaborate` a formula stands for one statement at most, and then
/// has no fault.
pub fn check_rule(alloc: Global, book: &Book, tree: &RuleTree) -> Result<Rule, SortFault>
    requires sized { IsSized (formula_of tree.now.formula) }
    ensures told { MatchResult result (λ rule.
        IsStatement book.now.universe [] (formula_of tree.now.formula) (rule_of rule).states ×
        IsWellSorted book.now.universe [] (rule_of rule).states)
        (IsFaultOf (IsRuleFault book.now (formula_of tree.now.formula) no_test)) }
    ensures named { IfOk result (λ rule. (rule_of rule).name ≡ tree.now.name) }
    ensures nested { IfOk result (λ rule. built.nesting_of (rule_of rule).states ≡
        written.nesting_of (formula_of tree.now.formula)) }
    ensures fault { (e : SortFault) → IsRuleFault book.now (formula_of tree.now.formula) no_test e →
        TellsFault result e }
{
    let formula = check_formula(alloc, book, &tree.formula)?;
    if book.rules().len() >= MOST_RULES {
        return Err(SortFault::Limit(Limited::Rules));
    }
    let name = tree.name.clone()?;
    Ok(Rule { name, formula })
}

pub(crate) fn declare_rule(alloc: Global, book: &mut Book, tree: &RuleTree) -> Result<(), SortFault>
    requires sized { IsSized (formula_of tree.now.formula) }
    requires nested { written.nesting_of (formula_of tree.now.formula) ≤ most_nesting }
    ensures { MatchResult result
        (λ _. Declares book.old (lines.rule tree.now.name (formula_of tree.now.formula)) book.new)
        (IsFaultOf
        (IsDeclarationFault book.old (lines.rule tree.now.name (formula_of tree.now.formula)))) }
{
    keeps_form(book);
    is_name(&tree.name);
    let rule = check_rule(alloc, book, tree)?;
    if is_rule_name(book.rules(), &tree.name) {
        return Err(SortFault::DuplicateName);
    }
    book.push_rule(rule)?;
    Ok(())
}
