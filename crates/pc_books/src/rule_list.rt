//! The rules of a book.
ghost use Rattle.std.specs.Prelude.{◌≡◌, ◌<◌, ◌++◌, ◌∷◌, [], IfNone, IfSome, OnErr, OnOk, length, map, take};
ghost use Rattle.std.specs.List.{remove};
ghost use Rattle.pc_sheet.specs.Views.{rule_of};
ghost use Rattle.pc_books.specs.RuleNames.{IsNewName, IsRuleAt};

use crate::copies::copy_rules;
use pc_sheet::Rule;
use std::alloc::{AllocError, Global};
use std::marker::Model;

/// Rules in the order in which they were added. A clause sees them as a sheet has them.
#[derive(Drop)]
pub(crate) struct RuleList {
    list: Vec<Rule>,
}

impl Model for RuleList {
    ghost use Rattle.std.specs.Prelude.{List, map};
    ghost use Rattle.pc_sheet.specs.Sheet.{NamedStatement};
    ghost use Rattle.pc_sheet.specs.Views.{rule_of};
    ghost use Rattle.std.specs.Coded.{coded_list};
    ghost use Rattle.pc_sheet.specs.Codes.{coded_rule};

    ghost Value = { List NamedStatement };

    ghost coded = { coded_list coded_rule };

    ghost view = { λ r. map rule_of r.list.items };
}

impl Clone for RuleList {
    ghost is_clone = { λ rules copy. copy ≡ rules };

    fn clone(&self) -> Result<RuleList, AllocError> {
        let list = copy_rules(*self.list.allocator(), &self.list)?;
        Ok(RuleList { list })
    }
}

impl RuleList {
    /// No rules.
    pub(crate) fn new(alloc: Global) -> RuleList
        ensures { result ≡ [] }
    {
        RuleList {
            list: Vec::new(alloc),
        }
    }

    /// The rules, in their order.
    pub(crate) fn as_slice(&self) -> &[Rule]
        ensures { map rule_of result.now ≡ self.now }
    {
        self.list.as_slice()
    }

    /// Adds a rule as the last one.
    pub(crate) fn push(&mut self, rule: Rule) -> Result<(), AllocError>
        ensures ok { OnOk result (self.new ≡ self.old ++ (rule_of rule) ∷ []) }
        ensures err { OnErr result (self.new ≡ self.old) }
    {
        self.list.push(rule)?;
        Ok(())
    }

    /// How many rules there are.
    pub(crate) fn len(&self) -> usize
        ensures { result ≡ length self.now }
    {
        self.list.len()
    }

    /// Removes all rules but the first ones.
    pub(crate) fn truncate(&mut self, count: usize)
        ensures { self.new ≡ take count self.old }
    {
        self.list.truncate(count);
    }

    /// Removes the rule at that place.
    pub(crate) fn remove(&mut self, place: usize)
        requires { place < length self.old }
        ensures { self.new ≡ remove self.old place }
    {
        self.list.remove(place);
    }
}

/// The place of the rule of that name, if it stands.
pub fn place_of_rule(rules: &[Rule], name: &str) -> Option<usize>
    ensures found { IfSome result (IsRuleAt (map rule_of rules.now) name.now) }
    ensures none { IfNone result (IsNewName (map rule_of rules.now) name.now) }
{
    for (place, rule) in rules.iter().enumerate() {
        if rule.name.as_str() == name {
            return Some(place);
        }
    }
    None
}
