//! Rules that books share.
//!
//! A book's rules are the first ones of a list that it shares with its copies. What lies behind them in the list is no rule of
//! this book: so a book with one rule more shares the list of the one that it was made from.
ghost use Rattle.std.specs.Prelude.{◌≡◌, ◌<◌, ◌++◌, ◌∷◌, [], IfOk, OnErr, OnOk, length, map};
ghost use Rattle.std.specs.List.{remove};
ghost use Rattle.pc_sheet.specs.Views.{rule_of};

use crate::rule_list::RuleList;
use pc_sheet::Rule;
use std::alloc::{AllocError, Global};
use std::marker::Model;
use std::rc::Rc;

/// The first ones of a list of rules, in the order in which they were added.
#[derive(Drop)]
pub(crate) struct SharedRules {
    list: Rc<RuleList>,
    count: usize,
}

impl Model for SharedRules {
    ghost use Rattle.std.specs.Prelude.{List, length, take, ◌≤◌};
    ghost use Rattle.std.specs.Rc.{rc_value};
    ghost use Rattle.pc_sheet.specs.Sheet.{NamedStatement};
    ghost use Rattle.std.specs.Coded.{coded_list};
    ghost use Rattle.pc_sheet.specs.Codes.{coded_rule};

    ghost Value = { List NamedStatement };

    ghost coded = { coded_list coded_rule };

    ghost view = { λ r. take r.count (rc_value r.list) };

    ghost invariant = { λ r. r.count ≤ length (rc_value r.list) };
}

impl SharedRules {
    /// No rules.
    pub(crate) fn new(alloc: Global) -> Result<SharedRules, AllocError>
        ensures { IfOk result (λ rules. rules ≡ []) }
    {
        Ok(SharedRules {
            list: Rc::new(alloc, RuleList::new(alloc))?,
            count: 0,
        })
    }

    /// The rules, in their order.
    pub(crate) fn as_slice(&self) -> &[Rule]
        ensures { map rule_of result.now ≡ self.now }
    {
        &self.list.as_slice()[..self.count]
    }

    /// The same rules, in the same list.
    pub(crate) fn share(&self) -> Result<SharedRules, AllocError>
        ensures { IfOk result (λ rules. rules ≡ self.now) }
    {
        Ok(SharedRules {
            list: self.list.clone()?,
            count: self.count,
        })
    }

    /// Adds a rule as the last one.
    pub(crate) fn push(&mut self, rule: Rule) -> Result<(), AllocError>
        ensures ok { OnOk result (self.new ≡ self.old ++ (rule_of rule) ∷ []) }
        ensures err { OnErr result (self.new ≡ self.old) }
    {
        let list = Rc::make_mut(&mut self.list)?;
        list.truncate(self.count);
        list.push(rule)?;
        self.count = list.len();
        Ok(())
    }

    /// The rules with one more, as the last one, in the same list.
    pub(crate) fn with(&mut self, rule: Rule) -> Result<SharedRules, AllocError>
        ensures same { self.new ≡ self.old }
        ensures rules { IfOk result (λ rules. rules ≡ self.old ++ (rule_of rule) ∷ []) }
    {
        let list = Rc::make_mut(&mut self.list)?;
        list.truncate(self.count);
        list.push(rule)?;
        let count = list.len();
        Ok(SharedRules {
            list: self.list.clone()?,
            count,
        })
    }

    /// Removes the rule at that place.
    pub(crate) fn remove(&mut self, place: usize) -> Result<(), AllocError>
        requires { place < length self.old }
        ensures ok { OnOk result (self.new ≡ remove self.old place) }
        ensures err { OnErr result (self.new ≡ self.old) }
    {
        let list = Rc::make_mut(&mut self.list)?;
        list.truncate(self.count);
        list.remove(place);
        self.count = list.len();
        Ok(())
    }
}
