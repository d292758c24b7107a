//! Names of a declaration: which are new, and which are the same.
ghost use Rattle.std.specs.Prelude.{◌≡◌, ◌↔◌, All, Contains, IsTrue, map};
ghost use Rattle.pc_name.specs.Names.{IsName};
ghost use Rattle.pc_sheet.specs.Views.{rule_of};
ghost use Rattle.pc_sheet.specs.WellFormed.{AreDifferent, IsWellFormed, rule_name};
ghost use Rattle.pc_sortcheck.specs.DeclarationFaults.{AreNewValues, IsNew};

use pc_books::{Book, Name, Rule};

/// Every book is well formed.
pub(crate) fn keeps_form(book: &Book)
    ensures { IsWellFormed book.now }
{
    book.entries();
}

/// Whether nothing has the name yet.
pub(crate) fn is_new(book: &Book, name: &Name) -> bool
    ensures { IsTrue result ↔ IsNew book.now.universe name.now }
{
    book.look_up(name.as_str()).is_none()
}

/// Whether none of the names is declared.
fn are_new(book: &Book, names: &[Name]) -> bool
    ensures { IsTrue result ↔ All (IsNew book.now.universe) names.now }
{
    for name in names {
        if !is_new(book, name) {
            return false;
        }
    }
    true
}

/// A name's text is one of a name.
pub(crate) fn is_name(name: &Name)
    ensures { IsName name.now }
{
    name.as_str();
}

/// The same of each of these.
pub(crate) fn are_names(names: &[Name])
    ensures { All IsName names.now }
{
    for name in names {
        name.as_str();
    }
}

fn is_among(names: &[Name], name: &Name) -> bool
    ensures { IsTrue result ↔ Contains names.now name.now }
{
    for other in names {
        if other.as_str() == name.as_str() {
            return true;
        }
    }
    false
}

fn are_different(names: &[Name]) -> bool
    ensures { IsTrue result ↔ AreDifferent names.now }
{
    for (i, name) in names.iter().enumerate() {
        if is_among(&names[..i], name) {
            return false;
        }
    }
    true
}

/// Whether the values' names are new, none of them that of their sort, and no two the same.
pub(crate) fn are_new_values(book: &Book, name: &Name, values: &[Name]) -> bool
    ensures { IsTrue result ↔ AreNewValues book.now.universe name.now values.now }
{
    if !are_new(book, values) {
        return false;
    }
    if is_among(values, name) {
        return false;
    }
    are_different(values)
}

/// Whether one of the rules has the name.
pub(crate) fn is_rule_name(rules: &[Rule], name: &Name) -> bool
    ensures { IsTrue result ↔ Contains (map rule_name (map rule_of rules.now)) name.now }
{
    for rule in rules {
        if rule.name.as_str() == name.as_str() {
            return true;
        }
    }
    false
}
