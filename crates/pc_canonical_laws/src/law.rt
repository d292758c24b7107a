// Laws over the definitions, each the contract of a function that does nothing.
ghost use Rattle.pc_canonical_laws.specs.Declared.{DeclarationsGiveTheSheet, EntriesAreDeclared, RulesAreDeclared, StatementsStandForThemselves, TextsReadBack, UniverseIsDeclared};
ghost use Rattle.pc_canonical_laws.specs.ReadBack.{RuleLinesReadBack, SheetsReadBack, StatementsReadBack};

/// The canonical text of each well-sorted statement splits into words that are its tree, and nothing else of the text is
/// left.
pub fn statements_read_back()
    ensures { StatementsReadBack }
{}

/// The line of each well-formed rule is read as that rule's declaration.
pub fn rule_lines_read_back()
    ensures { RuleLinesReadBack }
{}

/// The canonical text of each well-formed sheet is read, line by line, as the declarations that it writes.
pub fn sheets_read_back()
    ensures { SheetsReadBack }
{}

/// The tree that a well-sorted statement is written as stands for that statement.
pub fn statements_stand_for_themselves()
    ensures { StatementsStandForThemselves }
{}

/// The declarations of the sorts, tables, rows and families of a well-formed universe, one after another, give it.
pub fn universe_is_declared()
    ensures { UniverseIsDeclared }
{}

/// The declarations of a book's rules, behind those of its universe, give its rules in their order.
pub fn rules_are_declared()
    ensures { RulesAreDeclared }
{}

/// The declarations of a book's entries, the oldest first, behind those of its rules, give the book.
pub fn entries_are_declared()
    ensures { EntriesAreDeclared }
{}

/// The canonical declarations of a book, one after another, give that book, whatever the numbers of their lines.
pub fn declarations_give_the_sheet()
    ensures { DeclarationsGiveTheSheet }
{}

/// The canonical text of a book reads as that book: its lines are a sheet, whose declarations give the book.
pub fn texts_read_back()
    ensures { TextsReadBack }
{
    sheets_read_back();
}
