// The reader of commands.
ghost use Rattle.std.specs.Prelude.{◌≡◌, ◌↔◌, ◌≤◌, IsTrue, List, [], ℕ, length, codes, IfOk, MatchOption};
ghost use Rattle.pc_name.specs.Names.{most_name_bytes};
ghost use Rattle.pc_token.specs.Line.{IsOneName};
ghost use Rattle.pc_syntax.specs.Tree.{Asked, asked_of};
ghost use Rattle.pc_syntax.specs.Command.{command_keyword, FollowsCommand, IsCommand, IsDeepAsk, Asks, IsAlone, CommandReading, IsCommandReading, TakesNoMemory};
ghost use Rattle.pc_syntax.specs.inside.Keyword.{keyword_text};
ghost use Rattle.pc_syntax.specs.Told.{reading_of, IsCommandTold, TellsCommand, IsAskedTold, IsLone};
ghost use Rattle.pc_syntax.specs.Sized.{IsSizedReading, IsNestedReading};

use crate::clause::{is_word, last_formula, last_name, number, rule};
use crate::fault::LineFault;
use crate::read::{is_nothing, tokens_within};
use crate::tree::{Command, CommandFault};
use pc_formula::{
    Refusal, Words, read_cell, read_end, read_equation, read_last_value, read_question,
};
use pc_token::{Kind, is_one_name};
use std::alloc::Global;
use std::str;

/// The most tokens of a line that asks a formula at which the formula goes a level down: two fewer than of other lines, since
/// the rule that denies it has a sign and a parenthesis more.
const MOST_ASKED_NESTING: usize = 126;

/// The command of a line without its end, or `None` at a blank line or a comment.
///
/// The order of faults is `NotUtf8`, `TooDeep`, `Syntax`. A line that asks a formula goes too deep two tokens earlier. A blank line, a comment and a line whose one token is `show`,
/// `grid` or `dump` take no memory.
pub fn parse_command(alloc: Global, line: &[u8]) -> Result<Option<Command>, CommandFault>
    requires { length line.now ≤ 4096 }
    ensures told { IsCommandTold line.now result }
    ensures only { (r : CommandReading) → IsCommandReading line.now r → TellsCommand result r }
    ensures sized { IfOk result (λ c. IsSizedReading (reading_of c)) }
    ensures nested { IfOk result (λ c. IsNestedReading (reading_of c)) }
    ensures no_memory { TakesNoMemory line.now → result ≡ Err CommandFault.Memory → ⊥ }
{
    let Ok(text) = str::from_utf8(line) else {
        return Err(CommandFault::NotUtf8);
    };
    if is_nothing(text) {
        return Ok(None);
    }
    if let Some(command) = lone_command(text) {
        return Ok(Some(command));
    }
    match read_command(alloc, text) {
        Ok(command) => Ok(Some(command)),
        Err(fault) => Err(CommandFault::from(fault)),
    }
}

// The command that is one word and takes no memory, where the line is one.
fn lone_command(line: &str) -> Option<Command>
    ensures { MatchOption result (IsLone line.now →
        ⊥) (λ c. IsOneName line.now (command_keyword (asked_of c)) ×
        FollowsCommand (asked_of c) []) }
{
    if is_one_name(line, "show") {
        return Some(Command::Show);
    }
    if is_one_name(line, "grid") {
        return Some(Command::Grid);
    }
    if is_one_name(line, "dump") {
        return Some(Command::Dump);
    }
    None
}

// The command that the tokens of the text are.
fn read_command(alloc: Global, text: &str) -> Result<Command, LineFault>
    requires { length text.now ≤ most_name_bytes }
    ensures { IsAskedTold text.now result }
{
    let found = tokens_within(alloc, text)?;
    if is_deep_ask(&mut Words::new(text, found.as_slice())) {
        return Err(LineFault::TooDeep);
    }
    let mut words = Words::new(text, found.as_slice());
    let command = command(alloc, &mut words)?;
    Ok(command)
}

// Whether the words ask a formula and go too deep for that.
fn is_deep_ask(words: &mut Words<'_>) -> bool
    ensures { IsTrue result ↔ IsDeepAsk words.old }
{
    let Some(start) = words.take_name() else {
        return false;
    };
    if !is_word(start, "ask") {
        return false;
    }
    words.nesting() > MOST_ASKED_NESTING
}

// The command with these words.
fn command(alloc: Global, words: &mut Words<'_>) -> Result<Command, Refusal>
    ensures told { IfOk result (λ c. IsCommand words.old (asked_of c)) }
    ensures none { result ≡ Err Refusal.Syntax → (a : Asked) → IsCommand words.old a → ⊥ }
{
    let Some(start) = words.take_name() else {
        return Err(Refusal::Syntax);
    };
    command_of(alloc, start, words)
}

// A word that starts a command of several words.
enum Keyword {
    Enter,
    Also,
    Clear,
    Rule,
    Remove,
    Budget,
    Why,
    Prove,
    WhyNot,
    Ask,
}

// The word that the text is, where that starts a command of several words.
fn keyword_of(start: &str) -> Option<Keyword>
    ensures { MatchOption result ((a : Asked) → command_keyword a ≡ start.now →
        IsAlone a) (λ k. keyword_text k ≡ start.now) }
{
    if is_word(start, "enter") {
        return Some(Keyword::Enter);
    }
    if is_word(start, "also") {
        return Some(Keyword::Also);
    }
    if is_word(start, "clear") {
        return Some(Keyword::Clear);
    }
    if is_word(start, "rule") {
        return Some(Keyword::Rule);
    }
    if is_word(start, "drop") {
        return Some(Keyword::Remove);
    }
    if is_word(start, "budget") {
        return Some(Keyword::Budget);
    }
    if is_word(start, "why") {
        return Some(Keyword::Why);
    }
    if is_word(start, "prove") {
        return Some(Keyword::Prove);
    }
    if is_word(start, "whynot") {
        return Some(Keyword::WhyNot);
    }
    if is_word(start, "ask") {
        return Some(Keyword::Ask);
    }
    None
}

// The command that starts with this word.
fn command_of(alloc: Global, start: &str, words: &mut Words<'_>) -> Result<Command, Refusal>
    ensures told { IfOk result (λ c. Asks start.now (asked_of c) words.old) }
    ensures none { result ≡ Err Refusal.Syntax → (a : Asked) → Asks start.now a words.old → ⊥ }
{
    if let Some(command) = one_word(start) {
        read_end(words)?;
        return Ok(command);
    }
    match keyword_of(start) {
        None => Err(Refusal::Syntax),
        Some(keyword) => command_behind(alloc, keyword, words),
    }
}

// The command that starts with this word, from what stands behind it.
fn command_behind(
    alloc: Global,
    keyword: Keyword,
    words: &mut Words<'_>,
) -> Result<Command, Refusal>
    ensures told { IfOk result (λ c. Asks (keyword_text keyword) (asked_of c) words.old) }
    ensures none { result ≡ Err Refusal.Syntax → (a : Asked) →
        Asks (keyword_text keyword) a words.old → ⊥ }
{
    match keyword {
        Keyword::Enter => entering(alloc, words),
        Keyword::Also => entering_also(alloc, words),
        Keyword::Clear => clearing(alloc, words),
        Keyword::Rule => adding_rule(alloc, words),
        Keyword::Remove => dropping_rule(alloc, words),
        Keyword::Budget => setting_budget(words),
        Keyword::Why => asking_why(alloc, words),
        Keyword::Prove => proving(words),
        Keyword::WhyNot => asking_why_not(alloc, words),
        Keyword::Ask => asking(alloc, words),
    }
}

// Reads CELL = VALUE, and the end.
fn entering(alloc: Global, words: &mut Words<'_>) -> Result<Command, Refusal>
    ensures told { IfOk result (λ c. Asks (codes "enter") (asked_of c) words.old) }
    ensures none { result ≡ Err Refusal.Syntax → (a : Asked) → Asks (codes "enter") a words.old →
        ⊥ }
{
    let (cell, value) = read_equation(alloc, words)?;
    Ok(Command::Enter(cell, value))
}

// The same of a further entry.
fn entering_also(alloc: Global, words: &mut Words<'_>) -> Result<Command, Refusal>
    ensures told { IfOk result (λ c. Asks (codes "also") (asked_of c) words.old) }
    ensures none { result ≡ Err Refusal.Syntax → (a : Asked) → Asks (codes "also") a words.old → ⊥ }
{
    let (cell, value) = read_equation(alloc, words)?;
    Ok(Command::Also(cell, value))
}

// Reads CELL or CELL = VALUE, and the end.
fn clearing(alloc: Global, words: &mut Words<'_>) -> Result<Command, Refusal>
    ensures told { IfOk result (λ c. Asks (codes "clear") (asked_of c) words.old) }
    ensures none { result ≡ Err Refusal.Syntax → (a : Asked) → Asks (codes "clear") a words.old →
        ⊥ }
{
    let cell = read_cell(alloc, words)?;
    if words.is_empty() {
        return Ok(Command::Clear(cell));
    }
    if !words.take_sign(Kind::Equal) {
        return Err(Refusal::Syntax);
    }
    let value = read_last_value(alloc, words)?;
    Ok(Command::ClearOne(cell, value))
}

// Reads NAME : FORMULA, and the end.
fn adding_rule(alloc: Global, words: &mut Words<'_>) -> Result<Command, Refusal>
    ensures told { IfOk result (λ c. Asks (codes "rule") (asked_of c) words.old) }
    ensures none { result ≡ Err Refusal.Syntax → (a : Asked) → Asks (codes "rule") a words.old → ⊥ }
{
    let rule = rule(alloc, words)?;
    Ok(Command::AddRule(rule))
}

// Reads NAME, and the end.
fn dropping_rule(alloc: Global, words: &mut Words<'_>) -> Result<Command, Refusal>
    ensures told { IfOk result (λ c. Asks (codes "drop") (asked_of c) words.old) }
    ensures none { result ≡ Err Refusal.Syntax → (a : Asked) → Asks (codes "drop") a words.old → ⊥ }
{
    let name = last_name(alloc, words)?;
    Ok(Command::DropRule(name))
}

// Reads NUMBER, and the end.
fn setting_budget(words: &mut Words<'_>) -> Result<Command, Refusal>
    ensures told { IfOk result (λ c. Asks (codes "budget") (asked_of c) words.old) }
    ensures none { result ≡ Err Refusal.Syntax → (a : Asked) → Asks (codes "budget") a words.old →
        ⊥ }
{
    let budget = number(words)?;
    Ok(Command::Budget(budget))
}

// Reads CELL = VALUE or CELL != VALUE, and the end.
fn asking_why(alloc: Global, words: &mut Words<'_>) -> Result<Command, Refusal>
    ensures told { IfOk result (λ c. Asks (codes "why") (asked_of c) words.old) }
    ensures none { result ≡ Err Refusal.Syntax → (a : Asked) → Asks (codes "why") a words.old → ⊥ }
{
    let (cell, value, holds) = read_question(alloc, words)?;
    Ok(Command::Why { cell, value, holds })
}

// Reads the word `repairs`, and the end.
fn proving(words: &mut Words<'_>) -> Result<Command, Refusal>
    ensures told { IfOk result (λ c. Asks (codes "prove") (asked_of c) words.old) }
    ensures none { result ≡ Err Refusal.Syntax → (a : Asked) → Asks (codes "prove") a words.old →
        ⊥ }
    ensures no_memory { result ≡ Err Refusal.Memory → ⊥ }
{
    let Some(word) = words.take_name() else {
        return Err(Refusal::Syntax);
    };
    if !is_word(word, "repairs") {
        return Err(Refusal::Syntax);
    }
    read_end(words)?;
    Ok(Command::ProveRepairs)
}

// Reads CELL = VALUE, and the end.
fn asking_why_not(alloc: Global, words: &mut Words<'_>) -> Result<Command, Refusal>
    ensures told { IfOk result (λ c. Asks (codes "whynot") (asked_of c) words.old) }
    ensures none { result ≡ Err Refusal.Syntax → (a : Asked) → Asks (codes "whynot") a words.old →
        ⊥ }
{
    let (cell, value) = read_equation(alloc, words)?;
    Ok(Command::WhyNot(cell, value))
}

// Reads FORMULA, and the end.
fn asking(alloc: Global, words: &mut Words<'_>) -> Result<Command, Refusal>
    ensures told { IfOk result (λ c. Asks (codes "ask") (asked_of c) words.old) }
    ensures none { result ≡ Err Refusal.Syntax → (a : Asked) → Asks (codes "ask") a words.old → ⊥ }
{
    let formula = last_formula(alloc, words)?;
    Ok(Command::Ask(formula))
}

// The command that is this one word.
fn one_word(start: &str) -> Option<Command>
    ensures { MatchOption result ((a : Asked) → IsAlone a → command_keyword a ≡ start.now →
        ⊥) (λ c. IsAlone (asked_of c) × (command_keyword (asked_of c) ≡ start.now)) }
{
    if is_word(start, "show") {
        return Some(Command::Show);
    }
    if is_word(start, "grid") {
        return Some(Command::Grid);
    }
    if is_word(start, "json") {
        return Some(Command::Json);
    }
    if is_word(start, "dump") {
        return Some(Command::Dump);
    }
    if is_word(start, "repairs") {
        return Some(Command::Repairs);
    }
    None
}
